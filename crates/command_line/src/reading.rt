//! Words, read one after another.
ghost use Rattle.std.specs.Prelude.{◌≡◌, ◌+◌, ◌<◌, [], length, drop, slice_index, MatchOption};
ghost use Rattle.command_line.specs.Reading.{State, Plain, Wants, Ended, Fails, word_of, value_read, letters_read, long_read, words_read};
ghost use Rattle.command_line.specs.Steps.{left, left_words, seen};
ghost use Rattle.command_line.specs.Words.{word_seen, IsNamed, IsNext};

use crate::options::{Opt, Takes, Tool, ValueKind};
use crate::reader::Reader;
use crate::usage::{UsageFault, UsageKind};
use crate::values::value_fault;
use copy_text::Text;

/// What a word says.
#[derive(Clone, Copy)]
pub(crate) enum Said<'a> {
    /// An option, at this word, with its value; the empty one where it takes none.
    Given {
        word: usize,
        option: Opt,
        value: &'a str,
    },
    /// Another word.
    Other {
        word: usize,
        text: &'a str,
    },
}

/// One step of reading.
#[derive(Clone, Copy)]
pub(crate) enum Step<'a> {
    /// The words have ended.
    Ends,
    /// A word can't be read.
    Fails(UsageFault),
    /// This was said, and this is left.
    Says(Said<'a>, Reader<'a>),
}

/// A word where an option may stand.
enum Word<'a> {
    Ends,
    Long(&'a str),
    Short(&'a str),
    Bare,
}

/// A long name, and the value behind its `=`.
struct Named<'a> {
    name: &'a str,
    value: Option<&'a str>,
}

impl<'a> Reader<'a> {
    /// The reader of the words behind the tool's.
    #[tactic(auto, unfolding(crate::specs::Steps::left, crate::specs::Steps::left_words))]
    pub(crate) fn new(tool: Tool, words: &'a [Text]) -> Reader<'a>
        requires { 0 < length words.now }
        ensures { left result ≡ words_read tool Plain 1 (drop 1 words.now) }
    {
        Reader {
            tool,
            words,
            at: 1,
            word: 0,
            letters: "",
            ended: false,
        }
    }

    /// The next step.
    #[tactic(auto, unfolding(crate::specs::Steps::left))]
    pub(crate) fn step(self) -> Step<'a>
        ensures { seen result ≡ left self.entry }
    {
        if self.ended {
            self.other()
        } else if self.letters.is_empty() {
            self.next_word()
        } else {
            self.letter()
        }
    }

    /// The same behind its letters, at the next word.
    #[tactic(auto, unfolding(crate::specs::Steps::left, crate::specs::Steps::left_words))]
    fn plain(self) -> Reader<'a>
        ensures { left result ≡ left_words self.entry Plain }
    {
        Reader {
            tool: self.tool,
            words: self.words,
            at: self.at,
            word: self.word,
            letters: "",
            ended: false,
        }
    }

    /// The next word.
    fn next_text(self) -> Option<&'a str>
        ensures { MatchOption result (drop self.entry.at self.entry.words.now ≡ []) (λ text. IsNext self.entry text.now) }
    {
        if self.at == self.words.len() {
            return None;
        }
        Some(self.words[self.at].as_str())
    }

    /// A word behind `--`.
    #[tactic(auto, unfolding(crate::specs::Steps::left, crate::specs::Steps::left_words, crate::specs::Reading::words_read))]
    fn other(self) -> Step<'a>
        ensures { seen result ≡ left_words self.entry Ended }
    {
        let Some(text) = self.next_text() else {
            return Step::Ends;
        };
        let behind = Reader {
            tool: self.tool,
            words: self.words,
            at: self.at + 1,
            word: self.at,
            letters: "",
            ended: true,
        };
        Step::Says(
            Said::Other {
                word: self.at,
                text,
            },
            behind,
        )
    }

    /// An option's value, which is the next word.
    #[tactic(auto, unfolding(crate::specs::Steps::left, crate::specs::Steps::left_words, crate::specs::Reading::words_read))]
    fn wanted(self, word: usize, option: Opt, kind: ValueKind) -> Step<'a>
        ensures { seen result ≡ left_words self.entry (Wants word option kind) }
    {
        let Some(text) = self.next_text() else {
            return fails(self.at, UsageKind::MissingValue);
        };
        let behind = Reader {
            tool: self.tool,
            words: self.words,
            at: self.at + 1,
            word: self.at,
            letters: "",
            ended: false,
        };
        taken(word, self.at, option, kind, text, behind)
    }

    /// A word where an option may stand.
    #[tactic(auto, unfolding(crate::specs::Steps::left, crate::specs::Steps::left_words, crate::specs::Reading::words_read))]
    fn next_word(self) -> Step<'a>
        ensures { seen result ≡ left_words self.entry Plain }
    {
        let Some(text) = self.next_text() else {
            return Step::Ends;
        };
        let behind = Reader {
            tool: self.tool,
            words: self.words,
            at: self.at + 1,
            word: self.at,
            letters: "",
            ended: false,
        };
        match word_of(text) {
            Word::Ends => behind.other(),
            Word::Long(name) => behind.long(name),
            Word::Short(letters) => Reader {
                tool: self.tool,
                words: self.words,
                at: self.at + 1,
                word: self.at,
                letters,
                ended: false,
            }
            .letter(),
            Word::Bare => Step::Says(
                Said::Other {
                    word: self.at,
                    text,
                },
                behind,
            ),
        }
    }

    /// The first of a word's letters.
    #[tactic(auto, unfolding(crate::specs::Steps::left, crate::specs::Steps::left_words))]
    fn letter(self) -> Step<'a>
        requires { 0 < length self.letters.now }
        ensures { seen result ≡ letters_read self.entry.tool self.entry.word self.entry.letters.now (left_words self.entry) }
    {
        let Some(option) = self.tool.option_of_letter(self.letters.as_bytes()[0]) else {
            return fails(self.word, UsageKind::UnknownOption);
        };
        let rest = behind_ascii(self.letters);
        match self.tool.takes(option) {
            Takes::Lacking => fails(self.word, UsageKind::UnknownOption),
            Takes::LeftOut => fails(self.word, UsageKind::OutOfProfile),
            Takes::Flag => Step::Says(
                Said::Given {
                    word: self.word,
                    option,
                    value: "",
                },
                Reader {
                    tool: self.tool,
                    words: self.words,
                    at: self.at,
                    word: self.word,
                    letters: rest,
                    ended: false,
                },
            ),
            Takes::Value(kind) if rest.is_empty() => self.wanted(self.word, option, kind),
            Takes::Value(kind) => taken(self.word, self.word, option, kind, rest, self.plain()),
        }
    }

    /// A long name, in the word before.
    fn long(self, text: &'a str) -> Step<'a>
        ensures { seen result ≡ long_read self.entry.tool self.entry.word text.now (left_words self.entry) }
    {
        let Named { name, value } = split_name(text);
        let Some(option) = self.tool.option_of_name(name) else {
            return fails(self.word, UsageKind::UnknownOption);
        };
        match (self.tool.takes(option), value) {
            (Takes::Lacking, _) => fails(self.word, UsageKind::UnknownOption),
            (Takes::LeftOut, _) => fails(self.word, UsageKind::OutOfProfile),
            (Takes::Flag, Some(_)) => fails(self.word, UsageKind::BadValue),
            (Takes::Flag, None) => Step::Says(
                Said::Given {
                    word: self.word,
                    option,
                    value: "",
                },
                self.plain(),
            ),
            (Takes::Value(kind), Some(value)) => {
                taken(self.word, self.word, option, kind, value, self.plain())
            }
            (Takes::Value(kind), None) => self.wanted(self.word, option, kind),
        }
    }
}

/// A word that can't be read.
fn fails<'a>(word: usize, kind: UsageKind) -> Step<'a>
    ensures { seen result ≡ Fails word kind }
{
    Step::Fails(UsageFault { word, kind })
}

/// An option at the word `word` with its value in the word `at`, where it takes it.
fn taken<'a>(
    word: usize,
    at: usize,
    option: Opt,
    kind: ValueKind,
    value: &'a str,
    behind: Reader<'a>,
) -> Step<'a>
    ensures { seen result ≡ value_read word at option kind value.now (left behind.entry) }
{
    match value_fault(kind, value) {
        Some(fault) => fails(at, fault),
        None => Step::Says(
            Said::Given {
                word,
                option,
                value,
            },
            behind,
        ),
    }
}

/// What a word is where an option may stand.
fn word_of(text: &str) -> Word<'_>
    ensures { word_seen result ≡ word_of text.now }
{
    match text.as_bytes() {
        b"--" => Word::Ends,
        [b'-', b'-', ..] => Word::Long(behind_ascii(behind_ascii(text))),
        [b'-', _, ..] => Word::Short(behind_ascii(text)),
        _ => Word::Bare,
    }
}

/// A text without its first byte, which is of ASCII.
fn behind_ascii(text: &str) -> &str
    requires some { 0 < length text.now }
    requires ascii { slice_index text.now 0 < 128 }
    ensures { result.now ≡ drop 1 text.now }
{
    &text[1..]
}

/// A long name, up to a `=`, and the value behind it.
fn split_name(text: &str) -> Named<'_>
    ensures { IsNamed text.now result }
{
    match text.split_once('=') {
        Some((name, value)) => Named {
            name,
            value: Some(value),
        },
        None => Named {
            name: text,
            value: None,
        },
    }
}
