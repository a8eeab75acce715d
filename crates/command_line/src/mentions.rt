//! What was said of an option, and the other words. Each call reads all words anew, and takes no memory.
ghost use Rattle.std.specs.Prelude.{◌≡◌, is_some};
ghost use Rattle.command_line.specs.Mentions.{fault_of, last_of, is_given, other_of};
ghost use Rattle.command_line.specs.Seen.{places_of, said_of};
ghost use Rattle.command_line.specs.Steps.{left};

use crate::options::{Opt, is_same};
use crate::reader::Reader;
use crate::reading::{Said, Step};
use crate::usage::UsageFault;

/// A word, and the value or the text there.
#[derive(Clone, Copy)]
pub(crate) struct Mention<'a> {
    pub(crate) word: usize,
    pub(crate) value: &'a str,
}

/// The first word that can't be read.
pub(crate) fn reading_fault(reader: Reader<'_>) -> Option<UsageFault>
    ensures { result ≡ fault_of (left reader.entry) }
{
    let mut reader = reader;
    'words: loop {
        match reader.step() {
            Step::Ends => return None,
            Step::Fails(fault) => return Some(fault),
            Step::Says(_, next) => reader = next,
        }
    }
}

/// The last mention of an option.
#[tactic(auto, unfolding(crate::specs::Mentions::last_of))]
pub(crate) fn last<'a>(reader: Reader<'a>, option: Opt) -> Option<Mention<'a>>
    ensures { places_of result ≡ last_of option (left reader.entry) }
{
    let mut reader = reader;
    let mut last = None;
    'words: while let Step::Says(said, next) = reader.step() {
        last = mention_of(said, option, last);
        reader = next;
    }
    last
}

/// The mention of an option, or the one before.
fn mention_of<'a>(said: Said<'a>, option: Opt, before: Option<Mention<'a>>) -> Option<Mention<'a>>
    ensures { places_of result ≡ said_of option (places_of before.entry) said.entry }
{
    match said {
        Said::Given {
            word,
            option: given,
            value,
        } if is_same(given, option) => Some(Mention { word, value }),
        _ => before,
    }
}

/// Whether an option is given.
pub(crate) fn is_given(reader: Reader<'_>, option: Opt) -> bool
    ensures { result ≡ is_given option (left reader.entry) }
{
    last(reader, option).is_some()
}

/// Another word by its number among these, from 0.
#[tactic(auto, unfolding(crate::specs::Mentions::other_of))]
pub(crate) fn other<'a>(reader: Reader<'a>, number: usize) -> Option<Mention<'a>>
    ensures { places_of result ≡ other_of number (left reader.entry) }
{
    let mut reader = reader;
    let mut left = number;
    'words: while let Step::Says(said, next) = reader.step() {
        if let Said::Other { word, text } = said {
            if left == 0 {
                return Some(Mention { word, value: text });
            }
            left -= 1;
        }
        reader = next;
    }
    None
}
