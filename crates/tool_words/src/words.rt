//! What the words of a command line ask for.
ghost use Rattle.std.specs.Prelude.{◌≡◌, ℕ, List, Option, Some, None, Result, Ok, Err, MatchResult};
ghost use Rattle.tool_words.specs.Answers.{Gives, CountsRead};
ghost use Rattle.tool_words.specs.Words.{folder_named, script_from, psql_asked, archive_of, has_workers, restoring_of, restore_asked, unlisted_asked, archive_asked, format_of, printed_or, dump_asked, asked_of, built, words_asked, told_by, teller_of};
ghost use Rattle.tool_words.specs.Messages.{teller_name};

use crate::outcome::Outcome;
use cat_model::What;
use command_line::{
    Choice, Command, CompareWords, DumpWords, Folder, Format, PsqlWords, ReadWordsError,
    RestoreWords, Tool, UsageFault, read_words, usage_fault,
};
use copy_text::Text;
use std::alloc::Global;

/// Where a script is read.
#[derive(Drop)]
pub enum ScriptSource {
    /// The file of this name.
    File(Text),
    /// Standard input.
    Input,
}

/// A dump that is asked for.
#[derive(Drop)]
pub struct DumpAsked {
    /// The folder.
    pub folder: Text,
    /// What of it is dumped.
    pub choice: Choice,
    /// In which format.
    pub format: Format,
    /// Where it is written: the file or the directory of this name, or standard output.
    pub target: Option<Text>,
}

/// What is asked for of an archive that isn't restored into a folder.
#[derive(Drop)]
pub struct ArchiveAsked {
    /// The archive; standard input where it is absent.
    pub archive: Option<Text>,
    /// Where the list or the script is written: the file of this name, or standard output.
    pub target: Option<Text>,
    /// What the words say further: whether the list is asked for, the archive's format, the list file, and which entries are
    /// taken.
    pub words: RestoreWords,
}

/// What is asked for of an archive that is restored into a folder, with one worker.
#[derive(Drop)]
pub struct RestoreAsked {
    /// The folder.
    pub folder: Text,
    /// The archive; standard input where it is absent.
    pub archive: Option<Text>,
    /// What the words say further: the archive's format, the list file, which entries are taken, whether owners are set, and
    /// what comes behind a refusal.
    pub words: RestoreWords,
}

/// What the words ask for, where that is built.
#[derive(Drop)]
pub enum Asked {
    /// psql applies a script to a folder.
    Psql {
        /// The folder.
        folder: Text,
        /// Where the script is read.
        script: ScriptSource,
        /// Whether it ends at the first statement that is refused.
        stop: bool,
    },
    /// pg_dump dumps a folder.
    Dump(DumpAsked),
    /// pg_restore writes the list or the script of an archive.
    Archive(ArchiveAsked),
    /// pg_restore restores an archive into a folder.
    Restore(RestoreAsked),
    /// pg_catcmp compares two folders.
    Compare {
        /// The first folder.
        first: Text,
        /// The second folder.
        second: Text,
    },
}

/// Who tells a refusal.
#[derive(Clone, Copy)]
pub enum Teller {
    /// The program, where its words have no reading.
    Program,
    /// The tool that the first word names.
    Tool(Tool),
}

impl Teller {
    /// How the teller is called.
    pub fn name(self) -> &'static str
        ensures { result.now ≡ teller_name self }
    {
        match self {
            Teller::Program => "pgtools",
            Teller::Tool(tool) => tool.name(),
        }
    }
}

/// The tool that the first word names, or the program where the words have no reading.
#[tactic(auto, unfolding(crate::specs::Words::teller_of))]
pub fn teller_of(words: &[Text]) -> Teller
    ensures { result ≡ teller_of words.now }
{
    match words {
        [] => Teller::Program,
        [name, ..] => told_by(usage_fault(words), Tool::named(name.as_str())),
    }
}

fn told_by(fault: Option<UsageFault>, tool: Option<Tool>) -> Teller
    ensures { result ≡ told_by fault tool }
{
    match (fault, tool) {
        (None, Some(tool)) => Teller::Tool(tool),
        _ => Teller::Program,
    }
}

/// Reads what the words ask for. The first word that fails is told; then a command of which something isn't built is
/// `OutOfProfile(Unbuilt)`. `Memory` comes only where the words read.
#[tactic(auto, unfolding(crate::specs::Words::words_asked))]
pub fn read_asked(alloc: Global, words: &[Text]) -> Result<Asked, Outcome>
    ensures due { Gives (λ asked. asked) result (words_asked words.now) }
    ensures count { (n : ℕ) → CountsRead result n n }
{
    match read_words(alloc, words) {
        Ok(command) => built(asked_of(command)),
        Err(ReadWordsError::Usage(UsageFault { word, kind })) => Err(Outcome::Usage { word, kind }),
        Err(ReadWordsError::Memory) => Err(Outcome::Memory),
    }
}

fn built(asked: Option<Asked>) -> Result<Asked, Outcome>
    ensures exact { result ≡ built asked }
    ensures count { (n : ℕ) → CountsRead result n n }
{
    match asked {
        Some(asked) => Ok(asked),
        None => Err(Outcome::OutOfProfile(What::Unbuilt)),
    }
}

/// What a command asks for, where that is built.
fn asked_of(command: Command) -> Option<Asked>
    ensures { result ≡ asked_of command }
{
    match command {
        Command::Psql(words) => psql_asked(words),
        Command::PgDump(words) => dump_asked(words),
        Command::PgRestore(words) => archive_asked(words),
        Command::PgCatcmp(CompareWords { first, second }) => Some(Asked::Compare { first, second }),
        _ => None,
    }
}

fn psql_asked(words: PsqlWords) -> Option<Asked>
    ensures { result ≡ psql_asked words }
{
    let PsqlWords {
        folder,
        file,
        on_error_stop,
    } = words;
    Some(Asked::Psql {
        folder: folder_named(folder),
        script: script_from(file),
        stop: on_error_stop,
    })
}

/// Standard input where no file is named, or `-`.
fn script_from(file: Option<Text>) -> ScriptSource
    ensures { result ≡ script_from file }
{
    match file {
        Some(name) if name.as_str() != "-" => ScriptSource::File(name),
        _ => ScriptSource::Input,
    }
}

/// The folder, in whichever way it was named.
fn folder_named(folder: Folder) -> Text
    ensures { result ≡ folder_named folder }
{
    match folder {
        Folder::Dbname(name) | Folder::Word(name) => name,
    }
}

fn dump_asked(words: DumpWords) -> Option<Asked>
    ensures { result ≡ dump_asked words }
{
    let DumpWords {
        folder,
        file,
        format,
        choice,
        ..
    } = words;
    Some(Asked::Dump(DumpAsked {
        folder: folder_named(folder),
        choice,
        format: format_of(format),
        target: printed_or(file),
    }))
}

/// pg_restore writes a list where that is asked for, and a script where no folder is named; else it restores into that.
fn archive_asked(words: RestoreWords) -> Option<Asked>
    ensures { result ≡ archive_asked words }
{
    if words.list {
        Some(Asked::Archive(archive_of(words)))
    } else {
        unlisted_asked(words)
    }
}

fn unlisted_asked(mut words: RestoreWords) -> Option<Asked>
    ensures { result ≡ unlisted_asked words.dbname words }
{
    match words.dbname.take() {
        Some(folder) => restore_asked(folder, words),
        None => Some(Asked::Archive(archive_of(words))),
    }
}

/// A restore with one worker.
fn restore_asked(folder: Text, words: RestoreWords) -> Option<Asked>
    ensures { result ≡ restore_asked folder words }
{
    if has_workers(words.jobs) {
        drop(folder);
        drop(words);
        None
    } else {
        Some(Asked::Restore(restoring_of(folder, words)))
    }
}

/// Whether more than one worker is asked for.
fn has_workers(jobs: Option<u16>) -> bool
    ensures { result ≡ has_workers jobs }
{
    match jobs {
        Some(jobs) => jobs > 1,
        None => false,
    }
}

fn restoring_of(folder: Text, mut words: RestoreWords) -> RestoreAsked
    ensures { result ≡ restoring_of folder words }
{
    words.dbname = None;
    let archive = printed_or(words.archive.take());
    RestoreAsked {
        folder,
        archive,
        words,
    }
}

fn archive_of(mut words: RestoreWords) -> ArchiveAsked
    ensures { result ≡ archive_of words }
{
    let archive = printed_or(words.archive.take());
    let target = printed_or(words.file.take());
    ArchiveAsked {
        archive,
        target,
        words,
    }
}

/// Standard output where no file is named, or `-`.
fn printed_or(file: Option<Text>) -> Option<Text>
    ensures { result ≡ printed_or file }
{
    match file {
        Some(name) if name.as_str() != "-" => Some(name),
        _ => None,
    }
}

/// A script, where no format is named.
fn format_of(format: Option<Format>) -> Format
    ensures { result ≡ format_of format }
{
    match format {
        Some(format) => format,
        None => Format::Plain,
    }
}
