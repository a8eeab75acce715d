//! The words of a clone with one worker.
ghost use Rattle.std.specs.Prelude.{◌≡◌, IfOk};
ghost use Rattle.clone_words.specs.Words.{format_or_script, has_workers, asked_of, of_command, of_reading, clone_in};

use command_line::{Choice, CloneWords, Command, Format, ReadWordsError, UsageFault, read_words};
use copy_text::Text;
use std::alloc::{AllocError, Global};

/// A clone that is asked for: a folder is dumped, and what was written is restored into another folder, by one worker.
#[derive(Drop)]
pub struct CloneAsked {
    /// The folder that is dumped.
    pub source: Text,
    /// What of it is dumped.
    pub choice: Choice,
    /// In which format: a script, or an archive.
    pub format: Format,
    /// Where the script or the archive is written, and read again: the file or the directory of this name.
    pub archive: Text,
    /// The folder that is restored into.
    pub target: Text,
}

// A script, where no format is named.
fn format_or_script(format: Option<Format>) -> Format
    ensures { result ≡ format_or_script format }
{
    match format {
        Some(format) => format,
        None => Format::Plain,
    }
}

// Whether more than one worker is asked for.
fn has_workers(jobs: Option<u16>) -> bool
    ensures { result ≡ has_workers jobs }
{
    match jobs {
        Some(jobs) => jobs > 1,
        None => false,
    }
}

// What the words of a clone ask for.
fn asked_of(words: CloneWords) -> CloneAsked
    ensures { result ≡ asked_of words }
{
    let CloneWords {
        format,
        file,
        choice,
        source,
        target,
        ..
    } = words;
    CloneAsked {
        source,
        choice,
        format: format_or_script(format),
        archive: file,
        target,
    }
}

// The clone that a command is, where it has one worker.
fn of_command(command: Command) -> Option<CloneAsked>
    ensures { result ≡ of_command command }
{
    match command {
        Command::PgClone(words) if !has_workers(words.jobs) => Some(asked_of(words)),
        _ => None,
    }
}

/// The clone that these words ask for. It is absent where they ask for anything else, or for more than one worker, or have no
/// reading. The only error is want of memory. <https://www.postgresql.org/docs/16/app-pgdump.html>
#[tactic(auto, unfolding(crate::specs::Words::clone_in))]
pub fn clone_asked(alloc: Global, words: &[Text]) -> Result<Option<CloneAsked>, AllocError>
    ensures { IfOk result (λ asked. asked ≡ clone_in words.now) }
{
    match read_words(alloc, words) {
        Ok(command) => Ok(of_command(command)),
        Err(ReadWordsError::Usage(UsageFault { .. })) => Ok(None),
        Err(ReadWordsError::Memory) => Err(AllocError),
    }
}
