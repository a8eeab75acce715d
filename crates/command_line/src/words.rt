//! The words of a command line as a whole.
ghost use Rattle.std.specs.Prelude.{◌≡◌, ◌<◌, length, OnOk};
ghost use Rattle.command_line.specs.Steps.{left};
ghost use Rattle.command_line.specs.Usage.{tool_in, said_by, usage_of, fault_with, or_command, command_from, Gives};

use crate::building::command;
use crate::checks::words_fault;
use crate::command::Command;
use crate::options::Tool;
use crate::reader::Reader;
use crate::usage::{ReadWordsError, UsageFault, UsageKind};
use copy_text::Text;
use std::alloc::Global;

/// The tool that the first word names.
fn tool_in(words: &[Text]) -> Result<Tool, UsageFault>
    ensures value { result ≡ tool_in words.now }
    ensures some { OnOk result (0 < length words.now) }
{
    match words {
        [] => Err(UsageFault {
            word: 0,
            kind: UsageKind::NoCommand,
        }),
        [name, ..] => Tool::named(name.as_str()).ok_or(UsageFault {
            word: 0,
            kind: UsageKind::UnknownCommand,
        }),
    }
}

/// The reader of the words behind the tool's name.
#[tactic(auto, unfolding(crate::specs::Usage::said_by))]
fn said_by<'a>(tool: Tool, words: &'a [Text]) -> Reader<'a>
    requires { 0 < length words.now }
    ensures { left result ≡ said_by tool words.now }
{
    Reader::new(tool, words)
}

/// Why a list of words has no reading: the first word that fails, and why; None exactly where the words read. It takes
/// no memory.
#[tactic(auto, unfolding(crate::specs::Usage::usage_of))]
pub fn usage_fault(words: &[Text]) -> Option<UsageFault>
    ensures { result ≡ usage_of words.now }
{
    match tool_in(words) {
        Err(fault) => Some(fault),
        Ok(tool) => words_fault(tool, said_by(tool, words), words.len()),
    }
}

/// What a list of words asks for: the first is the tool's name, the others its options and words.
///
/// A word of one `-` and letters is read letter by letter; one with a value takes the rest of its word, or the next
/// word. Behind a long name the value follows `=`, or is the next word. `--` ends the options. Patterns, names and
/// sections add up where their option is repeated; any other option keeps its last value.
///
/// `Usage` comes exactly where `usage_fault` gives that fault, and takes no memory; `Memory` comes only where the words
/// read, if there is none for what they ask for.
#[tactic(auto, unfolding(crate::specs::Usage::command_from))]
pub fn read_words(alloc: Global, words: &[Text]) -> Result<Command, ReadWordsError>
    ensures { Gives result (command_from words.now) }
{
    match tool_in(words) {
        Err(fault) => Err(ReadWordsError::Usage(fault)),
        Ok(tool) => read_options(alloc, tool, words),
    }
}

/// What the words behind a tool's name ask for.
fn read_options(alloc: Global, tool: Tool, words: &[Text]) -> Result<Command, ReadWordsError>
    requires { 0 < length words.now }
    ensures { Gives result (or_command (fault_with tool words.now) tool words.now) }
{
    let reader = said_by(tool, words);
    match words_fault(tool, reader, words.len()) {
        Some(fault) => Err(ReadWordsError::Usage(fault)),
        None => match command(alloc, tool, reader) {
            Ok(command) => Ok(command),
            Err(_) => Err(ReadWordsError::Memory),
        },
    }
}
