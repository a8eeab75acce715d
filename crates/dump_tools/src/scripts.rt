//! The text of psql's script.
ghost use Rattle.std.specs.Prelude.{◌≡◌, ℕ, length, drop, false, Some, IfOk};
ghost use Rattle.dump_ports.specs.Tree.{Tree};
ghost use Rattle.cat_model.specs.Values.{Bytes};
ghost use Rattle.tool_words.specs.Answers.{Gives, CountsRead};
ghost use Rattle.tool_words.specs.Words.{is_input};
ghost use Rattle.dump_tools.specs.Due.{input_of, source_of, counts, CountsStep};
ghost use Rattle.dump_tools.specs.Inputs.{where_read, TellsLeft, TakesPart};
ghost use Rattle.dump_tools.specs.Runs.{StepTakes};

use dump_ports::{Files, Source, WholeFault, read_all};
use schema_folders::read_file;
use std::alloc::Global;
use tool_words::{Limit, Outcome, ScriptSource};

/// The most bytes of a script, and of an archive.
pub(crate) const SCRIPT_LIMIT: u64 = 268_435_456;

/// The text of a script: that of its file, or all of standard input.
pub(crate) fn read_source<F: Files, I: Source>(
    alloc: Global,
    files: &mut F,
    input: &mut I,
    script: &ScriptSource,
) -> Result<Vec<u8>, Outcome>
    ensures due { (tree : Tree) (bytes : Bytes) → F.tree files.old ≡ Some tree → TellsLeft (is_input script.now) (I.left input.old) bytes → Gives (λ text. text.items) result (source_of script.now tree bytes) }
    ensures kept { F.tree files.new ≡ F.tree files.old }
    ensures unread { is_input script.now ≡ false → input.new ≡ input.old }
    ensures taken { (bytes : Bytes) → TellsLeft (is_input script.now) (I.left input.old) bytes → StepTakes result (where_read (is_input script.now) bytes) (I.left input.old) (I.left input.new) }
    ensures part { (bytes : Bytes) → TellsLeft (is_input script.now) (I.left input.old) bytes → TakesPart (where_read (is_input script.now) bytes) (I.left input.old) (I.left input.new) }
    ensures counted { (prints lines : ℕ) → CountsStep result (counts (F.read_faults files.old) (I.faults input.old) (F.write_faults files.old) prints lines) (counts (F.read_faults files.new) (I.faults input.new) (F.write_faults files.new) prints lines) }
{
    match script {
        ScriptSource::File(name) => read_file(alloc, files, name, Limit::Script, SCRIPT_LIMIT),
        ScriptSource::Input => read_input(alloc, input, Limit::Script, SCRIPT_LIMIT),
    }
}

/// All of standard input, which has at most `limit` bytes. After an error some first part of it was taken.
#[tactic(auto, unfolding(crate::specs::Due::input_of))]
pub(crate) fn read_input<I: Source>(
    alloc: Global,
    input: &mut I,
    what: Limit,
    limit: u64,
) -> Result<Vec<u8>, Outcome>
    ensures due { (bytes : Bytes) → I.left input.old ≡ Some bytes → Gives (λ text. text.items) result (input_of what limit bytes) }
    ensures whole { IfOk result (λ text. (bytes : Bytes) → I.left input.old ≡ Some bytes → I.left input.new ≡ Some (drop (length bytes) bytes)) }
    ensures part { (bytes : Bytes) → I.left input.old ≡ Some bytes → (n : ℕ) × (I.left input.new ≡ Some (drop n bytes)) }
    ensures count { CountsRead result (I.faults input.old) (I.faults input.new) }
{
    match read_all(alloc, input, limit) {
        Ok(text) => Ok(text),
        Err(WholeFault::TooLarge(n)) => Err(Outcome::TooLarge(what, n)),
        Err(WholeFault::Failed) => Err(Outcome::ReadFault),
        Err(WholeFault::Memory) => Err(Outcome::Memory),
    }
}
