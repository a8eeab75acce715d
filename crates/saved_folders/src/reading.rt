//! Texts of a folder, read before they are written.
ghost use Rattle.std.specs.Prelude.{◌≡◌, [], Result, IfErr, OnOk};
ghost use Rattle.std.specs.FinMap.{empty};
ghost use Rattle.exports.specs.Exports.{Exported, export_of};
ghost use Rattle.tool_words.specs.declared.outcome.Outcome.{Outcome as Answer};
ghost use Rattle.tool_words.specs.declared.outcome.Outcome.TheVariants as outcomes;
ghost use Rattle.tool_words.specs.Answers.{Gives, IsDue};
ghost use Rattle.saved_folders.specs.Folders.{texts_with, folder_saved};
ghost use Rattle.saved_folders.specs.Exports.{IsCallFree};

use crate::tables::TableText;
use crate::writing::write_files;
use cat_names::DataSet;
use copy_text::Text;
use dump_ports::MemFiles;
use exports::{Export, read_export};
use std::alloc::Global;
use tool_words::Outcome;

/// What a folder of these texts is read as: it is written in memory, under the empty name, and read there.
pub(crate) fn read_back(
    alloc: Global,
    rows: &DataSet,
    oids: &[u32],
    tables: &[TableText],
) -> Result<Export, Outcome>
    ensures due { Gives (λ export. export) result (export_of [] (folder_saved [] (texts_with rows.now oids.now tables.now) empty)) }
    ensures call_free { IfErr result IsCallFree }
{
    let folder = empty_name(alloc);
    let mut files = MemFiles::new(alloc, Vec::new(alloc));
    write_memory(alloc, &mut files, &folder, rows, oids, tables)?;
    read_memory(alloc, &mut files, &folder)
}

/// The empty name.
fn empty_name(alloc: Global) -> Text
    ensures { result ≡ [] }
{
    match Text::new(Vec::new(alloc)) {
        Some(text) => text,
        None => unreachable!(),
    }
}

/// Writes a folder of these texts in memory.
fn write_memory(
    alloc: Global,
    files: &mut MemFiles,
    folder: &Text,
    rows: &DataSet,
    oids: &[u32],
    tables: &[TableText],
) -> Result<(), Outcome>
    ensures ok { OnOk result (files.new.tree ≡ folder_saved folder.now (texts_with rows.now oids.now tables.now) files.old.tree) }
    ensures memory { IfErr result (λ outcome. outcome ≡ outcomes.Memory) }
{
    match write_files(alloc, files, folder, rows, oids, tables) {
        Ok(()) => Ok(()),
        Err(outcome) => Err(want_of_memory(outcome)),
    }
}

/// Want of memory, in place of another answer.
fn want_of_memory(outcome: Outcome) -> Outcome
    ensures { result ≡ outcomes.Memory }
{
    drop(outcome);
    Outcome::Memory
}

/// Reads a folder in memory. Nothing but want of memory keeps a call from it.
fn read_memory(alloc: Global, files: &mut MemFiles, folder: &Text) -> Result<Export, Outcome>
    ensures due { Gives (λ export. export) result (export_of folder.now files.old.tree) }
    ensures call_free { IfErr result IsCallFree }
{
    match read_export(alloc, files, folder) {
        Ok(export) => Ok(export),
        Err(outcome) => Err(in_memory(outcome)),
    }
}

/// The answer, where a failed call is want of memory.
fn in_memory(outcome: Outcome) -> Outcome
    ensures due { (due : Result Exported Answer) → IsDue outcome due → IsDue result due }
    ensures call_free { IsCallFree result }
{
    match outcome {
        Outcome::ReadFault | Outcome::WriteFault => Outcome::Memory,
        outcome => outcome,
    }
}
