//! A folder read as an opening.
ghost use Rattle.std.specs.Prelude.{◌≡◌, ◌≢◌, ℕ, Option, Some, None, Ok, Err, IfErr, IfOk, OnOk, Result};
ghost use Rattle.dump_ports.specs.Tree.{Tree};
ghost use Rattle.table_rows.specs.Values.{values_fault};
ghost use Rattle.exports.specs.Catalogues.{catalogue_fault};
ghost use Rattle.cat_load.specs.Loads.{rows_fault};
ghost use Rattle.tool_words.specs.Answers.{Gives, CountsRead};
ghost use Rattle.exports.specs.Exports.{Exported};
ghost use Rattle.openings.specs.Openings.{cause_row, load_outcome, meet, opened, opened_folder, export_named};

use cat_load::{LoadError, LoadFault, load};
use cat_model::Cause;
use copy_text::Text;
use dump_ports::Files;
use eng_map::NamedMap;
use exports::{Export, read_export};
use folder_io::ExportFile;
use std::alloc::Global;
use std::marker::Model;
use tool_words::{ExportFault, Outcome};

/// An export folder that was taken in: a catalogue that is well-formed, with texts that hold rows of its tables and meet
/// them, and the map of what both stand for by names. A contract sees the record of catalogue and texts.
#[derive(Drop)]
pub struct Opening {
    export: Export,
    named: NamedMap,
}

impl Model for Opening {
    ghost use Rattle.std.specs.Prelude.{◌≡◌, None};
    ghost use Rattle.std.specs.Coded.{codes};
    ghost use Rattle.cat_load.specs.Loads.{rows_fault};
    ghost use Rattle.exports.specs.Exports.{Exported, texts_code};
    ghost use Rattle.openings.specs.Openings.{IsMap};

    ghost Value = { Exported };

    ghost coded = { Prim.hlevel (codes, texts_code) };

    ghost view = { λ o. o.export };

    ghost invariant = { λ o. IsMap o.export o.named };
}

impl Opening {
    /// The catalogue and the texts of its tables' rows.
    pub fn export(&self) -> &Export
        ensures export { result.now ≡ self.now }
        ensures formed { catalogue_fault self.now.cat ≡ None }
        ensures meets { rows_fault self.now.cat self.now.rows ≡ None }
    {
        &self.export
    }

    /// What they stand for by names.
    pub fn named(&self) -> &NamedMap
        ensures { result.now ≡ export_named self.now }
    {
        &self.named
    }

    /// Both, handed over.
    pub fn into_parts(self) -> (Export, NamedMap)
        ensures export { result.0 ≡ self }
        ensures named { result.1 ≡ export_named self }
        ensures formed { catalogue_fault self.cat ≡ None }
        ensures meets { rows_fault self.cat self.rows ≡ None }
    {
        let Opening { export, named } = self;
        (export, named)
    }
}

// The row at which a table fails.
fn cause_row(cause: &Cause) -> u64
    ensures { result ≡ cause_row cause.now }
{
    match cause {
        Cause::BadValue { row, .. }
        | Cause::NullValue { row, .. }
        | Cause::NoParent { row, .. }
        | Cause::Fields { row, .. }
        | Cause::BadRow { row, .. } => *row,
        Cause::Duplicate { second, .. } => *second,
        _ => 0,
    }
}

// The outcome where a table can't have its rows.
fn load_outcome(fault: LoadFault) -> Outcome
    ensures { result ≡ load_outcome fault }
{
    let LoadFault { table, cause } = fault;
    let line = cause_row(&cause);
    Outcome::BadExport {
        file: ExportFile::Data(table),
        line,
        kind: ExportFault::Values(cause),
    }
}

// The map of an export, where its rows meet their tables.
#[tactic(auto, unfolding(crate::specs::Openings::export_named))]
fn load_export(alloc: Global, export: &Export) -> Result<NamedMap, Outcome>
    ensures due { Gives (λ _. tt) result (meet (rows_fault export.now.cat export.now.rows)) }
    ensures named { IfOk result (λ map. map ≡ export_named export.now) }
    ensures formed { OnOk result (catalogue_fault export.now.cat ≡ None) }
    ensures count { (n : ℕ) → CountsRead result n n }
{
    match load(alloc, export.catalogue(), export.rows()) {
        Ok(named) => Ok(named),
        Err(LoadError::Fault(fault)) => Err(load_outcome(fault)),
        Err(LoadError::Memory) => Err(Outcome::Memory),
    }
}

/// The opening of an export, where the rows of each table meet it; else `BadExport` of kind `Values`, as `read_opening` has it,
/// or `Memory`.
pub fn open_export(alloc: Global, export: Export) -> Result<Opening, Outcome>
    ensures due { Gives (λ opening. opening) result (opened export) }
    ensures count { (n : ℕ) → CountsRead result n n }
{
    match load_export(alloc, &export) {
        Ok(named) => Ok(Opening { export, named }),
        Err(outcome) => {
            drop(export);
            Err(outcome)
        }
    }
}

/// Reads an export folder as an opening: the export is read, and the rows of each table meet it, its columns, their types,
/// its keys and its foreign keys.
///
/// The first step that refuses is the answer: what `read_export` answers, or `BadExport` of kind `Values` at the data file
/// of the first table, by rising oid, whose rows COPY would refuse, and at its row. `Memory` may come for any folder.
#[tactic(auto, unfolding(crate::specs::Openings::opened_folder))]
pub fn read_opening<F: Files>(
    alloc: Global,
    files: &mut F,
    folder: &Text,
) -> Result<Opening, Outcome>
    ensures due { (tree : Tree) → F.tree files.old ≡ Some tree → Gives (λ opening. opening) result (opened_folder folder.now tree) }
    ensures kept { F.tree files.new ≡ F.tree files.old }
    ensures read_count { CountsRead result (F.read_faults files.old) (F.read_faults files.new) }
    ensures write_count { F.write_faults files.new ≡ F.write_faults files.old }
{
    let export = read_export(alloc, files, folder)?;
    open_export(alloc, export)
}
