//! What the program answers where a dump can't be made.
ghost use Rattle.std.specs.Prelude.{◌≡◌, ℕ, List, Result, Err};
ghost use Rattle.std.specs.Global.{Vec};
ghost use Rattle.toc_entry.specs.declared.entry.Entry.{Entry};
ghost use Rattle.dump_toc.specs.Gives.{GivesToc};
ghost use Rattle.dump_toc.specs.Toc.{Refusal};
ghost use Rattle.tool_words.specs.Answers.{IsDue, CountsRead};
ghost use Rattle.dump_plans.specs.Outcomes.{unmatched, toc_told, stop_outcome};

use cat_model::Items;
use data_rows::RowsFault;
use dump_files::DumpStop;
use dump_toc::TocError;
use obj_graph::SelectFault;
use table_rows::ValuesFault;
use tool_words::{Limit, Outcome, Unmatched};

/// Which pattern hits nothing.
fn unmatched(fault: SelectFault) -> Unmatched
    ensures { result ≡ unmatched fault }
{
    match fault {
        SelectFault::NoSchemas(at) => Unmatched::Schemas(at),
        SelectFault::NoTables(at) => Unmatched::Tables(at),
    }
}

/// Why there is no table of contents.
pub(crate) fn toc_outcome(error: TocError) -> Outcome
    ensures due { (due : Result (List Entry) Refusal) → GivesToc (Err error) due → IsDue result (toc_told due) }
    ensures count { (n : ℕ) → CountsRead {X = Vec Entry} (Err result) n n }
{
    match error {
        TocError::NoMatch(fault) => Outcome::NoMatch(unmatched(fault)),
        TocError::Loop(path) => Outcome::Loop(Items::new(path)),
        TocError::TooMany(count) => Outcome::TooLarge(Limit::Entries, count),
        TocError::Memory => Outcome::Memory,
    }
}

/// A row of a table's data file that fails, as a fault of its line.
fn bad_rows(table: u32, first: RowsFault) -> Outcome
    ensures { result ≡ stop_outcome (DumpStop.BadRows table first) }
{
    let RowsFault { row, fault } = first;
    ValuesFault { table, row, fault }.into()
}

/// What the program answers where a dump isn't written, or not to its end.
pub fn stop_outcome(stop: DumpStop) -> Outcome
    ensures { result ≡ stop_outcome stop }
{
    match stop {
        DumpStop::Missing(name) => Outcome::Missing(name),
        DumpStop::TooLarge(size) => Outcome::TooLarge(Limit::DataFile, size),
        DumpStop::ReadFault => Outcome::ReadFault,
        DumpStop::BadRows { table, first } => bad_rows(table, first),
        DumpStop::WriteFault => Outcome::WriteFault,
        DumpStop::Memory => Outcome::Memory,
    }
}
