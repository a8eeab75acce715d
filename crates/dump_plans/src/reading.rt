//! A dump, before its first byte is written.
ghost use Rattle.std.specs.Prelude.{◌≡◌, ◌≤◌, length, None, ℕ, ◌∷◌, ◌++◌, [], Some, Result, Ok, IfOk, IfErr, OnOk};
ghost use Rattle.std.specs.String.{string_bytes};
ghost use Rattle.dump_ports.specs.Tree.{Tree};
ghost use Rattle.cat_model.specs.Values.{Bytes};
ghost use Rattle.dump_toc.specs.Toc.{toc};
ghost use Rattle.dump_files.specs.Needed.{unready};
ghost use Rattle.tool_words.specs.Answers.{Gives, CountsRead, IsDue};
ghost use Rattle.dump_plans.specs.Outcomes.{toc_told, ready_told};
ghost use Rattle.dump_plans.specs.Plans.{Dumping, data_path, data_file, data_files, dumping_with, entries_due, dumping_of, dumping};

use crate::outcomes::{stop_outcome, toc_outcome};
use copy_text::Text;
use dump_choices::{TableData, entries, table_data};
use dump_files::{DataFile, look_for};
use dump_ports::Files;
use folder_io::ExportFile;
use obj_graph::Select;
use std::alloc::{AllocError, Global};
use toc_entry::Entry;
use tool_words::Outcome;
use well_formed::WellFormed;

/// What a dump of a folder is made of.
#[derive(Drop)]
pub struct DumpPlan {
    /// Its table of contents.
    pub entries: Vec<Entry>,
    /// The data files whose rows it has: of each entry that has rows, in their order.
    pub files: Vec<DataFile>,
}

// The text of a string.
fn text_of(string: String) -> Text
    ensures { result ≡ string_bytes string }
{
    match Text::new(string.into_bytes()) {
        Some(text) => text,
        None => unreachable!(),
    }
}

// The path of a table's data file.
fn data_path(alloc: Global, folder: &Text, table: u32) -> Result<Text, AllocError>
    ensures { IfOk result (λ path. path ≡ data_path folder.now table) }
{
    let mut text = String::from_str(alloc, folder.as_str())?;
    text.push_str("/")?;
    ExportFile::Data(table).push_name(&mut text)?;
    Ok(text_of(text))
}

// The data file of a table.
fn data_file(alloc: Global, folder: &Text, rows: TableData) -> Result<DataFile, AllocError>
    ensures { IfOk result (λ file. file ≡ data_file folder.now rows) }
{
    let name = data_path(alloc, folder, rows.table)?;
    Ok(DataFile {
        table: rows.table,
        name,
        columns: rows.columns,
    })
}

// The data files of the entries that have rows, in their order.
#[tactic(auto, unfolding(crate::specs::Plans::data_files))]
fn data_files(
    alloc: Global,
    folder: &Text,
    cat: &WellFormed,
    entries: &[Entry],
) -> Result<Vec<DataFile>, AllocError>
    ensures { IfOk result (λ files. files.items ≡ data_files folder.now cat.now entries.now) }
{
    let tables = table_data(alloc, cat, entries)?;
    let mut files = Vec::new(alloc);
    for one in &tables {
        files.push(data_file(alloc, folder, *one)?)?;
    }
    Ok(files)
}

// A table of contents has at most 200,000 entries, so no dump needs more data files.
const MOST_FILES: usize = 200_000;

// The same files, where each is there and none is too large.
fn ready<F: Files>(files: &mut F, needed: Vec<DataFile>) -> Result<Vec<DataFile>, Outcome>
    ensures due { (tree : Tree) → F.tree files.old ≡ Some tree → Gives (λ found. found.items) result (ready_told needed.items (unready tree needed.items)) }
    ensures ready { (tree : Tree) → F.tree files.old ≡ Some tree → IfOk result (λ found. unready tree found.items ≡ None) }
    ensures few { IfOk result (λ found. length found.items ≤ 200000) }
    ensures kept { F.tree files.new ≡ F.tree files.old }
    ensures read_count { CountsRead result (F.read_faults files.old) (F.read_faults files.new) }
    ensures write_count { F.write_faults files.new ≡ F.write_faults files.old }
{
    if needed.len() > MOST_FILES {
        return Err(Outcome::Memory);
    }
    match look_for(files, &needed) {
        Ok(()) => Ok(needed),
        Err(stop) => {
            drop(needed);
            Err(stop_outcome(stop))
        }
    }
}

// The data files of the entries, where each is there and none is too large.
fn files_of<F: Files>(
    alloc: Global,
    files: &mut F,
    folder: &Text,
    cat: &WellFormed,
    entries: &[Entry],
) -> Result<Vec<DataFile>, Outcome>
    ensures due { (tree : Tree) → F.tree files.old ≡ Some tree → let needed = data_files folder.now cat.now entries.now in Gives (λ found. found.items) result (ready_told needed (unready tree needed)) }
    ensures ready { (tree : Tree) → F.tree files.old ≡ Some tree → IfOk result (λ found. unready tree found.items ≡ None) }
    ensures few { IfOk result (λ found. length found.items ≤ 200000) }
    ensures kept { F.tree files.new ≡ F.tree files.old }
    ensures read_count { CountsRead result (F.read_faults files.old) (F.read_faults files.new) }
    ensures write_count { F.write_faults files.new ≡ F.write_faults files.old }
{
    let needed = data_files(alloc, folder, cat, entries)?;
    ready(files, needed)
}

// The table of contents of what is chosen.
fn toc_of(alloc: Global, cat: &WellFormed, select: &Select) -> Result<Vec<Entry>, Outcome>
    ensures due { Gives (λ found. found.items) result (toc_told (toc cat.now select.now)) }
    ensures count { (n : ℕ) → CountsRead result n n }
{
    match entries(alloc, cat, select) {
        Ok(found) => Ok(found),
        Err(error) => Err(toc_outcome(error)),
    }
}

// The dump of these entries.
fn with_files<F: Files>(
    alloc: Global,
    files: &mut F,
    folder: &Text,
    cat: &WellFormed,
    entries: Vec<Entry>,
) -> Result<DumpPlan, Outcome>
    ensures due { (tree : Tree) → F.tree files.old ≡ Some tree → Gives dumping result (entries_due folder.now cat.now tree entries.items) }
    ensures ready { (tree : Tree) → F.tree files.old ≡ Some tree → IfOk result (λ found. unready tree found.files.items ≡ None) }
    ensures few { IfOk result (λ found. length found.files.items ≤ 200000) }
    ensures kept { F.tree files.new ≡ F.tree files.old }
    ensures read_count { CountsRead result (F.read_faults files.old) (F.read_faults files.new) }
    ensures write_count { F.write_faults files.new ≡ F.write_faults files.old }
{
    match files_of(alloc, files, folder, cat, &entries) {
        Ok(needed) => Ok(DumpPlan {
            entries,
            files: needed,
        }),
        Err(outcome) => {
            drop(entries);
            Err(outcome)
        }
    }
}

/// What a dump of what is chosen of a folder's catalogue is made of: the table of contents, and the data files, each of
/// which is there and within its limit.
///
/// # Errors
///
/// In this order: `NoMatch`, `Loop`, `TooLarge` for more than 200,000 entries; `Missing` for the first data file that is
/// absent, and `TooLarge` for one of more than 2^40 bytes. `ReadFault` comes exactly where a call of the files failed, and
/// `Memory` may come for any folder.
#[tactic(auto, unfolding(crate::specs::Plans::dumping_of))]
pub fn read_dump<F: Files>(
    alloc: Global,
    files: &mut F,
    folder: &Text,
    cat: &WellFormed,
    select: &Select,
) -> Result<DumpPlan, Outcome>
    ensures due { (tree : Tree) → F.tree files.old ≡ Some tree → Gives dumping result (dumping_of folder.now select.now cat.now tree) }
    ensures ready { (tree : Tree) → F.tree files.old ≡ Some tree → IfOk result (λ found. unready tree found.files.items ≡ None) }
    ensures few { IfOk result (λ found. length found.files.items ≤ 200000) }
    ensures kept { F.tree files.new ≡ F.tree files.old }
    ensures read_count { CountsRead result (F.read_faults files.old) (F.read_faults files.new) }
    ensures write_count { F.write_faults files.new ≡ F.write_faults files.old }
{
    let entries = toc_of(alloc, cat, select)?;
    with_files(alloc, files, folder, cat, entries)
}
