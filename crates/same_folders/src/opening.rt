//! A second folder that has the opening of a first.
ghost use Rattle.std.specs.Prelude.{◌≡◌, ℕ, None, Some, Ok, IfErr, IfOk, IsTrue};
ghost use Rattle.dump_ports.specs.Tree.{Tree};
ghost use Rattle.same_texts.specs.Alike.{HoldSame};
ghost use Rattle.cat_load.specs.Loads.{rows_fault};
ghost use Rattle.tool_words.specs.Answers.{CountsRead};
ghost use Rattle.table_rows.specs.Values.{values_fault};
ghost use Rattle.exports.specs.Exports.{texts_of};
ghost use Rattle.openings.specs.Openings.{opened_folder};
ghost use Rattle.same_folders.specs.CutOff.{IsCutOff};

use cat_names::DataSet;
use copy_text::Text;
use dump_ports::Files;
use exports::FolderTexts;
use folder_io::FolderFault;
use openings::Opening;
use plain_loads::rows_meet;
use same_texts::hold_same_texts;
use same_texts::laws::same_texts_are_read_alike;
use std::alloc::Global;
use tool_words::Outcome;
use well_formed::WellFormed;

/// Whether the second folder holds the texts of the first, of which this catalogue and the texts of its tables were read.
fn holds_texts<F: Files>(
    alloc: Global,
    files: &mut F,
    first: &Text,
    cat: &WellFormed,
    rows: &DataSet,
    second: &Text,
) -> Result<bool, Outcome>
    ensures same { IfOk result (λ same. IsTrue same → (tree : Tree) → F.tree files.old ≡ Some tree → HoldSame first.now second.now tree cat.now rows.now) }
    ensures cut_off { IfErr result IsCutOff }
    ensures kept { F.tree files.new ≡ F.tree files.old }
    ensures read_count { CountsRead result (F.read_faults files.old) (F.read_faults files.new) }
    ensures write_count { F.write_faults files.new ≡ F.write_faults files.old }
{
    match hold_same_texts(alloc, files, first, second, cat.rows(), rows) {
        Ok(same) => Ok(same),
        Err(FolderFault::Failed) => Err(Outcome::ReadFault),
        Err(_) => Err(Outcome::Memory),
    }
}

/// Whether a second folder holds, byte for byte, the texts of a first one in all files that reading takes, so that its
/// opening is the one that was read of the first. It says no where it can't tell, and stops there. Of the second folder
/// each file is read once, and of the first once more those of the system tables.
///
/// The error is `ReadFault`, exactly where a call of the files failed, or `Memory`.
pub fn opens_alike<F: Files>(
    alloc: Global,
    files: &mut F,
    first: &Text,
    one: &Opening,
    second: &Text,
) -> Result<bool, Outcome>
    ensures same { IfOk result (λ same. IsTrue same → (tree : Tree) → F.tree files.old ≡ Some tree → opened_folder first.now tree ≡ Ok one.now → opened_folder second.now tree ≡ Ok one.now) }
    ensures cut_off { IfErr result IsCutOff }
    ensures kept { F.tree files.new ≡ F.tree files.old }
    ensures read_count { CountsRead result (F.read_faults files.old) (F.read_faults files.new) }
    ensures write_count { F.write_faults files.new ≡ F.write_faults files.old }
{
    same_texts_are_read_alike();
    let cat = one.export().catalogue();
    holds_texts(alloc, files, first, cat, one.export().rows(), second)
}

/// Whether texts hold rows of their tables, which meet them.
fn rows_meet_tables(alloc: Global, texts: &FolderTexts) -> Result<bool, Outcome>
    ensures hold { IfOk result (λ meet. IsTrue meet → values_fault texts.now.cat texts.now.rows ≡ None) }
    ensures meet { IfOk result (λ meet. IsTrue meet → rows_fault texts.now.cat texts.now.rows ≡ None) }
    ensures cut_off { IfErr result IsCutOff }
    ensures count { (n : ℕ) → CountsRead result n n }
{
    match rows_meet(alloc, texts.catalogue(), texts.texts()) {
        Ok(meet) => Ok(meet),
        Err(_) => Err(Outcome::Memory),
    }
}

/// Whether a second folder holds, byte for byte, the texts of a first one in all files that reading takes, and these are rows
/// that meet their tables, so that the catalogue and the texts that were read of the first are the opening of both. No row is
/// made, and no map of what the folders stand for.
///
/// It says no where it can't tell, as `plain_loads::rows_meet` and `opens_alike` do. The error is `ReadFault`, exactly where a
/// call of the files failed, or `Memory`.
pub fn have_one_opening<F: Files>(
    alloc: Global,
    files: &mut F,
    first: &Text,
    texts: &FolderTexts,
    second: &Text,
) -> Result<bool, Outcome>
    ensures one { IfOk result (λ one. IsTrue one → (tree : Tree) → F.tree files.old ≡ Some tree → texts_of first.now tree ≡ Ok texts.now → opened_folder first.now tree ≡ Ok texts.now) }
    ensures same { IfOk result (λ one. IsTrue one → (tree : Tree) → F.tree files.old ≡ Some tree → texts_of first.now tree ≡ Ok texts.now → opened_folder second.now tree ≡ Ok texts.now) }
    ensures cut_off { IfErr result IsCutOff }
    ensures kept { F.tree files.new ≡ F.tree files.old }
    ensures read_count { CountsRead result (F.read_faults files.old) (F.read_faults files.new) }
    ensures write_count { F.write_faults files.new ≡ F.write_faults files.old }
{
    same_texts_are_read_alike();
    if !holds_texts(
        alloc,
        files,
        first,
        texts.catalogue(),
        texts.texts(),
        second,
    )? {
        return Ok(false);
    }
    rows_meet_tables(alloc, texts)
}
