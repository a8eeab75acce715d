//! The data files of a folder, read one after another.
ghost use Rattle.std.specs.Prelude.{◌≡◌, ◌≤◌, Some, IfErr, IfOk};
ghost use Rattle.dump_ports.specs.Tree.{Tree};
ghost use Rattle.folder_io.specs.Answers.{Gives, CountsRead, IsCallFree};
ghost use Rattle.folder_io.specs.declared.fault.FolderLimit.TheVariants.{Folder};
ghost use Rattle.folder_io.specs.Folders.{most_bytes};
ghost use Rattle.folder_rows.specs.Reading.{total_of, rows_from, data_of};

use cat_names::DataSet;
use cat_rows::Catalogue;
use copy_text::Text;
use dump_ports::Files;
use folder_io::{ExportFile, FolderFault, FolderLimit, read_file};
use std::alloc::Global;
use table_rows::table_oids;

/// Reads the data files of the catalogue's tables, by rising oid. The first that is absent or has more than
/// 134,217,728 bytes is the answer, or the first at which the bytes that are used already and those of the data files so
/// far are more than 268,435,456 together; that is tried before the first data file too. `Failed` comes exactly where a
/// call of the files failed. What the files hold isn't looked at.
#[tactic(auto, unfolding(crate::specs::Reading::data_of))]
pub fn read_rows<F: Files>(
    alloc: Global,
    files: &mut F,
    folder: &Text,
    cat: &Catalogue,
    used: u64,
) -> Result<DataSet, FolderFault>
    ensures due { (tree : Tree) → F.tree files.old ≡ Some tree → Gives (λ rows. rows) result (data_of folder.now used cat.now tree) }
    ensures kept { F.tree files.new ≡ F.tree files.old }
    ensures read_count { CountsRead result (F.read_faults files.old) (F.read_faults files.new) }
    ensures write_count { F.write_faults files.new ≡ F.write_faults files.old }
{
    check_total(used)?;
    let tables = table_oids(alloc, cat)?;
    let rows = read_texts(alloc, files, folder, &tables, used)?;
    Ok(rows)
}

/// The texts of the data files of these tables.
fn read_texts<F: Files>(
    alloc: Global,
    files: &mut F,
    folder: &Text,
    tables: &[u32],
    used: u64,
) -> Result<DataSet, FolderFault>
    requires { used ≤ most_bytes Folder }
    ensures due { (tree : Tree) → F.tree files.old ≡ Some tree → Gives (λ rows. rows) result (rows_from folder.now tree used tables.now) }
    ensures kept { F.tree files.new ≡ F.tree files.old }
    ensures read_count { CountsRead result (F.read_faults files.old) (F.read_faults files.new) }
    ensures write_count { F.write_faults files.new ≡ F.write_faults files.old }
{
    let mut rows = DataSet::new(alloc);
    let mut bytes = used;
    for table in tables {
        let text = read_file(
            alloc,
            files,
            folder,
            ExportFile::Data(*table),
            FolderLimit::DataFile,
        )?;
        bytes += text.len() as u64;
        check_total(bytes)?;
        rows.put(*table, text)?;
    }
    Ok(rows)
}

/// Goes on where the files so far stay within the limit of a folder.
fn check_total(bytes: u64) -> Result<(), FolderFault>
    ensures due { Gives (λ done. done) result (total_of bytes) }
    ensures within { IfOk result (λ _. bytes ≤ most_bytes Folder) }
    ensures call_free { IfErr result IsCallFree }
{
    let limit = FolderLimit::Folder;
    if bytes <= limit.bytes() {
        Ok(())
    } else {
        Err(FolderFault::TooLarge(limit, limit.bytes() + 1))
    }
}
