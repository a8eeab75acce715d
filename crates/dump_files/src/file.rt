//! The data files that a dump needs.
ghost use Rattle.std.specs.Prelude.{◌≡◌, length, IfOk, IfErr, OnOk, Some, option_map};
ghost use Rattle.dump_ports.specs.Tree.{Tree, text_at};
ghost use Rattle.dump_files.specs.Needed.{larger, unready, GivesReady, IsNoSize};
ghost use Rattle.dump_files.specs.Stops.{CountsRead, IsOfLooking};

use crate::stop::DumpStop;
use copy_text::Text;
use dump_ports::{Failed, Files};

/// The data file of a table: the table's oid, the file's whole path, and how many columns the table has.
#[derive(Drop)]
pub struct DataFile {
    /// The oid of the table.
    pub table: u32,
    /// The path of the file.
    pub name: Text,
    /// How many fields each of its rows has.
    pub columns: usize,
}

// A data file has at most 2^40 bytes.
pub(crate) const MOST: u64 = 1 << 40;

/// Looks for all of the data files that are needed, before anything is written.
///
/// `Missing` tells the first that is absent. Where none is, `TooLarge` tells the size of the first that has more than 2^40
/// bytes. Each file's size is asked for once, and it takes no memory but for the name of a file that is absent.
pub fn look_for<F: Files>(files: &mut F, needed: &[DataFile]) -> Result<(), DumpStop>
    ensures told { (tree : Tree) → F.tree files.old ≡ Some tree → GivesReady result (unready tree needed.now) }
    ensures looking { IfErr result IsOfLooking }
    ensures kept { F.tree files.new ≡ F.tree files.old }
    ensures read_count { CountsRead result (F.read_faults files.old) (F.read_faults files.new) }
    ensures write_count { F.write_faults files.new ≡ F.write_faults files.old }
{
    let mut large: Option<u64> = None;
    let mut rest = needed;
    while let Some((file, later)) = rest.split_first() {
        let size = size_of(files, file)?;
        large = first_large(large, size);
        rest = later;
    }
    match large {
        None => Ok(()),
        Some(size) => Err(DumpStop::TooLarge(size)),
    }
}

/// The first size that is too large, of those so far and this one.
fn first_large(so_far: Option<u64>, size: u64) -> Option<u64>
    ensures { result ≡ larger so_far size }
{
    if so_far.is_none() && size > MOST {
        Some(size)
    } else {
        so_far
    }
}

/// The size of a data file, which must be there.
fn size_of<F: Files>(files: &mut F, file: &DataFile) -> Result<u64, DumpStop>
    ensures told { (tree : Tree) → F.tree files.old ≡ Some tree → IfOk result (λ size. option_map (λ text. length text) (text_at tree file.now.name) ≡ Some size) }
    ensures absent { (tree : Tree) → F.tree files.old ≡ Some tree → IfErr result (IsNoSize file.now.name (text_at tree file.now.name)) }
    ensures looking { IfErr result IsOfLooking }
    ensures kept { F.tree files.new ≡ F.tree files.old }
    ensures read_count { CountsRead result (F.read_faults files.old) (F.read_faults files.new) }
    ensures write_count { F.write_faults files.new ≡ F.write_faults files.old }
{
    match files.size(file.name.as_str()) {
        Ok(Some(size)) => Ok(size),
        Ok(None) => Err(DumpStop::Missing(file.name.clone()?)),
        Err(Failed) => Err(DumpStop::ReadFault),
    }
}
