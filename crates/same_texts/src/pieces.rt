//! A file that has a known text, told while it is read.
ghost use Rattle.std.specs.Prelude.{◌≡◌, ◌≤◌, ◌<◌, ◌-◌, length, drop, option_map, take, Some, IfErr, IfOk, IsTrue, string_bytes, vec_len};
ghost use Rattle.dump_ports.specs.Tree.{Tree, bytes_at, text_at};
ghost use Rattle.dump_ports.specs.Faults.{CountsFault};
ghost use Rattle.folder_io.specs.Answers.{CountsRead};
ghost use Rattle.folder_io.specs.Folders.{file_of};
ghost use Rattle.same_texts.specs.Alike.{IsCutOff};

use copy_text::Text;
use dump_ports::{Failed, Files};
use folder_io::{ExportFile, FolderFault};
use std::alloc::{AllocError, Global};

/// How many bytes are asked for at once.
const PIECE: usize = 65536;

/// The path of a file in a folder.
fn path(alloc: Global, folder: &Text, file: ExportFile) -> Result<String, AllocError>
    ensures { IfOk result (λ name. string_bytes name ≡ file_of folder.now file) }
{
    let mut name = String::from_str(alloc, folder.as_str())?;
    name.push_str("/")?;
    file.push_name(&mut name)?;
    Ok(name)
}

/// Whether a name has a text of this length.
fn is_as_long<F: Files>(files: &mut F, name: &str, len: u64) -> Result<bool, Failed>
    ensures same { IfOk result (λ same. IsTrue same → (tree : Tree) → F.tree files.old ≡ Some tree → option_map (λ text. length text) (text_at tree name.now) ≡ Some len) }
    ensures kept { F.tree files.new ≡ F.tree files.old }
    ensures read_count { CountsFault result (F.read_faults files.old) (F.read_faults files.new) }
    ensures write_count { F.write_faults files.new ≡ F.write_faults files.old }
{
    let size = files.size(name)?;
    Ok(has_size(size, len))
}

fn has_size(size: Option<u64>, len: u64) -> bool
    ensures { IsTrue result → size ≡ Some len }
{
    size == Some(len)
}

/// Whether the first bytes of a buffer, at least one, are the next ones of what is left.
fn are_next(buffer: &[u8], n: usize, left: &[u8]) -> bool
    requires { n ≤ length buffer.now }
    ensures some { IsTrue result → 0 < n }
    ensures within { IsTrue result → n ≤ length left.now }
    ensures same { IsTrue result → take n buffer.now ≡ take n left.now }
{
    if n == 0 || left.len() < n {
        return false;
    }
    let (front, _) = buffer.split_at(n);
    let (next, _) = left.split_at(n);
    front == next
}

/// Whether the text of a name begins with these bytes, read a piece at a time up to the first that differs.
fn begins_with<F: Files>(
    files: &mut F,
    name: &str,
    text: &[u8],
    buffer: &mut [u8],
) -> Result<bool, Failed>
    ensures same { IfOk result (λ same. IsTrue same → (tree : Tree) → F.tree files.old ≡ Some tree → take (length text.now) (bytes_at tree name.now) ≡ text.now) }
    ensures kept { F.tree files.new ≡ F.tree files.old }
    ensures read_count { CountsFault result (F.read_faults files.old) (F.read_faults files.new) }
    ensures write_count { F.write_faults files.new ≡ F.write_faults files.old }
{
    let mut done = 0;
    'pieces: while done < text.len() {
        let n = files.read_at(name, done as u64, buffer)?;
        let (_, left) = text.split_at(done);
        if !are_next(buffer, n, left) {
            return Ok(false);
        }
        done += n;
    }
    Ok(true)
}

/// Whether the text of a name is this one.
fn is_text<F: Files>(
    files: &mut F,
    name: &str,
    text: &[u8],
    buffer: &mut [u8],
) -> Result<bool, Failed>
    ensures same { IfOk result (λ same. IsTrue same → (tree : Tree) → F.tree files.old ≡ Some tree → text_at tree name.now ≡ Some text.now) }
    ensures kept { F.tree files.new ≡ F.tree files.old }
    ensures read_count { CountsFault result (F.read_faults files.old) (F.read_faults files.new) }
    ensures write_count { F.write_faults files.new ≡ F.write_faults files.old }
{
    if !is_as_long(files, name, text.len() as u64)? {
        return Ok(false);
    }
    begins_with(files, name, text, buffer)
}

/// A buffer for a piece.
fn room(alloc: Global) -> Result<Vec<u8>, AllocError> {
    vec![in alloc; 0u8; PIECE]
}

/// Whether the text of a name is this one; a failed call is told as a fault of the folder.
fn is_text_in<F: Files>(
    files: &mut F,
    name: &str,
    text: &[u8],
    buffer: &mut [u8],
) -> Result<bool, FolderFault>
    ensures same { IfOk result (λ same. IsTrue same → (tree : Tree) → F.tree files.old ≡ Some tree → text_at tree name.now ≡ Some text.now) }
    ensures cut_off { IfErr result IsCutOff }
    ensures kept { F.tree files.new ≡ F.tree files.old }
    ensures read_count { CountsRead result (F.read_faults files.old) (F.read_faults files.new) }
    ensures write_count { F.write_faults files.new ≡ F.write_faults files.old }
{
    match is_text(files, name, text, buffer) {
        Ok(same) => Ok(same),
        Err(Failed) => Err(FolderFault::Failed),
    }
}

/// Whether a file of a folder has this text. It is read a piece at a time, up to the first that differs, and isn't held.
pub(crate) fn has_text<F: Files>(
    alloc: Global,
    files: &mut F,
    folder: &Text,
    file: ExportFile,
    text: &[u8],
) -> Result<bool, FolderFault>
    ensures same { IfOk result (λ same. IsTrue same → (tree : Tree) → F.tree files.old ≡ Some tree → text_at tree (file_of folder.now file) ≡ Some text.now) }
    ensures cut_off { IfErr result IsCutOff }
    ensures kept { F.tree files.new ≡ F.tree files.old }
    ensures read_count { CountsRead result (F.read_faults files.old) (F.read_faults files.new) }
    ensures write_count { F.write_faults files.new ≡ F.write_faults files.old }
{
    let name = path(alloc, folder, file)?;
    let mut buffer = room(alloc)?;
    is_text_in(files, name.as_str(), text, buffer.as_mut_slice())
}
