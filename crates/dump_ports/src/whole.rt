ghost use Rattle.std.specs.Prelude.{◌≡◌, ℕ, ◌+◌, ◌≤◌, ◌<◌, List, ◌++◌, length, take, drop, Option, Some, option_map, IfSome, IfOk, OnOk, OnErr, IfErr, vec_len};
ghost use Rattle.dump_ports.specs.Tree.{text_at, bytes_at};
ghost use Rattle.dump_ports.specs.Faults.{CountsFault};
ghost use Rattle.dump_ports.specs.Whole.{within, whole_of, Gives, CountsWhole, IsTooLarge};
ghost use Rattle.dump_ports.specs.declared.whole.WholeFault.TheVariants as faults;

use crate::failed::Failed;
use crate::files::Files;
use crate::sink::Sink;
use crate::source::Source;
use std::alloc::{AllocError, AllocFailed, Global};

/// How many bytes are asked for at once.
const PIECE: usize = 65536;

/// Why a whole text wasn't read.
#[derive(Clone, Copy, Debug, PartialEq, Eq)]
pub enum WholeFault {
    /// A call on the outside failed.
    Failed,
    /// The text has more bytes than the limit; the number is the limit and one more.
    TooLarge(u64),
    /// Memory ran out.
    Memory,
}

impl From<Failed> for WholeFault {
    ghost from_gives = { λ _ fault. fault ≡ faults.Failed };

    fn from(_failed: Failed) -> WholeFault {
        WholeFault::Failed
    }
}

impl From<AllocError> for WholeFault {
    ghost from_gives = { λ _ fault. fault ≡ faults.Memory };

    fn from(_error: AllocError) -> WholeFault {
        WholeFault::Memory
    }
}

/// The text of a name, read up to a read of 0; `None` exactly where the name is absent.
///
/// `TooLarge` comes exactly where the text has more than `limit` bytes.
pub fn read_whole<F: Files>(
    alloc: Global,
    files: &mut F,
    name: &str,
    limit: u64,
) -> Result<Option<Vec<u8>>, WholeFault>
    ensures told { IfSome (F.tree files.old)
        (λ t. Gives (option_map (λ text. text.items)) result (whole_of limit (text_at t name.now))) }
    ensures limited { IfOk result (λ found. IfSome found (λ text. vec_len text ≤ limit)) }
    ensures kept { F.tree files.new ≡ F.tree files.old }
    ensures read_count { CountsWhole result (F.read_faults files.old) (F.read_faults files.new) }
    ensures write_count { F.write_faults files.new ≡ F.write_faults files.old }
{
    let Some(size) = files.size(name)? else {
        return Ok(None);
    };
    if size > limit {
        return Err(WholeFault::TooLarge(limit + 1));
    }
    let text = read_sized(alloc, files, name, limit, size)?;
    Ok(Some(text))
}

/// The text of a name that is there, of which the size is told.
fn read_sized<F: Files>(
    alloc: Global,
    files: &mut F,
    name: &str,
    limit: u64,
    size: u64,
) -> Result<Vec<u8>, WholeFault>
    ensures told { IfSome (F.tree files.old)
        (λ t. Gives (λ text. text.items) result (within limit (bytes_at t name.now))) }
    ensures limited { IfOk result (λ text. vec_len text ≤ limit) }
    ensures kept { F.tree files.new ≡ F.tree files.old }
    ensures read_count { CountsWhole result (F.read_faults files.old) (F.read_faults files.new) }
    ensures write_count { F.write_faults files.new ≡ F.write_faults files.old }
{
    let mut text = Vec::with_capacity(alloc, size as usize)?;
    let mut room = zeros(alloc, PIECE)?;
    let buffer = room.as_mut_slice();
    'pieces: loop {
        let n = files.read_at(name, text.len() as u64, buffer)?;
        if n == 0 {
            return Ok(text);
        }
        add_within(&mut text, &buffer[..n], limit)?;
    }
}

/// A buffer of this length.
fn zeros(alloc: Global, len: usize) -> Result<Vec<u8>, AllocError>
    ensures { IfOk result (λ buffer. vec_len buffer ≡ len) }
{
    vec![in alloc; 0u8; len]
}

/// Adds a piece to a text that stays within the limit.
fn add_within(text: &mut Vec<u8>, piece: &[u8], limit: u64) -> Result<(), WholeFault>
    requires { vec_len text.old ≤ limit }
    ensures ok { OnOk result ((text.new.items ≡ text.old.items ++ piece.now) × (vec_len text.new ≤ limit)) }
    ensures len { OnOk result (vec_len text.new ≡ vec_len text.old + length piece.now) }
    ensures large { IfErr result (IsTooLarge limit (vec_len text.old + length piece.now)) }
{
    let room = limit - text.len() as u64;
    if piece.len() as u64 > room {
        return Err(WholeFault::TooLarge(limit + 1));
    }
    text.extend_from_slice(piece)?;
    Ok(())
}

/// All that a source has left, read up to a read of 0.
///
/// `TooLarge` comes exactly where it has more than `limit` bytes left. After an error the source has given a first
/// part of what it had left.
pub fn read_all<S: Source>(alloc: Global, source: &mut S, limit: u64) -> Result<Vec<u8>, WholeFault>
    ensures told { IfSome (S.left source.old) (λ left. Gives (λ text. text.items) result (within limit left)) }
    ensures limited { IfOk result (λ text. vec_len text ≤ limit) }
    ensures ok { OnOk result (S.left source.new ≡ option_map (λ left. drop (length left) left) (S.left source.old)) }
    ensures err { OnErr result ((n : ℕ) × (S.left source.new ≡ option_map (λ left. drop n left) (S.left source.old))) }
    ensures count { CountsWhole result (S.faults source.old) (S.faults source.new) }
{
    let mut text = Vec::new(alloc);
    let mut room = zeros(alloc, PIECE)?;
    let buffer = room.as_mut_slice();
    'pieces: loop {
        let n = source.read(buffer)?;
        if n == 0 {
            return Ok(text);
        }
        add_within(&mut text, &buffer[..n], limit)?;
    }
}

/// Writes all of the bytes. After an error a first part of them was written.
pub fn write_all<S: Sink>(sink: &mut S, bytes: &[u8]) -> Result<(), Failed>
    ensures ok { OnOk result (S.written sink.new ≡ option_map (λ text. text ++ bytes.now) (S.written sink.old)) }
    ensures err { OnErr result ((n : ℕ) × (n ≤ length bytes.now)
        × (S.written sink.new ≡ option_map (λ text. text ++ take n bytes.now) (S.written sink.old))) }
    ensures count { CountsFault result (S.faults sink.old) (S.faults sink.new) }
{
    let mut done = 0;
    while done < bytes.len() {
        done += sink.write(&bytes[done..])?;
    }
    Ok(())
}
