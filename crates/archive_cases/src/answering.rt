//! The answer to a case.
use crate::kind::ArchiveKind;
use crate::{archives, entries};
use std::alloc::{AllocError, Global};

/// Appends the answer to a line of a kind, or `?` where it is none of that kind.
///
/// A line of whole archives is `custom HEX`, an archive in the custom format, or `toc HEX`, the file `toc.dat` of one in
/// the directory format: what it holds. Behind it may stand changes, each after ` / `: whether the archive with that one
/// change alone reads, or its fault, the answers with ` / ` between. `cut N` leaves the first N bytes, `byte PLACE HEX`
/// has another byte at a place, `more HEX` has bytes behind the end, and `cuts` answers each first part of it, from none of
/// its bytes to all but the last.
///
/// A line of parts is `int HEX`, `str HEX`, `head HEX`, `entry HEX`, for an entry of a custom archive, or `file HEX`, for
/// one of a directory: what is read at the front of the bytes; or `minus N`: how -N is written.
pub fn answer(
    alloc: Global,
    kind: ArchiveKind,
    line: &str,
    out: &mut Vec<u8>,
) -> Result<(), AllocError> {
    match kind {
        ArchiveKind::Archive => archives::answer(alloc, line, out),
        ArchiveKind::Entry => entries::answer(alloc, line, out),
    }
}
