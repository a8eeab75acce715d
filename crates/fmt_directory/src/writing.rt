//! Writing `toc.dat`.
ghost use Rattle.std.specs.Prelude.{◌≡◌, ◌<◌, ◌^◌, ◌++◌, length, All, OnOk, OnErr};
ghost use Rattle.copy_text.specs.Rows.{Extends};
ghost use Rattle.toc_layout.specs.Heads.{head_seen, head as head_part};
ghost use Rattle.toc_layout.specs.Writable.{HeadCanBeWritten, EntryCanBeWritten};
ghost use Rattle.toc_table.specs.Writing.{toc_text};

use std::alloc::AllocError;
use toc_entry::{Entry, Head};
use toc_layout::write_head;
use toc_table::write_toc;

/// Appends the text of `toc.dat`: the head and the entries. After an `Err` nothing was appended.
///
/// It reads as these where the head's format is 3 or 5, each entry's extra is a file, and the dump ids are distinct.
/// <https://www.postgresql.org/docs/16/app-pgdump.html>
pub fn dir_toc(head: &Head, entries: &[Entry], out: &mut Vec<u8>) -> Result<(), AllocError>
    requires head { HeadCanBeWritten (head_seen head.now) }
    requires count { length entries.now < 2 ^ 32 }
    requires each { All EntryCanBeWritten entries.now }
    ensures ok { OnOk result (out.new.items ≡ out.old.items ++ (head_part.write (head_seen head.now) ++ toc_text entries.now)) }
    ensures err { OnErr result (out.new.items ≡ out.old.items) }
{
    let len = out.len();
    let written = write_both(head, entries, out);
    if written.is_err() {
        out.truncate(len);
    }
    written
}

fn write_both(head: &Head, entries: &[Entry], out: &mut Vec<u8>) -> Result<(), AllocError>
    requires head { HeadCanBeWritten (head_seen head.now) }
    requires count { length entries.now < 2 ^ 32 }
    requires each { All EntryCanBeWritten entries.now }
    ensures ok { OnOk result (out.new.items ≡ out.old.items ++ (head_part.write (head_seen head.now) ++ toc_text entries.now)) }
    ensures kept { Extends out.old.items out.new.items }
{
    write_head(head, out)?;
    write_toc(entries, out)
}
