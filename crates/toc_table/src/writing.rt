//! Writing a table of contents.
ghost use Rattle.std.specs.Prelude.{◌≡◌, ◌<◌, ◌^◌, ◌++◌, length, All, OnOk, OnErr};
ghost use Rattle.copy_text.specs.Rows.{Extends};
ghost use Rattle.toc_layout.specs.Writable.{EntryCanBeWritten};
ghost use Rattle.toc_table.specs.Writing.{entries_text, toc_text};

use std::alloc::AllocError;
use toc_entry::Entry;
use toc_layout::write_entry;
use toc_parts::write_integer;

/// Appends the number of entries, and they. After an `Err` nothing was appended.
pub fn write_toc(entries: &[Entry], out: &mut Vec<u8>) -> Result<(), AllocError>
    requires count { length entries.now < 2 ^ 32 }
    requires each { All EntryCanBeWritten entries.now }
    ensures ok { OnOk result (out.new.items ≡ out.old.items ++ toc_text entries.now) }
    ensures err { OnErr result (out.new.items ≡ out.old.items) }
{
    let len = out.len();
    let written = write_all(entries, out);
    if written.is_err() {
        out.truncate(len);
    }
    written
}

fn write_all(entries: &[Entry], out: &mut Vec<u8>) -> Result<(), AllocError>
    requires count { length entries.now < 2 ^ 32 }
    requires each { All EntryCanBeWritten entries.now }
    ensures ok { OnOk result (out.new.items ≡ out.old.items ++ toc_text entries.now) }
    ensures kept { Extends out.old.items out.new.items }
{
    write_integer(entries.len() as i64, out)?;
    write_entries(entries, out)
}

fn write_entries(entries: &[Entry], out: &mut Vec<u8>) -> Result<(), AllocError>
    requires { All EntryCanBeWritten entries.now }
    ensures ok { OnOk result (out.new.items ≡ out.old.items ++ entries_text entries.now) }
    ensures kept { Extends out.old.items out.new.items }
{
    for entry in entries {
        write_entry(entry, out)?;
    }
    Ok(())
}
