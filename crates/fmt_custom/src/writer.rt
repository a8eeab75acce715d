//! Writing an archive in the custom format.
ghost use Rattle.std.specs.Prelude.{◌≡◌, ◌<◌, ◌^◌, ◌++◌, length, Some, None, OnOk, OnErr};
ghost use Rattle.copy_text.specs.Rows.{Extends};
ghost use Rattle.fmt_custom.specs.Blocks.{piece};
ghost use Rattle.fmt_custom.specs.Writing.{start_text};

use std::alloc::AllocError;
use toc_entry::{Entry, Extra, Head};
use toc_layout::{write_head, write_int};
use toc_parts::write_integer;
use toc_table::write_toc;

/// The head and the entries of a custom archive that is written: the front, and then the blocks one after another, each
/// a start, pieces and an end.
///
/// On a file the front is written anew in its place once the rows are out and the entries know the places of their
/// blocks: its length stays. <https://www.postgresql.org/docs/16/app-pgdump.html>
#[derive(Drop)]
pub struct CustomWriter {
    head: Head,
    entries: Vec<Entry>,
}

impl CustomWriter {
    ghost use Rattle.std.specs.Prelude.{◌≡◌, ◌≤◌, ◌<◌, ◌^◌, ◌++◌, length, All, Some, None, OnOk, OnErr, slice_set, slice_index_or};
    ghost use Rattle.copy_text.specs.Rows.{Extends};
    ghost use Rattle.toc_entry.specs.declared.entry.Entry.{Entry};
    ghost use Rattle.toc_layout.specs.Heads.{head_seen};
    ghost use Rattle.toc_layout.specs.Writable.{HeadCanBeWritten, EntryCanBeWritten};
    ghost use Rattle.fmt_custom.specs.Blocks.{piece};
    ghost use Rattle.fmt_custom.specs.Writing.{head_in_writer, entries_in_writer, front_text, placed_entry, start_text};

    /// A writer of these.
    pub fn new(head: Head, entries: Vec<Entry>) -> CustomWriter
        ensures head { head_in_writer result ≡ head_seen head }
        ensures entries { entries_in_writer result ≡ entries.items }
    {
        CustomWriter { head, entries }
    }

    /// Appends the head and the table of contents. After an `Err` nothing was appended.
    pub fn toc(&self, out: &mut Vec<u8>) -> Result<(), AllocError>
        requires head { HeadCanBeWritten (head_in_writer self.now) }
        requires count { length (entries_in_writer self.now) < 2 ^ 32 }
        requires each { All EntryCanBeWritten (entries_in_writer self.now) }
        ensures ok { OnOk result (out.new.items ≡ out.old.items ++ front_text (head_in_writer self.now) (entries_in_writer self.now)) }
        ensures err { OnErr result (out.new.items ≡ out.old.items) }
    {
        let len = out.len();
        let written = self.write_front(out);
        if written.is_err() {
            out.truncate(len);
        }
        written
    }

    fn write_front(&self, out: &mut Vec<u8>) -> Result<(), AllocError>
        requires head { HeadCanBeWritten (head_in_writer self.now) }
        requires count { length (entries_in_writer self.now) < 2 ^ 32 }
        requires each { All EntryCanBeWritten (entries_in_writer self.now) }
        ensures ok { OnOk result (out.new.items ≡ out.old.items ++ front_text (head_in_writer self.now) (entries_in_writer self.now)) }
        ensures kept { Extends out.old.items out.new.items }
    {
        write_head(&self.head, out)?;
        write_toc(&self.entries, out)
    }

    /// Tells an entry the place of its block, in bytes from the archive's start. It takes no memory.
    pub fn place(&mut self, index: usize, offset: u64)
        requires { index < length (entries_in_writer self.old) }
        ensures head { head_in_writer self.new ≡ head_in_writer self.old }
        ensures entries { (e : Entry) → entries_in_writer self.new
            ≡ slice_set (entries_in_writer self.old) index (placed_entry offset (slice_index_or (entries_in_writer self.old) index e)) }
    {
        let entry = &mut self.entries[index];
        entry.extra = Extra::Place { state: 2, offset };
    }

    /// Appends what begins the block of an entry: the byte 1 and its dump id. After an `Err` nothing was appended.
    pub fn block_start(&self, index: usize, out: &mut Vec<u8>) -> Result<(), AllocError>
        requires { index < length (entries_in_writer self.now) }
        ensures ok { (e : Entry) → OnOk result (out.new.items ≡ out.old.items ++ start_text (slice_index_or (entries_in_writer self.now) index e).dump_id) }
        ensures err { OnErr result (out.new.items ≡ out.old.items) }
    {
        start_block(self.entries[index].dump_id, out)
    }

    /// Appends a piece of rows: its length and it. After an `Err` nothing was appended.
    pub fn piece(&self, bytes: &[u8], out: &mut Vec<u8>) -> Result<(), AllocError>
        requires { (0 < length bytes.now) × (length bytes.now < 2 ^ 32) }
        ensures ok { OnOk result (out.new.items ≡ out.old.items ++ piece.write (Some bytes.now)) }
        ensures err { OnErr result (out.new.items ≡ out.old.items) }
    {
        let len = out.len();
        let written = write_piece(bytes, out);
        if written.is_err() {
            out.truncate(len);
        }
        written
    }

    /// Appends the end of a block. After an `Err` nothing was appended.
    pub fn block_end(&self, out: &mut Vec<u8>) -> Result<(), AllocError>
        ensures ok { OnOk result (out.new.items ≡ out.old.items ++ piece.write None) }
        ensures err { OnErr result (out.new.items ≡ out.old.items) }
    {
        end_block(out)
    }
}

/// Appends what begins the block of a dump id: the byte 1 and the id. After an `Err` nothing was appended.
pub fn start_block(id: u32, out: &mut Vec<u8>) -> Result<(), AllocError>
    ensures ok { OnOk result (out.new.items ≡ out.old.items ++ start_text id) }
    ensures err { OnErr result (out.new.items ≡ out.old.items) }
{
    let len = out.len();
    let written = write_start(id, out);
    if written.is_err() {
        out.truncate(len);
    }
    written
}

fn write_start(id: u32, out: &mut Vec<u8>) -> Result<(), AllocError>
    ensures ok { OnOk result (out.new.items ≡ out.old.items ++ start_text id) }
    ensures kept { Extends out.old.items out.new.items }
{
    out.push(1)?;
    write_integer(i64::from(id), out)
}

/// Appends the end of a block. After an `Err` nothing was appended.
#[tactic(auto, unfolding(crate::specs::Blocks::piece))]
pub fn end_block(out: &mut Vec<u8>) -> Result<(), AllocError>
    ensures ok { OnOk result (out.new.items ≡ out.old.items ++ piece.write None) }
    ensures err { OnErr result (out.new.items ≡ out.old.items) }
{
    write_int(0, out)
}

/// Appends a piece of rows: its length and it. What was there before stays in any case.
#[tactic(auto, unfolding(crate::specs::Blocks::piece))]
pub fn write_piece(bytes: &[u8], out: &mut Vec<u8>) -> Result<(), AllocError>
    requires { length bytes.now < 2 ^ 32 }
    ensures ok { OnOk result (out.new.items ≡ out.old.items ++ piece.write (Some bytes.now)) }
    ensures kept { Extends out.old.items out.new.items }
{
    write_integer(bytes.len() as i64, out)?;
    out.extend_from_slice(bytes)
}
