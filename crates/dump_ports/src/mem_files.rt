ghost use Rattle.std.specs.Prelude.{◌≡◌, ◌+◌, ◌≤◌, [], length, drop, Some, option_map, IfSome, IfOk, OnOk, OnErr, IsErr, IsOk, IsSome, IsTrue, is_err, min, ◌⊎◌, ◌||◌, if◌then◌else◌};
ghost use Rattle.std.specs.FinMap.{empty, insert};
ghost use Rattle.dump_ports.specs.Tree.{text_at, bytes_at, made, appended, patched, HasRange, TakesPrefix, FillsFront};
ghost use Rattle.dump_ports.specs.Faults.{CountsFault};
ghost use Rattle.dump_ports.specs.Memory.{one_more, next_call, next_fails, after_read, after_write, half};

use crate::calls::Calls;
use crate::failed::Failed;
use crate::files::Files;
use crate::front::fill_front;
use crate::texts::{Texts, append_text, make_text, patch_text, set_text, text_of};
use std::alloc::{AllocError, Global};
use std::collections::BTreeMap;
use std::marker::Model;

/// Files in memory, of which a test says which calls fail.
///
/// The calls of `Files` are counted from 1, and those whose numbers were given to `new` fail. A write that has to
/// grow and finds no memory fails too, and no other call does. Counts stop at 2^64 - 1.
#[derive(Drop)]
pub struct MemFiles {
    alloc: Global,
    texts: Texts,
    calls: Calls,
    read_faults: u64,
    write_faults: u64,
    starved: u64,
}

impl Model for MemFiles {
    ghost use Rattle.dump_ports.specs.Memory.{MemoryFiles, coded_files, seen};

    ghost Value = { MemoryFiles };

    ghost coded = { coded_files };

    ghost view = { λ m. record {
      tree = seen m.texts;
      calls = m.calls;
      read_faults = m.read_faults;
      write_faults = m.write_faults;
      starved = m.starved;
    } };
}

impl MemFiles {
    /// Holds no file, and fails the calls whose numbers, from 1, are in `fail`.
    pub fn new(alloc: Global, fail: Vec<u64>) -> MemFiles
        ensures { result ≡ record {
          tree = empty;
          calls = record { fail = fail.items; made = 0 };
          read_faults = 0;
          write_faults = 0;
          starved = 0;
        } }
    {
        MemFiles {
            alloc,
            texts: BTreeMap::new(alloc),
            calls: Calls::new(fail),
            read_faults: 0,
            write_faults: 0,
            starved: 0,
        }
    }

    /// How many calls failed for want of memory alone. Where no number was given to `new`, that is the count of
    /// write faults.
    pub fn starved(&self) -> u64
        ensures { result ≡ self.now.starved }
    {
        self.starved
    }

    /// Puts a text in place of what the name held. It is no call of `Files`. After an error the files are as they
    /// were.
    pub fn put(&mut self, name: &str, bytes: &[u8]) -> Result<(), AllocError>
        ensures ok { OnOk result (self.new ≡ record self.old { tree = insert self.old.tree name.now bytes.now }) }
        ensures err { OnErr result (self.new ≡ self.old) }
    {
        set_text(self.alloc, &mut self.texts, name, bytes)
    }

    /// The text of a name, `None` where it is absent. It is no call of `Files`.
    pub fn text(&self, name: &str) -> Option<&[u8]>
        ensures { option_map (λ text. text.now) result ≡ text_at self.now.tree name.now }
    {
        text_of(&self.texts, name)
    }

    /// Counts a call that reads, and fails it where it is to fail.
    fn read_call(&mut self) -> Result<(), Failed>
        ensures fails { is_err result ≡ next_fails self.old.calls }
        ensures after { self.new ≡ after_read result self.old }
        ensures read_count { CountsFault result self.old.read_faults self.new.read_faults }
    {
        if self.calls.begin() {
            self.read_faults = self.read_faults.saturating_add(1);
            return Err(Failed);
        }
        Ok(())
    }

    /// Counts a call that writes, and says whether it is to fail.
    fn begin_write(&mut self) -> bool
        ensures to_fail { result ≡ next_fails self.old.calls }
        ensures counted { self.new ≡ record self.old { calls = next_call self.old.calls } }
    {
        self.calls.begin()
    }

    /// Ends a call that writes: it fails where it was to, or where its growth found no memory.
    fn end_write(&mut self, to_fail: bool, is_starved: bool) -> Result<(), Failed>
        ensures fails { is_err result ≡ (to_fail || is_starved) }
        ensures ok { OnOk result (self.new ≡ self.old) }
        ensures err { OnErr result (self.new ≡ record self.old {
          write_faults = one_more self.old.write_faults;
          starved = if to_fail then self.old.starved else one_more self.old.starved;
        }) }
        ensures write_count { CountsFault result self.old.write_faults self.new.write_faults }
    {
        if to_fail {
            self.write_faults = self.write_faults.saturating_add(1);
            return Err(Failed);
        }
        if is_starved {
            self.write_faults = self.write_faults.saturating_add(1);
            self.starved = self.starved.saturating_add(1);
            return Err(Failed);
        }
        Ok(())
    }

    /// Gives a name the empty text.
    fn empty(&mut self, name: &str) -> Result<(), AllocError>
        ensures ok { OnOk result (self.new ≡ record self.old { tree = made name.now self.old.tree }) }
        ensures err { OnErr result (self.new ≡ self.old) }
        ensures there { IsSome (text_at self.old.tree name.now) → IsOk result }
    {
        make_text(self.alloc, &mut self.texts, name)
    }

    /// Adds bytes to a name's text.
    fn add(&mut self, name: &str, bytes: &[u8]) -> Result<(), AllocError>
        ensures ok { OnOk result (self.new ≡ record self.old { tree = appended name.now bytes.now self.old.tree }) }
        ensures err { OnErr result (self.new ≡ self.old) }
    {
        append_text(self.alloc, &mut self.texts, name, bytes)
    }

    /// Puts bytes in place of others.
    fn replace(&mut self, name: &str, at: u64, bytes: &[u8])
        requires { at + length bytes.now ≤ length (bytes_at self.old.tree name.now) }
        ensures { self.new ≡ record self.old { tree = patched name.now at bytes.now self.old.tree } }
    {
        patch_text(&mut self.texts, name, at as usize, bytes);
    }

    /// What a name's text has from a place on, nothing where it is absent.
    fn text_from(&self, name: &str, at: u64) -> &[u8]
        ensures { result.now ≡ drop at (bytes_at self.now.tree name.now) }
    {
        match self.text(name) {
            Some(text) if at <= text.len() as u64 => &text[at as usize..],
            _ => &[],
        }
    }
}

impl Files for MemFiles {
    ghost tree = { λ m. Some m.tree };

    ghost read_faults = { λ m. m.read_faults };

    ghost write_faults = { λ m. m.write_faults };

    fn size(&mut self, name: &str) -> Result<Option<u64>, Failed>
        ensures told { IfOk result (λ size. IfSome (Some self.old.tree)
            (λ t. size ≡ option_map (λ text. length text) (text_at t name.now))) }
        ensures kept { Some self.new.tree ≡ Some self.old.tree }
        ensures read_count { CountsFault result self.old.read_faults self.new.read_faults }
        ensures write_count { self.new.write_faults ≡ self.old.write_faults }
        ensures fails { is_err result ≡ next_fails self.old.calls }
        ensures after { self.new ≡ after_read result self.old }
    {
        self.read_call()?;
        Ok(self.text(name).map(|text| text.len() as u64))
    }

    fn read_at(&mut self, name: &str, at: u64, buffer: &mut [u8]) -> Result<usize, Failed>
        ensures fits { IfOk result (λ n. n ≤ length buffer.new) }
        ensures told { IfOk result (λ n. IfSome (Some self.old.tree)
            (λ t. FillsFront (drop at (bytes_at t name.now)) buffer.new n)) }
        ensures kept { Some self.new.tree ≡ Some self.old.tree }
        ensures read_count { CountsFault result self.old.read_faults self.new.read_faults }
        ensures write_count { self.new.write_faults ≡ self.old.write_faults }
        ensures fails { is_err result ≡ next_fails self.old.calls }
        ensures after { self.new ≡ after_read result self.old }
        ensures most { IfOk result (λ n. n ≡ min (length (drop at (bytes_at self.old.tree name.now))) (length buffer.new)) }
    {
        self.read_call()?;
        Ok(fill_front(self.text_from(name, at), buffer.len(), buffer))
    }

    /// A call that is to fail leaves the name as it was.
    fn make(&mut self, name: &str) -> Result<(), Failed>
        ensures ok { OnOk result (Some self.new.tree ≡ option_map (made name.now) (Some self.old.tree)) }
        ensures err { OnErr result (TakesPrefix (λ _. made name.now) [] (Some self.old.tree) (Some self.new.tree)) }
        ensures read_count { self.new.read_faults ≡ self.old.read_faults }
        ensures write_count { CountsFault result self.old.write_faults self.new.write_faults }
        ensures fails { IsTrue (next_fails self.old.calls) → IsErr result }
        ensures after { self.new ≡ after_write result self.new.tree self.old }
        ensures left { OnErr result (self.new.tree ≡ self.old.tree) }
        ensures there { IsSome (text_at self.old.tree name.now) → is_err result ≡ next_fails self.old.calls }
    {
        if self.begin_write() {
            return self.end_write(true, false);
        }
        let made = self.empty(name);
        self.end_write(false, made.is_err())
    }

    /// A call that is to fail adds the first half of the bytes, rounded down, or nothing where memory is short.
    fn append(&mut self, name: &str, bytes: &[u8]) -> Result<(), Failed>
        ensures ok { OnOk result (Some self.new.tree ≡ option_map (appended name.now bytes.now) (Some self.old.tree)) }
        ensures err { OnErr result (TakesPrefix (appended name.now) bytes.now (Some self.old.tree) (Some self.new.tree)) }
        ensures read_count { self.new.read_faults ≡ self.old.read_faults }
        ensures write_count { CountsFault result self.old.write_faults self.new.write_faults }
        ensures fails { IsTrue (next_fails self.old.calls) → IsErr result }
        ensures after { self.new ≡ after_write result self.new.tree self.old }
        ensures torn { OnErr result ((self.new.tree ≡ self.old.tree)
            ⊎ (IsTrue (next_fails self.old.calls) × (self.new.tree ≡ appended name.now (half bytes.now) self.old.tree))) }
    {
        let to_fail = self.begin_write();
        let added = self.add(name, taken(bytes, to_fail));
        self.end_write(to_fail, added.is_err())
    }

    /// A call that is to fail puts the first half of the bytes there, rounded down.
    fn patch(&mut self, name: &str, at: u64, bytes: &[u8]) -> Result<(), Failed>
        requires { HasRange (Some self.old.tree) name.now at (length bytes.now) }
        ensures ok { OnOk result (Some self.new.tree ≡ option_map (patched name.now at bytes.now) (Some self.old.tree)) }
        ensures err { OnErr result (TakesPrefix (patched name.now at) bytes.now (Some self.old.tree) (Some self.new.tree)) }
        ensures read_count { self.new.read_faults ≡ self.old.read_faults }
        ensures write_count { CountsFault result self.old.write_faults self.new.write_faults }
        ensures fails { is_err result ≡ next_fails self.old.calls }
        ensures after { self.new ≡ after_write result self.new.tree self.old }
        ensures torn { OnErr result (self.new.tree ≡ patched name.now at (half bytes.now) self.old.tree) }
    {
        let to_fail = self.begin_write();
        self.replace(name, at, taken(bytes, to_fail));
        self.end_write(to_fail, false)
    }
}

/// The bytes that a write takes: where it is to fail, the first half of them, rounded down.
fn taken(bytes: &[u8], to_fail: bool) -> &[u8]
    ensures { result.now ≡ (if to_fail then half bytes.now else bytes.now) }
{
    if to_fail {
        &bytes[..bytes.len() / 2]
    } else {
        bytes
    }
}
