ghost use Rattle.std.specs.Prelude.{◌≡◌, None};
ghost use Rattle.dump_ports.specs.Faults.{CountsFault};

use crate::disk::Disk;
use crate::faults::{FileFault, named, noted};
use crate::holds::{Hold, Holdable};
use dump_ports::{Failed, Files};
use std::alloc::Global;
use std::marker::Model;
use std::rt;

/// The files of the operating system by their paths, as one run of a tool sees and writes them.
///
/// A directory is no file: each call on one fails. A name below a file is absent. `make` makes the folders that are
/// missing on the way to a file. What is written stands beside its target, under a name of its own, until `commit`; the
/// same object reads it under its target's name. Devices, pipes and links that lead nowhere are written at once.
/// Contracts see the two counts of failed calls, which stop at 2^64 - 1.
#[derive(Drop)]
pub struct OsFiles<R: rt::Files> {
    alloc: Global,
    disk: Disk<R>,
    first: Option<FileFault>,
    read_faults: u64,
    write_faults: u64,
}

impl<R: rt::Files> Model for OsFiles<R> {
    ghost use Rattle.os_ports.specs.Counts.{FileFaults};

    ghost Value = { FileFaults };

    ghost view = { λ f. record { read = f.read_faults; write = f.write_faults } };
}

impl<R: rt::Files> OsFiles<R> {
    /// No call has failed so far.
    pub fn new(alloc: Global, rt: R) -> OsFiles<R>
        ensures { result ≡ record { read = 0; write = 0 } }
    {
        OsFiles {
            alloc,
            disk: Disk::new(alloc, rt),
            first: None,
            read_faults: 0,
            write_faults: 0,
        }
    }

    /// Puts all that was written in place: each file is flushed to its device, then they are renamed in the order of
    /// writing, then their folders are flushed.
    ///
    /// After an error no file has changed, or the first ones in the order of writing hold what was written and the
    /// others what they held. What isn't in place is removed; but where a first file is in place, in a folder that this
    /// run holds alone, the next run that holds the folder puts the others in place.
    pub fn commit(&mut self) -> Result<(), Failed>
        ensures read_count { self.new.read ≡ self.old.read }
        ensures write_count { CountsFault result self.old.write self.new.write }
    {
        let answer = self.disk.put_in_place();
        noted(answer, &mut self.first, &mut self.write_faults)
    }

    /// Removes all that was written and isn't in place.
    pub fn discard(&mut self)
        ensures { self.new ≡ self.old }
    {
        self.disk.discard();
    }

    /// The first call that failed since this was asked last, where one did.
    pub fn take_fault(&mut self) -> Option<FileFault>
        ensures { self.new ≡ self.old }
    {
        self.first.take()
    }
}

impl<R: rt::Files> OsFiles<R>
where
    R::File: Holdable,
{
    /// Holds a folder against other runs, until this object is dropped or the process ends. Nothing waits: where others
    /// hold it so that this can't be, that is an error. Where a run was cut off while it put files in place, that is
    /// brought to its end first.
    ///
    /// What is no folder, may not be opened, or stands on a file system that can't hold it, is left.
    pub fn hold(&mut self, folder: &str, hold: Hold) -> Result<(), Failed>
        ensures read_count { CountsFault result self.old.read self.new.read }
        ensures write_count { self.new.write ≡ self.old.write }
    {
        let answer = named(self.alloc, folder, self.disk.hold(folder, hold));
        noted(answer, &mut self.first, &mut self.read_faults)
    }
}

impl<R: rt::Files> Files for OsFiles<R> {
    ghost tree = { λ _. None };

    ghost read_faults = { λ f. f.read };

    ghost write_faults = { λ f. f.write };

    fn size(&mut self, name: &str) -> Result<Option<u64>, Failed> {
        let answer = named(self.alloc, name, self.disk.size(name));
        noted(answer, &mut self.first, &mut self.read_faults)
    }

    fn read_at(&mut self, name: &str, at: u64, buffer: &mut [u8]) -> Result<usize, Failed> {
        let answer = named(self.alloc, name, self.disk.read_at(name, at, buffer));
        noted(answer, &mut self.first, &mut self.read_faults)
    }

    fn make(&mut self, name: &str) -> Result<(), Failed> {
        let answer = named(self.alloc, name, self.disk.make(name));
        noted(answer, &mut self.first, &mut self.write_faults)
    }

    fn append(&mut self, name: &str, bytes: &[u8]) -> Result<(), Failed> {
        let answer = named(self.alloc, name, self.disk.append(name, bytes));
        noted(answer, &mut self.first, &mut self.write_faults)
    }

    fn patch(&mut self, name: &str, at: u64, bytes: &[u8]) -> Result<(), Failed> {
        let answer = named(self.alloc, name, self.disk.patch(name, at, bytes));
        noted(answer, &mut self.first, &mut self.write_faults)
    }
}
