ghost use Rattle.std.specs.Prelude.{◌≤◌, length, IfOk};

use crate::faults::FileFault;
use crate::holds::{Hold, Holdable, Holds};
use crate::kept::KeptFile;
use crate::staging::{Staging, Start};
use crate::steps::write_whole;
use crate::targets::file_size;
use std::alloc::Global;
use std::fs::OpenOptions;
use std::io::{ErrorKind, Seek, SeekFrom};
use std::{fs, io, rt};

/// The files of one run: those that it reads, and those that it has written and not yet put in place.
#[derive(Drop)]
pub(crate) struct Disk<R: rt::Files> {
    alloc: Global,
    rt: R,
    read: KeptFile<R>,
    written: Option<WrittenFile<R>>,
    staging: Staging,
    holds: Holds<R::File>,
}

/// The file that was written last, open at its end.
#[derive(Drop)]
struct WrittenFile<R: rt::Files> {
    name: String,
    file: R::File,
}

impl<R: rt::Files> Disk<R> {
    pub(crate) fn new(alloc: Global, rt: R) -> Disk<R> {
        Disk {
            alloc,
            rt,
            read: KeptFile::new(),
            written: None,
            staging: Staging::new(alloc),
            holds: Holds::new(alloc),
        }
    }

    /// The length of a file, `None` where it is absent.
    pub(crate) fn size(&self, name: &str) -> io::Result<Option<u64>> {
        file_size(&self.rt, self.staging.path_of(name))
    }

    /// Reads once from a place of a file on; an absent file is empty.
    pub(crate) fn read_at(&mut self, name: &str, at: u64, buffer: &mut [u8]) -> io::Result<usize>
        ensures { IfOk result (λ n. n ≤ length buffer.new) }
    {
        let path = self.staging.path_of(name);
        self.read.read_at(self.alloc, &self.rt, path, at, buffer)
    }

    /// Makes an empty file, and the folders on the way to it.
    pub(crate) fn make(&mut self, name: &str) -> io::Result<()> {
        self.written = None;
        let file = self.emptied(name)?;
        self.keep(name, file)
    }

    /// The file of a name, emptied or new.
    fn emptied(&mut self, name: &str) -> io::Result<R::File> {
        if self.staging.has(name) {
            return fs::create(&self.rt, self.staging.path_of(name));
        }
        self.staging.make_folders(&self.rt, name)?;
        let is_alone = self.holds.has_alone(name);
        self.staging.begin(&self.rt, name, Start::Empty, is_alone)
    }

    /// Keeps a file open for the next piece.
    fn keep(&mut self, name: &str, file: R::File) -> io::Result<()> {
        let name = String::from_str(self.alloc, name)?;
        self.written = Some(WrittenFile { name, file });
        Ok(())
    }

    /// Adds bytes at the end of a file, which is made where it is absent.
    pub(crate) fn append(&mut self, name: &str, bytes: &[u8]) -> io::Result<()> {
        let mut last = self.end_of(name)?;
        write_whole(&mut last.file, bytes)?;
        self.written = Some(last);
        Ok(())
    }

    /// A file, open at its end.
    fn end_of(&mut self, name: &str) -> io::Result<WrittenFile<R>> {
        match self.written.take() {
            Some(last) if last.name.as_str() == name => Ok(last),
            _ => self.open_end(name),
        }
    }

    fn open_end(&mut self, name: &str) -> io::Result<WrittenFile<R>> {
        self.stage(name)?;
        let path = self.staging.path_of(name);
        let file = OpenOptions::new()
            .append(true)
            .create(true)
            .open(&self.rt, path)?;
        let name = String::from_str(self.alloc, name)?;
        Ok(WrittenFile { name, file })
    }

    /// Stages a file with what it holds, where it wasn't written yet.
    fn stage(&mut self, name: &str) -> io::Result<()> {
        if self.staging.has(name) {
            return Ok(());
        }
        let is_alone = self.holds.has_alone(name);
        self.staging.begin(&self.rt, name, Start::Copied, is_alone)?;
        Ok(())
    }

    /// Writes bytes over those of a file from a place on.
    pub(crate) fn patch(&mut self, name: &str, at: u64, bytes: &[u8]) -> io::Result<()> {
        if self.size(name)?.is_none() {
            return Err(io::Error::from(ErrorKind::NotFound));
        }
        self.stage(name)?;
        patch_file(&self.rt, self.staging.path_of(name), at, bytes)
    }

    /// Puts all that was written in place. Where that fails, what isn't in place is removed, or left to the next run.
    pub(crate) fn put_in_place(&mut self) -> Result<(), FileFault> {
        self.close();
        let alone = self.holds.alone();
        let answer = self.staging.put_in_place(&self.rt, alone);
        self.staging.clear(&self.rt, alone);
        answer
    }

    /// Removes all that was written.
    pub(crate) fn discard(&mut self) {
        self.close();
        self.staging.clear(&self.rt, self.holds.alone());
    }

    /// Closes what is open.
    fn close(&mut self) {
        self.read.close();
        self.written = None;
    }
}

impl<R: rt::Files> Disk<R>
where
    R::File: Holdable,
{
    /// Holds a folder.
    pub(crate) fn hold(&mut self, folder: &str, hold: Hold) -> io::Result<()> {
        self.holds.add(&self.rt, folder, hold)
    }
}

/// Writes bytes over those of a file from a place on.
fn patch_file(rt: &impl rt::Files, path: &str, at: u64, bytes: &[u8]) -> io::Result<()> {
    let mut file = OpenOptions::new().write(true).open(rt, path)?;
    file.seek(SeekFrom::Start(at))?;
    write_whole(&mut file, bytes)
}
