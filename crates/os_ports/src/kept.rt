ghost use Rattle.std.specs.Prelude.{◌≤◌, length, IfOk};

use crate::steps::{is_absence, read_once};
use std::alloc::Global;
use std::io::{Read, Seek, SeekFrom};
use std::{fs, io, rt};

/// The file that was read last, which stays open for the next read.
///
/// It is opened anew where another name is read, where a read failed, and where there was no memory to keep its name.
#[derive(Drop)]
pub(crate) struct KeptFile<R: rt::Files> {
    last: Option<NamedFile<R>>,
}

#[derive(Drop)]
struct NamedFile<R: rt::Files> {
    name: String,
    open: OpenAt<R::File>,
}

/// An open file, and the place at which the next read begins.
#[derive(Drop)]
struct OpenAt<F> {
    file: F,
    at: u64,
}

impl<F: Read + Seek> OpenAt<F> {
    /// Reads once from a place on. What has no places, as a pipe, is read in its order alone.
    fn read_at(&mut self, at: u64, buffer: &mut [u8]) -> io::Result<usize>
        ensures { IfOk result (λ n. n ≤ length buffer.new) }
    {
        if self.at != at {
            self.file.seek(SeekFrom::Start(at))?;
        }
        let n = read_once(&mut self.file, buffer)?;
        self.at = at.saturating_add(n as u64);
        Ok(n)
    }
}

impl<R: rt::Files> KeptFile<R> {
    pub(crate) fn new() -> KeptFile<R> {
        KeptFile { last: None }
    }

    /// Keeps no file open.
    pub(crate) fn close(&mut self) {
        self.last = None;
    }

    /// Reads once from a place of a file on; an absent file is empty.
    pub(crate) fn read_at(
        &mut self,
        alloc: Global,
        rt: &R,
        name: &str,
        at: u64,
        buffer: &mut [u8],
    ) -> io::Result<usize>
        ensures { IfOk result (λ n. n ≤ length buffer.new) }
    {
        match self.last.take() {
            Some(last) if last.name.as_str() == name => self.read_kept(last, at, buffer),
            _ => self.read_opened(alloc, rt, name, at, buffer),
        }
    }

    /// Reads once from the open file, and keeps it.
    fn read_kept(&mut self, mut last: NamedFile<R>, at: u64, buffer: &mut [u8]) -> io::Result<usize>
        ensures { IfOk result (λ n. n ≤ length buffer.new) }
    {
        let n = last.open.read_at(at, buffer)?;
        self.last = Some(last);
        Ok(n)
    }

    /// Opens a file, reads once from it, and keeps it.
    fn read_opened(
        &mut self,
        alloc: Global,
        rt: &R,
        name: &str,
        at: u64,
        buffer: &mut [u8],
    ) -> io::Result<usize>
        ensures { IfOk result (λ n. n ≤ length buffer.new) }
    {
        let file = match fs::open(rt, name) {
            Ok(file) => file,
            Err(error) if is_absence(error.kind()) => return Ok(0),
            Err(error) => return Err(error),
        };
        let mut open = OpenAt { file, at: 0 };
        let n = open.read_at(at, buffer)?;
        if let Ok(name) = String::from_str(alloc, name) {
            self.last = Some(NamedFile { name, open });
        }
        Ok(n)
    }
}
