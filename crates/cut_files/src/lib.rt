//! The system's files, of which calls fail: for tests that cut a run.
#![tactic(auto)]

use os_ports::{Hold, Holdable};
use std::alloc::Allocator;
use std::cell::Cell;
use std::fs::{File, FileTimes, Metadata, OpenFile, OpenOptions, Permissions};
use std::io::{ErrorKind, Read, Seek, SeekFrom, Write};
use std::path::PathBuf;
use std::{fs, io, rt};

/// Which calls fail: those behind the first so many, or of these the first alone.
#[derive(Clone, Copy, Debug)]
pub enum Cut {
    /// All: the run has ended there.
    All,
    /// One.
    One,
}

/// A count of calls that still succeed.
#[derive(Drop)]
pub struct Calls {
    left: Cell<u64>,
    cut: Cut,
    has_failed: Cell<bool>,
}

impl Calls {
    /// The first `left` calls succeed.
    pub fn new(left: u64, cut: Cut) -> Calls {
        Calls {
            left: Cell::new(left),
            cut,
            has_failed: Cell::new(false),
        }
    }

    /// Whether a call has failed.
    pub fn has_failed(&self) -> bool {
        self.has_failed.get()
    }

    /// Counts a call.
    fn count(&self) -> io::Result<()> {
        let left = self.left.get();
        if left > 0 {
            self.left.set(left - 1);
            return Ok(());
        }
        self.has_failed.set(true);
        if self.cut == Cut::One {
            self.left.set(u64::MAX);
        }
        Err(io::Error::from(ErrorKind::Other))
    }
}

/// The files of a system, with a count of its calls.
#[derive(Drop)]
pub struct CutFiles<'a, R> {
    /// The system.
    pub rt: &'a R,
    /// The count.
    pub calls: &'a Calls,
}

/// An open file, with a count of its calls.
#[derive(Drop)]
pub struct CutFile<'a> {
    file: File,
    calls: &'a Calls,
}

impl<'a> Read for CutFile<'a> {
    fn read(&mut self, buffer: &mut [u8]) -> io::Result<usize> {
        self.calls.count()?;
        self.file.read(buffer)
    }
}

impl<'a> Write for CutFile<'a> {
    fn write(&mut self, bytes: &[u8]) -> io::Result<usize> {
        self.calls.count()?;
        self.file.write(bytes)
    }

    fn flush(&mut self) -> io::Result<()> {
        self.file.flush()
    }
}

impl<'a> Seek for CutFile<'a> {
    fn seek(&mut self, to: SeekFrom) -> io::Result<u64> {
        self.calls.count()?;
        self.file.seek(to)
    }
}

impl<'a> OpenFile for CutFile<'a> {
    fn metadata(&self) -> io::Result<Metadata> {
        self.calls.count()?;
        self.file.metadata()
    }

    fn set_len(&self, size: u64) -> io::Result<()> {
        self.calls.count()?;
        self.file.set_len(size)
    }

    fn sync_all(&self) -> io::Result<()> {
        self.calls.count()?;
        self.file.sync_all()
    }

    fn sync_data(&self) -> io::Result<()> {
        self.calls.count()?;
        self.file.sync_data()
    }

    fn set_times(&self, times: FileTimes) -> io::Result<()> {
        self.calls.count()?;
        self.file.set_times(times)
    }
}

impl<'a> Holdable for CutFile<'a> {
    fn try_hold(&self, hold: Hold) -> io::Result<bool> {
        self.calls.count()?;
        self.file.try_hold(hold)
    }
}

impl<'a, R: rt::Files<File = File>> rt::Files for CutFiles<'a, R> {
    type File = CutFile<'a>;

    type Dir = File;

    fn open_file(&self, how: &OpenOptions, path: &str) -> io::Result<CutFile<'a>> {
        self.calls.count()?;
        let file = self.rt.open_file(how, path)?;
        Ok(CutFile {
            file,
            calls: self.calls,
        })
    }

    fn open_dir(&self, _path: &str) -> io::Result<File> {
        Err(io::Error::from(ErrorKind::Unsupported))
    }

    fn metadata(&self, path: &str) -> io::Result<Metadata> {
        self.calls.count()?;
        self.rt.metadata(path)
    }

    fn symlink_metadata(&self, path: &str) -> io::Result<Metadata> {
        self.calls.count()?;
        self.rt.symlink_metadata(path)
    }

    fn copy(&self, from: &str, to: &str) -> io::Result<u64> {
        self.calls.count()?;
        self.rt.copy(from, to)
    }

    fn rename(&self, from: &str, to: &str) -> io::Result<()> {
        self.calls.count()?;
        self.rt.rename(from, to)
    }

    fn remove_file(&self, path: &str) -> io::Result<()> {
        self.calls.count()?;
        self.rt.remove_file(path)
    }

    fn create_dir(&self, path: &str) -> io::Result<()> {
        self.calls.count()?;
        self.rt.create_dir(path)
    }

    fn remove_dir(&self, path: &str) -> io::Result<()> {
        self.calls.count()?;
        self.rt.remove_dir(path)
    }

    fn remove_dir_all<B: Allocator>(&self, _alloc: B, _path: &str) -> io::Result<()> {
        Err(io::Error::from(ErrorKind::Unsupported))
    }

    fn canonicalize<B: Allocator>(&self, alloc: B, path: &str) -> io::Result<PathBuf<B>> {
        self.calls.count()?;
        self.rt.canonicalize(alloc, path)
    }

    fn set_permissions(&self, path: &str, permissions: Permissions) -> io::Result<()> {
        self.calls.count()?;
        self.rt.set_permissions(path, permissions)
    }
}
