use crate::renames::{finish_list, has_list, path_below};
use std::alloc::Global;
use std::fs::{File, TryLockError};
use std::io::ErrorKind;
use std::path::Path;
use std::{fs, io, rt};

/// How a run uses a folder.
#[derive(Clone, Copy, Debug)]
pub enum Hold {
    /// It reads there, as others may.
    Shared,
    /// It writes there, and nobody else reads or writes.
    Alone,
}

/// What is open and can be held against other openings, until it is closed.
pub trait Holdable {
    /// Holds it without waiting. The answer is false where others hold it so that this can't be.
    fn try_hold(&self, hold: Hold) -> io::Result<bool>;
}

impl Holdable for File {
    fn try_hold(&self, hold: Hold) -> io::Result<bool> {
        let answer = match hold {
            Hold::Shared => self.try_lock_shared(),
            Hold::Alone => self.try_lock(),
        };
        match answer {
            Ok(()) => Ok(true),
            Err(TryLockError::WouldBlock) => Ok(false),
            Err(TryLockError::Error(error)) => Err(error),
        }
    }
}

/// A folder that is held as long as it is open.
#[derive(Drop)]
struct HeldFolder<F> {
    name: String,
    path: String,
    hold: Hold,
    _open: F,
}

/// The folders that a run holds.
#[derive(Drop)]
pub(crate) struct Holds<F> {
    alloc: Global,
    folders: Vec<HeldFolder<F>>,
}

impl<F> Holds<F> {
    /// No folder is held.
    pub(crate) fn new(alloc: Global) -> Holds<F> {
        Holds {
            alloc,
            folders: Vec::new(alloc),
        }
    }

    /// Whether a path lies in a folder that nobody else uses.
    pub(crate) fn has_alone(&self, path: &str) -> bool {
        for folder in &self.folders {
            let is_below = path_below(path, folder.name.as_str()).is_some();
            if folder.hold == Hold::Alone && is_below {
                return true;
            }
        }
        false
    }

    /// The first folder that nobody else uses.
    pub(crate) fn alone(&self) -> Option<&str> {
        for folder in &self.folders {
            if folder.hold == Hold::Alone {
                return Some(folder.name.as_str());
            }
        }
        None
    }

    /// Whether a folder is held so, or alone, under any of its names.
    fn has(&self, path: &str, hold: Hold) -> bool {
        for folder in &self.folders {
            if folder.path.as_str() == path && (folder.hold == hold || folder.hold == Hold::Alone) {
                return true;
            }
        }
        false
    }
}

impl<F: Holdable + Drop> Holds<F> {
    /// Holds a folder. What is no folder, may not be opened or can't be held on its file system is left.
    pub(crate) fn add<R: rt::Files<File = F>>(
        &mut self,
        rt: &R,
        name: &str,
        hold: Hold,
    ) -> io::Result<()> {
        if !Path::new(name).is_dir(rt) {
            return Ok(());
        }
        let path = rt.canonicalize(self.alloc, name)?.into_string();
        if self.has(path.as_str(), hold) {
            return Ok(());
        }
        match fs::open(rt, name) {
            Ok(open) => self.add_open(rt, name, path, hold, open),
            Err(error) if error.kind() == ErrorKind::PermissionDenied => Ok(()),
            Err(error) => Err(error),
        }
    }

    /// Holds a folder that is open.
    fn add_open<R: rt::Files<File = F>>(
        &mut self,
        rt: &R,
        name: &str,
        path: String,
        hold: Hold,
        open: F,
    ) -> io::Result<()> {
        match open.try_hold(hold) {
            Ok(true) => {}
            Ok(false) => return Err(in_use()),
            Err(_) => return Ok(()),
        }
        if has_list(self.alloc, rt, name)? {
            self.finish(rt, name, hold, &open)?;
        }
        let name = String::from_str(self.alloc, name)?;
        self.folders.push(HeldFolder {
            name,
            path,
            hold,
            _open: open,
        })?;
        Ok(())
    }

    /// Goes on with the renames of a run that was cut off among them, while nobody else uses the folder.
    fn finish<R: rt::Files<File = F>>(
        &self,
        rt: &R,
        name: &str,
        hold: Hold,
        open: &F,
    ) -> io::Result<()> {
        must_hold(open, Hold::Alone)?;
        finish_list(self.alloc, rt, name)?;
        must_hold(open, hold)
    }
}

/// Holds what is open, or fails.
fn must_hold<F: Holdable>(open: &F, hold: Hold) -> io::Result<()> {
    if open.try_hold(hold)? {
        return Ok(());
    }
    Err(in_use())
}

/// The error of what others hold.
fn in_use() -> io::Error {
    io::Error::new(ErrorKind::ResourceBusy, "in use by another run")
}
