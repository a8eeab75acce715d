use crate::faults::{FileFault, named};
use crate::renames::{
    flush_folder, is_listable, path_below, remove_list, removed_at_error, staged_beside, write_list,
};
use crate::targets::{FileTarget, Target, folder_of, take_after, target_of};
use std::alloc::Global;
use std::collections::BTreeMap;
use std::fs::{OpenFile, OpenOptions};
use std::io::ErrorKind;
use std::os::unix::fs::OpenOptionsExt;
use std::path::Path;
use std::{fs, io, rt};

/// What a run has written and not yet put in place: each file stands beside its target, under a name of its own.
#[derive(Drop)]
pub(crate) struct Staging {
    alloc: Global,
    paths: BTreeMap<String, String>,
    files: Vec<StagedFile>,
    folders: Vec<String>,
    folder: String,
    number: u64,
    is_listed: bool,
}

/// A file that was written, in the order of writing.
#[derive(Drop)]
struct StagedFile {
    number: u64,
    path: String,
    target: String,
    is_in_place: bool,
}

/// A file that was made, and its path.
#[derive(Drop)]
struct NewFile<F> {
    number: u64,
    path: String,
    file: F,
}

/// What a file holds at first.
#[derive(Clone, Copy)]
pub(crate) enum Start {
    /// Nothing.
    Empty,
    /// What its name held.
    Copied,
}

impl Staging {
    /// Nothing was written.
    pub(crate) fn new(alloc: Global) -> Staging {
        Staging {
            alloc,
            paths: BTreeMap::new(alloc),
            files: Vec::new(alloc),
            folders: Vec::new(alloc),
            folder: String::new(alloc),
            number: 0,
            is_listed: false,
        }
    }

    /// Whether a name was written.
    pub(crate) fn has(&self, name: &str) -> bool {
        self.paths.get(name).is_some()
    }

    /// The path at which a name is read and written.
    pub(crate) fn path_of<'a>(&'a self, name: &'a str) -> &'a str {
        match self.paths.get(name) {
            Some(path) => path.as_str(),
            None => name,
        }
    }

    /// Begins the file of a name that wasn't written yet. It is open at its start, whatever it holds at first.
    ///
    /// Nobody else stages files where it `is_alone`, so one that stands there was left by a run that was cut off.
    pub(crate) fn begin<R: rt::Files>(
        &mut self,
        rt: &R,
        name: &str,
        start: Start,
        is_alone: bool,
    ) -> io::Result<R::File> {
        match target_of(self.alloc, rt, name)? {
            Target::Absent => self.stage_new(rt, name, is_alone),
            Target::File(found) => self.stage_over(rt, name, found, start, is_alone),
            Target::Fixed => self.open_fixed(rt, name, start),
        }
    }

    /// Opens what is written as it is.
    fn open_fixed<R: rt::Files>(
        &mut self,
        rt: &R,
        name: &str,
        start: Start,
    ) -> io::Result<R::File> {
        let mut options = OpenOptions::new();
        options.write(true).create(true);
        options.truncate(start == Start::Empty);
        let file = options.open(rt, name)?;
        self.note_path(name, name)?;
        Ok(file)
    }

    /// Stages a name that is absent.
    fn stage_new<R: rt::Files>(
        &mut self,
        rt: &R,
        name: &str,
        is_alone: bool,
    ) -> io::Result<R::File> {
        let new = self.create_beside(rt, name, 0o666, is_alone)?;
        let answer = self.note_file(name, &new, name);
        removed_at_error(rt, new.path.as_str(), answer)?;
        Ok(new.file)
    }

    /// Stages a name that has a file.
    fn stage_over<R: rt::Files>(
        &mut self,
        rt: &R,
        name: &str,
        found: FileTarget,
        start: Start,
        is_alone: bool,
    ) -> io::Result<R::File> {
        let mode = found.permissions();
        let new = self.create_beside(rt, found.path.as_str(), mode, is_alone)?;
        let answer = self.note_filled(rt, name, &new, &found, start);
        removed_at_error(rt, new.path.as_str(), answer)?;
        Ok(new.file)
    }

    /// Fills a file that was made, and notes it.
    fn note_filled<R: rt::Files>(
        &mut self,
        rt: &R,
        name: &str,
        new: &NewFile<R::File>,
        found: &FileTarget,
        start: Start,
    ) -> io::Result<()> {
        if start == Start::Copied {
            fs::copy(rt, found.path.as_str(), new.path.as_str())?;
        }
        take_after(rt, new.path.as_str(), &new.file, found)?;
        self.note_file(name, new, found.path.as_str())
    }

    /// Makes an empty file beside a path, under a name that nothing has.
    fn create_beside<R: rt::Files>(
        &mut self,
        rt: &R,
        path: &str,
        mode: u32,
        is_alone: bool,
    ) -> io::Result<NewFile<R::File>> {
        for _ in 0..u64::MAX {
            let number = self.number;
            self.number = number.saturating_add(1);
            let beside = staged_beside(self.alloc, path, number)?;
            match create_new(rt, beside.as_str(), mode, is_alone) {
                Ok(file) => {
                    return Ok(NewFile {
                        number,
                        path: beside,
                        file,
                    });
                }
                Err(error) if error.kind() == ErrorKind::AlreadyExists => {}
                Err(error) => return Err(error),
            }
        }
        Err(io::Error::from(ErrorKind::AlreadyExists))
    }

    /// Notes a file that was made, and the path of its name.
    fn note_file<F>(&mut self, name: &str, new: &NewFile<F>, target: &str) -> io::Result<()> {
        self.files.push(StagedFile {
            number: new.number,
            path: new.path.clone()?,
            target: String::from_str(self.alloc, target)?,
            is_in_place: false,
        })?;
        self.note_path(name, new.path.as_str())
    }

    /// Notes the path of a name.
    fn note_path(&mut self, name: &str, path: &str) -> io::Result<()> {
        let name = String::from_str(self.alloc, name)?;
        let path = String::from_str(self.alloc, path)?;
        self.paths.insert(name, path)?;
        Ok(())
    }

    /// Makes the folders that are missing on the way to a file, the outer ones first.
    pub(crate) fn make_folders(&mut self, rt: &impl rt::Files, name: &str) -> io::Result<()> {
        let folder = folder_of(name);
        if self.folder.as_str() == folder {
            return Ok(());
        }
        if !Path::new(folder).is_dir(rt) {
            self.make_missing(rt, folder)?;
        }
        self.folder = String::from_str(self.alloc, folder)?;
        Ok(())
    }

    /// Makes a folder and those on the way to it.
    fn make_missing(&mut self, rt: &impl rt::Files, folder: &str) -> io::Result<()> {
        for end in 1..folder.len() {
            if let Some((outer, rest)) = folder.split_at_checked(end)
                && rest.starts_with('/')
            {
                self.make_folder(rt, outer)?;
            }
        }
        self.make_folder(rt, folder)
    }

    /// Makes a folder where it is missing. It can't stand where the run has written a file.
    fn make_folder(&mut self, rt: &impl rt::Files, folder: &str) -> io::Result<()> {
        if self.has(folder) {
            return Err(io::Error::from(ErrorKind::NotADirectory));
        }
        let note = String::from_str(self.alloc, folder)?;
        match fs::create_dir(rt, folder) {
            Ok(()) => Ok(self.folders.push(note)?),
            Err(_) if Path::new(folder).is_dir(rt) => Ok(()),
            Err(error) => Err(error),
        }
    }

    /// Puts all files in place: each is flushed to its device, then they are renamed in the order of writing, then
    /// their folders are flushed. Where a step fails, the later ones aren't done.
    ///
    /// In a folder that nobody else uses, the renames are listed before the first one and until the last one is flushed.
    pub(crate) fn put_in_place(
        &mut self,
        rt: &impl rt::Files,
        alone: Option<&str>,
    ) -> Result<(), FileFault> {
        self.flush_files(rt)?;
        self.list(rt, alone)?;
        self.rename_files(rt)?;
        self.flush_their_folders(rt)?;
        self.flush_new_folders(rt)?;
        self.unlist(rt, alone)
    }

    /// Lists the renames in a folder, where there are several.
    fn list(&mut self, rt: &impl rt::Files, alone: Option<&str>) -> Result<(), FileFault> {
        match alone {
            Some(folder) if self.files.len() > 1 => {
                let answer = self.write_lines(rt, folder);
                named(self.alloc, folder, answer)
            }
            _ => Ok(()),
        }
    }

    fn write_lines(&mut self, rt: &impl rt::Files, folder: &str) -> io::Result<()> {
        let lines = self.lines(folder)?;
        if lines.is_empty() {
            return Ok(());
        }
        self.is_listed = true;
        write_list(self.alloc, rt, folder, lines.as_str())
    }

    /// The lines of the renames below a folder.
    fn lines(&self, folder: &str) -> io::Result<String> {
        let mut lines = String::new(self.alloc);
        for file in &self.files {
            if let Some(name) = path_below(file.target.as_str(), folder)
                && is_listable(name)
            {
                writeln!(lines, "{} {name}", file.number)?;
            }
        }
        Ok(lines)
    }

    /// Removes the list.
    fn unlist(&mut self, rt: &impl rt::Files, alone: Option<&str>) -> Result<(), FileFault> {
        match alone {
            Some(folder) if self.is_listed => {
                named(self.alloc, folder, remove_list(self.alloc, rt, folder))?;
                self.is_listed = false;
                Ok(())
            }
            _ => Ok(()),
        }
    }

    fn flush_files(&self, rt: &impl rt::Files) -> Result<(), FileFault> {
        for file in &self.files {
            let answer = flush(rt, file.path.as_str());
            named(self.alloc, file.target.as_str(), answer)?;
        }
        Ok(())
    }

    fn rename_files(&mut self, rt: &impl rt::Files) -> Result<(), FileFault> {
        for file in &mut self.files {
            let answer = fs::rename(rt, file.path.as_str(), file.target.as_str());
            named(self.alloc, file.target.as_str(), answer)?;
            file.is_in_place = true;
        }
        Ok(())
    }

    /// Flushes the folders of the files, each once for files that follow one another.
    fn flush_their_folders(&self, rt: &impl rt::Files) -> Result<(), FileFault> {
        let mut last = "";
        for file in &self.files {
            let folder = folder_of(file.target.as_str());
            if folder != last {
                named(self.alloc, folder, flush_folder(rt, folder))?;
                last = folder;
            }
        }
        Ok(())
    }

    /// Flushes the folders of those that were made.
    fn flush_new_folders(&self, rt: &impl rt::Files) -> Result<(), FileFault> {
        for folder in &self.folders {
            let outer = folder_of(folder.as_str());
            named(self.alloc, outer, flush_folder(rt, outer))?;
        }
        Ok(())
    }

    /// Forgets all. The files that aren't in place are removed, and the folders that were made and are empty; but where
    /// a first file is in place and the renames are listed, the rest is left to the next run.
    pub(crate) fn clear(&mut self, rt: &impl rt::Files, alone: Option<&str>) {
        if !self.is_listed || !self.has_begun() {
            let _ = self.unlist(rt, alone);
            self.remove_files(rt);
            self.remove_folders(rt);
        }
        *self = Staging::new(self.alloc);
    }

    /// Whether a file is in place.
    fn has_begun(&self) -> bool {
        for file in &self.files {
            if file.is_in_place {
                return true;
            }
        }
        false
    }

    fn remove_files(&self, rt: &impl rt::Files) {
        for file in &self.files {
            if !file.is_in_place {
                let _ = fs::remove_file(rt, file.path.as_str());
            }
        }
    }

    fn remove_folders(&self, rt: &impl rt::Files) {
        for folder in self.folders.iter().rev() {
            let _ = fs::remove_dir(rt, folder.as_str());
        }
    }
}

/// Makes an empty file under a name that nothing has. Where nobody else makes such files, one that has it is removed.
fn create_new<R: rt::Files>(rt: &R, path: &str, mode: u32, is_alone: bool) -> io::Result<R::File> {
    let mut options = OpenOptions::new();
    options.write(true).create_new(true).mode(mode);
    match options.open(rt, path) {
        Err(error) if is_alone && error.kind() == ErrorKind::AlreadyExists => {
            fs::remove_file(rt, path)?;
            options.open(rt, path)
        }
        answer => answer,
    }
}

/// Waits until a file has reached its device.
fn flush(rt: &impl rt::Files, path: &str) -> io::Result<()> {
    fs::open(rt, path)?.sync_all()
}
