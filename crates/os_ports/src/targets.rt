use crate::steps::is_absence;
use std::alloc::Global;
use std::fs::{Metadata, OpenFile, OpenOptions};
use std::io::ErrorKind;
use std::os::unix::fs::{MetadataExt, chown};
use std::path::Path;
use std::{fs, io, rt};

/// The permission bit by which a file's owner may write it.
const OWNER_WRITES: u32 = 0o200;

/// The permission bits of a file.
const PERMISSIONS: u32 = 0o777;

/// What stands under a name that is to be written.
#[derive(Drop)]
pub(crate) enum Target {
    /// Nothing.
    Absent,
    /// A file.
    File(FileTarget),
    /// What isn't replaced but written as it is: a device, a pipe, a link that leads nowhere, what is open already.
    Fixed,
}

/// A file, by its path behind all links.
#[derive(Drop)]
pub(crate) struct FileTarget {
    pub(crate) path: String,
    metadata: Metadata,
}

impl FileTarget {
    /// Its permission bits.
    pub(crate) fn permissions(&self) -> u32 {
        self.metadata.mode() & PERMISSIONS
    }
}

/// What stands under a name. A folder is an error.
pub(crate) fn target_of(alloc: Global, rt: &impl rt::Files, name: &str) -> io::Result<Target> {
    if is_open_already(name) {
        return Ok(Target::Fixed);
    }
    match fs::symlink_metadata(rt, name) {
        Ok(found) if found.is_symlink() => link_target(alloc, rt, name),
        Ok(found) => plain_target(String::from_str(alloc, name)?, found),
        Err(error) if is_absence(error.kind()) => Ok(Target::Absent),
        Err(error) => Err(error),
    }
}

/// Whether a name is one of the system's for what the process has open.
fn is_open_already(name: &str) -> bool {
    matches!(name, "/dev/stdin" | "/dev/stdout" | "/dev/stderr")
        || name.starts_with("/dev/fd/")
        || name.starts_with("/proc/")
}

/// What stands behind a link.
fn link_target(alloc: Global, rt: &impl rt::Files, name: &str) -> io::Result<Target> {
    match fs::metadata(rt, name) {
        Ok(found) => plain_target(rt.canonicalize(alloc, name)?.into_string(), found),
        Err(error) if is_absence(error.kind()) => Ok(Target::Fixed),
        Err(error) => Err(error),
    }
}

/// What stands under a path that is no link.
fn plain_target(path: String, metadata: Metadata) -> io::Result<Target> {
    if metadata.is_dir() {
        return Err(io::Error::from(ErrorKind::IsADirectory));
    }
    if metadata.is_file() {
        return Ok(Target::File(FileTarget { path, metadata }));
    }
    Ok(Target::Fixed)
}

/// Gives a new file the permissions of the one that it will replace, and its owner where the system allows that. The one
/// that it will replace has to be one that may be written.
pub(crate) fn take_after<F: OpenFile>(
    rt: &impl rt::Files,
    path: &str,
    file: &F,
    target: &FileTarget,
) -> io::Result<()> {
    let own = file.metadata()?;
    let other = &target.metadata;
    let is_own = own.uid() == other.uid() && own.gid() == other.gid();
    if !is_own || other.mode() & OWNER_WRITES == 0 {
        OpenOptions::new()
            .write(true)
            .open(rt, target.path.as_str())?;
    }
    if !is_own {
        let _ = chown(rt, path, Some(other.uid()), Some(other.gid()));
    }
    if !is_own || own.mode() != other.mode() {
        file.set_permissions(other.permissions())?;
    }
    Ok(())
}

/// The length of a file, `None` where it is absent.
pub(crate) fn file_size(rt: &impl rt::Files, name: &str) -> io::Result<Option<u64>> {
    match fs::metadata(rt, name) {
        Ok(found) if found.is_dir() => Err(io::Error::from(ErrorKind::IsADirectory)),
        Ok(found) => Ok(Some(found.len())),
        Err(error) if is_absence(error.kind()) => Ok(None),
        Err(error) => Err(error),
    }
}

/// The folder of a path.
pub(crate) fn folder_of(path: &str) -> &str {
    match Path::new(path).parent() {
        Some(folder) if !folder.as_str().is_empty() => folder.as_str(),
        _ => ".",
    }
}
