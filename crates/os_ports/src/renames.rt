//! Renames that belong together are listed before the first of them, so that a run that comes later can go on with them.
use crate::steps::{is_absence, write_whole};
use crate::targets::folder_of;
use std::alloc::Global;
use std::fs::OpenFile;
use std::io::{ErrorKind, Read};
use std::path::Path;
use std::{fs, io, rt};

/// The list in its folder.
const LIST: &str = ".pgtools-list";

/// What it is called until it is whole.
const PART: &str = ".pgtools-part";

/// The path of a staged file beside its target.
pub(crate) fn staged_beside(alloc: Global, target: &str, number: u64) -> io::Result<String> {
    let name = format!(in alloc; ".pgtools-{number}")?;
    let path = Path::new(target).with_file_name(alloc, name.as_str())?;
    Ok(path.into_string())
}

/// The path of a file in a folder.
fn path_in(alloc: Global, folder: &str, name: &str) -> io::Result<String> {
    Ok(format!(in alloc; "{folder}/{name}")?)
}

/// A path without its folder, where it lies below that folder.
pub(crate) fn path_below<'a>(path: &'a str, folder: &str) -> Option<&'a str> {
    path.strip_prefix(folder)?.strip_prefix('/')
}

/// Whether a path below a folder can stand in a line.
pub(crate) fn is_listable(name: &str) -> bool {
    !name.contains('\n') && !name.contains("..")
}

/// Puts a list into a folder, whole or not at all: in each line the number of a staged file and the path of its target.
pub(crate) fn write_list(
    alloc: Global,
    rt: &impl rt::Files,
    folder: &str,
    lines: &str,
) -> io::Result<()> {
    let list = path_in(alloc, folder, LIST)?;
    let part = path_in(alloc, folder, PART)?;
    let answer = write_flushed(rt, part.as_str(), lines);
    removed_at_error(rt, part.as_str(), answer)?;
    let answer = fs::rename(rt, part.as_str(), list.as_str());
    removed_at_error(rt, part.as_str(), answer)?;
    flush_folder(rt, folder)
}

/// Writes a file, and waits until it has reached its device.
fn write_flushed(rt: &impl rt::Files, path: &str, text: &str) -> io::Result<()> {
    let mut file = fs::create(rt, path)?;
    write_whole(&mut file, text.as_bytes())?;
    file.sync_all()
}

/// Removes a folder's list.
pub(crate) fn remove_list(alloc: Global, rt: &impl rt::Files, folder: &str) -> io::Result<()> {
    let list = path_in(alloc, folder, LIST)?;
    fs::remove_file(rt, list.as_str())?;
    flush_folder(rt, folder)
}

/// Whether a folder has a list.
pub(crate) fn has_list(alloc: Global, rt: &impl rt::Files, folder: &str) -> io::Result<bool> {
    let list = path_in(alloc, folder, LIST)?;
    fs::exists(rt, list.as_str())
}

/// Goes on with the renames of a folder's list, where it has one, and removes it.
pub(crate) fn finish_list(alloc: Global, rt: &impl rt::Files, folder: &str) -> io::Result<()> {
    let Some(lines) = read_list(alloc, rt, folder)? else {
        return Ok(());
    };
    for line in lines.as_str().lines() {
        rename_listed(alloc, rt, folder, line)?;
    }
    remove_list(alloc, rt, folder)
}

/// The lines of a folder's list.
fn read_list(alloc: Global, rt: &impl rt::Files, folder: &str) -> io::Result<Option<String>> {
    let list = path_in(alloc, folder, LIST)?;
    let mut file = match fs::open(rt, list.as_str()) {
        Ok(file) => file,
        Err(error) if is_absence(error.kind()) => return Ok(None),
        Err(error) => return Err(error),
    };
    let mut lines = String::new(alloc);
    file.read_to_string(&mut lines)?;
    Ok(Some(lines))
}

/// Does the rename of a line, where it wasn't done yet.
fn rename_listed(alloc: Global, rt: &impl rt::Files, folder: &str, line: &str) -> io::Result<()> {
    let Some((number, name)) = listed(line) else {
        return Err(io::Error::from(ErrorKind::InvalidData));
    };
    let target = path_in(alloc, folder, name)?;
    let path = staged_beside(alloc, target.as_str(), number)?;
    match fs::rename(rt, path.as_str(), target.as_str()) {
        Ok(()) => flush_folder(rt, folder_of(target.as_str())),
        Err(error) if error.kind() == ErrorKind::NotFound => Ok(()),
        Err(error) => Err(error),
    }
}

/// What a line lists.
fn listed(line: &str) -> Option<(u64, &str)> {
    let (number, name) = line.split_once(' ')?;
    let number = number.parse::<u64>().ok()?;
    is_listable(name).then_some((number, name))
}

/// The answer of a step on a new file, which is removed where that failed.
pub(crate) fn removed_at_error(
    rt: &impl rt::Files,
    path: &str,
    answer: io::Result<()>,
) -> io::Result<()> {
    if answer.is_err() {
        let _ = fs::remove_file(rt, path);
    }
    answer
}

/// Waits until a folder's names have reached their device. A folder that can't be opened or flushed at all, as on some
/// file systems, is left.
pub(crate) fn flush_folder(rt: &impl rt::Files, folder: &str) -> io::Result<()> {
    match fs::open(rt, folder) {
        Ok(open) => match open.sync_all() {
            Err(error) if error.kind() == ErrorKind::InvalidInput => Ok(()),
            answer => answer,
        },
        Err(error) if error.kind() == ErrorKind::PermissionDenied => Ok(()),
        Err(error) => Err(error),
    }
}
