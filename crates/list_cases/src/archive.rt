//! The archive of a case, as files.
use dump_ports::MemFiles;
use hex::{FromHexError, decode};
use std::alloc::{AllocError, Global};

/// The path of the archive of a case.
pub(crate) const PATH: &str = "a";

/// The path of its list file.
pub(crate) const LIST: &str = "l";

// The bytes of a text in hexadecimal; `None` where it is none.
fn bytes_of(alloc: Global, digits: &str) -> Result<Option<Vec<u8>>, AllocError> {
    match decode(alloc, digits) {
        Ok(bytes) => Ok(Some(bytes)),
        Err(FromHexError::OutOfMemory) => Err(AllocError),
        Err(_) => Ok(None),
    }
}

/// Puts a file there.
pub(crate) fn put(files: &mut MemFiles, name: &str, bytes: &[u8]) -> Result<(), AllocError> {
    match files.put(name, bytes) {
        Ok(()) => Ok(()),
        Err(_) => Err(AllocError),
    }
}

// Puts a file of these bytes in hexadecimal there, and tells whether it is one.
fn put_digits(
    alloc: Global,
    files: &mut MemFiles,
    name: &str,
    digits: &str,
) -> Result<bool, AllocError> {
    match bytes_of(alloc, digits)? {
        Some(bytes) => {
            put(files, name, &bytes)?;
            Ok(true)
        }
        None => Ok(false),
    }
}

// Puts a file of the folder there: `NAME=HEX`.
fn put_in_folder(alloc: Global, files: &mut MemFiles, word: &str) -> Result<bool, AllocError> {
    let Some((name, digits)) = word.split_once('=') else {
        return Ok(false);
    };
    let path = format!(in alloc; "{PATH}/{name}")?;
    put_digits(alloc, files, path.as_str(), digits)
}

// Puts all files of the folder there.
fn put_folder(alloc: Global, files: &mut MemFiles, words: &str) -> Result<bool, AllocError> {
    for word in words.split(' ') {
        if !put_in_folder(alloc, files, word)? {
            return Ok(false);
        }
    }
    Ok(true)
}

/// The files of an archive: `custom HEX`, a file in the custom format, or `folder NAME=HEX ..`, a folder with these files;
/// `None` where it is none.
pub(crate) fn files_of(alloc: Global, said: &str) -> Result<Option<MemFiles>, AllocError> {
    let mut files = MemFiles::new(alloc, Vec::new(alloc));
    let is = match said.split_once(' ') {
        Some(("custom", digits)) => put_digits(alloc, &mut files, PATH, digits)?,
        Some(("folder", words)) => put_folder(alloc, &mut files, words)?,
        _ => false,
    };
    if is { Ok(Some(files)) } else { Ok(None) }
}
