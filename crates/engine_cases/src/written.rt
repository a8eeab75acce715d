//! Folders in memory that stand for catalogues by names.
use crate::named::{put_entries, put_keys};
use crate::running::Shown;
use cat_rows::Catalogue;
use copy_text::Text;
use dump_ports::MemFiles;
use eng_map::NamedMap;
use openings::read_opening;
use saved_folders::{ExportTexts, write_texts};
use script_runs::named_texts;
use std::alloc::{AllocError, Global};

fn folder_name(alloc: Global) -> Result<Text, AllocError> {
    match Text::new(b"db".to_vec(alloc)?) {
        Some(name) => Ok(name),
        None => Err(AllocError),
    }
}

// The files of a folder with these texts.
fn written(alloc: Global, folder: &Text, texts: &ExportTexts) -> Result<MemFiles, AllocError> {
    let mut files = MemFiles::new(alloc, Vec::new(alloc));
    match write_texts(alloc, &mut files, folder, texts) {
        Ok(()) => Ok(files),
        Err(outcome) => {
            drop(outcome);
            Err(AllocError)
        }
    }
}

// What is shown of a catalogue by names.
fn put_shown(
    alloc: Global,
    named: &NamedMap,
    shown: Shown,
    out: &mut Vec<u8>,
) -> Result<(), AllocError> {
    match shown {
        Shown::Keys => put_keys(alloc, named, out),
        Shown::Values => put_entries(alloc, named, out),
    }
}

// What is shown of the catalogue that a folder holds.
fn put_folder(
    alloc: Global,
    files: &mut MemFiles,
    folder: &Text,
    shown: Shown,
    out: &mut Vec<u8>,
) -> Result<(), AllocError> {
    match read_opening(alloc, files, folder) {
        Ok(opening) => put_shown(alloc, opening.named(), shown, out),
        Err(outcome) => {
            drop(outcome);
            out.extend_from_slice(b"not read")
        }
    }
}

fn put_texts(
    alloc: Global,
    texts: &ExportTexts,
    shown: Shown,
    out: &mut Vec<u8>,
) -> Result<(), AllocError> {
    let folder = folder_name(alloc)?;
    let mut files = written(alloc, &folder, texts)?;
    put_folder(alloc, &mut files, &folder, shown, out)
}

/// Appends the keys, or each key with its value, of a catalogue by names that began as this opening, once it was written to
/// a folder and read again.
pub(crate) fn put_written(
    alloc: Global,
    named: &NamedMap,
    opening: &Catalogue,
    shown: Shown,
    out: &mut Vec<u8>,
) -> Result<(), AllocError> {
    match named_texts(alloc, named, opening) {
        Ok(texts) => put_texts(alloc, &texts, shown, out),
        Err(outcome) => {
            drop(outcome);
            out.extend_from_slice(b"not written")
        }
    }
}
