//! The answer to a case.
use crate::archive::{LIST, PATH, files_of, put};
use crate::request::{Request, request_of};
use copy_text::Text;
use dump_ports::MemFiles;
use restore_texts::{TextFault, archive_text};
use std::alloc::{AllocError, Global};

/// What stands between the archive, what is asked of it, and the answers.
const BETWEEN: &str = " / ";

fn text_of(alloc: Global, text: &str) -> Result<Option<Text>, AllocError> {
    Ok(Text::new(text.as_bytes().to_vec(alloc)?))
}

// The path of the list file, which is put there.
fn list_of(
    alloc: Global,
    files: &mut MemFiles,
    list: Option<&str>,
) -> Result<Option<Text>, AllocError> {
    match list {
        None => Ok(None),
        Some(list) => {
            put(files, LIST, list.as_bytes())?;
            text_of(alloc, LIST)
        }
    }
}

// Appends why nothing is written.
fn put_fault(alloc: Global, fault: TextFault, out: &mut Vec<u8>) -> Result<(), AllocError> {
    match fault {
        TextFault::Memory => Err(AllocError),
        TextFault::Failed => out.extend_from_slice(b"Failed"),
        TextFault::Missing(name) => {
            out.extend_from_slice(b"Missing ")?;
            out.extend_from_slice(name.as_bytes())
        }
        TextFault::TooLarge(what, size) => {
            out.extend_from_slice(format!(in alloc; "TooLarge({what:?}, {size})")?.as_bytes())
        }
        TextFault::Archive(fault) => {
            out.extend_from_slice(format!(in alloc; "{fault:?}")?.as_bytes())
        }
        TextFault::List(fault) => out.extend_from_slice(format!(in alloc; "{fault:?}")?.as_bytes()),
    }
}

// Appends the answer to a request.
fn put_answer(
    alloc: Global,
    files: &mut MemFiles,
    request: &Request<'_>,
    out: &mut Vec<u8>,
) -> Result<(), AllocError> {
    let list = list_of(alloc, files, request.list)?;
    let Some(path) = text_of(alloc, PATH)? else {
        return out.extend_from_slice(b"?");
    };
    match archive_text(
        alloc,
        files,
        &path,
        request.format,
        list.as_ref(),
        &request.options,
        request.wish,
    ) {
        Ok(text) => out.extend_from_slice(&text),
        Err(fault) => put_fault(alloc, fault, out),
    }
}

fn put_asked(
    alloc: Global,
    files: &mut MemFiles,
    said: &str,
    out: &mut Vec<u8>,
) -> Result<(), AllocError> {
    match request_of(alloc, said)? {
        Some(request) => put_answer(alloc, files, &request, out),
        None => out.extend_from_slice(b"?"),
    }
}

fn put_all(
    alloc: Global,
    files: &mut MemFiles,
    asked: &str,
    out: &mut Vec<u8>,
) -> Result<(), AllocError> {
    for (i, said) in asked.split(BETWEEN).enumerate() {
        if i > 0 {
            out.extend_from_slice(BETWEEN.as_bytes())?;
        }
        put_asked(alloc, files, said, out)?;
    }
    Ok(())
}

/// Appends the answer to a line, or `?` where it is none.
///
/// A line is an archive, `custom HEX`, a file in the custom format, or `folder NAME=HEX ..`, a folder with these files, and
/// what is asked of it, each behind ` / `: `list` or `script`, options of pg_restore among `-s`, `-a`, `-n`, `-N`, `-t`,
/// `-O`, `-x`, `--no-comments`, `--section`, `-Fc` and `-Fd`, and last, behind ` -L `, the text of a list file. The answers
/// have ` / ` between: the list or the script of the entries that are chosen, or the fault.
pub fn answer(alloc: Global, line: &[u8], out: &mut Vec<u8>) -> Result<(), AllocError> {
    let Ok(line) = str::from_utf8(line) else {
        return out.extend_from_slice(b"?");
    };
    let Some((archive, asked)) = line.split_once(BETWEEN) else {
        return out.extend_from_slice(b"?");
    };
    match files_of(alloc, archive)? {
        Some(mut files) => put_all(alloc, &mut files, asked, out),
        None => out.extend_from_slice(b"?"),
    }
}
