//! Cases of what archives are made of.
use crate::faults::{put_entry_error, put_entry_fault, put_head_error};
use crate::hexadecimal::{bytes_of, put_bytes};
use crate::showing::{put_entry, put_head, put_text};
use std::alloc::{AllocError, Global};
use toc_layout::{read_entry, read_head, read_int, read_str, write_int};

fn integer(alloc: Global, bytes: &[u8], out: &mut Vec<u8>) -> Result<(), AllocError> {
    match read_int(bytes, 0) {
        Ok((number, at)) => {
            out.extend_from_slice(format!(in alloc; "{number} at {at}")?.as_bytes())
        }
        Err(fault) => put_entry_fault(alloc, fault, out),
    }
}

fn string(alloc: Global, bytes: &[u8], out: &mut Vec<u8>) -> Result<(), AllocError> {
    match read_str(alloc, bytes, 0) {
        Ok((text, _)) => put_text(&text, out),
        Err(error) => put_entry_error(alloc, error, out),
    }
}

fn head(alloc: Global, bytes: &[u8], out: &mut Vec<u8>) -> Result<(), AllocError> {
    match read_head(alloc, bytes) {
        Ok((head, _)) => put_head(alloc, &head, out),
        Err(error) => put_head_error(alloc, error, out),
    }
}

fn entry(
    alloc: Global,
    bytes: &[u8],
    directory: bool,
    out: &mut Vec<u8>,
) -> Result<(), AllocError> {
    match read_entry(alloc, bytes, 0, directory) {
        Ok((entry, _)) => put_entry(alloc, &entry, out),
        Err(error) => put_entry_error(alloc, error, out),
    }
}

// How a number below zero is written.
fn below_zero(alloc: Global, digits: &str, out: &mut Vec<u8>) -> Result<(), AllocError> {
    let Ok(magnitude) = digits.parse::<u32>() else {
        return out.extend_from_slice(b"?");
    };
    let mut bytes = Vec::new(alloc);
    write_int(-i64::from(magnitude), &mut bytes)?;
    put_bytes(alloc, &bytes, out)
}

fn read(alloc: Global, word: &str, bytes: &[u8], out: &mut Vec<u8>) -> Result<(), AllocError> {
    match word {
        "int" => integer(alloc, bytes, out),
        "str" => string(alloc, bytes, out),
        "head" => head(alloc, bytes, out),
        "entry" => entry(alloc, bytes, false, out),
        "file" => entry(alloc, bytes, true, out),
        _ => out.extend_from_slice(b"?"),
    }
}

/// The answer to a line of parts.
pub(crate) fn answer(alloc: Global, line: &str, out: &mut Vec<u8>) -> Result<(), AllocError> {
    let Some((word, rest)) = line.split_once(' ') else {
        return out.extend_from_slice(b"?");
    };
    if word == "minus" {
        return below_zero(alloc, rest, out);
    }
    match bytes_of(alloc, rest)? {
        Some(bytes) => read(alloc, word, &bytes, out),
        None => out.extend_from_slice(b"?"),
    }
}
