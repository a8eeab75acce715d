//! Changes of an archive's bytes.
use crate::hexadecimal::bytes_of;
use std::alloc::{AllocError, Global};

fn cut(alloc: Global, bytes: &[u8], count: &str) -> Result<Option<Vec<u8>>, AllocError> {
    match count.parse::<usize>() {
        Ok(count) if count <= bytes.len() => Ok(Some(bytes[..count].to_vec(alloc)?)),
        _ => Ok(None),
    }
}

fn with_byte(alloc: Global, bytes: &[u8], said: &str) -> Result<Option<Vec<u8>>, AllocError> {
    let Some((place, value)) = said.split_once(' ') else {
        return Ok(None);
    };
    let (Ok(place), Ok(value)) = (place.parse::<usize>(), u8::from_str_radix(value, 16)) else {
        return Ok(None);
    };
    let mut changed = bytes.to_vec(alloc)?;
    if place >= changed.len() {
        return Ok(None);
    }
    changed[place] = value;
    Ok(Some(changed))
}

fn with_more(alloc: Global, bytes: &[u8], digits: &str) -> Result<Option<Vec<u8>>, AllocError> {
    let Some(more) = bytes_of(alloc, digits)? else {
        return Ok(None);
    };
    let mut changed = bytes.to_vec(alloc)?;
    changed.extend_from_slice(&more)?;
    Ok(Some(changed))
}

/// The bytes with a change; `None` where it is none.
pub(crate) fn changed(
    alloc: Global,
    bytes: &[u8],
    change: &str,
) -> Result<Option<Vec<u8>>, AllocError> {
    match change.split_once(' ') {
        Some(("cut", count)) => cut(alloc, bytes, count),
        Some(("byte", said)) => with_byte(alloc, bytes, said),
        Some(("more", digits)) => with_more(alloc, bytes, digits),
        _ => Ok(None),
    }
}
