//! Bytes in hexadecimal.
use hex::{FromHexError, decode, encode};
use std::alloc::{AllocError, Global};

/// The bytes of a text in hexadecimal; `None` where it is none.
pub(crate) fn bytes_of(alloc: Global, digits: &str) -> Result<Option<Vec<u8>>, AllocError> {
    match decode(alloc, digits) {
        Ok(bytes) => Ok(Some(bytes)),
        Err(FromHexError::OutOfMemory) => Err(AllocError),
        Err(_) => Ok(None),
    }
}

/// Appends bytes in hexadecimal.
pub(crate) fn put_bytes(alloc: Global, bytes: &[u8], out: &mut Vec<u8>) -> Result<(), AllocError> {
    out.extend_from_slice(encode(alloc, bytes)?.as_bytes())
}
