//! Bytes as a line of cases shows them.
use std::alloc::{AllocError, Global};

fn digit(byte: u8) -> Option<u8> {
    match byte {
        b'0'..=b'9' => Some(byte - b'0'),
        b'a'..=b'f' => Some(byte - b'a' + 10),
        _ => None,
    }
}

// The byte whose digits stand behind an `x`, and what follows them.
fn escaped(piece: &[u8]) -> Option<(u8, &[u8])> {
    let digits = piece.strip_prefix(b"x".as_slice())?;
    let high = digit(*digits.first()?)?;
    let low = digit(*digits.get(1)?)?;
    Some((high.wrapping_mul(16) | low, digits.get(2..)?))
}

/// The bytes that a line shows, or `None` where a backslash begins no `\xHH`.
pub fn decoded(alloc: Global, line: &str) -> Result<Option<Vec<u8>>, AllocError> {
    let mut bytes = Vec::new(alloc);
    for (i, piece) in line.as_bytes().split(|b| *b == b'\\').enumerate() {
        if i == 0 {
            bytes.extend_from_slice(piece)?;
            continue;
        }
        let Some((byte, rest)) = escaped(piece) else {
            return Ok(None);
        };
        bytes.push(byte)?;
        bytes.extend_from_slice(rest)?;
    }
    Ok(Some(bytes))
}

fn hex(value: u8) -> u8 {
    let digits = b"0123456789abcdef";
    digits.get(usize::from(value)).copied().unwrap_or(b'?')
}

/// Appends bytes as a line shows them.
pub fn show(bytes: &[u8], out: &mut Vec<u8>) -> Result<(), AllocError> {
    for byte in bytes {
        if matches!(*byte, b' '..=b'~') && *byte != b'\\' {
            out.push(*byte)?;
        } else {
            out.extend_from_slice(b"\\x")?;
            out.push(hex(*byte / 16))?;
            out.push(hex(*byte % 16))?;
        }
    }
    Ok(())
}
