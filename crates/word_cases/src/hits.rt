//! Cases of patterns.

use patterns::{
    Pattern, PatternFault, PatternReadError, pattern_fault, pattern_hits, pattern_read,
};
use std::alloc::{AllocError, Global};

/// The schemas that are tried.
const SCHEMAS: [&'static str; 4] = ["public", "a", "A", "a.b"];

/// The names that are tried in each.
const NAMES: [&'static str; 12] = [
    "a", "A", "t", "tt", "public", "a.b", "a\"b", "é", "aé", "t_1", "*", "?",
];

/// The text of a pattern, `''` for the empty one: which schemas and names of a fixed choice it hits, or its fault.
pub fn pattern(alloc: Global, input: &[u8], out: &mut Vec<u8>) -> Result<(), AllocError> {
    let text: &[u8] = if input == b"''".as_slice() {
        b"".as_slice()
    } else {
        input
    };
    match pattern_read(alloc, text) {
        Ok(pattern) => {
            if pattern_fault(text).is_some() {
                out.extend_from_slice(b"a fault is told and the pattern is read: ")?;
            }
            write_hits(&pattern, out)
        }
        Err(PatternReadError::Fault(fault)) => {
            if pattern_fault(text) != Some(fault) {
                out.extend_from_slice(b"another fault is told: ")?;
            }
            write_fault(alloc, fault, out)
        }
        Err(PatternReadError::Memory) => Err(AllocError),
    }
}

fn write_hits(pattern: &Pattern, out: &mut Vec<u8>) -> Result<(), AllocError> {
    out.extend_from_slice(b"hits ")?;
    let mut some = false;
    for schema in SCHEMAS {
        for name in NAMES {
            if pattern_hits(pattern, schema, name) {
                if some {
                    out.extend_from_slice(b", ")?;
                }
                some = true;
                out.extend_from_slice(schema.as_bytes())?;
                out.extend_from_slice(b" ")?;
                out.extend_from_slice(name.as_bytes())?;
            }
        }
    }
    if some {
        Ok(())
    } else {
        out.extend_from_slice(b"nothing")
    }
}

fn write_fault(alloc: Global, fault: PatternFault, out: &mut Vec<u8>) -> Result<(), AllocError> {
    let text = match fault {
        PatternFault::Unclosed(at) => format!(in alloc; "Unclosed({at})")?,
        PatternFault::TooManyDots(at) => format!(in alloc; "TooManyDots({at})")?,
        PatternFault::Empty => format!(in alloc; "Empty")?,
    };
    out.extend_from_slice(text.as_bytes())
}
