//! Cases of what a dump chooses and holds.
use crate::base::Base;
use crate::comparing::formed;
use dump_cases::dumped;
use graph_cases::selected;
use std::alloc::{AllocError, Global};
use well_formed::WellFormed;

/// The objects of the base that these options choose, in order.
pub fn select(
    alloc: Global,
    base: &Base,
    text: &[u8],
    out: &mut Vec<u8>,
) -> Result<(), AllocError> {
    let Ok(line) = str::from_utf8(text) else {
        return out.extend_from_slice(b"?");
    };
    match formed(alloc, base, &Base::new(alloc))? {
        Some(cat) => selected(alloc, &cat, line, out),
        None => out.extend_from_slice(b"?"),
    }
}

// What a line asks of a dump of a catalogue, with the rows of the base.
fn dump_of(
    alloc: Global,
    base: &Base,
    cat: &WellFormed,
    line: &str,
    out: &mut Vec<u8>,
) -> Result<(), AllocError> {
    let data = base.data(alloc)?;
    dumped(alloc, cat, &data, line, out)
}

/// What a line asks of a dump of the base.
pub fn dump(alloc: Global, base: &Base, text: &[u8], out: &mut Vec<u8>) -> Result<(), AllocError> {
    let Ok(line) = str::from_utf8(text) else {
        return out.extend_from_slice(b"?");
    };
    match formed(alloc, base, &Base::new(alloc))? {
        Some(cat) => dump_of(alloc, base, &cat, line, out),
        None => out.extend_from_slice(b"?"),
    }
}
