//! Cases of what a catalogue stands for by names.
use crate::running::Shown;
use crate::written::put_written;
use cat_model::{Key, Value};
use cat_names::DataSet;
use cat_naming::catalogue_map;
use eng_map::NamedMap;
use std::alloc::{AllocError, Global};
use table_cases::{Base, formed};
use table_rows::{CheckValuesError, check_values};
use text_cases::put_key;
use value_cases::put_value;
use well_formed::WellFormed;

// The entries in the order of keys.
fn in_order<'a>(
    alloc: Global,
    named: &'a NamedMap,
) -> Result<Vec<(&'a Key, &'a Value)>, AllocError> {
    let mut entries = Vec::new(alloc);
    for entry in named.iter() {
        entries.push(entry)?;
    }
    entries.sort_by(|a, b| a.0.cmp(b.0))?;
    Ok(entries)
}

/// Appends each key with its value, in the order of keys.
pub(crate) fn put_entries(
    alloc: Global,
    named: &NamedMap,
    out: &mut Vec<u8>,
) -> Result<(), AllocError> {
    let entries = in_order(alloc, named)?;
    for (i, (key, value)) in entries.iter().enumerate() {
        if i > 0 {
            out.extend_from_slice(b" / ")?;
        }
        put_key(alloc, key, out)?;
        out.extend_from_slice(b" = ")?;
        put_value(alloc, value, out)?;
    }
    Ok(())
}

/// Appends the texts of the keys, in the order of their bytes.
pub(crate) fn put_keys(
    alloc: Global,
    named: &NamedMap,
    out: &mut Vec<u8>,
) -> Result<(), AllocError> {
    let mut texts = Vec::new(alloc);
    for (key, _) in named.iter() {
        let mut text = Vec::new(alloc);
        put_key(alloc, key, &mut text)?;
        texts.push(text)?;
    }
    texts.sort()?;
    for (i, text) in texts.iter().enumerate() {
        if i > 0 {
            out.extend_from_slice(b", ")?;
        }
        out.extend_from_slice(text)?;
    }
    Ok(())
}

fn put_checked(
    alloc: Global,
    cat: &WellFormed,
    rows: &DataSet,
    out: &mut Vec<u8>,
) -> Result<(), CheckValuesError> {
    check_values(alloc, cat.rows(), rows)?;
    let named = catalogue_map(alloc, cat.rows(), rows)?;
    put_written(alloc, &named, cat.rows(), Shown::Values, out)?;
    Ok(())
}

fn put_named(
    alloc: Global,
    base: &Base,
    cat: &WellFormed,
    out: &mut Vec<u8>,
) -> Result<(), AllocError> {
    let rows = base.data(alloc)?;
    match put_checked(alloc, cat, &rows, out) {
        Ok(()) => Ok(()),
        Err(CheckValuesError::Fault(_)) => out.extend_from_slice(b"?"),
        Err(CheckValuesError::Memory) => Err(AllocError),
    }
}

/// Each key with its value, of the base with other texts of some tables.
pub fn name_texts(
    alloc: Global,
    base: &Base,
    changed: &Base,
    out: &mut Vec<u8>,
) -> Result<(), AllocError> {
    match formed(alloc, base, changed)? {
        Some(cat) => put_named(alloc, base, &cat, out),
        None => out.extend_from_slice(b"?"),
    }
}
