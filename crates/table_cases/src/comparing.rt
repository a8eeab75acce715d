//! Cases of catalogues compared by names.
use crate::base::Base;
use cat_names::{CheckError, DataSet};
use cat_rows::Catalogue;
use cat_same::{Verdict, same};
use std::alloc::{AllocError, Global};
use table_rows::{CheckValuesError, check_values};
use text_cases::put_key;
use well_formed::WellFormed;

/// A well-formed catalogue of these texts, where they are one.
pub fn formed(
    alloc: Global,
    base: &Base,
    changed: &Base,
) -> Result<Option<WellFormed>, AllocError> {
    let mut cat = Catalogue::new(alloc);
    if !base.read_into(alloc, &mut cat)? || !changed.read_into(alloc, &mut cat)? {
        return Ok(None);
    }
    match WellFormed::check(alloc, cat) {
        Ok(formed) => Ok(Some(formed)),
        Err(CheckError::Fault(_)) => Ok(None),
        Err(CheckError::Memory) => Err(AllocError),
    }
}

fn verdict_on(
    alloc: Global,
    a: &WellFormed,
    a_rows: &DataSet,
    b: &WellFormed,
    b_rows: &DataSet,
) -> Result<Verdict, CheckValuesError> {
    check_values(alloc, a.rows(), a_rows)?;
    check_values(alloc, b.rows(), b_rows)?;
    let verdict = same(alloc, a, a_rows, b, b_rows)?;
    Ok(verdict)
}

fn put_verdict(alloc: Global, verdict: &Verdict, out: &mut Vec<u8>) -> Result<(), AllocError> {
    match verdict {
        Verdict::Same => out.extend_from_slice(b"same"),
        Verdict::Differs(key) => put_key(alloc, key, out),
    }
}

fn put_and_drop(alloc: Global, verdict: Verdict, out: &mut Vec<u8>) -> Result<(), AllocError> {
    let put = put_verdict(alloc, &verdict, out);
    drop(verdict);
    put
}

fn put_one(
    alloc: Global,
    a: &WellFormed,
    a_rows: &DataSet,
    b: &WellFormed,
    b_rows: &DataSet,
    out: &mut Vec<u8>,
) -> Result<(), CheckValuesError> {
    let verdict = verdict_on(alloc, a, a_rows, b, b_rows)?;
    put_and_drop(alloc, verdict, out)?;
    Ok(())
}

// The verdict either way round.
fn put_both(
    alloc: Global,
    a: &WellFormed,
    a_rows: &DataSet,
    b: &WellFormed,
    b_rows: &DataSet,
    out: &mut Vec<u8>,
) -> Result<(), CheckValuesError> {
    put_one(alloc, a, a_rows, b, b_rows, out)?;
    out.extend_from_slice(b", ")?;
    put_one(alloc, b, b_rows, a, a_rows, out)
}

fn with_both_rows(
    alloc: Global,
    a: &WellFormed,
    a_rows: &DataSet,
    b: &WellFormed,
    changed: &Base,
    out: &mut Vec<u8>,
) -> Result<(), AllocError> {
    let b_rows = changed.data(alloc)?;
    match put_both(alloc, a, a_rows, b, &b_rows, out) {
        Ok(()) => Ok(()),
        Err(CheckValuesError::Fault(_)) => out.extend_from_slice(b"?"),
        Err(CheckValuesError::Memory) => Err(AllocError),
    }
}

fn with_rows(
    alloc: Global,
    base: &Base,
    a: &WellFormed,
    changed: &Base,
    b: &WellFormed,
    out: &mut Vec<u8>,
) -> Result<(), AllocError> {
    let a_rows = base.data(alloc)?;
    with_both_rows(alloc, a, &a_rows, b, changed, out)
}

fn compared(
    alloc: Global,
    base: &Base,
    changed: &Base,
    b: &WellFormed,
    out: &mut Vec<u8>,
) -> Result<(), AllocError> {
    match formed(alloc, base, &Base::new(alloc))? {
        Some(a) => with_rows(alloc, base, &a, changed, b, out),
        None => out.extend_from_slice(b"?"),
    }
}

/// The least key at which the base, and the base with other texts of some tables and these rows, differ; both ways round.
pub fn compare_texts(
    alloc: Global,
    base: &Base,
    changed: &Base,
    out: &mut Vec<u8>,
) -> Result<(), AllocError> {
    match formed(alloc, base, changed)? {
        Some(b) => compared(alloc, base, changed, &b, out),
        None => out.extend_from_slice(b"?"),
    }
}
