//! Rows in groups by the objects that they belong to.
ghost use Rattle.std.specs.Prelude.{◌≡◌, pos, map, IfOk};
ghost use Rattle.dump_rows.specs.Beside.{AreGroupings};

use crate::dump_rows::Groupings;
use cat_rows::{AttrdefRow, AttributeRow, Catalogue, ConstraintRow, DescriptionRow, EnumRow};
use oid_groups::Groups;
use std::alloc::{AllocError, Global};

// By what the columns are found: their relations and numbers.
fn columns_keys(alloc: Global, rows: &[AttributeRow]) -> Result<Vec<(u32, i64)>, AllocError>
    ensures { IfOk result (λ keys. keys.items ≡ map (λ a. (a.attrelid, a.attnum)) rows.now) }
{
    rows.iter().map(|a| (a.attrelid, a.attnum)).collect(alloc)
}

// The columns by their relations and numbers.
fn columns(alloc: Global, rows: &[AttributeRow]) -> Result<Groups, AllocError>
    ensures { IfOk result (λ groups. groups ≡ map (λ a. (a.attrelid, a.attnum)) rows.now) }
{
    let keys = columns_keys(alloc, rows)?;
    Groups::of(alloc, keys)
}

// By what the labels are found: their enums and positions.
fn labels_keys(alloc: Global, rows: &[EnumRow]) -> Result<Vec<(u32, i64)>, AllocError>
    ensures { IfOk result (λ keys. keys.items ≡ map (λ e. (e.enumtypid, e.enumpos)) rows.now) }
{
    rows.iter().map(|e| (e.enumtypid, e.enumpos)).collect(alloc)
}

// The labels by their enums and positions.
fn labels(alloc: Global, rows: &[EnumRow]) -> Result<Groups, AllocError>
    ensures { IfOk result (λ groups. groups ≡ map (λ e. (e.enumtypid, e.enumpos)) rows.now) }
{
    let keys = labels_keys(alloc, rows)?;
    Groups::of(alloc, keys)
}

// By what the defaults are found: their tables and the numbers of their columns.
fn defaults_keys(alloc: Global, rows: &[AttrdefRow]) -> Result<Vec<(u32, i64)>, AllocError>
    ensures { IfOk result (λ keys. keys.items ≡ map (λ d. (d.adrelid, d.adnum)) rows.now) }
{
    rows.iter().map(|d| (d.adrelid, d.adnum)).collect(alloc)
}

// The defaults by their tables and the numbers of their columns.
fn defaults(alloc: Global, rows: &[AttrdefRow]) -> Result<Groups, AllocError>
    ensures { IfOk result (λ groups. groups ≡ map (λ d. (d.adrelid, d.adnum)) rows.now) }
{
    let keys = defaults_keys(alloc, rows)?;
    Groups::of(alloc, keys)
}

// By what the constraints are found: their tables.
fn of_tables_keys(alloc: Global, rows: &[ConstraintRow]) -> Result<Vec<(u32, i64)>, AllocError>
    ensures { IfOk result (λ keys. keys.items ≡ map (λ c. (c.conrelid, pos 0)) rows.now) }
{
    rows.iter().map(|c| (c.conrelid, 0)).collect(alloc)
}

// The constraints by their tables.
fn of_tables(alloc: Global, rows: &[ConstraintRow]) -> Result<Groups, AllocError>
    ensures { IfOk result (λ groups. groups ≡ map (λ c. (c.conrelid, pos 0)) rows.now) }
{
    let keys = of_tables_keys(alloc, rows)?;
    Groups::of(alloc, keys)
}

// By what the constraints are found: their domains.
fn of_domains_keys(alloc: Global, rows: &[ConstraintRow]) -> Result<Vec<(u32, i64)>, AllocError>
    ensures { IfOk result (λ keys. keys.items ≡ map (λ c. (c.contypid, pos 0)) rows.now) }
{
    rows.iter().map(|c| (c.contypid, 0)).collect(alloc)
}

// The constraints by their domains.
fn of_domains(alloc: Global, rows: &[ConstraintRow]) -> Result<Groups, AllocError>
    ensures { IfOk result (λ groups. groups ≡ map (λ c. (c.contypid, pos 0)) rows.now) }
{
    let keys = of_domains_keys(alloc, rows)?;
    Groups::of(alloc, keys)
}

// By what the comments are found: the oids of what they are on, and the numbers of columns.
fn comments_keys(alloc: Global, rows: &[DescriptionRow]) -> Result<Vec<(u32, i64)>, AllocError>
    ensures { IfOk result (λ keys. keys.items ≡ map (λ d. (d.objoid, d.objsubid)) rows.now) }
{
    rows.iter().map(|d| (d.objoid, d.objsubid)).collect(alloc)
}

// The comments by the oids of what they are on, and the numbers of columns.
fn comments(alloc: Global, rows: &[DescriptionRow]) -> Result<Groups, AllocError>
    ensures { IfOk result (λ groups. groups ≡ map (λ d. (d.objoid, d.objsubid)) rows.now) }
{
    let keys = comments_keys(alloc, rows)?;
    Groups::of(alloc, keys)
}

/// The rows of a catalogue in groups by their objects. The only error is that memory ran out.
pub(crate) fn groupings(alloc: Global, cat: &Catalogue) -> Result<Groupings, AllocError>
    ensures { IfOk result (λ groups. AreGroupings cat.now groups) }
{
    let columns = columns(alloc, cat.pg_attribute.as_slice())?;
    let labels = labels(alloc, cat.pg_enum.as_slice())?;
    let defaults = defaults(alloc, cat.pg_attrdef.as_slice())?;
    let of_tables = of_tables(alloc, cat.pg_constraint.as_slice())?;
    let of_domains = of_domains(alloc, cat.pg_constraint.as_slice())?;
    let comments = comments(alloc, cat.pg_description.as_slice())?;
    Ok(Groupings {
        columns,
        labels,
        defaults,
        of_tables,
        of_domains,
        comments,
    })
}
