//! The tables of a catalogue, and how many columns each has.
ghost use Rattle.std.specs.Prelude.{◌≡◌, map, IfOk};
ghost use Rattle.std.specs.List.{filter};
ghost use Rattle.table_rows.specs.Tables.{is_table_row, unsorted_oids, table_oids, column_oids};

use cat_names::{OidCounts, RelationKind, relation_kind};
use cat_rows::{AttributeRow, Catalogue, ClassRow};
use std::alloc::{AllocError, Global};

/// The oids of the tables, the relations of kind `r`, by rising oid. An oid that stands in several rows comes as often.
///
/// The only error is that memory ran out.
pub fn table_oids(alloc: Global, cat: &Catalogue) -> Result<Vec<u32>, AllocError>
    ensures { IfOk result (λ oids. oids.items ≡ table_oids cat.now) }
{
    let mut oids = unsorted_oids(alloc, cat.pg_class.as_slice())?;
    oids.sort()?;
    Ok(oids)
}

/// The oids of the tables as they stand.
fn unsorted_oids(alloc: Global, classes: &[ClassRow]) -> Result<Vec<u32>, AllocError>
    ensures { IfOk result (λ oids. oids.items ≡ unsorted_oids classes.now) }
{
    classes
        .iter()
        .filter(|row| is_table_row(row))
        .map(|row| row.oid)
        .collect(alloc)
}

#[tactic(auto, unfolding(crate::specs::Tables::is_table_row))]
fn is_table_row(row: &ClassRow) -> bool
    ensures { result ≡ is_table_row row.now }
{
    matches!(relation_kind(row.relkind), RelationKind::Table)
}

/// The oids of the columns' relations, with the number of their columns.
pub(crate) fn column_counts(
    alloc: Global,
    columns: &[AttributeRow],
) -> Result<OidCounts, AllocError>
    ensures { IfOk result (λ counts. counts ≡ column_oids columns.now) }
{
    let oids: Vec<u32> = columns.iter().map(|row| row.attrelid).collect(alloc)?;
    OidCounts::of(alloc, &oids)
}
