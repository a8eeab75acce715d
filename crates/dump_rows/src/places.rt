//! The oids by which single rows are found.
ghost use Rattle.std.specs.Prelude.{◌≡◌, map, IfOk};
ghost use Rattle.dump_rows.specs.Beside.{ArePlaces};

use crate::dump_rows::Places;
use cat_names::OidIndex;
use cat_rows::{AttrdefRow, Catalogue, IndexRow, RewriteRow, SequenceRow};
use std::alloc::{AllocError, Global};

// The oids of defaults.
fn defaults(alloc: Global, rows: &[AttrdefRow]) -> Result<OidIndex, AllocError>
    ensures { IfOk result (λ oids. oids ≡ map (λ d. d.oid) rows.now) }
{
    let oids: Vec<u32> = rows.iter().map(|d| d.oid).collect(alloc)?;
    OidIndex::of(alloc, &oids)
}

// The sequences of rows of pg_sequence.
fn sequences(alloc: Global, rows: &[SequenceRow]) -> Result<OidIndex, AllocError>
    ensures { IfOk result (λ oids. oids ≡ map (λ s. s.seqrelid) rows.now) }
{
    let oids: Vec<u32> = rows.iter().map(|s| s.seqrelid).collect(alloc)?;
    OidIndex::of(alloc, &oids)
}

// The indexes of rows of pg_index.
fn indexes(alloc: Global, rows: &[IndexRow]) -> Result<OidIndex, AllocError>
    ensures { IfOk result (λ oids. oids ≡ map (λ i. i.indexrelid) rows.now) }
{
    let oids: Vec<u32> = rows.iter().map(|i| i.indexrelid).collect(alloc)?;
    OidIndex::of(alloc, &oids)
}

// The oids of rewrite rows.
fn rewrites(alloc: Global, rows: &[RewriteRow]) -> Result<OidIndex, AllocError>
    ensures { IfOk result (λ oids. oids ≡ map (λ r. r.oid) rows.now) }
{
    let oids: Vec<u32> = rows.iter().map(|r| r.oid).collect(alloc)?;
    OidIndex::of(alloc, &oids)
}

// The views of rewrite rows.
fn views(alloc: Global, rows: &[RewriteRow]) -> Result<OidIndex, AllocError>
    ensures { IfOk result (λ oids. oids ≡ map (λ r. r.ev_class) rows.now) }
{
    let oids: Vec<u32> = rows.iter().map(|r| r.ev_class).collect(alloc)?;
    OidIndex::of(alloc, &oids)
}

/// The oids by which single rows of a catalogue are found. The only error is that memory ran out.
pub(crate) fn places(alloc: Global, cat: &Catalogue) -> Result<Places, AllocError>
    ensures { IfOk result (λ places. ArePlaces cat.now places) }
{
    let defaults = defaults(alloc, cat.pg_attrdef.as_slice())?;
    let sequences = sequences(alloc, cat.pg_sequence.as_slice())?;
    let indexes = indexes(alloc, cat.pg_index.as_slice())?;
    let rewrites = rewrites(alloc, cat.pg_rewrite.as_slice())?;
    let views = views(alloc, cat.pg_rewrite.as_slice())?;
    Ok(Places {
        defaults,
        sequences,
        indexes,
        rewrites,
        views,
    })
}
