//! The table of contents.
ghost use Rattle.std.specs.Prelude.{◌≡◌, ◌++◌, IfOk};
ghost use Rattle.dump_toc.specs.Gives.{GivesToc};
ghost use Rattle.dump_toc.specs.Numbers.{first_ids, entries_from};
ghost use Rattle.dump_toc.specs.Session.{session_entries};
ghost use Rattle.dump_toc.specs.Toc.{counted};

use crate::draft::Draft;
use crate::error::TocError;
use crate::groups::{Drafts, drafts_of};
use crate::numbering::{add_entries, first_ids};
use crate::session::session_entries;
use dep_sort::Ordered;
use dump_rows::DumpRows;
use obj_graph::Select;
use std::alloc::{AllocError, Global};
use toc_entry::Entry;

/// The most entries of a table of contents.
const MOST_ENTRIES: u64 = 200_000;

/// How many entries stand before those of objects.
const SESSION_ENTRIES: u64 = 4;

// The entries of the session and of these drafts.
fn numbered(
    alloc: Global,
    rows: &DumpRows<'_>,
    counts: &[usize],
    drafts: Vec<Draft>,
) -> Result<Vec<Entry>, AllocError>
    ensures { IfOk result (λ entries. entries.items ≡ session_entries rows.now ++ entries_from (first_ids 5 counts.now) 5 drafts.items) }
{
    let ids = first_ids(alloc, counts)?;
    let mut entries = session_entries(alloc, rows)?;
    add_entries(alloc, &ids, drafts, &mut entries)?;
    Ok(entries)
}

/// The table of contents of a dump of these objects in their order, which a selection chose.
///
/// Three entries set up the session and one makes the database; then the objects follow in their order, with numbers from 5
/// on, each with the column that owns it, where it is a sequence, and its comments behind it, and at the end the grants. An
/// entry lists the entries of the objects that its own needs.
///
/// `TooMany` comes exactly where there would be more than 200,000 entries, with their number. `Memory` may be answered for any
/// objects.
/// <https://www.postgresql.org/docs/16/app-pgdump.html>
#[tactic(auto, unfolding(crate::specs::Toc::counted, crate::specs::Toc::toc_of))]
pub fn entries(
    alloc: Global,
    rows: &DumpRows<'_>,
    select: &Select,
    ordered: &Ordered,
) -> Result<Vec<Entry>, TocError>
    ensures { GivesToc result (counted rows.now select.now ordered.now) }
{
    let Drafts { drafts, counts } = drafts_of(alloc, rows, select, ordered)?;
    let count = drafts.len() as u64 + SESSION_ENTRIES;
    if count > MOST_ENTRIES {
        return Err(TocError::TooMany(count));
    }
    let entries = numbered(alloc, rows, &counts, drafts)?;
    Ok(entries)
}
