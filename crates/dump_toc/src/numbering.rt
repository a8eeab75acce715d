//! The numbers of entries.
ghost use Rattle.std.specs.Prelude.{◌≡◌, [], ◌∷◌, ◌+◌, ◌++◌, IfOk, OnOk};
ghost use Rattle.dump_toc.specs.Numbers.{first_of, first_ids, id_at, ids_at, state_of, entry_of, entries_from};

use crate::draft::Draft;
use dump_stmts::empty_text;
use std::alloc::{AllocError, Global};
use toc_entry::{DumpIds, Entry, Extra};

/// The dump id of the first object's entry.
const FIRST: u32 = 5;

/// The states of an entry: the place of its rows isn't told, and it has none.
const NOT_TOLD: u8 = 1;

const NO_ROWS: u8 = 3;

// The number of the first of so many entries; `None` where there is none.
fn first_of(next: u32, count: usize) -> Option<u32>
    ensures { result ≡ first_of next count }
{
    if count == 0 { None } else { Some(next) }
}

// The number behind so many entries, which no number of a dump passes.
fn behind(next: u32, count: usize) -> Result<u32, AllocError>
    ensures { IfOk result (λ number. number ≡ next + count) }
{
    let Ok(count) = u32::try_from(count) else {
        return Err(AllocError);
    };
    next.checked_add(count).ok_or(AllocError)
}

// Adds the number of an object's first entry behind others, and gives the number behind all its entries.
fn push_first(ids: &mut Vec<Option<u32>>, next: u32, count: usize) -> Result<u32, AllocError>
    ensures pushed { OnOk result (ids.new.items ≡ ids.old.items ++ first_of next count ∷ []) }
    ensures behind { IfOk result (λ number. number ≡ next + count) }
{
    ids.push(first_of(next, count))?;
    behind(next, count)
}

/// The dump ids of the first entries of objects, of each of which it is told how many entries it has.
pub(crate) fn first_ids(alloc: Global, counts: &[usize]) -> Result<Vec<Option<u32>>, AllocError>
    ensures { IfOk result (λ ids. ids.items ≡ first_ids 5 counts.now) }
{
    let mut ids = Vec::new(alloc);
    let mut next = FIRST;
    for count in counts {
        let after = push_first(&mut ids, next, *count)?;
        next = after;
    }
    Ok(ids)
}

// The dump id of the object at a place; `None` where it has no entry.
fn id_at(ids: &[Option<u32>], place: u32) -> Option<u32>
    ensures { result ≡ id_at ids.now place }
{
    match ids.get(place as usize) {
        Some(id) => *id,
        None => None,
    }
}

// The dump ids of the objects at these places that have entries.
fn ids_at(alloc: Global, ids: &[Option<u32>], places: &[u32]) -> Result<Vec<u32>, AllocError>
    ensures { IfOk result (λ found. found.items ≡ ids_at ids.now places.now) }
{
    places
        .iter()
        .filter_map(|place| id_at(ids, *place))
        .collect(alloc)
}

// The state of an entry.
fn state_of(has_rows: bool) -> u8
    ensures { result ≡ state_of has_rows }
{
    if has_rows { NOT_TOLD } else { NO_ROWS }
}

// A draft with its number.
fn entry_of(
    alloc: Global,
    ids: &[Option<u32>],
    dump_id: u32,
    draft: Draft,
) -> Result<Entry, AllocError>
    ensures { IfOk result (λ entry. entry ≡ entry_of ids.now dump_id draft) }
{
    let depends = DumpIds::from_vec(ids_at(alloc, ids, draft.needs.as_slice())?);
    let tablespace = empty_text(alloc)?;
    let has_rows = draft.copy_stmt.is_some();
    Ok(Entry {
        dump_id,
        has_rows,
        tableoid: draft.tableoid,
        oid: draft.oid,
        tag: draft.tag,
        desc: draft.desc,
        section: draft.section,
        defn: Some(draft.defn),
        drop_stmt: Some(draft.drop_stmt),
        copy_stmt: draft.copy_stmt,
        namespace: draft.namespace,
        tablespace: Some(tablespace),
        tableam: draft.tableam,
        owner: draft.owner,
        depends,
        extra: Extra::Place {
            state: state_of(has_rows),
            offset: 0,
        },
    })
}

/// Adds the entries of these drafts, by the dump ids of the objects.
#[tactic(auto, unfolding(crate::specs::Numbers::entries_from))]
pub(crate) fn add_entries(
    alloc: Global,
    ids: &[Option<u32>],
    drafts: Vec<Draft>,
    entries: &mut Vec<Entry>,
) -> Result<(), AllocError>
    ensures { OnOk result (entries.new.items ≡ entries.old.items ++ entries_from ids.now 5 drafts.items) }
{
    let mut dump_id = FIRST;
    let mut left = drafts.into_iter();
    'drafts: while let Some(draft) = left.next() {
        let entry = entry_of(alloc, ids, dump_id, draft)?;
        entries.push(entry)?;
        dump_id = behind(dump_id, 1)?;
    }
    Ok(())
}
