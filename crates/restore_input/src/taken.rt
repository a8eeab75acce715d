//! Entries of an archive, taken at places.
ghost use Rattle.std.specs.Prelude.{◌≡◌, ◌++◌, ◌∷◌, [], slice_get, IfOk, OnOk};
ghost use Rattle.std.specs.Option.{option_to_list};
ghost use Rattle.list_files.specs.Lists.{entries_at};

use archive_scripts::entry_at;
use copy_text::Text;
use std::alloc::{AllocError, Global};
use toc_entry::{Entry, Extra};

// A text that may be absent, copied.
fn text_of(text: &Option<Text>) -> Result<Option<Text>, AllocError>
    ensures { IfOk result (λ copy. copy ≡ text.now) }
{
    match text {
        None => Ok(None),
        Some(text) => Ok(Some(text.clone()?)),
    }
}

// Where an archive keeps rows, copied.
fn extra_of(extra: &Extra) -> Result<Extra, AllocError>
    ensures { IfOk result (λ copy. copy ≡ extra.now) }
{
    match extra {
        Extra::Place { state, offset } => Ok(Extra::Place {
            state: *state,
            offset: *offset,
        }),
        Extra::File(name) => Ok(Extra::File(name.clone()?)),
    }
}

// An entry, copied.
fn entry_of(entry: &Entry) -> Result<Entry, AllocError>
    ensures { IfOk result (λ copy. copy ≡ entry.now) }
{
    Ok(Entry {
        dump_id: entry.dump_id,
        has_rows: entry.has_rows,
        tableoid: entry.tableoid,
        oid: entry.oid,
        tag: entry.tag.clone()?,
        desc: entry.desc.clone()?,
        section: entry.section,
        defn: text_of(&entry.defn)?,
        drop_stmt: text_of(&entry.drop_stmt)?,
        copy_stmt: text_of(&entry.copy_stmt)?,
        namespace: text_of(&entry.namespace)?,
        tablespace: text_of(&entry.tablespace)?,
        tableam: text_of(&entry.tableam)?,
        owner: text_of(&entry.owner)?,
        depends: entry.depends.clone()?,
        extra: extra_of(&entry.extra)?,
    })
}

fn push_copy(taken: &mut Vec<Entry>, entry: &Entry) -> Result<(), AllocError>
    ensures { OnOk result (taken.new.items ≡ taken.old.items ++ entry.now ∷ []) }
{
    let copy = entry_of(entry)?;
    taken.push(copy)?;
    Ok(())
}

// Takes the entry at a place too; a place past the last entry stands for none.
fn push_at(taken: &mut Vec<Entry>, entries: &[Entry], place: usize) -> Result<(), AllocError>
    ensures { OnOk result (taken.new.items ≡ taken.old.items ++ option_to_list (slice_get entries.now place)) }
{
    match entry_at(entries, place) {
        None => Ok(()),
        Some(entry) => push_copy(taken, entry),
    }
}

/// The entries at places, in their order.
pub(crate) fn entries_at(
    alloc: Global,
    entries: &[Entry],
    places: &[usize],
) -> Result<Vec<Entry>, AllocError>
    ensures { IfOk result (λ taken. taken.items ≡ entries_at entries.now places.now) }
{
    let mut taken = Vec::new(alloc);
    for place in places {
        push_at(&mut taken, entries, *place)?;
    }
    Ok(taken)
}
