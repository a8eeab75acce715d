//! The export of a catalogue by names.
ghost use Rattle.std.specs.Prelude.{◌≡◌, map, None, IfOk, IfSome, OnOk};
ghost use Rattle.std.specs.FinMap.{empty, entries as entries_of};
ghost use Rattle.std.specs.List.{AllByRecursion};
ghost use Rattle.std.specs.Map.Iter.{deref_pair};
ghost use Rattle.cat_model.specs.declared.key.Key.{Key as TheKey};
ghost use Rattle.cat_model.specs.declared.value.Value.{Value as TheValue};
ghost use Rattle.cat_naming.specs.Entries.{catalogue_named};
ghost use Rattle.cat_naming.specs.Texts.{rows_by_oid};
ghost use Rattle.cat_sound.specs.Sound.{IsSound};
ghost use Rattle.column_numbers.specs.Rule.{with_entries};
ghost use Rattle.eng_tables.specs.Oids.{IsLeastUnused};
ghost use Rattle.entry_ids.specs.Entries.{AreUnused, HaveIds, slots_of};
ghost use Rattle.entry_ids.specs.Ids.{of_keys};
ghost use Rattle.entry_ids.specs.Views.{AreKept};
ghost use Rattle.named_tables.specs.Oids.{IsStarted};
ghost use Rattle.object_ids.specs.Ids.{KeepIds};
ghost use Rattle.object_loops.specs.Oids.{with_numbers};
ghost use Rattle.sound_texts.specs.Grammar.{grammar};
ghost use Rattle.table_rows.specs.Values.{values_fault};
ghost use Rattle.well_formed.specs.Formed.{IsWellFormed};
ghost use Rattle.whole_export.specs.Data.{with_all_rows, IsHeld};
ghost use Rattle.whole_export.specs.Made.{other_columns, AreMade, Stands};

use crate::catalogues::catalogue_of;
use crate::row_data::row_texts;
use cat_model::{Key, Value};
use cat_names::DataSet;
use cat_rows::Catalogue;
use column_numbers::{Numbers, number_columns};
use copy_text::Name;
use data_rows::laws::written_rows_read;
use eng_map::NamedMap;
use entry_ids::number_all;
use object_ids::Ids;
use sorted_entries::in_order;
use std::alloc::{AllocError, Global};
use table_rows::laws::texts_without_fault_have_rows;

/// The tables that stand for a catalogue by names, and the rows of its tables.
#[derive(Drop)]
pub struct Exported {
    /// The fifteen tables.
    pub catalogue: Catalogue,
    /// The text of each table's rows, by the table's oid.
    pub rows: DataSet,
}

// The tables and the rows of these entries.
fn entry_export(
    alloc: Global,
    named: &NamedMap,
    ids: &Ids,
    numbers: &Numbers,
    current: &Name,
    entries: &[(&Key, &Value)],
    opening: &Catalogue,
) -> Result<Exported, AllocError>
    ensures made { IfOk result (λ out. AreMade named.now (with_numbers ids.now numbers.now) current.now opening.now (map (deref_pair {K = TheKey} {X = TheValue}) entries.now) out.catalogue) }
    ensures rows { IfOk result (λ out. out.rows ≡ with_all_rows ids.now (map (deref_pair {K = TheKey} {X = TheValue}) entries.now) empty) }
    ensures held { OnOk result (AllByRecursion IsHeld (map (deref_pair {K = TheKey} {X = TheValue}) entries.now)) }
{
    let catalogue = catalogue_of(alloc, named, ids, numbers, current, entries, opening)?;
    let rows = row_texts(alloc, ids, entries)?;
    Ok(Exported { catalogue, rows })
}

// The tables and the rows of a catalogue all of which has oids.
fn numbered_export(
    alloc: Global,
    named: &NamedMap,
    ids: &Ids,
    had: &Numbers,
    current: &Name,
    entries: &[(&Key, &Value)],
    opening: &Catalogue,
) -> Result<Exported, AllocError>
    requires entries { map (deref_pair {K = TheKey} {X = TheValue}) entries.now ≡ entries_of named.now }
    requires oids { HaveIds ids.now (slots_of (entries_of named.now)) }
    ensures stand { IfOk result (λ out. IsSound grammar named.now → Stands named.now ids.now (with_entries had.now (entries_of named.now) empty) current.now opening.now out.catalogue (rows_by_oid out.rows)) }
    ensures rows { IfOk result (λ out. out.rows ≡ with_all_rows ids.now (entries_of named.now) empty) }
    ensures values { IfOk result (λ out. IsSound grammar named.now → values_fault out.catalogue out.rows ≡ None) }
{
    ids.are_apart();
    written_rows_read();
    texts_without_fault_have_rows();
    let numbers = number_columns(alloc, had, entries)?;
    Ok(entry_export(alloc, named, ids, &numbers, current, entries, opening)?)
}

/// The tables and the rows of tables that stand for a catalogue by names, which began as this opening and has this current
/// database. What had an oid by `ids` keeps it, and what had none gets the least one from 16384 up that isn't in use; columns
/// keep the numbers that they had, where these rise; columns of what is no table, and dependencies, are the opening's. `None`
/// only where no oid is left. The only error is want of memory.
pub fn export(
    alloc: Global,
    named: &NamedMap,
    ids: &mut Ids,
    had: &Numbers,
    current: &Name,
    opening: &Catalogue,
) -> Result<Option<Exported>, AllocError>
    // They stand for a catalogue that is in order.
    ensures stand { IfOk result (λ made. IfSome made (λ out. IsSound grammar named.now → Stands named.now ids.new (with_entries had.now (entries_of named.now) empty) current.now opening.now out.catalogue (rows_by_oid out.rows))) }
    // So they are named as it.
    ensures named { IfOk result (λ made. IfSome made (λ out. IsSound grammar named.now → catalogue_named out.catalogue (rows_by_oid out.rows) ≡ named.now)) }
    // And they are well-formed, where the boot role and the current database are there, and what is kept of the opening meets
    // the conditions of its tables.
    ensures formed { IfOk result (λ made. IfSome made (λ out. IsSound grammar named.now → IsStarted named.now (of_keys ids.old) current.now → AreKept out.catalogue → IsWellFormed out.catalogue)) }
    // The text of a table's rows is the one that spells them.
    ensures rows { IfOk result (λ made. IfSome made (λ out. out.rows ≡ with_all_rows ids.new (entries_of named.now) empty)) }
    // These texts hold rows of the tables.
    ensures values { IfOk result (λ made. IfSome made (λ out. IsSound grammar named.now → values_fault out.catalogue out.rows ≡ None)) }
    // What had an oid keeps it, and what had none has one that wasn't in use; or none is left.
    ensures kept { OnOk result (KeepIds ids.old ids.new) }
    ensures unused { OnOk result (AreUnused ids.old ids.new) }
    ensures left { IfOk result (λ made. made ≡ None → IsLeastUnused ids.new.used None) }
{
    let entries = in_order(alloc, named)?;
    if !number_all(alloc, ids, &entries)? {
        return Ok(None);
    }
    Ok(Some(numbered_export(alloc, named, ids, had, current, &entries, opening)?))
}
