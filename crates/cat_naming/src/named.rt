//! What all tables of a catalogue, with the rows of its tables, stand for by names.
ghost use Rattle.std.specs.Prelude.{◌≡◌, ◌++◌, None, IfOk, OnOk};
ghost use Rattle.cat_names.specs.Naming.{cluster_entries};
ghost use Rattle.table_rows.specs.Values.{values_fault};
ghost use Rattle.cat_naming.specs.Entries.{object_entries, entries_of, catalogue_named};
ghost use Rattle.cat_naming.specs.Texts.{rows_by_oid};

use crate::cluster::{add_databases, add_members, add_roles, add_schemas};
use crate::columns::add_defaults;
use crate::comments::add_comments;
use crate::constraints::{add_constraints, add_indexes};
use crate::relations::add_classes;
use crate::sequences::{add_bodies, add_sequences};
use crate::types::add_types;
use cat_lookups::Lookups;
use cat_names::DataSet;
use cat_rows::Catalogue;
use eng_map::{Entries, NamedMap, let_go_entries};
use std::alloc::{AllocError, Global};

// Adds what the roles, memberships, databases and schemas give.
fn add_cluster(
    alloc: Global,
    entries: &mut Entries,
    lookups: &Lookups<'_>,
) -> Result<(), AllocError>
    ensures { OnOk result (entries.new.items ≡ entries.old.items ++ cluster_entries lookups.now) }
{
    let cat = lookups.tables();
    let book = lookups.book();
    add_roles(entries, cat.pg_authid.as_slice())?;
    add_members(entries, book, cat.pg_auth_members.as_slice())?;
    add_databases(entries, book, cat.pg_database.as_slice())?;
    add_schemas(alloc, entries, book, cat.pg_namespace.as_slice())
}

// Adds what the other tables give.
fn add_objects(
    alloc: Global,
    entries: &mut Entries,
    lookups: &Lookups<'_>,
    rows: &DataSet,
) -> Result<(), AllocError>
    ensures { OnOk result (entries.new.items ≡ entries.old.items ++ object_entries lookups.now (rows_by_oid rows.now)) }
{
    let cat = lookups.tables();
    add_types(alloc, entries, lookups, cat.pg_type.as_slice())?;
    add_classes(alloc, entries, lookups, rows, cat.pg_class.as_slice())?;
    add_defaults(alloc, entries, lookups, cat.pg_attrdef.as_slice())?;
    add_constraints(alloc, entries, lookups, cat.pg_constraint.as_slice())?;
    add_indexes(alloc, entries, cat.pg_index.as_slice())?;
    add_sequences(alloc, entries, lookups, cat.pg_sequence.as_slice())?;
    add_bodies(alloc, entries, lookups, cat.pg_rewrite.as_slice())?;
    add_comments(entries, lookups, cat.pg_description.as_slice())
}

// Adds what all tables give.
fn add_entries(
    alloc: Global,
    entries: &mut Entries,
    lookups: &Lookups<'_>,
    rows: &DataSet,
) -> Result<(), AllocError>
    ensures { OnOk result (entries.new.items ≡ entries.old.items ++ entries_of lookups.now (rows_by_oid rows.now)) }
{
    add_cluster(alloc, entries, lookups)?;
    add_objects(alloc, entries, lookups, rows)
}

// The map of a catalogue, with what its rows are found by.
fn map_of(alloc: Global, lookups: &Lookups<'_>, rows: &DataSet) -> Result<NamedMap, AllocError>
    ensures { IfOk result (λ map. map ≡ catalogue_named lookups.now (rows_by_oid rows.now)) }
{
    let mut entries = Vec::new(alloc);
    match add_entries(alloc, &mut entries, lookups, rows) {
        Ok(()) => NamedMap::of(alloc, entries),
        Err(error) => {
            let_go_entries(entries);
            Err(error)
        }
    }
}

/// The map of what a catalogue and the rows of its tables stand for by names, in a time that grows with them about as
/// the time to sort them does. A row that an oid leads nowhere from gives nothing, and of two entries of a key the first
/// counts. The texts hold rows of its tables. The only error is want of memory.
pub fn catalogue_map(alloc: Global, cat: &Catalogue, rows: &DataSet) -> Result<NamedMap, AllocError>
    requires { values_fault cat.now rows.now ≡ None }
    ensures { IfOk result (λ map. map ≡ catalogue_named cat.now (rows_by_oid rows.now)) }
{
    let lookups = Lookups::of(alloc, cat)?;
    map_of(alloc, &lookups, rows)
}
