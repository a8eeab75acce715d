//! What the rows of a table refer to.
ghost use Rattle.std.specs.Prelude.{◌≡◌, ◌++◌, Some, map, if◌then◌else◌, IfOk};
ghost use Rattle.std.specs.FinMap.{entries, get};
ghost use Rattle.std.specs.List.{filter_map};
ghost use Rattle.std.specs.Map.Iter.{deref_pair};
ghost use Rattle.std.specs.Option.{option_copied};
ghost use Rattle.cat_model.specs.declared.cause.Cause.TheVariants as cause;
ghost use Rattle.cat_model.specs.declared.class.Class.TheVariants as class;
ghost use Rattle.cat_model.specs.declared.key.Key.{Key as TheKey};
ghost use Rattle.cat_model.specs.declared.key.Key.TheVariants as key;
ghost use Rattle.cat_model.specs.declared.value.Value.{Value as TheValue};
ghost use Rattle.cat_model.specs.CopyEffect.{foreign_in, foreign_of};
ghost use Rattle.cat_model.specs.KeyEffects.{columns_of, rows_in};
ghost use Rattle.cat_model.specs.Tables.{orphan};
ghost use Rattle.cat_model.specs.Trees.{class_of, same_path, seen};
ghost use Rattle.rows_fit.specs.KeyCauses.{linked, parent_cause};

use cat_model::{Cause, Class, Column, Constraint, Items, Key, QName, Value};
use copy_text::{Name, Row};
use eng_map::NamedMap;
use eng_steps::let_go_key;
use field_values::TableColumns;
use key_effects::{entries_of, rows_of};
use row_keys::{JoinedRows, orphan};
use std::alloc::{AllocError, Global};
use std::marker::Model;

// A foreign key. A contract sees what it holds.
#[derive(Drop)]
struct Foreign<'m> {
    name: &'m Name,
    columns: &'m [Name],
    parent: &'m QName,
    parent_columns: &'m [Name],
}

impl<'m> Model for Foreign<'m> {
    ghost use Rattle.cat_model.specs.CopyEffect.{Foreign as TheForeign};

    ghost Value = { TheForeign };

    ghost view = { λ f. record { name = f.name.now; columns = f.columns.now; parent = f.parent.now; parent_columns = f.parent_columns.now } };
}

impl<'m> Foreign<'m> {
    fn name(&self) -> &'m Name
        ensures { result.now ≡ self.now.name }
    {
        self.name
    }

    fn columns(&self) -> &'m [Name]
        ensures { result.now ≡ self.now.columns }
    {
        self.columns
    }

    fn parent(&self) -> &'m QName
        ensures { result.now ≡ self.now.parent }
    {
        self.parent
    }

    fn parent_columns(&self) -> &'m [Name]
        ensures { result.now ≡ self.now.parent_columns }
    {
        self.parent_columns
    }
}

fn foreign_of<'m>(name: &'m Name, constraint: &'m Constraint) -> Option<Foreign<'m>>
    ensures { result ≡ foreign_of name.now constraint.now constraint.now.parent }
{
    match &constraint.parent {
        Some((parent, names)) => Some(Foreign {
            name,
            columns: constraint.columns.as_slice(),
            parent,
            parent_columns: names.as_slice(),
        }),
        None => None,
    }
}

fn foreign_in<'m>(key: &'m Key, value: &'m Value) -> Option<Foreign<'m>>
    ensures { result ≡ foreign_in (key.now, value.now) }
{
    match key {
        Key::Con(_, name) => match value {
            Value::Constraint(constraint) => foreign_of(name, constraint),
            _ => None,
        },
        _ => None,
    }
}

// The foreign keys among constraints.
fn foreigns_of<'m>(
    alloc: Global,
    constraints: &[(&'m Key, &'m Value)],
) -> Result<Vec<Foreign<'m>>, AllocError>
    ensures { IfOk result (λ foreigns. foreigns.items ≡ filter_map foreign_in (map (deref_pair {K = TheKey} {X = TheValue}) constraints.now)) }
{
    let mut foreigns = Vec::new(alloc);
    for i in 0..constraints.len() {
        let (key, value) = constraints[i];
        if let Some(foreign) = foreign_in(key, value) {
            foreigns.push(foreign)?;
        }
    }
    Ok(foreigns)
}

fn columns_of(found: Option<&Value>) -> &[Column]
    ensures { result.now ≡ columns_of (option_copied found.entry) }
{
    match found {
        Some(Value::Table(columns)) => columns.as_slice(),
        _ => &[],
    }
}

// The columns of a table; none where it isn't there.
fn columns_under<'m>(named: &'m NamedMap, q: &QName) -> Result<&'m [Column], AllocError>
    ensures { IfOk result (λ columns. columns.now ≡ columns_of (get named.now (key.Rel q.now))) }
{
    let key = Key::Rel(q.clone()?);
    let columns = columns_of(named.get(&key));
    let_go_key(key);
    Ok(columns)
}

// The rows that a parent has: the table's own before the COPY, where it is its own parent.
fn parent_rows(
    alloc: Global,
    named: &NamedMap,
    q: &QName,
    parent: &QName,
) -> Result<Vec<Row>, AllocError>
    ensures { IfOk result (λ rows. rows.items ≡ (if same_path q.now parent.now then rows_in (get named.now (key.Rows q.now)) else rows_in (get named.now (key.Rows parent.now)))) }
{
    if q == parent {
        rows_of(alloc, named, q)
    } else {
        rows_of(alloc, named, parent)
    }
}

// The rows of a parent after the COPY: with the new ones behind them, where the table is its own parent.
fn rows_after<'r>(q: &QName, parent: &QName, rows: &'r [Row], new: &'r [Row]) -> JoinedRows<'r>
    ensures { result ≡ (if same_path q.now parent.now then rows.now ++ new.now else rows.now) }
{
    if q == parent {
        JoinedRows::new(rows, new)
    } else {
        JoinedRows::new(rows, &[])
    }
}

fn orphan_among<'r>(
    alloc: Global,
    foreign: &Foreign<'_>,
    columns: &TableColumns<'_>,
    new: &'r Items<Row>,
    parent_columns: &TableColumns<'_>,
    parent_rows: &JoinedRows<'r>,
) -> Result<Option<u64>, AllocError>
    ensures { IfOk result (λ row. row ≡ orphan columns.now foreign.now.columns new.now parent_columns.now foreign.now.parent_columns parent_rows.now) }
{
    orphan(
        alloc,
        columns,
        foreign.columns(),
        new.as_slice(),
        parent_columns,
        foreign.parent_columns(),
        parent_rows,
    )
}

// The least of the new rows that has no parent for a foreign key.
fn first_orphan(
    alloc: Global,
    named: &NamedMap,
    q: &QName,
    foreign: &Foreign<'_>,
    columns: &TableColumns<'_>,
    new: &Items<Row>,
) -> Result<Option<u64>, AllocError>
    ensures { IfOk result (λ row. row ≡ orphan columns.now foreign.now.columns new.now (columns_of (get named.now (key.Rel foreign.now.parent))) foreign.now.parent_columns (if same_path q.now foreign.now.parent then rows_in (get named.now (key.Rows q.now)) ++ new.now else rows_in (get named.now (key.Rows foreign.now.parent)))) }
{
    let parent = foreign.parent();
    let parent_columns = columns_under(named, parent)?;
    let parent_table = TableColumns::new(alloc, parent_columns)?;
    let rows = parent_rows(alloc, named, q, parent)?;
    let rows_after = rows_after(q, parent, &rows, new.as_slice());
    orphan_among(alloc, foreign, columns, new, &parent_table, &rows_after)
}

fn no_parent(name: &Name, row: u64) -> Result<Option<Cause>, AllocError>
    ensures { IfOk result (λ because. because ≡ Some (cause.NoParent name.now row)) }
{
    Ok(Some(Cause::NoParent {
        name: name.clone()?,
        row,
    }))
}

fn cause_among(
    alloc: Global,
    named: &NamedMap,
    q: &QName,
    foreigns: &[Foreign<'_>],
    columns: &TableColumns<'_>,
    new: &Items<Row>,
) -> Result<Option<Cause>, AllocError>
    ensures { IfOk result (λ because. because ≡ parent_cause (map (linked (seen named.now) q.now (rows_in (get named.now (key.Rows q.now)) ++ new.now)) foreigns.now) columns.now new.now) }
{
    for i in 0..foreigns.len() {
        let foreign = &foreigns[i];
        if let Some(row) = first_orphan(alloc, named, q, foreign, columns, new)? {
            return Ok(no_parent(foreign.name(), row)?);
        }
    }
    Ok(None)
}

// The foreign keys of a table.
fn foreigns_under<'m>(
    alloc: Global,
    named: &'m NamedMap,
    q: &QName,
) -> Result<Vec<Foreign<'m>>, AllocError>
    ensures { IfOk result (λ foreigns. foreigns.items ≡ filter_map foreign_in (entries (class_of named.now (class.Constraints q.now)))) }
{
    let constraints = entries_of(named, Class::Constraints(q.clone()?))?;
    foreigns_of(alloc, &constraints)
}

/// The first of a table's foreign keys, by name, for which one of the new rows has no parent, as the cause for which the
/// rows are refused. The only error is want of memory.
pub(crate) fn first_foreign_cause(
    alloc: Global,
    named: &NamedMap,
    q: &QName,
    columns: &TableColumns<'_>,
    new: &Items<Row>,
) -> Result<Option<Cause>, AllocError>
    ensures { IfOk result (λ because. because ≡ parent_cause (map (linked (seen named.now) q.now (rows_in (get named.now (key.Rows q.now)) ++ new.now)) (filter_map foreign_in (entries (class_of named.now (class.Constraints q.now))))) columns.now new.now) }
{
    let foreigns = foreigns_under(alloc, named, q)?;
    cause_among(alloc, named, q, &foreigns, columns, new)
}
