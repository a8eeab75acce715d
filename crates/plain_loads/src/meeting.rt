//! Tables that take the rows of their texts.
ghost use Rattle.std.specs.Prelude.{◌≡◌, List, None, Some, length, map, IfOk, IfSome, IsTrue};
ghost use Rattle.std.specs.FinMap.{get};
ghost use Rattle.std.specs.List.{AllByRecursion};
ghost use Rattle.std.specs.Map.Iter.{deref_pair};
ghost use Rattle.std.specs.Option.{option_map, option_copied};
ghost use Rattle.cat_rows.specs.declared.catalogue.Catalogue.{Catalogue as TheCatalogue};
ghost use Rattle.cat_names.specs.DataSets.{TextsByOid};
ghost use Rattle.cat_model.specs.declared.key.Key.{Key as TheKey};
ghost use Rattle.cat_model.specs.declared.key.Key.TheVariants as key;
ghost use Rattle.cat_model.specs.declared.value.Column.{Column as TheColumn};
ghost use Rattle.cat_model.specs.declared.value.Value.{Value as TheValue};
ghost use Rattle.cat_model.specs.declared.value.Value.TheVariants as value;
ghost use Rattle.cat_model.specs.CopyEffect.{primary_columns};
ghost use Rattle.cat_model.specs.Trees.{is_primary};
ghost use Rattle.cat_naming.specs.Entries.{catalogue_named};
ghost use Rattle.cat_naming.specs.Texts.{rows_by_oid};
ghost use Rattle.cat_naming.specs.Relations.{RowsByOid};
ghost use Rattle.cat_load.specs.Loads.{rows_fault};
ghost use Rattle.copy_effects.specs.Keys.{primary_in};
ghost use Rattle.table_rows.specs.Values.{values_fault};
ghost use Rattle.plain_loads.specs.Meeting.{Meets, TableTakes, constraints_of, indexes_of};

use crate::foreigns::{Tables, all_have_parents};
use crate::lines::find_fitting;
use crate::parents::text_of;
use crate::uniques::all_differ;
use cat_model::{Class, Column, ConstraintKind, Key, QName, Value};
use cat_names::DataSet;
use cat_naming::catalogue_map;
use copy_text::Name;
use eng_map::NamedMap;
use eng_steps::let_go_key;
use field_values::TableColumns;
use key_effects::entries_of;
use std::alloc::{AllocError, Global};
use table_rows::{CheckValuesError, check_values, table_oids};
use well_formed::WellFormed;

fn is_primary(kind: ConstraintKind) -> bool
    ensures { result ≡ is_primary kind }
{
    matches!(kind, ConstraintKind::Primary)
}

// The columns of a primary key.
fn primary_in(value: &Value) -> Option<&[Name]>
    ensures { option_map (λ names. names.now) result ≡ primary_in value.now }
{
    match value {
        Value::Constraint(c) => is_primary(c.kind).then_some(c.columns.as_slice()),
        _ => None,
    }
}

// The columns of the first primary key among these; none where there is none.
pub(crate) fn primary_columns<'m>(constraints: &[(&'m Key, &'m Value)]) -> &'m [Name]
    ensures { result.now ≡ primary_columns (map (deref_pair {K = TheKey} {X = TheValue}) constraints.now) }
{
    for i in 0..constraints.len() {
        let (_, value) = constraints[i];
        if let Some(names) = primary_in(value) {
            return names;
        }
    }
    &[]
}

fn columns_in(found: Option<&Value>) -> Option<&[Column]>
    ensures { IfSome result (λ columns. option_copied found.entry ≡ Some (value.Table columns.now)) }
{
    match found {
        Some(Value::Table(columns)) => Some(columns.as_slice()),
        _ => None,
    }
}

// The columns of a table that is there.
pub(crate) fn table_columns<'m>(
    named: &'m NamedMap,
    q: &QName,
) -> Result<Option<&'m [Column]>, AllocError>
    ensures { IfOk result (λ found. IfSome found (λ columns. get named.now (key.Rel q.now) ≡ Some (value.Table columns.now))) }
{
    let key = Key::Rel(q.clone()?);
    let columns = columns_in(named.get(&key));
    let_go_key(key);
    Ok(columns)
}

// The constraints of a table.
pub(crate) fn constraints_of<'m>(
    named: &'m NamedMap,
    q: &QName,
) -> Result<Vec<(&'m Key, &'m Value)>, AllocError>
    ensures { IfOk result (λ found. map (deref_pair {K = TheKey} {X = TheValue}) found.items ≡ constraints_of named.now q.now) }
{
    entries_of(named, Class::Constraints(q.clone()?))
}

// The indexes of a table.
pub(crate) fn indexes_of<'m>(
    named: &'m NamedMap,
    q: &QName,
) -> Result<Vec<(&'m Key, &'m Value)>, AllocError>
    ensures { IfOk result (λ found. map (deref_pair {K = TheKey} {X = TheValue}) found.items ≡ indexes_of named.now q.now) }
{
    entries_of(named, Class::Indexes(q.clone()?))
}

// Whether a table of these columns, constraints and indexes takes the rows of a text.
fn entries_meet(
    alloc: Global,
    tables: &Tables<'_, '_>,
    q: &QName,
    columns: &TableColumns<'_>,
    constraints: &[(&Key, &Value)],
    indexes: &[(&Key, &Value)],
    text: &[u8],
) -> Result<bool, AllocError>
    ensures { IfOk result (λ meet. IsTrue meet → get tables.now.named.now (key.Rel q.now) ≡ Some (value.Table columns.now)
        → map (deref_pair {K = TheKey} {X = TheValue}) constraints.now ≡ constraints_of tables.now.named.now q.now
        → map (deref_pair {K = TheKey} {X = TheValue}) indexes.now ≡ indexes_of tables.now.named.now q.now
        → Meets tables.now.named.now tables.now.book.now tables.now.rows.now q.now text.now) }
{
    let Some(fit) = find_fitting(alloc, columns, primary_columns(constraints), text)? else {
        return Ok(false);
    };
    if !all_differ(alloc, columns, fit.rising, constraints, text)? {
        return Ok(false);
    }
    if !all_differ(alloc, columns, fit.rising, indexes, text)? {
        return Ok(false);
    }
    all_have_parents(alloc, tables, q, columns, constraints, text)
}

// Whether a table of these columns takes the rows of a text.
fn columns_meet(
    alloc: Global,
    tables: &Tables<'_, '_>,
    q: &QName,
    columns: &[Column],
    text: &[u8],
) -> Result<bool, AllocError>
    ensures { IfOk result (λ meet. IsTrue meet → get tables.now.named.now (key.Rel q.now) ≡ Some (value.Table columns.now) → Meets tables.now.named.now tables.now.book.now tables.now.rows.now q.now text.now) }
{
    let table = TableColumns::new(alloc, columns)?;
    let constraints = constraints_of(tables.named, q)?;
    let indexes = indexes_of(tables.named, q)?;
    entries_meet(alloc, tables, q, &table, &constraints, &indexes, text)
}

// Whether the table of a path takes the rows of a text.
fn path_meets(
    alloc: Global,
    tables: &Tables<'_, '_>,
    q: &QName,
    text: &[u8],
) -> Result<bool, AllocError>
    ensures { IfOk result (λ meets. IsTrue meets → Meets tables.now.named.now tables.now.book.now tables.now.rows.now q.now text.now) }
{
    match table_columns(tables.named, q)? {
        Some(columns) => columns_meet(alloc, tables, q, columns, text),
        None => Ok(false),
    }
}

// Whether a table has this many columns.
pub(crate) fn has_columns(named: &NamedMap, q: &QName, many: usize) -> Result<bool, AllocError>
    ensures { IfOk result (λ has. IsTrue has → (columns : List TheColumn) → get named.now (key.Rel q.now) ≡ Some (value.Table columns) → length columns ≡ many) }
{
    match table_columns(named, q)? {
        Some(columns) => Ok(columns.len() == many),
        None => Ok(false),
    }
}

// Whether the table of an oid takes the rows of its text, which are rows of it.
fn table_meets(alloc: Global, tables: &Tables<'_, '_>, table: u32) -> Result<bool, AllocError>
    ensures { IfOk result (λ meets. IsTrue meets → TableTakes tables.now.named.now tables.now.book.now tables.now.rows.now table) }
{
    let Some(q) = tables.book.class_path_of(table)? else {
        return Ok(false);
    };
    if !has_columns(tables.named, &q, tables.book.column_count(table))? {
        return Ok(false);
    }
    path_meets(alloc, tables, &q, text_of(tables.rows, table))
}

fn tables_meet(alloc: Global, tables: &Tables<'_, '_>, oids: &[u32]) -> Result<bool, AllocError>
    ensures { IfOk result (λ meet. IsTrue meet → AllByRecursion (TableTakes tables.now.named.now tables.now.book.now tables.now.rows.now) oids.now) }
{
    for i in 0..oids.len() {
        if !table_meets(alloc, tables, oids[i])? {
            return Ok(false);
        }
    }
    Ok(true)
}

// The same of all tables of a catalogue, which stands for this by names, whatever their rows are.
fn named_meets(
    alloc: Global,
    named: &NamedMap,
    cat: &WellFormed,
    rows: &DataSet,
) -> Result<bool, AllocError>
    ensures hold { IfOk result (λ meets. IsTrue meets → values_fault cat.now rows.now ≡ None) }
    ensures meet { IfOk result (λ meets. IsTrue meets → (other : RowsByOid) → named.now ≡ catalogue_named cat.now other → rows_fault cat.now rows.now ≡ None) }
{
    let book = cat.book(alloc)?;
    let oids = table_oids(alloc, cat.rows())?;
    let tables = Tables {
        named,
        book: &book,
        rows,
    };
    tables_meet(alloc, &tables, &oids)
}

// Whether texts hold rows of their tables.
pub(crate) fn have_rows(alloc: Global, cat: &WellFormed, rows: &DataSet) -> Result<bool, AllocError>
    ensures { IfOk result (λ have. IsTrue have → values_fault cat.now rows.now ≡ None) }
{
    match check_values(alloc, cat.rows(), rows) {
        Ok(()) => Ok(true),
        Err(CheckValuesError::Fault(_)) => Ok(false),
        Err(CheckValuesError::Memory) => Err(AllocError),
    }
}

/// Whether the text of each table holds rows of it, which meet its columns, their types, its keys and its foreign keys, so that
/// neither `table_rows::check_values` nor `cat_load::load` finds a fault: the texts are tried without making their rows.
///
/// It says no where it can't tell: of a text that isn't UTF-8 or has a line with an escape other than null. A text is gone
/// over once for its table, with a primary key on one column that rises, and once more for each other key; memory is taken
/// for one key's values at a time, and for the rows of the text, and of a parent's, while a key on several columns is tried.
///
/// The error is that memory ran out. See <https://www.postgresql.org/docs/16/ddl-constraints.html>.
pub fn rows_meet(alloc: Global, cat: &WellFormed, rows: &DataSet) -> Result<bool, AllocError>
    ensures hold { IfOk result (λ meet. IsTrue meet → values_fault cat.now rows.now ≡ None) }
    ensures meet { IfOk result (λ meet. IsTrue meet → rows_fault cat.now rows.now ≡ None) }
{
    let none = DataSet::new(alloc);
    if !have_rows(alloc, cat, &none)? {
        return Ok(false);
    }
    let named = catalogue_map(alloc, cat.rows(), &none)?;
    named_meets(alloc, &named, cat, rows)
}
