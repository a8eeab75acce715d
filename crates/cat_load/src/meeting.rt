//! The map of a catalogue whose rows meet their tables.
ghost use Rattle.std.specs.Prelude.{◌≡◌, [], ◌∷◌, ◌++◌, Option, None, Some, option_map, IfOk, IfErr, OnOk};
ghost use Rattle.std.specs.FinMap.{get};
ghost use Rattle.cat_model.specs.declared.cause.Cause.{Cause as TheCause};
ghost use Rattle.cat_model.specs.declared.key.Key.TheVariants as key;
ghost use Rattle.cat_model.specs.declared.value.Value.TheVariants as value;
ghost use Rattle.table_rows.specs.Values.{values_fault, text_of};
ghost use Rattle.cat_naming.specs.Entries.{catalogue_named};
ghost use Rattle.cat_naming.specs.Texts.{rows_by_oid};
ghost use Rattle.cat_load.specs.Loads.{rows_there, with_rows, refusal_of, listed, table_cause, fault_of, path_fault, fault_at, first_fault, rows_fault, IsFault};
ghost use Rattle.cat_load.specs.declared.meeting.LoadError.TheVariants as error;

use cat_book::Book;
use cat_model::{Cause, Key, QName, TableRows, Value};
use cat_names::DataSet;
use cat_naming::catalogue_map;
use copy_effects::copy_rows;
use eng_map::{NamedMap, let_go_changes, let_go_key, let_go_map};
use eng_steps::{ApplyError, one};
use std::alloc::{AllocError, Global};
use table_rows::table_oids;
use well_formed::WellFormed;

/// The rows of a table that don't meet it.
#[derive(Drop)]
pub struct LoadFault {
    /// The table's oid.
    pub table: u32,
    /// Why COPY would refuse them.
    pub cause: Cause,
}

/// Why a catalogue with its rows isn't taken in.
#[derive(Drop)]
pub enum LoadError {
    /// The rows of a table don't meet it; the first table by its oid.
    Fault(LoadFault),
    /// Memory ran out.
    Memory,
}

impl From<AllocError> for LoadError {
    ghost from_gives = { λ _ e. e ≡ error.Memory };

    fn from(_e: AllocError) -> LoadError {
        LoadError::Memory
    }
}

// A copy of the rows that stand under a key.
fn copied_rows(found: Option<&Value>) -> Result<Option<TableRows>, AllocError>
    ensures { IfOk result (λ rows. rows ≡ rows_there (option_map (λ v. v.now) found.entry)) }
{
    match found {
        Some(Value::Rows(rows)) => Ok(Some(rows.clone()?)),
        _ => Ok(None),
    }
}

// A copy of the rows of a table.
fn rows_of(named: &NamedMap, q: &QName) -> Result<Option<TableRows>, AllocError>
    ensures { IfOk result (λ rows. rows ≡ rows_there (get named.now (key.Rows q.now))) }
{
    let key = Key::Rows(q.clone()?);
    let rows = copied_rows(named.get(&key));
    let_go_key(key);
    rows
}

// The table gets these rows.
#[tactic(auto, unfolding(crate::specs::Loads::with_rows))]
fn set_rows(
    alloc: Global,
    named: &mut NamedMap,
    q: &QName,
    rows: TableRows,
) -> Result<(), AllocError>
    ensures { OnOk result (named.new ≡ with_rows named.old q.now rows) }
{
    let changes = one(alloc, Key::Rows(q.clone()?), Value::Rows(rows))?;
    named.commit(changes)
}

// Adds a cause.
fn push_cause(found: &mut Vec<Cause>, cause: Cause) -> Result<(), AllocError>
    ensures { OnOk result (found.new.items ≡ found.old.items ++ cause ∷ []) }
{
    found.push(cause)?;
    Ok(())
}

// Adds why COPY refuses a text, if it does.
#[tactic(auto, unfolding(crate::specs::Loads::refusal_of))]
fn add_refusal(
    alloc: Global,
    named: &NamedMap,
    q: &QName,
    text: &[u8],
    found: &mut Vec<Cause>,
) -> Result<(), AllocError>
    ensures { OnOk result (found.new.items ≡ found.old.items ++ listed (refusal_of named.now q.now text.now)) }
{
    match copy_rows(alloc, named, q, &[], text) {
        Ok(changes) => {
            let_go_changes(changes);
            Ok(())
        }
        Err(ApplyError::Refused(cause)) => push_cause(found, cause),
        Err(ApplyError::Memory) => Err(AllocError),
    }
}

// The same where the table's rows are taken out, and put back.
#[tactic(auto, using(crate::proofs::Put::rows_put_back))]
fn add_refusal_without(
    alloc: Global,
    named: &mut NamedMap,
    q: &QName,
    rows: TableRows,
    text: &[u8],
    found: &mut Vec<Cause>,
) -> Result<(), AllocError>
    requires { get named.old (key.Rows q.now) ≡ Some (value.Rows rows) }
    ensures because { OnOk result (found.new.items ≡ found.old.items ++ listed (refusal_of (with_rows named.old q.now []) q.now text.now)) }
    ensures kept { OnOk result (named.new ≡ named.old) }
{
    set_rows(alloc, named, q, TableRows::new(alloc))?;
    add_refusal(alloc, named, q, text, found)?;
    set_rows(alloc, named, q, rows)
}

// Adds why a table can't have the rows of a text, if it can't.
fn add_cause(
    alloc: Global,
    named: &mut NamedMap,
    q: &QName,
    text: &[u8],
    found: &mut Vec<Cause>,
) -> Result<(), AllocError>
    ensures because { OnOk result (found.new.items ≡ found.old.items ++ listed (table_cause named.old q.now text.now)) }
    ensures kept { OnOk result (named.new ≡ named.old) }
{
    match rows_of(named, q)? {
        Some(rows) => add_refusal_without(alloc, named, q, rows, text, found),
        None => add_refusal(alloc, named, q, text, found),
    }
}

// The text that was put for a table; none is the empty text.
fn text_of(rows: &DataSet, table: u32) -> &[u8]
    ensures { result.now ≡ text_of rows.now table }
{
    rows.text(table).unwrap_or(&[])
}

// A fault of the last cause, if there is one.
fn fault_of(table: u32, mut found: Vec<Cause>) -> Option<LoadFault>
    ensures { (because : Option TheCause) → found.items ≡ listed because → result ≡ fault_of table because }
{
    match found.pop() {
        Some(cause) => Some(LoadFault { table, cause }),
        None => None,
    }
}

// What is wrong with the rows of a table of this path.
fn path_fault(
    alloc: Global,
    named: &mut NamedMap,
    q: &QName,
    table: u32,
    text: &[u8],
) -> Result<Option<LoadFault>, AllocError>
    ensures fault { IfOk result (λ fault. fault ≡ path_fault named.old table text.now (Some q.now)) }
    ensures kept { OnOk result (named.new ≡ named.old) }
{
    let mut found = Vec::new(alloc);
    add_cause(alloc, named, q, text, &mut found)?;
    Ok(fault_of(table, found))
}

// What is wrong with the rows of the table of an oid.
fn fault_at(
    alloc: Global,
    named: &mut NamedMap,
    book: &Book<'_>,
    rows: &DataSet,
    table: u32,
) -> Result<Option<LoadFault>, AllocError>
    ensures fault { IfOk result (λ fault. fault ≡ fault_at named.old book.now rows.now table) }
    ensures kept { OnOk result (named.new ≡ named.old) }
{
    match book.class_path_of(table)? {
        Some(q) => path_fault(alloc, named, &q, table, text_of(rows, table)),
        None => Ok(None),
    }
}

// The first of these tables whose text isn't rows that it can have.
fn first_fault(
    alloc: Global,
    named: &mut NamedMap,
    book: &Book<'_>,
    rows: &DataSet,
    tables: &[u32],
) -> Result<Option<LoadFault>, AllocError>
    ensures fault { IfOk result (λ fault. fault ≡ first_fault named.old book.now rows.now tables.now) }
    ensures kept { OnOk result (named.new ≡ named.old) }
{
    for i in 0..tables.len() {
        if let Some(fault) = fault_at(alloc, named, book, rows, tables[i])? {
            return Ok(Some(fault));
        }
    }
    Ok(None)
}

fn told(named: NamedMap, fault: Option<LoadFault>) -> Result<NamedMap, LoadError>
    ensures ok { IfOk result (λ map. (map ≡ named) × (fault ≡ None)) }
    ensures err { IfErr result (λ e. IsFault e fault) }
{
    match fault {
        Some(fault) => {
            let_go_map(named);
            Err(LoadError::Fault(fault))
        }
        None => Ok(named),
    }
}

// The first table of a catalogue whose text isn't rows that it can have.
fn catalogue_fault(
    alloc: Global,
    named: &mut NamedMap,
    cat: &WellFormed,
    rows: &DataSet,
) -> Result<Option<LoadFault>, AllocError>
    requires { named.old ≡ catalogue_named cat.now (rows_by_oid rows.now) }
    ensures fault { IfOk result (λ fault. fault ≡ rows_fault cat.now rows.now) }
    ensures kept { OnOk result (named.new ≡ named.old) }
{
    let book = cat.book(alloc)?;
    let tables = table_oids(alloc, cat.rows())?;
    first_fault(alloc, named, &book, rows, &tables)
}

/// The map of what a catalogue and the rows of its tables stand for by names, where the rows of each table meet it: its
/// columns, their types, its keys and its foreign keys. The texts hold rows of their tables.
///
/// # Errors
///
/// `Fault` with the first table by its oid whose rows COPY would refuse, into the table without them, and why; or `Memory`.
pub fn load(alloc: Global, cat: &WellFormed, rows: &DataSet) -> Result<NamedMap, LoadError>
    requires { values_fault cat.now rows.now ≡ None }
    ensures ok { IfOk result (λ map. (map ≡ catalogue_named cat.now (rows_by_oid rows.now)) × (rows_fault cat.now rows.now ≡ None)) }
    ensures err { IfErr result (λ e. IsFault e (rows_fault cat.now rows.now)) }
{
    let mut named = catalogue_map(alloc, cat.rows(), rows)?;
    match catalogue_fault(alloc, &mut named, cat, rows) {
        Ok(fault) => told(named, fault),
        Err(_) => {
            let_go_map(named);
            Err(LoadError::Memory)
        }
    }
}
