//! The entries before those of objects.
ghost use Rattle.std.specs.Prelude.{◌≡◌, [], ◌∷◌, ◌++◌, Some, option_map, IfOk, OnOk};
ghost use Rattle.std.specs.Option.{option_to_list};
ghost use Rattle.cat_model.specs.declared.constraint.Encoding.TheVariants.{Utf8};
ghost use Rattle.cat_model.specs.declared.stmt.Stmt.TheVariants as stmts;
ghost use Rattle.dump_stmts.specs.Paths.{written};
ghost use Rattle.dump_toc.specs.Session.{pre_data, setting, encoding, std_strings, search_path, database_entry, current_database, session_entries};

use crate::owner::name_text;
use cat_model::{Encoding, Stmt};
use cat_rows::DatabaseRow;
use copy_text::Text;
use dump_rows::DumpRows;
use dump_stmts::{empty_text, spelled, text_of};
use std::alloc::{AllocError, Global};
use toc_entry::{DumpIds, Entry, Extra};

/// The section of what comes before the data.
const PRE_DATA: u8 = 2;

/// The state of an entry without rows.
const NO_ROWS: u8 = 3;

/// The oid of the system table `pg_database`.
const PG_DATABASE: u32 = 1262;

// An entry of no system table and no owner, before the data.
fn pre_data(
    alloc: Global,
    dump_id: u32,
    desc: Text,
    tag: Text,
    defn: Text,
) -> Result<Entry, AllocError>
    ensures { IfOk result (λ entry. entry ≡ pre_data dump_id desc tag defn) }
{
    Ok(Entry {
        dump_id,
        has_rows: false,
        tableoid: 0,
        oid: 0,
        tag,
        desc,
        section: PRE_DATA,
        defn: Some(defn),
        drop_stmt: Some(empty_text(alloc)?),
        copy_stmt: None,
        namespace: None,
        tablespace: Some(empty_text(alloc)?),
        tableam: None,
        owner: None,
        depends: DumpIds::from_vec(Vec::new(alloc)),
        extra: Extra::Place {
            state: NO_ROWS,
            offset: 0,
        },
    })
}

// An entry of a setting of the session, which is called as its kind is.
fn setting(alloc: Global, dump_id: u32, desc: &[u8], defn: &[u8]) -> Result<Entry, AllocError>
    ensures { IfOk result (λ entry. entry ≡ setting dump_id desc.now defn.now) }
{
    let kind = text_of(alloc, desc)?;
    let tag = text_of(alloc, desc)?;
    let defn = text_of(alloc, defn)?;
    pre_data(alloc, dump_id, kind, tag, defn)
}

// CREATE DATABASE.
fn database_defn(alloc: Global, row: &DatabaseRow) -> Result<Text, AllocError>
    ensures { IfOk result (λ text. text ≡ written (Some (stmts.CreateDatabase row.now.datname (Some Utf8)))) }
{
    let name = row.datname.clone()?;
    spelled(
        alloc,
        Stmt::CreateDatabase {
            name,
            encoding: Some(Encoding::Utf8),
        },
    )
}

// The entry of the database.
fn database_entry(
    alloc: Global,
    rows: &DumpRows<'_>,
    row: &DatabaseRow,
) -> Result<Entry, AllocError>
    ensures { IfOk result (λ entry. entry ≡ database_entry rows.now row.now) }
{
    let kind = text_of(alloc, b"DATABASE")?;
    let tag = text_of(alloc, row.datname.as_bytes())?;
    let defn = database_defn(alloc, row)?;
    let owner = name_text(alloc, rows.book().role_name(row.datdba))?;
    let mut entry = pre_data(alloc, 4, kind, tag, defn)?;
    entry.tableoid = PG_DATABASE;
    entry.oid = row.oid;
    entry.owner = owner;
    Ok(entry)
}

// The row of the current database.
fn current_database<'a>(rows: &DumpRows<'a>) -> Option<&'a DatabaseRow>
    ensures { option_map (λ d. d.now) result ≡ current_database rows.now }
{
    rows.book()
        .tables()
        .pg_database
        .as_slice()
        .iter()
        .find(|row| row.datcurrent)
}

// Adds the entry of the current database.
fn add_database(
    alloc: Global,
    rows: &DumpRows<'_>,
    entries: &mut Vec<Entry>,
) -> Result<(), AllocError>
    ensures { OnOk result (entries.new.items ≡ entries.old.items ++ option_to_list (option_map (database_entry rows.now) (current_database rows.now))) }
{
    if let Some(row) = current_database(rows) {
        let entry = database_entry(alloc, rows, row)?;
        entries.push(entry)?;
    }
    Ok(())
}

// The entry of the encoding.
fn encoding(alloc: Global) -> Result<Entry, AllocError>
    ensures { IfOk result (λ entry. entry ≡ encoding) }
{
    setting(alloc, 1, b"ENCODING", b"SET client_encoding = 'UTF8';\n")
}

// The entry of the meaning of backslashes in literals.
fn std_strings(alloc: Global) -> Result<Entry, AllocError>
    ensures { IfOk result (λ entry. entry ≡ std_strings) }
{
    setting(
        alloc,
        2,
        b"STDSTRINGS",
        b"SET standard_conforming_strings = 'on';\n",
    )
}

// The entry of the search path.
fn search_path(alloc: Global) -> Result<Entry, AllocError>
    ensures { IfOk result (λ entry. entry ≡ search_path) }
{
    setting(
        alloc,
        3,
        b"SEARCHPATH",
        b"SELECT pg_catalog.set_config('search_path', '', false);\n",
    )
}

// The settings of the session.
fn settings(alloc: Global) -> Result<Vec<Entry>, AllocError>
    ensures { IfOk result (λ entries. entries.items ≡ encoding ∷ std_strings ∷ search_path ∷ []) }
{
    let mut entries = Vec::new(alloc);
    entries.push(encoding(alloc)?)?;
    entries.push(std_strings(alloc)?)?;
    entries.push(search_path(alloc)?)?;
    Ok(entries)
}

/// The entries of the settings of the session, and of the current database.
#[tactic(auto, unfolding(crate::specs::Session::session_entries))]
pub(crate) fn session_entries(alloc: Global, rows: &DumpRows<'_>) -> Result<Vec<Entry>, AllocError>
    ensures { IfOk result (λ entries. entries.items ≡ session_entries rows.now) }
{
    let mut entries = settings(alloc)?;
    add_database(alloc, rows, &mut entries)?;
    Ok(entries)
}
