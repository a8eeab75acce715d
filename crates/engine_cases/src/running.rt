//! Cases of scripts that the engine carries out.
ghost use Rattle.std.specs.Prelude.{◌≡◌, None};
ghost use Rattle.table_rows.specs.Values.{values_fault};

use crate::written::put_written;
use cat_engine::{Engine, prepare};
use cat_load::{LoadError, LoadFault, load};
use cat_model::Stmt;
use cat_names::DataSet;
use cat_rows::{AuthidRow, Catalogue};
use copy_text::Name;
use ddl_read::{Located, ReadStmtsError, read_stmts};
use eng_map::NamedMap;
use eng_steps::ApplyError;
use refusals::write_cause;
use std::alloc::{AllocError, Global};
use table_cases::{Base, formed};
use table_rows::{CheckValuesError, check_values};
use well_formed::WellFormed;

/// What a case of a script shows.
#[derive(Clone, Copy)]
pub enum Shown {
    /// What each statement answers, and the keys that are there then, once all was written to a folder and read again.
    Keys,
    /// The keys with their values that are there then, once all was written to a folder and read again.
    Values,
}

fn boot_of(roles: &[AuthidRow]) -> Result<Option<Name>, AllocError> {
    match roles.iter().find(|role| role.oid == 10) {
        Some(role) => Ok(Some(role.rolname.clone()?)),
        None => Ok(None),
    }
}

fn put_load_fault(alloc: Global, fault: &LoadFault, out: &mut Vec<u8>) -> Result<(), AllocError> {
    out.extend_from_slice(format!(in alloc; "table {}: ", fault.table)?.as_bytes())?;
    write_cause(&fault.cause, out)
}

fn put_load_error(alloc: Global, error: &LoadError, out: &mut Vec<u8>) -> Result<(), AllocError> {
    match error {
        LoadError::Fault(fault) => put_load_fault(alloc, fault, out),
        LoadError::Memory => Err(AllocError),
    }
}

// Tells why there is no map.
fn no_map(
    alloc: Global,
    error: LoadError,
    out: &mut Vec<u8>,
) -> Result<Option<NamedMap>, AllocError> {
    let put = put_load_error(alloc, &error, out);
    drop(error);
    put?;
    Ok(None)
}

// The map of the catalogue. Where the rows of a table don't meet it there is none, and that is told.
fn taken_in(
    alloc: Global,
    cat: &WellFormed,
    rows: &DataSet,
    out: &mut Vec<u8>,
) -> Result<Option<NamedMap>, AllocError>
    requires { values_fault cat.now rows.now ≡ None }
{
    match load(alloc, cat, rows) {
        Ok(named) => Ok(Some(named)),
        Err(error) => no_map(alloc, error, out),
    }
}

fn loaded(
    alloc: Global,
    cat: &WellFormed,
    rows: &DataSet,
    boot: Name,
    out: &mut Vec<u8>,
) -> Result<Option<Engine>, CheckValuesError> {
    check_values(alloc, cat.rows(), rows)?;
    match taken_in(alloc, cat, rows, out)? {
        Some(named) => Ok(Some(Engine::new(alloc, named, boot))),
        None => Ok(None),
    }
}

fn put_error(error: &ApplyError, out: &mut Vec<u8>) -> Result<(), AllocError> {
    match error {
        ApplyError::Refused(cause) => write_cause(cause, out),
        ApplyError::Memory => Err(AllocError),
    }
}

fn put_answer(answer: Result<(), ApplyError>, out: &mut Vec<u8>) -> Result<(), AllocError> {
    match answer {
        Ok(()) => out.extend_from_slice(b"ok"),
        Err(error) => {
            let put = put_error(&error, out);
            drop(error);
            put
        }
    }
}

// Carries a COPY out whose rows are read ahead, where they read.
fn copied(alloc: Global, engine: &mut Engine, stmt: &Stmt, text: &[u8]) -> Result<(), ApplyError> {
    match prepare(alloc, text) {
        Ok(prepared) => engine.apply_prepared(stmt, prepared),
        Err(_) => engine.apply(stmt),
    }
}

fn carried_out(alloc: Global, engine: &mut Engine, stmt: &Stmt) -> Result<(), ApplyError> {
    match stmt {
        Stmt::CopyRows { rows, .. } => copied(alloc, engine, stmt, rows.as_slice()),
        _ => engine.apply(stmt),
    }
}

// Carries the statements out, and tells what each answers.
fn put_outcomes(
    alloc: Global,
    engine: &mut Engine,
    statements: &[Located],
    out: &mut Vec<u8>,
) -> Result<(), AllocError> {
    for (i, located) in statements.iter().enumerate() {
        if i > 0 {
            out.extend_from_slice(b" / ")?;
        }
        put_answer(carried_out(alloc, engine, &located.stmt), out)?;
    }
    Ok(())
}

fn put_run(
    alloc: Global,
    engine: &mut Engine,
    opening: &Catalogue,
    statements: &[Located],
    shown: Shown,
    out: &mut Vec<u8>,
) -> Result<(), AllocError> {
    let mut outcomes = Vec::new(alloc);
    put_outcomes(alloc, engine, statements, &mut outcomes)?;
    if shown == Shown::Keys {
        out.extend_from_slice(&outcomes)?;
        out.extend_from_slice(b"; keys: ")?;
    }
    put_written(alloc, engine.named(), opening, shown, out)
}

fn with_engine(
    alloc: Global,
    engine: &mut Engine,
    opening: &Catalogue,
    script: &[u8],
    shown: Shown,
    out: &mut Vec<u8>,
) -> Result<(), AllocError> {
    match read_stmts(alloc, script) {
        Ok(statements) => put_run(alloc, engine, opening, &statements, shown, out),
        Err(ReadStmtsError::Fault(_)) => out.extend_from_slice(b"?"),
        Err(ReadStmtsError::Memory) => Err(AllocError),
    }
}

fn on_catalogue(
    alloc: Global,
    base: &Base,
    cat: &WellFormed,
    script: &[u8],
    shown: Shown,
    out: &mut Vec<u8>,
) -> Result<(), AllocError> {
    let rows = base.data(alloc)?;
    let Some(boot) = boot_of(cat.rows().pg_authid.as_slice())? else {
        return out.extend_from_slice(b"?");
    };
    match loaded(alloc, cat, &rows, boot, out) {
        Ok(Some(mut engine)) => with_engine(alloc, &mut engine, cat.rows(), script, shown, out),
        Ok(None) => Ok(()),
        Err(CheckValuesError::Fault(_)) => out.extend_from_slice(b"?"),
        Err(CheckValuesError::Memory) => Err(AllocError),
    }
}

/// Carries the statements of a script out on the base, and shows what that leaves.
pub fn run_script(
    alloc: Global,
    base: &Base,
    script: &[u8],
    shown: Shown,
    out: &mut Vec<u8>,
) -> Result<(), AllocError> {
    match formed(alloc, base, &Base::new(alloc))? {
        Some(cat) => on_catalogue(alloc, base, &cat, script, shown, out),
        None => out.extend_from_slice(b"?"),
    }
}
