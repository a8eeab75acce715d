//! Cases of well-formed catalogues.
use crate::base::Base;
use crate::kind::Checked;
use cat_book::{Book, check_lines};
use cat_model::What;
use cat_names::{CatFault, CheckError, FaultKind, at_table};
use cat_rows::{Catalogue, SysTable};
use constraint_table::{Beside, Constraints};
use plain_tables::{Databases, Members, Roles, Schemas};
use std::alloc::{AllocError, Global};
use text_tables::{Columns, Defaults, Indexes, Sequences, Types, Views};
use well_formed::WellFormed;

fn what_name(what: &What) -> &'static str {
    match what {
        What::Encoding => "OutOfProfile(Encoding)",
        What::TypeKind(_) => "OutOfProfile(TypeKind)",
        What::RelKind(_) => "OutOfProfile(RelKind)",
        What::Persistence => "OutOfProfile(Persistence)",
        What::ConstraintKind(_) => "OutOfProfile(ConstraintKind)",
        What::CommentKind => "OutOfProfile(CommentKind)",
        What::GrantByOther => "OutOfProfile(GrantByOther)",
        What::DefaultOnView => "OutOfProfile(DefaultOnView)",
        What::Columns => "OutOfProfile(Columns)",
        What::Identity => "OutOfProfile(Identity)",
        What::Inheritance => "OutOfProfile(Inheritance)",
        _ => "OutOfProfile",
    }
}

fn fault_name(kind: &FaultKind) -> &'static str {
    match kind {
        FaultKind::RepeatedOid => "RepeatedOid",
        FaultKind::RepeatedName => "RepeatedName",
        FaultKind::Dangling => "Dangling",
        FaultKind::BadText => "BadText",
        FaultKind::OutOfProfile(what) => what_name(what),
    }
}

fn put_fault(alloc: Global, fault: &CatFault, out: &mut Vec<u8>) -> Result<(), AllocError> {
    let table = fault.table.name();
    let name = fault_name(&fault.kind);
    let shown = format!(in alloc; "{table} line {} {name}", fault.line)?;
    out.extend_from_slice(shown.as_bytes())
}

fn put_answer(
    alloc: Global,
    answer: Result<(), CheckError>,
    out: &mut Vec<u8>,
) -> Result<(), AllocError> {
    match answer {
        Ok(()) => out.extend_from_slice(b"well-formed"),
        Err(CheckError::Fault(fault)) => put_fault(alloc, &fault, out),
        Err(CheckError::Memory) => Err(AllocError),
    }
}

fn check_all(alloc: Global, cat: Catalogue) -> Result<(), CheckError> {
    let _formed = WellFormed::check(alloc, cat)?;
    Ok(())
}

fn check_cluster(alloc: Global, book: &Book<'_>) -> Result<(), CheckError> {
    let cat = book.tables();
    let roles = check_lines::<Book<'_>, Roles>(alloc, book, cat.pg_authid.as_slice());
    at_table(SysTable::PgAuthid, roles)?;
    let members = check_lines::<Book<'_>, Members>(alloc, book, cat.pg_auth_members.as_slice());
    at_table(SysTable::PgAuthMembers, members)?;
    let databases = check_lines::<Book<'_>, Databases>(alloc, book, cat.pg_database.as_slice());
    at_table(SysTable::PgDatabase, databases)?;
    let schemas = check_lines::<Book<'_>, Schemas>(alloc, book, cat.pg_namespace.as_slice());
    at_table(SysTable::PgNamespace, schemas)
}

fn check_types(alloc: Global, book: &Book<'_>) -> Result<(), CheckError> {
    let rows = book.tables().pg_type.as_slice();
    at_table(
        SysTable::PgType,
        check_lines::<Book<'_>, Types>(alloc, book, rows),
    )
}

fn check_columns(alloc: Global, book: &Book<'_>) -> Result<(), CheckError> {
    let cat = book.tables();
    let columns = check_lines::<Book<'_>, Columns>(alloc, book, cat.pg_attribute.as_slice());
    at_table(SysTable::PgAttribute, columns)?;
    let defaults = check_lines::<Book<'_>, Defaults>(alloc, book, cat.pg_attrdef.as_slice());
    at_table(SysTable::PgAttrdef, defaults)
}

fn check_constraints(alloc: Global, book: &Book<'_>) -> Result<(), CheckError> {
    let beside = Beside::of(alloc, &*book)?;
    let rows = book.tables().pg_constraint.as_slice();
    at_table(
        SysTable::PgConstraint,
        check_lines::<Beside<'_>, Constraints>(alloc, &beside, rows),
    )
}

fn check_indexes(alloc: Global, book: &Book<'_>) -> Result<(), CheckError> {
    let rows = book.tables().pg_index.as_slice();
    at_table(
        SysTable::PgIndex,
        check_lines::<Book<'_>, Indexes>(alloc, book, rows),
    )
}

fn check_sequences(alloc: Global, book: &Book<'_>) -> Result<(), CheckError> {
    let rows = book.tables().pg_sequence.as_slice();
    at_table(
        SysTable::PgSequence,
        check_lines::<Book<'_>, Sequences>(alloc, book, rows),
    )
}

fn check_views(alloc: Global, book: &Book<'_>) -> Result<(), CheckError> {
    let rows = book.tables().pg_rewrite.as_slice();
    at_table(
        SysTable::PgRewrite,
        check_lines::<Book<'_>, Views>(alloc, book, rows),
    )
}

fn check_some(alloc: Global, what: Checked, cat: &Catalogue) -> Result<(), CheckError> {
    let book = Book::of(alloc, cat)?;
    match what {
        Checked::Cluster => check_cluster(alloc, &book),
        Checked::Types => check_types(alloc, &book),
        Checked::Columns => check_columns(alloc, &book),
        Checked::Constraints => check_constraints(alloc, &book),
        Checked::Indexes => check_indexes(alloc, &book),
        Checked::Sequences => check_sequences(alloc, &book),
        Checked::Views => check_views(alloc, &book),
        Checked::All => Ok(()),
    }
}

fn checked(alloc: Global, what: Checked, cat: Catalogue) -> Result<(), CheckError> {
    match what {
        Checked::All => check_all(alloc, cat),
        _ => check_some(alloc, what, &cat),
    }
}

/// The first fault of the base with other texts of some tables.
pub fn check_texts(
    alloc: Global,
    what: Checked,
    base: &Base,
    changed: &Base,
    out: &mut Vec<u8>,
) -> Result<(), AllocError> {
    let mut cat = Catalogue::new(alloc);
    if !base.read_into(alloc, &mut cat)? || !changed.read_into(alloc, &mut cat)? {
        return out.extend_from_slice(b"?");
    }
    put_answer(alloc, checked(alloc, what, cat), out)
}
