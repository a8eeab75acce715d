//! Types, tables with what stands at them, and sequences.
use crate::parts::{
    put_between, put_if, put_labels, put_name, put_names, put_nullable, put_number, put_path,
    put_text, put_type,
};
use cat_model::{
    Column, Constraint, ConstraintKind, Domain, Index, Resolved, Sequence, SequenceKind, TableRows,
};
use copy_text::{Row, Text};
use std::alloc::{AllocError, Global};

fn put_resolved(resolved: &Resolved, out: &mut Vec<u8>) -> Result<(), AllocError> {
    put_type(&resolved.type_name, out)?;
    if let Some(labels) = &resolved.labels {
        out.extend_from_slice(b" ")?;
        put_labels(labels.as_slice(), out)?;
    }
    put_if(resolved.not_null, b" not null", out)
}

/// Appends a domain.
pub(crate) fn put_domain(domain: &Domain, out: &mut Vec<u8>) -> Result<(), AllocError> {
    out.extend_from_slice(b"domain ")?;
    put_type(&domain.base, out)?;
    out.extend_from_slice(b" is ")?;
    put_resolved(&domain.resolved, out)?;
    put_if(domain.not_null, b"; not null", out)?;
    out.extend_from_slice(b"; default ")?;
    put_nullable(&domain.default, out)?;
    for (name, text) in domain.checks.iter() {
        out.extend_from_slice(b"; check ")?;
        put_name(name, out)?;
        out.extend_from_slice(b" ")?;
        put_text(text, out)?;
    }
    Ok(())
}

fn put_column(column: &Column, out: &mut Vec<u8>) -> Result<(), AllocError> {
    put_name(&column.name, out)?;
    out.extend_from_slice(b" ")?;
    put_type(&column.type_name, out)?;
    out.extend_from_slice(b" is ")?;
    put_resolved(&column.resolved, out)?;
    put_if(column.not_null, b" column not null", out)
}

/// Appends the columns of a table.
pub(crate) fn put_table(columns: &[Column], out: &mut Vec<u8>) -> Result<(), AllocError> {
    out.extend_from_slice(b"table (")?;
    for (i, column) in columns.iter().enumerate() {
        put_between(i, b", ", out)?;
        put_column(column, out)?;
    }
    out.extend_from_slice(b")")
}

fn put_numbers(numbers: &[(&[u8], i64)], out: &mut Vec<u8>) -> Result<(), AllocError> {
    for (word, n) in numbers {
        out.extend_from_slice(word)?;
        put_number(*n, out)?;
    }
    Ok(())
}

/// Appends the numbers of a sequence.
pub(crate) fn put_sequence(sequence: &Sequence, out: &mut Vec<u8>) -> Result<(), AllocError> {
    let kind = match sequence.kind {
        SequenceKind::SmallInt => b"sequence smallint".as_slice(),
        SequenceKind::Integer => b"sequence integer",
        SequenceKind::BigInt => b"sequence bigint",
    };
    out.extend_from_slice(kind)?;
    let numbers: [(&[u8], i64); 5] = [
        (b" start ", sequence.start),
        (b" step ", sequence.step),
        (b" min ", sequence.min),
        (b" max ", sequence.max),
        (b" cache ", sequence.cache),
    ];
    put_numbers(&numbers, out)?;
    put_if(sequence.cycle, b" cycle", out)
}

/// Appends a constraint of a table.
pub(crate) fn put_constraint(constraint: &Constraint, out: &mut Vec<u8>) -> Result<(), AllocError> {
    let kind = match constraint.kind {
        ConstraintKind::Primary => b"primary ".as_slice(),
        ConstraintKind::Unique => b"unique ",
        ConstraintKind::Foreign => b"foreign ",
        ConstraintKind::Check => b"check ",
    };
    out.extend_from_slice(kind)?;
    put_names(constraint.columns.as_slice(), out)?;
    if let Some((parent, columns)) = &constraint.parent {
        out.extend_from_slice(b" to ")?;
        put_path(parent, out)?;
        out.extend_from_slice(b" ")?;
        put_names(columns.as_slice(), out)?;
    }
    out.extend_from_slice(b" ")?;
    put_text(&constraint.text, out)
}

/// Appends an index that isn't a constraint's.
pub(crate) fn put_index(index: &Index, out: &mut Vec<u8>) -> Result<(), AllocError> {
    put_name(&index.method, out)?;
    put_if(index.unique, b" unique", out)?;
    out.extend_from_slice(b" ")?;
    put_text(&index.text, out)
}

fn put_row(row: &Row, out: &mut Vec<u8>) -> Result<(), AllocError> {
    out.extend_from_slice(b"(")?;
    for (i, field) in row.fields().iter().enumerate() {
        put_between(i, b", ", out)?;
        put_nullable(field, out)?;
    }
    out.extend_from_slice(b")")
}

/// Appends the rows of a table.
pub(crate) fn put_rows(
    alloc: Global,
    rows: &TableRows,
    out: &mut Vec<u8>,
) -> Result<(), AllocError> {
    let rows = rows.to_rows(alloc)?;
    for (i, row) in rows.iter().enumerate() {
        put_between(i, b" | ", out)?;
        put_row(row, out)?;
    }
    put_if(rows.is_empty(), b"none", out)
}

/// Appends the labels of an enum.
pub(crate) fn put_enum(labels: &[Text], out: &mut Vec<u8>) -> Result<(), AllocError> {
    out.extend_from_slice(b"enum ")?;
    put_labels(labels, out)
}
