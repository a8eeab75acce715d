//! What stands under a key.
use crate::parts::{put_if, put_name, put_number, put_path, put_text};
use crate::relations::{
    put_constraint, put_domain, put_enum, put_index, put_rows, put_sequence, put_table,
};
use crate::rights::put_grants;
use crate::roles::{put_member, put_role};
use cat_model::{QName, Value};
use copy_text::Name;
use std::alloc::{AllocError, Global};

fn put_index_of(table: &QName, out: &mut Vec<u8>) -> Result<(), AllocError> {
    out.extend_from_slice(b"index of ")?;
    put_path(table, out)
}

fn put_sequence_value(n: i64, called: bool, out: &mut Vec<u8>) -> Result<(), AllocError> {
    put_number(n, out)?;
    put_if(called, b" called", out)
}

fn put_owner_column(table: &QName, column: &Name, out: &mut Vec<u8>) -> Result<(), AllocError> {
    put_path(table, out)?;
    out.extend_from_slice(b" ")?;
    put_name(column, out)
}

/// Appends what stands under a key.
pub fn put_value(alloc: Global, value: &Value, out: &mut Vec<u8>) -> Result<(), AllocError> {
    match value {
        Value::Role(role) => put_role(role, out),
        Value::Member(member) => put_member(member, out),
        Value::Schema => out.extend_from_slice(b"schema"),
        Value::Enum(labels) => put_enum(labels.as_slice(), out),
        Value::Domain(domain) => put_domain(domain, out),
        Value::Table(columns) => put_table(columns.as_slice(), out),
        Value::Sequence(sequence) => put_sequence(sequence, out),
        Value::View => out.extend_from_slice(b"view"),
        Value::IndexOf(table) => put_index_of(table, out),
        Value::Owner(name) => put_name(name, out),
        Value::DefaultText(text) | Value::Comment(text) | Value::Body(text) => put_text(text, out),
        Value::Constraint(constraint) => put_constraint(constraint, out),
        Value::Index(index) => put_index(index, out),
        Value::Rows(rows) => put_rows(alloc, rows, out),
        Value::SequenceValue(n, called) => put_sequence_value(*n, *called, out),
        Value::OwnedBy(table, column) => put_owner_column(table, column, out),
        Value::Grants(grants) => put_grants(grants, out),
        Value::Database(_) => out.extend_from_slice(b"'UTF8'"),
    }
}
