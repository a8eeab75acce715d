//! Why a statement was refused.
ghost use Rattle.std.specs.Prelude.{◌≡◌, ◌++◌, OnOk, decimal, codes};
ghost use Rattle.sql_lex.specs.Written.{written_name};
ghost use Rattle.tool_words.specs.Messages.{cause_text, in_row};

use crate::parts::{put_key_and, put_name, put_number, put_numbered, put_two_numbers};
use cat_model::Cause;
use copy_text::Name;
use std::alloc::AllocError;

/// Appends a field's row and column, and what is wrong with it.
fn put_field(row: u64, column: u64, words: &[u8], out: &mut Vec<u8>) -> Result<(), AllocError>
    ensures { OnOk result (out.new.items ≡ out.old.items ++ (in_row row column ++ words.now)) }
{
    put_two_numbers(b"row ", row, b" column ", column, out)?;
    out.extend_from_slice(words)
}

/// Appends two numbers and a name, each behind words.
fn put_pair(
    before: &[u8],
    first: u64,
    between: &[u8],
    second: u64,
    behind: &[u8],
    name: &Name,
    out: &mut Vec<u8>,
) -> Result<(), AllocError>
    ensures { OnOk result (out.new.items ≡ out.old.items ++ (before.now ++ decimal first ++ between.now ++ decimal second ++ behind.now ++ written_name name.now)) }
{
    put_two_numbers(before, first, between, second, out)?;
    put_name(behind, name, out)
}

/// Appends that two rows have one key.
fn put_duplicate(name: &Name, first: u64, second: u64, out: &mut Vec<u8>) -> Result<(), AllocError>
    ensures { OnOk result (out.new.items ≡ out.old.items ++ (codes "rows " ++ decimal first ++ codes " and " ++ decimal second ++ codes " have one key for " ++ written_name name.now)) }
{
    put_pair(
        b"rows ",
        first,
        b" and ",
        second,
        b" have one key for ",
        name,
        out,
    )
}

/// Appends a number and a name, each behind words.
fn put_row(
    before: &[u8],
    row: u64,
    behind: &[u8],
    name: &Name,
    out: &mut Vec<u8>,
) -> Result<(), AllocError>
    ensures { OnOk result (out.new.items ≡ out.old.items ++ (before.now ++ decimal row ++ behind.now ++ written_name name.now)) }
{
    put_number(before, row, out)?;
    put_name(behind, name, out)
}

/// Appends that a row has no parent.
fn put_no_parent(name: &Name, row: u64, out: &mut Vec<u8>) -> Result<(), AllocError>
    ensures { OnOk result (out.new.items ≡ out.old.items ++ (codes "row " ++ decimal row ++ codes " has no parent for " ++ written_name name.now)) }
{
    put_row(b"row ", row, b" has no parent for ", name, out)
}

/// Appends how many fields a row has.
fn put_fields(row: u64, found: u64, out: &mut Vec<u8>) -> Result<(), AllocError>
    ensures { OnOk result (out.new.items ≡ out.old.items ++ (codes "row " ++ decimal row ++ codes " has " ++ decimal found ++ codes " fields")) }
{
    put_two_numbers(b"row ", row, b" has ", found, out)?;
    out.extend_from_slice(b" fields")
}

/// Appends that a row can't be read.
fn put_bad_row(row: u64, out: &mut Vec<u8>) -> Result<(), AllocError>
    ensures { OnOk result (out.new.items ≡ out.old.items ++ (codes "row " ++ decimal row ++ codes " is not COPY text")) }
{
    put_numbered(b"row ", row, b" is not COPY text", out)
}

/// Appends why a statement was refused, without a line feed.
///
/// The only error is want of memory; a first part of the text may have been appended then.
pub fn write_cause(cause: &Cause, out: &mut Vec<u8>) -> Result<(), AllocError>
    ensures { OnOk result (out.new.items ≡ out.old.items ++ cause_text cause.now) }
{
    match cause {
        Cause::Exists(key) => put_key_and(key, b" already exists", out),
        Cause::Absent(key) => put_key_and(key, b" does not exist", out),
        Cause::BadValue { column, row } => put_field(*row, *column, b" has a bad value", out),
        Cause::NullValue { column, row } => put_field(*row, *column, b" is null", out),
        Cause::Duplicate {
            name,
            first,
            second,
        } => put_duplicate(name, *first, *second, out),
        Cause::NoParent { name, row } => put_no_parent(name, *row, out),
        Cause::WrongColumns => out.extend_from_slice(b"wrong columns"),
        Cause::KeyMissing(key) => put_key_and(key, b" has no such key", out),
        Cause::OutOfRange => out.extend_from_slice(b"value out of range"),
        Cause::Fields { row, found } => put_fields(*row, *found, out),
        Cause::BadRow { row, .. } => put_bad_row(*row, out),
    }
}
