//! Tables, with their columns, checks and defaults.
ghost use Rattle.std.specs.Prelude.{◌≡◌, [], ◌++◌, Some, map, filter_map, option_map, IfOk, OnOk};
ghost use Rattle.std.specs.Option.{option_and_then, option_to_list};
ghost use Rattle.row_texts.specs.DefaultTexts.{default_said};
ghost use Rattle.dump_rows.specs.Rows.{columns_of, table_checks};
ghost use Rattle.dump_stmts.specs.Paths.{written};
ghost use Rattle.dump_stmts.specs.Tables.{inline_default, typed_column, column_def, column_defs, table_stmt, default_in, default_stmt, more_names, column_list, copy_line, copy_of};
ghost use Rattle.dump_stmts.specs.Types.{check_text, check_def, check_defs};

use crate::defn::path_of;
use crate::pieces::{put_name, put_path};
use crate::texts::{empty_text, spelled, text_of_vec};
use cat_model::{CheckDef, ColumnDef, Items, QName, Stmt, TypeName};
use cat_names::OidIndex;
use cat_rows::{AttrdefRow, AttributeRow, ConstraintRow};
use constraint_table::{ConstraintText, constraint_said};
use copy_text::Text;
use dump_rows::DumpRows;
use graph_parts::Obj;
use row_texts::{default_said, type_named};
use std::alloc::{AllocError, Global};

// ---- checks

// The expression of a check.
fn check_text(said: Option<ConstraintText>) -> Option<Text>
    ensures { result ≡ check_text said }
{
    match said {
        Some(ConstraintText::Check(text)) => Some(text),
        _ => None,
    }
}

// A check as a statement says it.
fn check_def(alloc: Global, row: &ConstraintRow) -> Result<Option<CheckDef>, AllocError>
    ensures { IfOk result (λ check. check ≡ check_def row.now) }
{
    let said = constraint_said(alloc, row.condef.as_bytes())?;
    match check_text(said) {
        Some(text) => {
            let name = row.conname.clone()?;
            Ok(Some(CheckDef { name, text }))
        }
        None => Ok(None),
    }
}

// Adds a check behind others, where there is one.
fn push_check(checks: &mut Vec<CheckDef>, check: Option<CheckDef>) -> Result<(), AllocError>
    ensures { OnOk result (checks.new.items ≡ checks.old.items ++ option_to_list check) }
{
    if let Some(check) = check {
        checks.push(check)?;
    }
    Ok(())
}

/// These checks as a statement says them.
pub(crate) fn check_defs(
    alloc: Global,
    rows: &[&ConstraintRow],
) -> Result<Vec<CheckDef>, AllocError>
    ensures { IfOk result (λ checks. checks.items ≡ check_defs (map (λ r. r.now) rows.now)) }
{
    let mut checks = Vec::new(alloc);
    for row in rows {
        let check = check_def(alloc, *row)?;
        push_check(&mut checks, check)?;
    }
    Ok(checks)
}

// ---- columns

/// The expression of a default that may not be there.
pub(crate) fn default_text(alloc: Global, text: &Option<Text>) -> Result<Option<Text>, AllocError>
    ensures { IfOk result (λ said. said ≡ option_and_then default_said text.now) }
{
    match text {
        Some(text) => default_said(alloc, text.as_bytes()),
        None => Ok(None),
    }
}

// The default that a column has in its table's statement: one that stands alone isn't there.
fn inline_default(
    alloc: Global,
    rows: &DumpRows<'_>,
    standing: &OidIndex,
    row: &AttributeRow,
) -> Result<Option<Text>, AllocError>
    ensures { IfOk result (λ text. text ≡ inline_default rows.now standing.now row.now) }
{
    let Some(default) = rows.default_at(row.attrelid, row.attnum) else {
        return Ok(None);
    };
    if standing.has(default.oid) {
        return Ok(None);
    }
    default_said(alloc, default.adexpr.as_bytes())
}

// A column of this type as its table's statement says it.
fn typed_column(
    alloc: Global,
    rows: &DumpRows<'_>,
    standing: &OidIndex,
    row: &AttributeRow,
    type_name: TypeName,
) -> Result<ColumnDef, AllocError>
    ensures { IfOk result (λ column. column ≡ typed_column rows.now standing.now row.now type_name) }
{
    let name = row.attname.clone()?;
    let default = inline_default(alloc, rows, standing, row)?;
    Ok(ColumnDef {
        name,
        type_name,
        default,
        not_null: row.attnotnull,
    })
}

// A column as its table's statement says it.
fn column_def(
    alloc: Global,
    rows: &DumpRows<'_>,
    standing: &OidIndex,
    row: &AttributeRow,
) -> Result<Option<ColumnDef>, AllocError>
    ensures { IfOk result (λ column. column ≡ column_def rows.now standing.now row.now) }
{
    match type_named(alloc, row.typtext.as_bytes())? {
        Some(type_name) => {
            let column = typed_column(alloc, rows, standing, row, type_name)?;
            Ok(Some(column))
        }
        None => Ok(None),
    }
}

// Adds a column behind others, where there is one.
fn push_column(columns: &mut Vec<ColumnDef>, column: Option<ColumnDef>) -> Result<(), AllocError>
    ensures { OnOk result (columns.new.items ≡ columns.old.items ++ option_to_list column) }
{
    if let Some(column) = column {
        columns.push(column)?;
    }
    Ok(())
}

// These columns as their table's statement says them.
fn column_defs(
    alloc: Global,
    rows: &DumpRows<'_>,
    standing: &OidIndex,
    found: &[&AttributeRow],
) -> Result<Vec<ColumnDef>, AllocError>
    ensures { IfOk result (λ columns. columns.items ≡ column_defs rows.now standing.now (map (λ r. r.now) found.now)) }
{
    let mut columns = Vec::new(alloc);
    for row in found {
        let column = column_def(alloc, rows, standing, *row)?;
        push_column(&mut columns, column)?;
    }
    Ok(columns)
}

// The columns of a table.
fn columns_of(
    alloc: Global,
    rows: &DumpRows<'_>,
    standing: &OidIndex,
    table: u32,
) -> Result<Items<ColumnDef>, AllocError>
    ensures { IfOk result (λ columns. columns ≡ column_defs rows.now standing.now (columns_of rows.now table)) }
{
    let found = rows.columns_of(alloc, table)?;
    let columns = column_defs(alloc, rows, standing, &found)?;
    Ok(Items::new(columns))
}

// The checks of a table.
fn checks_of(alloc: Global, rows: &DumpRows<'_>, table: u32) -> Result<Items<CheckDef>, AllocError>
    ensures { IfOk result (λ checks. checks ≡ check_defs (table_checks rows.now table)) }
{
    let found = rows.table_checks(alloc, table)?;
    let checks = check_defs(alloc, &found)?;
    Ok(Items::new(checks))
}

/// CREATE TABLE.
#[tactic(auto, unfolding(crate::specs::Tables::table_stmt))]
pub(crate) fn table_defn(
    alloc: Global,
    rows: &DumpRows<'_>,
    standing: &OidIndex,
    object: &Obj,
) -> Result<Text, AllocError>
    ensures { IfOk result (λ text. text ≡ written (table_stmt rows.now standing.now object.now)) }
{
    let Some(q) = path_of(object)? else {
        return empty_text(alloc);
    };
    let columns = columns_of(alloc, rows, standing, object.id.oid)?;
    let checks = checks_of(alloc, rows, object.id.oid)?;
    spelled(alloc, Stmt::CreateTable { q, columns, checks })
}

// ---- defaults that stand alone

// SET DEFAULT of a default in this table.
fn default_in(
    alloc: Global,
    rows: &DumpRows<'_>,
    row: &AttrdefRow,
    q: QName,
) -> Result<Text, AllocError>
    ensures { IfOk result (λ text. text ≡ written (default_in rows.now row.now q)) }
{
    let Some(text) = default_said(alloc, row.adexpr.as_bytes())? else {
        return empty_text(alloc);
    };
    let Some(column) = rows.column_at(row.adrelid, row.adnum) else {
        return empty_text(alloc);
    };
    let column = column.attname.clone()?;
    spelled(alloc, Stmt::SetDefault { q, column, text })
}

/// SET DEFAULT.
#[tactic(auto, unfolding(crate::specs::Tables::default_stmt))]
pub(crate) fn default_defn(
    alloc: Global,
    rows: &DumpRows<'_>,
    object: &Obj,
) -> Result<Text, AllocError>
    ensures { IfOk result (λ text. text ≡ written (default_stmt rows.now object.now)) }
{
    let Some(row) = rows.default_of(object.id.oid) else {
        return empty_text(alloc);
    };
    match path_of(object)? {
        Some(q) => default_in(alloc, rows, row, q),
        None => empty_text(alloc),
    }
}

// ---- rows

// Appends the names of columns behind the first, each behind a comma.
fn put_more_names(columns: &[&AttributeRow], out: &mut Vec<u8>) -> Result<(), AllocError>
    ensures { OnOk result (out.new.items ≡ out.old.items ++ more_names (map (λ r. r.now) columns.now)) }
{
    for column in columns {
        put_name(b", ", &column.attname, out)?;
    }
    Ok(())
}

// Appends the names of columns in brackets, and none where there is no column.
#[tactic(auto, unfolding(crate::specs::Tables::column_list))]
fn put_columns(columns: &[&AttributeRow], out: &mut Vec<u8>) -> Result<(), AllocError>
    ensures { OnOk result (out.new.items ≡ out.old.items ++ column_list (map (λ r. r.now) columns.now)) }
{
    match columns {
        [] => Ok(()),
        [first, more @ ..] => {
            put_name(b" (", &first.attname, out)?;
            put_more_names(more, out)?;
            out.extend_from_slice(b")")
        }
    }
}

// The line of COPY of these columns.
#[tactic(auto, unfolding(crate::specs::Tables::copy_line))]
fn copy_of(alloc: Global, q: &QName, columns: &[&AttributeRow]) -> Result<Text, AllocError>
    ensures { IfOk result (λ text. text ≡ copy_line q.now (map (λ r. r.now) columns.now)) }
{
    let mut bytes = Vec::new(alloc);
    put_path(b"COPY ", q, &mut bytes)?;
    put_columns(columns, &mut bytes)?;
    bytes.extend_from_slice(b" FROM stdin;\n")?;
    text_of_vec(bytes)
}

/// The line of COPY that takes the rows of a table, by the names of all its columns.
pub fn copy_line(alloc: Global, rows: &DumpRows<'_>, object: &Obj) -> Result<Text, AllocError>
    ensures { IfOk result (λ text. text ≡ copy_of rows.now object.now) }
{
    let Some(q) = path_of(object)? else {
        return empty_text(alloc);
    };
    let columns = rows.columns_of(alloc, object.id.oid)?;
    copy_of(alloc, &q, &columns)
}
