//! Views, dummy views and their rules.
ghost use Rattle.std.specs.Prelude.{◌≡◌, ◌++◌, map, option_map, IfOk, OnOk};
ghost use Rattle.std.specs.List.{flat_map};
ghost use Rattle.std.specs.Option.{option_to_list};
ghost use Rattle.std.specs.Prelude.{codes};
ghost use Rattle.dump_stmts.specs.Paths.{written};
ghost use Rattle.dump_stmts.specs.Views.{null_column, null_columns, select_lines, select_of, dummy_body, view_of, view_stmt, dummy_stmt, replaced_by, rule_stmt, rule_drop_stmt};

use crate::defn::path_of;
use crate::pieces::{put_name, put_type};
use crate::texts::{empty_text, spelled, text_of_vec};
use cat_model::{QName, Stmt};
use cat_rows::{AttributeRow, RewriteRow};
use copy_text::Text;
use dump_rows::DumpRows;
use graph_parts::Obj;
use row_texts::{type_named, view_body};
use std::alloc::{AllocError, Global};

// ---- the body of a dummy view

// A column of a dummy view: a null of its type.
fn null_column(alloc: Global, row: &AttributeRow) -> Result<Option<Vec<u8>>, AllocError>
    ensures { IfOk result (λ column. option_map (λ c. c.items) column ≡ null_column row.now) }
{
    let Some(type_name) = type_named(alloc, row.typtext.as_bytes())? else {
        return Ok(None);
    };
    let mut column = Vec::new(alloc);
    put_type(b"NULL::", &type_name, &mut column)?;
    put_name(b" AS ", &row.attname, &mut column)?;
    Ok(Some(column))
}

// Adds a column behind others, where there is one.
fn push_column(columns: &mut Vec<Vec<u8>>, column: Option<Vec<u8>>) -> Result<(), AllocError>
    ensures { OnOk result (map (λ c. c.items) columns.new.items ≡ map (λ c. c.items) columns.old.items ++ option_to_list (option_map (λ c. c.items) column)) }
{
    if let Some(column) = column {
        columns.push(column)?;
    }
    Ok(())
}

// The columns of a dummy view.
fn null_columns(alloc: Global, rows: &[&AttributeRow]) -> Result<Vec<Vec<u8>>, AllocError>
    ensures { IfOk result (λ columns. map (λ c. c.items) columns.items ≡ null_columns (map (λ r. r.now) rows.now)) }
{
    let mut columns = Vec::new(alloc);
    for row in rows {
        let column = null_column(alloc, *row)?;
        push_column(&mut columns, column)?;
    }
    Ok(columns)
}

// Appends columns behind the first, each in a line behind a comma.
fn put_more_lines(columns: &[Vec<u8>], out: &mut Vec<u8>) -> Result<(), AllocError>
    ensures { OnOk result (out.new.items ≡ out.old.items ++ flat_map (λ line. codes ",\n    " ++ line) (map (λ c. c.items) columns.now)) }
{
    for column in columns {
        out.extend_from_slice(b",\n    ")?;
        out.extend_from_slice(column)?;
    }
    Ok(())
}

// Appends columns, each in a line.
#[tactic(auto, unfolding(crate::specs::Views::select_lines))]
fn put_lines(columns: &[Vec<u8>], out: &mut Vec<u8>) -> Result<(), AllocError>
    ensures { OnOk result (out.new.items ≡ out.old.items ++ select_lines (map (λ c. c.items) columns.now)) }
{
    match columns {
        [] => Ok(()),
        [first, more @ ..] => {
            out.extend_from_slice(b"\n    ")?;
            out.extend_from_slice(first)?;
            put_more_lines(more, out)
        }
    }
}

// SELECT of these columns.
#[tactic(auto, unfolding(crate::specs::Views::select_of))]
fn select_of(alloc: Global, columns: &[Vec<u8>]) -> Result<Text, AllocError>
    ensures { IfOk result (λ text. text ≡ select_of (map (λ c. c.items) columns.now)) }
{
    let mut bytes = Vec::new(alloc);
    bytes.extend_from_slice(b"SELECT")?;
    put_lines(columns, &mut bytes)?;
    text_of_vec(bytes)
}

// The body that a dummy view has.
fn dummy_body(alloc: Global, rows: &DumpRows<'_>, view: u32) -> Result<Text, AllocError>
    ensures { IfOk result (λ text. text ≡ dummy_body rows.now view) }
{
    let found = rows.columns_of(alloc, view)?;
    let columns = null_columns(alloc, &found)?;
    select_of(alloc, &columns)
}

// ---- statements

// CREATE VIEW with the body of this query.
fn view_of(alloc: Global, row: &RewriteRow, q: QName) -> Result<Text, AllocError>
    ensures { IfOk result (λ text. text ≡ written (view_of row.now q)) }
{
    match view_body(alloc, row.viewdef.as_bytes())? {
        Some(body) => spelled(alloc, Stmt::CreateView { q, body }),
        None => empty_text(alloc),
    }
}

/// CREATE VIEW.
#[tactic(auto, unfolding(crate::specs::Views::view_stmt))]
pub(crate) fn view_defn(
    alloc: Global,
    rows: &DumpRows<'_>,
    object: &Obj,
) -> Result<Text, AllocError>
    ensures { IfOk result (λ text. text ≡ written (view_stmt rows.now object.now)) }
{
    let Some(row) = rows.view_rewrite(object.id.oid) else {
        return empty_text(alloc);
    };
    match path_of(object)? {
        Some(q) => view_of(alloc, row, q),
        None => empty_text(alloc),
    }
}

/// CREATE VIEW of a dummy view.
#[tactic(auto, unfolding(crate::specs::Views::dummy_stmt))]
pub(crate) fn dummy_defn(
    alloc: Global,
    rows: &DumpRows<'_>,
    object: &Obj,
) -> Result<Text, AllocError>
    ensures { IfOk result (λ text. text ≡ written (dummy_stmt rows.now object.now)) }
{
    match path_of(object)? {
        Some(q) => {
            let body = dummy_body(alloc, rows, object.id.oid)?;
            spelled(alloc, Stmt::CreateView { q, body })
        }
        None => empty_text(alloc),
    }
}

// CREATE OR REPLACE VIEW with the body of this query.
fn replaced_by(alloc: Global, row: &RewriteRow, q: QName) -> Result<Text, AllocError>
    ensures { IfOk result (λ text. text ≡ written (replaced_by row.now q)) }
{
    match view_body(alloc, row.viewdef.as_bytes())? {
        Some(body) => spelled(alloc, Stmt::ReplaceView { q, body }),
        None => empty_text(alloc),
    }
}

/// CREATE OR REPLACE VIEW, which gives a dummy view its body.
#[tactic(auto, unfolding(crate::specs::Views::rule_stmt))]
pub(crate) fn rule_defn(
    alloc: Global,
    rows: &DumpRows<'_>,
    object: &Obj,
) -> Result<Text, AllocError>
    ensures { IfOk result (λ text. text ≡ written (rule_stmt rows.now object.now)) }
{
    let Some(row) = rows.rewrite_of(object.id.oid) else {
        return empty_text(alloc);
    };
    match path_of(object)? {
        Some(q) => replaced_by(alloc, row, q),
        None => empty_text(alloc),
    }
}

/// CREATE OR REPLACE VIEW, which makes it a dummy view again.
#[tactic(auto, unfolding(crate::specs::Views::rule_drop_stmt))]
pub(crate) fn rule_drop(
    alloc: Global,
    rows: &DumpRows<'_>,
    object: &Obj,
) -> Result<Text, AllocError>
    ensures { IfOk result (λ text. text ≡ written (rule_drop_stmt rows.now object.now)) }
{
    let Some(row) = rows.rewrite_of(object.id.oid) else {
        return empty_text(alloc);
    };
    match path_of(object)? {
        Some(q) => {
            let body = dummy_body(alloc, rows, row.ev_class)?;
            spelled(alloc, Stmt::ReplaceView { q, body })
        }
        None => empty_text(alloc),
    }
}
