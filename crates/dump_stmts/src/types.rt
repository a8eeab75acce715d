//! Enums and domains.
ghost use Rattle.std.specs.Prelude.{◌≡◌, Some, map, IfOk};
ghost use Rattle.cat_book.specs.Chains.{is_domain_letter};
ghost use Rattle.dump_stmts.specs.Paths.{written};
ghost use Rattle.dump_stmts.specs.Types.{enum_stmt, domain_over, domain_stmt, type_stmt};

use crate::defn::path_of;
use crate::tables::{check_defs, default_text};
use crate::texts::{empty_text, spelled};
use cat_model::{Items, QName, Stmt, TypeName};
use cat_rows::{EnumRow, TypeRow};
use copy_text::Text;
use dump_rows::DumpRows;
use graph_parts::Obj;
use row_texts::type_named;
use std::alloc::{AllocError, Global};

/// Whether a type is a domain.
pub fn is_domain(row: &TypeRow) -> bool
    ensures { result ≡ is_domain_letter row.now.typtype }
{
    row.typtype.byte() == b'd'
}

// The labels themselves.
fn label_texts(alloc: Global, rows: &[&EnumRow]) -> Result<Vec<Text>, AllocError>
    ensures { IfOk result (λ labels. labels.items ≡ map (λ e. e.enumlabel) (map (λ r. r.now) rows.now)) }
{
    let mut labels = Vec::new(alloc);
    for row in rows {
        labels.push(row.enumlabel.clone()?)?;
    }
    Ok(labels)
}

// CREATE TYPE .. AS ENUM.
fn enum_defn(
    alloc: Global,
    rows: &DumpRows<'_>,
    row: &TypeRow,
    q: QName,
) -> Result<Text, AllocError>
    ensures { IfOk result (λ text. text ≡ written (Some (enum_stmt rows.now row.now q))) }
{
    let found = rows.labels_of(alloc, row.oid)?;
    let labels = Items::new(label_texts(alloc, &found)?);
    spelled(alloc, Stmt::CreateEnum { q, labels })
}

// CREATE DOMAIN over this type.
fn domain_over(
    alloc: Global,
    rows: &DumpRows<'_>,
    row: &TypeRow,
    q: QName,
    base: TypeName,
) -> Result<Text, AllocError>
    ensures { IfOk result (λ text. text ≡ written (Some (domain_over rows.now row.now q base))) }
{
    let default = default_text(alloc, &row.typdefault)?;
    let found = rows.domain_checks(alloc, row.oid)?;
    let checks = Items::new(check_defs(alloc, &found)?);
    spelled(
        alloc,
        Stmt::CreateDomain {
            q,
            base,
            not_null: row.typnotnull,
            default,
            checks,
        },
    )
}

// CREATE DOMAIN.
fn domain_defn(
    alloc: Global,
    rows: &DumpRows<'_>,
    row: &TypeRow,
    q: QName,
) -> Result<Text, AllocError>
    ensures { IfOk result (λ text. text ≡ written (domain_stmt rows.now row.now q)) }
{
    match type_named(alloc, row.basetext.as_bytes())? {
        Some(base) => domain_over(alloc, rows, row, q, base),
        None => empty_text(alloc),
    }
}

/// What makes an enum or a domain.
#[tactic(auto, unfolding(crate::specs::Types::type_stmt))]
pub(crate) fn type_defn(
    alloc: Global,
    rows: &DumpRows<'_>,
    object: &Obj,
) -> Result<Text, AllocError>
    ensures { IfOk result (λ text. text ≡ written (type_stmt rows.now object.now)) }
{
    let Some(row) = rows.book().type_of(object.id.oid) else {
        return empty_text(alloc);
    };
    let Some(q) = path_of(object)? else {
        return empty_text(alloc);
    };
    if is_domain(row) {
        domain_defn(alloc, rows, row, q)
    } else {
        enum_defn(alloc, rows, row, q)
    }
}
