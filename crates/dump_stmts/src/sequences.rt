//! Sequences, their values and their owners.
ghost use Rattle.std.specs.Prelude.{◌≡◌, Some, option_map, IfOk};
ghost use Rattle.std.specs.Option.{option_and_then};
ghost use Rattle.ddl_write.specs.Respelling.{spelling};
ghost use Rattle.dump_stmts.specs.Paths.{written};
ghost use Rattle.dump_stmts.specs.Sequences.{of_kind, sequence_stmt, value_stmt, owned_in, owned_stmt};

use crate::defn::path_of;
use crate::texts::{empty_text, spelled};
use cat_model::{QName, SequenceKind, Stmt};
use cat_rows::SequenceRow;
use copy_text::Text;
use dump_rows::DumpRows;
use graph_parts::Obj;
use row_texts::sequence_kind;
use std::alloc::{AllocError, Global};

// CREATE SEQUENCE of numbers of this type.
fn sequence_of(
    alloc: Global,
    row: &SequenceRow,
    q: QName,
    kind: SequenceKind,
) -> Result<Text, AllocError>
    ensures { IfOk result (λ text. text ≡ written (Some (of_kind row.now kind q))) }
{
    spelled(
        alloc,
        Stmt::CreateSequence {
            q,
            kind,
            start: row.seqstart,
            step: row.seqincrement,
            min: row.seqmin,
            max: row.seqmax,
            cache: row.seqcache,
            cycle: row.seqcycle,
        },
    )
}

/// CREATE SEQUENCE.
#[tactic(auto, unfolding(crate::specs::Sequences::sequence_stmt))]
pub(crate) fn sequence_defn(
    alloc: Global,
    rows: &DumpRows<'_>,
    object: &Obj,
) -> Result<Text, AllocError>
    ensures { IfOk result (λ text. text ≡ written (sequence_stmt rows.now object.now)) }
{
    let Some(row) = rows.sequence_of(object.id.oid) else {
        return empty_text(alloc);
    };
    let Some(kind) = sequence_kind(alloc, row.seqtype.as_bytes())? else {
        return empty_text(alloc);
    };
    match path_of(object)? {
        Some(q) => sequence_of(alloc, row, q, kind),
        None => empty_text(alloc),
    }
}

/// SELECT pg_catalog.setval.
#[tactic(auto, unfolding(crate::specs::Sequences::value_stmt))]
pub(crate) fn value_defn(
    alloc: Global,
    rows: &DumpRows<'_>,
    object: &Obj,
) -> Result<Text, AllocError>
    ensures { IfOk result (λ text. text ≡ written (value_stmt rows.now object.now)) }
{
    let Some(row) = rows.sequence_of(object.id.oid) else {
        return empty_text(alloc);
    };
    match path_of(object)? {
        Some(q) => spelled(
            alloc,
            Stmt::SetVal {
                q,
                value: row.last_value,
                called: row.is_called,
            },
        ),
        None => empty_text(alloc),
    }
}

// OWNED BY the column that a row names.
fn owned_by_column(
    alloc: Global,
    rows: &DumpRows<'_>,
    row: &SequenceRow,
    q: QName,
) -> Result<Option<Text>, AllocError>
    ensures { IfOk result (λ text. text ≡ option_map (λ s. written (Some s)) (owned_in rows.now row.now q)) }
{
    let Some(table) = rows.book().class_path_of(row.ownrel)? else {
        return Ok(None);
    };
    let Some(column) = rows.column_at(row.ownrel, row.owncol) else {
        return Ok(None);
    };
    let column = column.attname.clone()?;
    let text = spelled(alloc, Stmt::OwnedBy { q, table, column })?;
    Ok(Some(text))
}

/// ALTER SEQUENCE .. OWNED BY; `None` where no column owns the sequence.
#[tactic(auto, unfolding(crate::specs::Sequences::owned_stmt))]
pub fn owned_by(
    alloc: Global,
    rows: &DumpRows<'_>,
    object: &Obj,
) -> Result<Option<Text>, AllocError>
    ensures { IfOk result (λ text. text ≡ option_map (λ s. written (Some s)) (owned_stmt rows.now object.now)) }
{
    let Some(row) = rows.sequence_of(object.id.oid) else {
        return Ok(None);
    };
    match path_of(object)? {
        Some(q) => owned_by_column(alloc, rows, row, q),
        None => Ok(None),
    }
}
