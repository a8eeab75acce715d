//! What a selection chooses.
ghost use Rattle.std.specs.Prelude.{◌≡◌, Some, option_map};
ghost use Rattle.obj_graph.specs.Chosen.{is_schema_chosen, is_in_chosen, is_path_chosen, is_named, is_named_there, owner_of, is_relation_chosen, is_chosen_there, is_oid_chosen, schema_name};

use cat_book::Book;
use cat_names::{RelationKind, relation_kind};
use cat_rows::ClassRow;
use copy_text::Name;
use obj_beside::Beside;
use obj_graph::{Select, are_none, is_hit};

/// Whether a schema of this name is chosen.
pub(crate) fn is_schema_chosen(select: &Select, name: &Name) -> bool
    ensures { result ≡ is_schema_chosen select.now name.now }
{
    are_none(select.tables.as_slice())
        && (are_none(select.schemas.as_slice())
            || is_hit(select.schemas.as_slice(), "public", name.as_str()))
        && !is_hit(select.not_schemas.as_slice(), "public", name.as_str())
}

/// Whether there is a schema, and it is chosen.
pub(crate) fn is_in_chosen(select: &Select, schema: Option<&Name>) -> bool
    ensures { result ≡ is_in_chosen select.now (option_map (λ n. n.now) schema.entry) }
{
    match schema {
        Some(schema) => is_schema_chosen(select, schema),
        None => false,
    }
}

// Whether a name in a schema is chosen by the patterns.
fn is_path_chosen(select: &Select, schema: &Name, name: &Name) -> bool
    ensures { result ≡ is_path_chosen select.now (Some (record { schema = schema.now; name = name.now })) }
{
    let named = if are_none(select.tables.as_slice()) {
        is_schema_chosen(select, schema)
    } else {
        is_hit(select.tables.as_slice(), schema.as_str(), name.as_str())
    };
    named && !is_hit(select.not_tables.as_slice(), schema.as_str(), name.as_str())
}

// Whether a relation is chosen by the patterns.
fn is_named(book: &Book<'_>, select: &Select, row: &ClassRow) -> bool
    ensures { result ≡ is_named book.now select.now row.now }
{
    match book.schema_of(row.relnamespace) {
        Some(schema) => is_path_chosen(select, &schema.nspname, &row.relname),
        None => false,
    }
}

// Whether there is a relation, and it is chosen by the patterns.
fn is_named_there(book: &Book<'_>, select: &Select, row: Option<&ClassRow>) -> bool
    ensures { result ≡ is_named_there book.now select.now (option_map (λ r. r.now) row.entry) }
{
    match row {
        Some(row) => is_named(book, select, row),
        None => false,
    }
}

/// Whether a relation is chosen: by the patterns, or as a sequence that a column of such a table owns.
pub(crate) fn is_relation_chosen(beside: &Beside<'_>, select: &Select, row: &ClassRow) -> bool
    ensures { result ≡ is_relation_chosen beside.now select.now row.now }
{
    is_named(beside.book(), select, row)
        || (matches!(relation_kind(row.relkind), RelationKind::Sequence)
            && is_named_there(beside.book(), select, beside.owner_of(row.oid)))
}

/// Whether the relation of an oid is chosen.
pub(crate) fn is_oid_chosen(beside: &Beside<'_>, select: &Select, oid: u32) -> bool
    ensures { result ≡ is_oid_chosen beside.now select.now oid }
{
    match beside.book().class_of(oid) {
        Some(row) => is_relation_chosen(beside, select, row),
        None => false,
    }
}
