//! What the patterns of a selection hit.
ghost use Rattle.std.specs.Prelude.{◌≡◌, not};
ghost use Rattle.std.specs.List.{list_any, position};
ghost use Rattle.cat_book.specs.Paths.{class_path};
ghost use Rattle.obj_graph.specs.Chosen.{are_none, is_hit, hits_path, is_path_hit, hits_schema, hits_row, hits_relation, missing, or_missing, select_fault};

use crate::select::{Select, SelectFault};
use cat_book::Book;
use cat_names::{RelationKind, relation_kind};
use cat_rows::ClassRow;
use patterns::{Pattern, pattern_hits};

/// Whether there are no patterns.
pub fn are_none(patterns: &[Pattern]) -> bool
    ensures { result ≡ are_none patterns.now }
{
    match patterns {
        [] => true,
        [_, ..] => false,
    }
}

/// Whether one of these patterns hits a name in a schema.
pub fn is_hit(patterns: &[Pattern], schema: &str, name: &str) -> bool
    ensures { result ≡ is_hit patterns.now schema.now name.now }
{
    patterns
        .iter()
        .any(|pattern| pattern_hits(pattern, schema, name))
}

// Whether a pattern hits the path of a relation.
fn hits_path(book: &Book<'_>, pattern: &Pattern, row: &ClassRow) -> bool
    ensures { result ≡ hits_path pattern.now (class_path book.now.pg_namespace row.now) }
{
    match book.schema_of(row.relnamespace) {
        Some(schema) => pattern_hits(pattern, schema.nspname.as_str(), row.relname.as_str()),
        None => false,
    }
}

/// Whether one of these patterns hits the path of a relation.
pub fn is_path_hit(book: &Book<'_>, patterns: &[Pattern], row: &ClassRow) -> bool
    ensures { result ≡ is_path_hit patterns.now (class_path book.now.pg_namespace row.now) }
{
    patterns.iter().any(|pattern| hits_path(book, pattern, row))
}

// Whether a pattern hits a schema.
fn hits_schema(book: &Book<'_>, pattern: &Pattern) -> bool
    ensures { result ≡ hits_schema book.now pattern.now }
{
    book.tables().pg_namespace.as_slice().iter().any(|schema| pattern_hits(
        pattern,
        "public",
        schema.nspname.as_str(),
    ))
}

// Whether a pattern hits a relation that isn't an index.
fn hits_row(book: &Book<'_>, pattern: &Pattern, row: &ClassRow) -> bool
    ensures { result ≡ hits_row book.now pattern.now row.now }
{
    !matches!(relation_kind(row.relkind), RelationKind::Index) && hits_path(book, pattern, row)
}

// Whether a pattern hits a table, a view or a sequence.
fn hits_relation(book: &Book<'_>, pattern: &Pattern) -> bool
    ensures { result ≡ hits_relation book.now pattern.now }
{
    book.tables()
        .pg_class
        .as_slice()
        .iter()
        .any(|row| hits_row(book, pattern, row))
}

// The first of the patterns that hits no schema.
fn first_without_schema(book: &Book<'_>, patterns: &[Pattern]) -> Option<usize>
    ensures { result ≡ position (λ p. not (hits_schema book.now p)) patterns.now }
{
    patterns
        .iter()
        .position(|pattern| !hits_schema(book, pattern))
}

// Whether one of the patterns hits a schema.
fn some_hit_schema(book: &Book<'_>, patterns: &[Pattern]) -> bool
    ensures { result ≡ list_any (hits_schema book.now) patterns.now }
{
    patterns.iter().any(|pattern| hits_schema(book, pattern))
}

// The place of the pattern of schemas that is refused.
fn missing_schema(book: &Book<'_>, strict: bool, patterns: &[Pattern]) -> Option<usize>
    ensures { result ≡ missing strict (hits_schema book.now) patterns.now }
{
    if strict {
        first_without_schema(book, patterns)
    } else if are_none(patterns) || some_hit_schema(book, patterns) {
        None
    } else {
        Some(0)
    }
}

// The first of the patterns that hits no table, view or sequence.
fn first_without_relation(book: &Book<'_>, patterns: &[Pattern]) -> Option<usize>
    ensures { result ≡ position (λ p. not (hits_relation book.now p)) patterns.now }
{
    patterns
        .iter()
        .position(|pattern| !hits_relation(book, pattern))
}

// Whether one of the patterns hits a table, a view or a sequence.
fn some_hit_relation(book: &Book<'_>, patterns: &[Pattern]) -> bool
    ensures { result ≡ list_any (hits_relation book.now) patterns.now }
{
    patterns.iter().any(|pattern| hits_relation(book, pattern))
}

// The place of the pattern of tables, views and sequences that is refused.
fn missing_relation(book: &Book<'_>, strict: bool, patterns: &[Pattern]) -> Option<usize>
    ensures { result ≡ missing strict (hits_relation book.now) patterns.now }
{
    if strict {
        first_without_relation(book, patterns)
    } else if are_none(patterns) || some_hit_relation(book, patterns) {
        None
    } else {
        Some(0)
    }
}

/// The pattern of what is taken that is refused since it hits nothing; `None` where there is none. With `strict` each pattern
/// has to hit, without it one of a list. Schemas are tried first. What is taken away may hit nothing.
/// <https://www.postgresql.org/docs/16/app-pgdump.html>
#[tactic(auto, unfolding(crate::specs::Chosen::select_fault))]
pub fn select_fault(book: &Book<'_>, select: &Select) -> Option<SelectFault>
    ensures { result ≡ select_fault book.now select.now }
{
    let schema = missing_schema(book, select.strict, select.schemas.as_slice());
    let relation = missing_relation(book, select.strict, select.tables.as_slice());
    match (schema, relation) {
        (Some(at), _) => Some(SelectFault::NoSchemas(at)),
        (None, Some(at)) => Some(SelectFault::NoTables(at)),
        (None, None) => None,
    }
}
