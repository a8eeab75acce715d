//! What entries are called.
ghost use Rattle.std.specs.Prelude.{◌≡◌, ◌++◌, option_map, IfOk};
ghost use Rattle.sql_lex.specs.Written.{written_name};
ghost use Rattle.cat_book.specs.Chains.{type_of};
ghost use Rattle.dump_toc.specs.Tags.{name_bytes, two_words, column_of, table_of, tag_of, type_desc, desc_of, comment_tag, grants_tag};

use cat_model::{Commented, Granted};
use copy_text::{Name, Text};
use dump_rows::DumpRows;
use dump_stmts::{is_domain, put_name, text_of, text_of_vec};
use graph_parts::{Obj, ObjKind};
use std::alloc::{AllocError, Global};

// The bytes of a name; none where there is no name.
fn name_bytes(name: Option<&Name>) -> &[u8]
    ensures { result.now ≡ name_bytes (option_map (λ n. n.now) name.entry) }
{
    match name {
        Some(name) => name.as_bytes(),
        None => &[],
    }
}

// Two texts with a blank between.
fn two_words(alloc: Global, first: &[u8], second: &[u8]) -> Result<Text, AllocError>
    ensures { IfOk result (λ text. text ≡ two_words first.now second.now) }
{
    let mut bytes = Vec::from_slice(alloc, first)?;
    bytes.extend_from_slice(b" ")?;
    bytes.extend_from_slice(second)?;
    text_of_vec(bytes)
}

// The name of the column of a default.
fn column_of<'a>(rows: &DumpRows<'a>, oid: u32) -> Option<&'a Name>
    ensures { option_map (λ n. n.now) result ≡ column_of rows.now oid }
{
    let Some(row) = rows.default_of(oid) else {
        return None;
    };
    match rows.column_at(row.adrelid, row.adnum) {
        Some(column) => Some(&column.attname),
        None => None,
    }
}

// The name of the table of a constraint.
fn table_of<'a>(rows: &DumpRows<'a>, oid: u32) -> Option<&'a Name>
    ensures { option_map (λ n. n.now) result ≡ table_of rows.now oid }
{
    let Some(row) = rows.book().constraint_of(oid) else {
        return None;
    };
    match rows.book().class_of(row.conrelid) {
        Some(table) => Some(&table.relname),
        None => None,
    }
}

/// What the entry of an object is called: by its name, and for some kinds that of its table or column.
#[tactic(auto, unfolding(crate::specs::Tags::tag_of))]
pub(crate) fn tag_of(alloc: Global, rows: &DumpRows<'_>, object: &Obj) -> Result<Text, AllocError>
    ensures { IfOk result (λ text. text ≡ tag_of rows.now object.now) }
{
    let name = name_bytes(object.name.as_ref());
    match object.kind {
        ObjKind::Default => {
            let column = name_bytes(column_of(rows, object.id.oid));
            two_words(alloc, name, column)
        }
        ObjKind::Constraint | ObjKind::Foreign => {
            let table = name_bytes(table_of(rows, object.id.oid));
            two_words(alloc, table, name)
        }
        ObjKind::Rule => two_words(alloc, name, b"_RETURN"),
        _ => text_of(alloc, name),
    }
}

// The word for an enum or a domain.
fn type_desc(rows: &DumpRows<'_>, oid: u32) -> &'static [u8]
    ensures { result.now ≡ type_desc (type_of rows.now.pg_type oid) }
{
    match rows.book().type_of(oid) {
        Some(row) if is_domain(row) => b"DOMAIN",
        _ => b"TYPE",
    }
}

/// The kind of the entry of an object.
#[tactic(auto, unfolding(crate::specs::Tags::desc_of))]
pub(crate) fn desc_of(rows: &DumpRows<'_>, object: &Obj) -> &'static [u8]
    ensures { result.now ≡ desc_of rows.now object.now }
{
    match object.kind {
        ObjKind::Schema => b"SCHEMA",
        ObjKind::UserType => type_desc(rows, object.id.oid),
        ObjKind::Table => b"TABLE",
        ObjKind::View | ObjKind::Dummy => b"VIEW",
        ObjKind::Sequence => b"SEQUENCE",
        ObjKind::Default => b"DEFAULT",
        ObjKind::TableData => b"TABLE DATA",
        ObjKind::SeqValue => b"SEQUENCE SET",
        ObjKind::Constraint => b"CONSTRAINT",
        ObjKind::Foreign => b"FK CONSTRAINT",
        ObjKind::Index => b"INDEX",
        ObjKind::Rule => b"RULE",
        ObjKind::PreData | ObjKind::PostData => b"",
    }
}

// A word and a name as it is written.
fn word_and_name(alloc: Global, word: &[u8], name: &Name) -> Result<Text, AllocError>
    ensures { IfOk result (λ text. text ≡ word.now ++ written_name name.now) }
{
    let mut bytes = Vec::new(alloc);
    put_name(word, name, &mut bytes)?;
    text_of_vec(bytes)
}

// The same with a second word and name.
fn two_names(
    alloc: Global,
    word: &[u8],
    name: &Name,
    between: &[u8],
    second: &Name,
) -> Result<Text, AllocError>
    ensures { IfOk result (λ text. text ≡ (word.now ++ written_name name.now) ++ (between.now ++ written_name second.now)) }
{
    let mut bytes = Vec::new(alloc);
    put_name(word, name, &mut bytes)?;
    put_name(between, second, &mut bytes)?;
    text_of_vec(bytes)
}

/// What the entry of a comment is called.
pub(crate) fn comment_tag(alloc: Global, object: &Commented) -> Result<Text, AllocError>
    ensures { IfOk result (λ text. text ≡ comment_tag object.now) }
{
    match object {
        Commented::Schema(name) => word_and_name(alloc, b"SCHEMA ", name),
        Commented::Type(q) => word_and_name(alloc, b"TYPE ", &q.name),
        Commented::Domain(q) => word_and_name(alloc, b"DOMAIN ", &q.name),
        Commented::Table(q) => word_and_name(alloc, b"TABLE ", &q.name),
        Commented::View(q) => word_and_name(alloc, b"VIEW ", &q.name),
        Commented::Sequence(q) => word_and_name(alloc, b"SEQUENCE ", &q.name),
        Commented::Index(q) => word_and_name(alloc, b"INDEX ", &q.name),
        Commented::Column(q, name) => two_names(alloc, b"COLUMN ", &q.name, b".", name),
        Commented::Constraint(q, name) => two_names(alloc, b"CONSTRAINT ", name, b" ON ", &q.name),
    }
}

/// What the entry of grants is called.
pub(crate) fn grants_tag(alloc: Global, object: &Granted) -> Result<Text, AllocError>
    ensures { IfOk result (λ text. text ≡ grants_tag object.now) }
{
    match object {
        Granted::Table(q) => word_and_name(alloc, b"TABLE ", &q.name),
        Granted::Sequence(q) => word_and_name(alloc, b"SEQUENCE ", &q.name),
        Granted::Schema(name) => word_and_name(alloc, b"SCHEMA ", name),
        Granted::Type(q) => word_and_name(alloc, b"TYPE ", &q.name),
    }
}
