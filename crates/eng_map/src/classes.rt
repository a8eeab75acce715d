//! Whether a key with its value is of a class.
ghost use Rattle.std.specs.Prelude.{◌≡◌, IfOk};
ghost use Rattle.std.specs.List.{list_any, list_all};
ghost use Rattle.cat_model.specs.Lexemes.{same_text};
ghost use Rattle.cat_model.specs.Tables.{same_set};
ghost use Rattle.cat_model.specs.Trees.{same_path, is_on, unique_on, of_class, is_primary, is_unique};

use cat_model::{Class, ConstraintKind, Index, Items, Key, QName, Value};
use copy_text::Name;
use std::alloc::{AllocError, Global};
use stmt_refs::plain_columns;

fn is_one_of(name: &Name, all: &[Name]) -> bool
    ensures { result ≡ list_any (same_text name.now) all.now }
{
    all.iter().any(|other| name == other)
}

fn is_subset(names: &[Name], all: &[Name]) -> bool
    ensures { result ≡ list_all (λ x. list_any (same_text x) all.now) names.now }
{
    names.iter().all(|name| is_one_of(name, all))
}

fn is_same_set(a: &[Name], b: &[Name]) -> bool
    ensures { result ≡ same_set a.now b.now }
{
    is_subset(a, b) && is_subset(b, a)
}

fn is_same_path(a: &QName, b: &QName) -> bool
    ensures { result ≡ same_path a.now b.now }
{
    a == b
}

fn is_same_name(a: &Name, b: &Name) -> bool
    ensures { result ≡ same_text a.now b.now }
{
    a == b
}

fn is_primary(kind: ConstraintKind) -> bool
    ensures { result ≡ is_primary kind }
{
    matches!(kind, ConstraintKind::Primary)
}

fn is_unique(kind: ConstraintKind) -> bool
    ensures { result ≡ is_unique kind }
{
    matches!(kind, ConstraintKind::Primary | ConstraintKind::Unique)
}

// The columns that an index keeps unique, where they are plain.
fn unique_on(alloc: Global, index: &Index) -> Result<Option<Items<Name>>, AllocError>
    ensures { IfOk result (λ names. names ≡ unique_on index.now) }
{
    if index.unique {
        plain_columns(alloc, index.text.as_bytes())
    } else {
        Ok(None)
    }
}

// Whether an index keeps this set of plain columns unique.
fn is_index_on(alloc: Global, columns: &[Name], index: &Index) -> Result<bool, AllocError>
    ensures { IfOk result (λ is. is ≡ is_on columns.now (unique_on index.now)) }
{
    match unique_on(alloc, index)? {
        Some(names) => Ok(is_same_set(columns, names.as_slice())),
        None => Ok(false),
    }
}

/// Whether a key with this value is of a class.
pub(crate) fn is_of_class(
    alloc: Global,
    class: &Class,
    key: &Key,
    value: &Value,
) -> Result<bool, AllocError>
    ensures { IfOk result (λ is. is ≡ of_class class.now key.now value.now) }
{
    match (class, key) {
        (Class::Constraints(table), Key::Con(q, _)) => Ok(is_same_path(table, q)),
        (Class::Indexes(table), Key::Index(q, _)) => Ok(is_same_path(table, q)),
        (Class::PrimaryKeys(table), Key::Con(q, _)) => match value {
            Value::Constraint(c) => Ok(is_same_path(table, q) && is_primary(c.kind)),
            _ => Ok(false),
        },
        (Class::KeysOn(table, columns), Key::Con(q, _)) => match value {
            Value::Constraint(c) => Ok(
                is_same_path(table, q)
                    && (is_unique(c.kind) && is_same_set(columns.as_slice(), c.columns.as_slice())),
            ),
            _ => Ok(false),
        },
        (Class::KeysOn(table, columns), Key::Index(q, _)) => match value {
            Value::Index(i) => {
                Ok(is_same_path(table, q) && is_index_on(alloc, columns.as_slice(), i)?)
            }
            _ => Ok(false),
        },
        (Class::Members(role, member), Key::Member(r, m, _)) => {
            Ok(is_same_name(role, r) && is_same_name(member, m))
        }
        _ => Ok(false),
    }
}
