//! The conditions of statements. Each looks at one key, and goes on or refuses.
ghost use Rattle.std.specs.Prelude.{◌≡◌, Ok, ◌++◌, List, IfErr};
ghost use Rattle.cat_model.specs.declared.key.Key.TheVariants as key;
ghost use Rattle.cat_model.specs.Conditions.{needs, needs_each, free, needs_kind, needs_table, needs_domain, needs_sequence, needs_role, column_in, columns_in};
ghost use Rattle.cat_model.specs.Tables.{column_there, columns_there, distinct};
ghost use Rattle.cat_model.specs.declared.value.Value.TheVariants as value;
ghost use Rattle.cat_model.specs.declared.value.Role.{Role as RoleValue};
ghost use Rattle.cat_model.specs.References.{is_system};
ghost use Rattle.cat_model.specs.declared.value.Domain.{Domain as DomainValue};
ghost use Rattle.cat_model.specs.declared.value.Sequence.{Sequence as SequenceValue};
ghost use Rattle.cat_model.specs.declared.value.Column.{Column as ColumnValue};
ghost use Rattle.cat_model.specs.Trees.{Tree, Seen, outcome, seen};
ghost use Rattle.eng_steps.specs.Kinds.{is_of};
ghost use Rattle.eng_steps.specs.Outcomes.{Steps};

use crate::refusal::ApplyError;
use cat_model::{Cause, Column, Domain, Key, QName, Role, Sequence, Value};
use copy_text::Name;
use eng_map::{NamedMap, let_go_key};

/// The key is there, else `Absent`.
pub fn needs(named: &NamedMap, key: Key) -> Result<(), ApplyError>
    ensures { (next : Tree) → Steps result (outcome (needs key next) (seen named.now)) (λ _. outcome next (seen named.now)) }
{
    match named.get(&key) {
        Some(_) => Ok(let_go_key(key)),
        None => Err(ApplyError::Refused(Cause::Absent(key))),
    }
}

/// Each of the keys is there, else the first that isn't is `Absent`.
pub fn needs_each(named: &NamedMap, keys: Vec<Key>) -> Result<(), ApplyError>
    ensures { (next : Tree) → Steps result (outcome (needs_each keys.items next) (seen named.now)) (λ _. outcome next (seen named.now)) }
{
    let mut left = keys.into_iter();
    'keys: while let Some(key) = left.next() {
        needs(named, key)?;
    }
    Ok(())
}

/// The key isn't there, else `Exists`.
pub fn free(named: &NamedMap, key: Key) -> Result<(), ApplyError>
    ensures { (next : Tree) → Steps result (outcome (free key next) (seen named.now)) (λ _. outcome next (seen named.now)) }
{
    match named.get(&key) {
        Some(_) => Err(ApplyError::Refused(Cause::Exists(key))),
        None => Ok(let_go_key(key)),
    }
}

/// The kinds of objects that a statement may ask for.
#[derive(Clone, Copy)]
pub enum ObjectKind {
    /// An enum.
    Enum,
    /// A domain.
    Domain,
    /// An enum or a domain.
    EnumOrDomain,
    /// A table.
    Table,
    /// A view.
    View,
    /// A table or a view.
    TableOrView,
    /// A table, a view or a sequence.
    Owned,
    /// A sequence.
    Sequence,
    /// An index, of a constraint too.
    Index,
}

fn is_of(kind: ObjectKind, value: &Value) -> bool
    ensures { result ≡ is_of kind value.now }
{
    match kind {
        ObjectKind::Enum => matches!(value, Value::Enum(_)),
        ObjectKind::Domain => matches!(value, Value::Domain(_)),
        ObjectKind::EnumOrDomain => matches!(value, Value::Enum(_) | Value::Domain(_)),
        ObjectKind::Table => matches!(value, Value::Table(_)),
        ObjectKind::View => matches!(value, Value::View),
        ObjectKind::TableOrView => matches!(value, Value::Table(_) | Value::View),
        ObjectKind::Owned => matches!(value, Value::Table(_) | Value::View | Value::Sequence(_)),
        ObjectKind::Sequence => matches!(value, Value::Sequence(_)),
        ObjectKind::Index => matches!(value, Value::IndexOf(_)),
    }
}

/// The key is there and its object is of this kind, else `Absent`.
pub fn needs_kind(named: &NamedMap, kind: ObjectKind, key: Key) -> Result<(), ApplyError>
    ensures { (next : Tree) → Steps result (outcome (needs_kind (is_of kind) key next) (seen named.now)) (λ _. outcome next (seen named.now)) }
{
    match named.get(&key) {
        Some(value) if is_of(kind, value) => Ok(let_go_key(key)),
        _ => Err(ApplyError::Refused(Cause::Absent(key))),
    }
}

/// A table of this path is there, else `Absent`. Its columns are given.
pub fn needs_table<'a>(named: &'a NamedMap, q: &QName) -> Result<&'a [Column], ApplyError>
    ensures { (next : List ColumnValue → Tree) → Steps result (outcome (needs_table q.now next) (seen named.now)) (λ columns. outcome (next columns.now) (seen named.now)) }
{
    let key = Key::Rel(q.clone()?);
    match named.get(&key) {
        Some(Value::Table(columns)) => {
            let_go_key(key);
            Ok(columns.as_slice())
        }
        _ => Err(ApplyError::Refused(Cause::Absent(key))),
    }
}

/// A domain of this path is there, else `Absent`.
pub fn needs_domain<'a>(named: &'a NamedMap, q: &QName) -> Result<&'a Domain, ApplyError>
    ensures { (next : DomainValue → Tree) → Steps result (outcome (needs_domain q.now next) (seen named.now)) (λ d. outcome (next d.now) (seen named.now)) }
{
    let key = Key::UserType(q.clone()?);
    match named.get(&key) {
        Some(Value::Domain(domain)) => {
            let_go_key(key);
            Ok(domain)
        }
        _ => Err(ApplyError::Refused(Cause::Absent(key))),
    }
}

/// A sequence of this path is there, else `Absent`.
pub fn needs_sequence<'a>(named: &'a NamedMap, q: &QName) -> Result<&'a Sequence, ApplyError>
    ensures { (next : SequenceValue → Tree) → Steps result (outcome (needs_sequence q.now next) (seen named.now)) (λ s. outcome (next s.now) (seen named.now)) }
{
    let key = Key::Rel(q.clone()?);
    match named.get(&key) {
        Some(Value::Sequence(sequence)) => {
            let_go_key(key);
            Ok(sequence)
        }
        _ => Err(ApplyError::Refused(Cause::Absent(key))),
    }
}

/// A role of this name is there, else `Absent`.
pub fn needs_role<'a>(named: &'a NamedMap, name: &Name) -> Result<&'a Role, ApplyError>
    ensures { (next : RoleValue → Tree) → Steps result (outcome (needs_role name.now next) (seen named.now)) (λ r. outcome (next r.now) (seen named.now)) }
{
    let key = Key::Role(name.clone()?);
    match named.get(&key) {
        Some(Value::Role(role)) => {
            let_go_key(key);
            Ok(role)
        }
        _ => Err(ApplyError::Refused(Cause::Absent(key))),
    }
}

/// Whether a table has a column of this name.
pub fn column_there(columns: &[Column], name: &Name) -> bool
    ensures { result ≡ column_there columns.now name.now }
{
    columns.iter().any(|column| name == &column.name)
}

/// The column is there, else `WrongColumns`.
pub fn column_in(columns: &[Column], name: &Name) -> Result<(), ApplyError>
    ensures { (next : Tree) (s : Seen) → Steps result (outcome (column_in columns.now name.now next) s) (λ _. outcome next s) }
{
    if !column_there(columns, name) {
        return Err(ApplyError::Refused(Cause::WrongColumns));
    }
    Ok(())
}

/// The schema is there, else `Absent`, and no enum or domain has the path, else `Exists`.
pub fn free_type(named: &NamedMap, q: &QName) -> Result<(), ApplyError>
    ensures { (next : Tree) → Steps result (outcome (needs (key.Schema q.now.schema) (free (key.UserType q.now) next)) (seen named.now)) (λ _. outcome next (seen named.now)) }
{
    needs(named, Key::Schema(q.schema.clone()?))?;
    free(named, Key::UserType(q.clone()?))
}

/// Whether a schema is one of the system's own.
pub fn is_system(name: &Name) -> bool
    ensures { result ≡ is_system name.now }
{
    let name = name.as_bytes();
    name == b"pg_catalog".as_slice() || name == b"information_schema".as_slice()
}

/// The schema is there, else `Absent`, and no relation has the path, else `Exists`.
pub fn free_relation(named: &NamedMap, q: &QName) -> Result<(), ApplyError>
    ensures { (next : Tree) → Steps result (outcome (needs (key.Schema q.now.schema) (free (key.Rel q.now) next)) (seen named.now)) (λ _. outcome next (seen named.now)) }
{
    needs(named, Key::Schema(q.schema.clone()?))?;
    free(named, Key::Rel(q.clone()?))
}
