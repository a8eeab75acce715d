//! Conflicts of footprints.
ghost use Rattle.std.specs.Prelude.{◌≡◌, ◌&&◌};
ghost use Rattle.std.specs.Option.{option_copied};
ghost use Rattle.std.specs.List.{list_any, list_all};
ghost use Rattle.cat_model.specs.Lexemes.{same_text};
ghost use Rattle.cat_model.specs.Trees.{same_path};
ghost use Rattle.cat_model.specs.Keys.{key_eq};
ghost use Rattle.cat_model.specs.Values.{Bytes};
ghost use Rattle.cat_model.specs.Marks.{meets, key_meets, any_meet, conflict, key_of_class, constraint_of_class, index_of_class, classes_meet, table_of as the_table_of};
ghost use Rattle.cat_model.specs.Tables.{same_set};
ghost use Rattle.cat_model.specs.declared.key.Key.TheVariants as keys;

use crate::class::{Class, Mark};
use crate::constraint::ConstraintKind;
use crate::footprint::Footprint;
use crate::items::Items;
use crate::key::Key;
use crate::object::QName;
use copy_text::Name;

/// Whether one of two footprints writes what the other reads or writes: then their statements may not change places.
/// It takes no memory.
pub fn conflicts(a: &Footprint, b: &Footprint) -> bool
    ensures { result ≡ conflict a.now b.now }
{
    some_meet(a.writes.as_slice(), b.reads.as_slice())
        || some_meet(a.writes.as_slice(), b.writes.as_slice())
        || some_meet(b.writes.as_slice(), a.reads.as_slice())
}

fn some_meet(marks: &[Mark], others: &[Mark]) -> bool
    ensures { result ≡ any_meet marks.now others.now }
{
    marks.iter().any(|mark| meets_one_of(mark, others))
}

fn meets_one_of(mark: &Mark, others: &[Mark]) -> bool
    ensures { result ≡ list_any (meets mark.now) others.now }
{
    others.iter().any(|other| both_may_hold(mark, other))
}

// Whether one key may be what both marks stand for.
fn both_may_hold(a: &Mark, b: &Mark) -> bool
    ensures { result ≡ meets a.now b.now }
{
    match a {
        Mark::Key(key) => may_hold(b, key),
        Mark::NewConstraint {
            table,
            name,
            kind,
            columns,
        } => match b {
            Mark::Class(class) => has_constraint(class, table, *kind, columns.as_slice()),
            _ => may_hold_constraint(b, table, name),
        },
        Mark::NewIndex {
            table,
            name,
            unique_on,
        } => match b {
            Mark::Class(class) => has_index(class, table, unique_on),
            _ => may_hold_index(b, table, name),
        },
        Mark::Class(class) => match b {
            Mark::Key(key) => has_key(class, key),
            Mark::NewConstraint {
                table,
                kind,
                columns,
                ..
            } => has_constraint(class, table, *kind, columns.as_slice()),
            Mark::NewIndex {
                table,
                unique_on,
                ..
            } => has_index(class, table, unique_on),
            Mark::Class(other) => share_a_key(class, other),
        },
    }
}

fn may_hold(mark: &Mark, key: &Key) -> bool
    ensures { result ≡ key_meets key.now mark.now }
{
    match mark {
        Mark::Key(other) => key == other,
        Mark::NewConstraint { table, name, .. } => is_constraint(key, table, name),
        Mark::NewIndex { table, name, .. } => is_index(key, table, name),
        Mark::Class(class) => has_key(class, key),
    }
}

// Whether two constraints, or two indexes, of tables are the same.
fn is_same_part(q: &QName, n: &Name, table: &QName, name: &Name) -> bool
    ensures constraint { result ≡ key_eq (keys.Con q.now n.now) (keys.Con table.now name.now) }
    ensures index { result ≡ key_eq (keys.Index q.now n.now) (keys.Index table.now name.now) }
{
    are_same(q, table, n, name)
}

fn are_same(q: &QName, table: &QName, n: &Name, name: &Name) -> bool
    ensures { result ≡ same_path q.now table.now && same_text n.now name.now }
{
    q == table && n == name
}

fn is_constraint(key: &Key, table: &QName, name: &Name) -> bool
    ensures { result ≡ key_eq key.now (keys.Con table.now name.now) }
{
    match key {
        Key::Con(q, n) => is_same_part(q, n, table, name),
        _ => false,
    }
}

fn is_index(key: &Key, table: &QName, name: &Name) -> bool
    ensures { result ≡ key_eq key.now (keys.Index table.now name.now) }
{
    match key {
        Key::Index(q, n) => is_same_part(q, n, table, name),
        _ => false,
    }
}

fn may_hold_constraint(mark: &Mark, table: &QName, name: &Name) -> bool
    ensures { result ≡ key_meets (keys.Con table.now name.now) mark.now }
{
    match mark {
        Mark::Key(Key::Con(q, n)) => is_same_part(table, name, q, n),
        Mark::NewConstraint {
            table: q,
            name: n,
            ..
        } => is_same_part(table, name, q, n),
        Mark::Class(class) => may_have_constraint(class, table),
        _ => false,
    }
}

fn may_hold_index(mark: &Mark, table: &QName, name: &Name) -> bool
    ensures { result ≡ key_meets (keys.Index table.now name.now) mark.now }
{
    match mark {
        Mark::Key(Key::Index(q, n)) => is_same_part(table, name, q, n),
        Mark::NewIndex {
            table: q,
            name: n,
            ..
        } => is_same_part(table, name, q, n),
        Mark::Class(class) => may_have_index(class, table),
        _ => false,
    }
}

// Whether a class may hold a key, whatever its value.
fn has_key(class: &Class, key: &Key) -> bool
    ensures { result ≡ key_of_class class.now key.now }
{
    match key {
        Key::Con(q, _) => may_have_constraint(class, q),
        Key::Index(q, _) => may_have_index(class, q),
        Key::Member(r, m, _) => match class {
            Class::Members(role, member) => role == r && member == m,
            _ => false,
        },
        _ => false,
    }
}

fn may_have_constraint(class: &Class, q: &QName) -> bool
    ensures { (name : Bytes) → result ≡ key_of_class class.now (keys.Con q.now name) }
{
    match class {
        Class::Constraints(table) | Class::PrimaryKeys(table) | Class::KeysOn(table, _) => table
            == q,
        Class::Indexes(_) | Class::Members(..) => false,
    }
}

fn may_have_index(class: &Class, q: &QName) -> bool
    ensures { (name : Bytes) → result ≡ key_of_class class.now (keys.Index q.now name) }
{
    match class {
        Class::Indexes(table) | Class::KeysOn(table, _) => table == q,
        Class::Constraints(_) | Class::PrimaryKeys(_) | Class::Members(..) => false,
    }
}

// Whether a constraint of this table, kind and columns is of a class.
fn has_constraint(class: &Class, q: &QName, kind: ConstraintKind, names: &[Name]) -> bool
    ensures { result ≡ constraint_of_class class.now q.now kind names.now }
{
    match class {
        Class::Constraints(table) => table == q,
        Class::PrimaryKeys(table) => table == q && matches!(kind, ConstraintKind::Primary),
        Class::KeysOn(table, columns) => {
            table == q
                && matches!(kind, ConstraintKind::Primary | ConstraintKind::Unique)
                && is_same_set(columns.as_slice(), names)
        }
        Class::Indexes(_) | Class::Members(..) => false,
    }
}

// Whether an index of this table that is unique on these columns is of a class.
fn has_index(class: &Class, q: &QName, unique_on: &Option<Items<Name>>) -> bool
    ensures { result ≡ index_of_class class.now q.now unique_on.now }
{
    match class {
        Class::Indexes(table) => table == q,
        Class::KeysOn(table, columns) => match unique_on {
            Some(names) => table == q && is_same_set(columns.as_slice(), names.as_slice()),
            None => false,
        },
        Class::Constraints(_) | Class::PrimaryKeys(_) | Class::Members(..) => false,
    }
}

// Whether two classes may have a key in common.
fn share_a_key(a: &Class, b: &Class) -> bool
    ensures { result ≡ classes_meet a.now b.now }
{
    match (a, b) {
        (Class::Members(role, member), Class::Members(r, m)) => role == r && member == m,
        _ => match (table_of(a), table_of(b)) {
            (Some(p), Some(q)) => p == q,
            _ => false,
        },
    }
}

fn table_of(class: &Class) -> Option<&QName>
    ensures { option_copied result ≡ the_table_of class.now }
{
    match class {
        Class::Constraints(table)
        | Class::Indexes(table)
        | Class::PrimaryKeys(table)
        | Class::KeysOn(table, _) => Some(table),
        Class::Members(..) => None,
    }
}

fn is_same_set(a: &[Name], b: &[Name]) -> bool
    ensures { result ≡ same_set a.now b.now }
{
    is_subset(a, b) && is_subset(b, a)
}

fn is_subset(names: &[Name], all: &[Name]) -> bool
    ensures { result ≡ list_all (λ x. list_any (same_text x) all.now) names.now }
{
    names.iter().all(|name| is_one_of(name, all))
}

fn is_one_of(name: &Name, all: &[Name]) -> bool
    ensures { result ≡ list_any (same_text name.now) all.now }
{
    all.iter().any(|other| name == other)
}
