//! Whether two values of the catalogue by names are the same.
ghost use Rattle.std.specs.Prelude.{◌≡◌, ◌↔◌, IsTrue};
ghost use Rattle.cat_model.specs.declared.value.Value.TheVariants.{OwnedBy as owned_by, SequenceValue as sequence_value};
ghost use Rattle.same_maps.specs.Flags.{role_flags};

use crate::checks::same_checks;
use crate::grants::same_grants;
use cat_model::{
    Column, Constraint, ConstraintKind, Domain, Encoding, Index, Items, Membership, QName,
    Resolved, Role, Sequence, SequenceKind, TableRows, TypeName, Value,
};
use copy_text::{Name, Text};

fn same_text_or_none(a: &Option<Text>, b: &Option<Text>) -> bool
    ensures { IsTrue result ↔ (a.now ≡ b.now) }
{
    match (a, b) {
        (None, None) => true,
        (Some(a), Some(b)) => a == b,
        _ => false,
    }
}

// Those of a role's attributes that it has or hasn't.
fn role_flags(role: &Role) -> [bool; 7]
    ensures { result ≡ role_flags role.now }
{
    [
        role.superuser,
        role.inherit,
        role.create_role,
        role.create_db,
        role.login,
        role.replication,
        role.bypass_rls,
    ]
}

// Whether two roles have the same attributes.
fn same_role(a: &Role, b: &Role) -> bool
    ensures { IsTrue result ↔ (a.now ≡ b.now) }
{
    role_flags(a) == role_flags(b)
        && same_number(a.limit, b.limit)
        && same_text_or_none(&a.password, &b.password)
        && same_text_or_none(&a.valid_until, &b.valid_until)
}

// Whether two memberships allow the same.
fn same_member(a: &Membership, b: &Membership) -> bool
    ensures { IsTrue result ↔ (a.now ≡ b.now) }
{
    a.admin == b.admin && a.inherit == b.inherit && a.set == b.set
}

fn same_name(a: &Name, b: &Name) -> bool
    ensures { IsTrue result ↔ (a.now ≡ b.now) }
{
    a == b
}

fn same_text(a: &Text, b: &Text) -> bool
    ensures { IsTrue result ↔ (a.now ≡ b.now) }
{
    a == b
}

fn same_path(a: &QName, b: &QName) -> bool
    ensures { IsTrue result ↔ (a.now ≡ b.now) }
{
    a == b
}

fn same_type_name(a: &TypeName, b: &TypeName) -> bool
    ensures { IsTrue result ↔ (a.now ≡ b.now) }
{
    a == b
}

fn same_names(a: &Items<Name>, b: &Items<Name>) -> bool
    ensures { IsTrue result ↔ (a.now ≡ b.now) }
{
    a == b
}

fn same_labels(a: &Items<Text>, b: &Items<Text>) -> bool
    ensures { IsTrue result ↔ (a.now ≡ b.now) }
{
    a == b
}

fn same_sequence_kind(a: SequenceKind, b: SequenceKind) -> bool
    ensures { IsTrue result ↔ (a ≡ b) }
{
    a == b
}

fn same_constraint_kind(a: ConstraintKind, b: ConstraintKind) -> bool
    ensures { IsTrue result ↔ (a ≡ b) }
{
    a == b
}

fn same_encoding(a: Encoding, b: Encoding) -> bool
    ensures { IsTrue result ↔ (a ≡ b) }
{
    a == b
}

fn same_number(a: i64, b: i64) -> bool
    ensures { IsTrue result ↔ (a ≡ b) }
{
    a == b
}

fn same_labels_or_none(a: &Option<Items<Text>>, b: &Option<Items<Text>>) -> bool
    ensures { IsTrue result ↔ (a.now ≡ b.now) }
{
    match (a, b) {
        (Some(a), Some(b)) => same_labels(a, b),
        (None, None) => true,
        _ => false,
    }
}

// Whether two types are the same at the ends of their chains.
fn same_resolved(a: &Resolved, b: &Resolved) -> bool
    ensures { IsTrue result ↔ (a.now ≡ b.now) }
{
    same_type_name(&a.type_name, &b.type_name)
        && a.not_null == b.not_null
        && same_labels_or_none(&a.labels, &b.labels)
}

fn same_domain(a: &Domain, b: &Domain) -> bool
    ensures { IsTrue result ↔ (a.now ≡ b.now) }
{
    same_type_name(&a.base, &b.base)
        && same_resolved(&a.resolved, &b.resolved)
        && a.not_null == b.not_null
        && same_text_or_none(&a.default, &b.default)
        && same_checks(&a.checks, &b.checks)
}

fn same_column(a: &Column, b: &Column) -> bool
    ensures { IsTrue result ↔ (a.now ≡ b.now) }
{
    same_name(&a.name, &b.name)
        && same_type_name(&a.type_name, &b.type_name)
        && same_resolved(&a.resolved, &b.resolved)
        && a.not_null == b.not_null
}

// Whether two tables have the same columns in the same order.
fn same_columns(a: &[Column], b: &[Column]) -> bool
    ensures { IsTrue result ↔ (a.now ≡ b.now) }
{
    if a.len() != b.len() {
        return false;
    }
    for (i, column) in a.iter().enumerate() {
        if !same_column(column, &b[i]) {
            return false;
        }
    }
    true
}

// Whether two sequences start and step alike.
fn same_steps(a: &Sequence, b: &Sequence) -> bool
    ensures { IsTrue result ↔ ((a.now.start ≡ b.now.start) × (a.now.step ≡ b.now.step)) }
{
    same_number(a.start, b.start) && same_number(a.step, b.step)
}

// Whether two sequences have the same bounds.
fn same_bounds(a: &Sequence, b: &Sequence) -> bool
    ensures { IsTrue result ↔ ((a.now.min ≡ b.now.min) × (a.now.max ≡ b.now.max)) }
{
    same_number(a.min, b.min) && same_number(a.max, b.max)
}

fn same_sequence(a: &Sequence, b: &Sequence) -> bool
    ensures { IsTrue result ↔ (a.now ≡ b.now) }
{
    same_sequence_kind(a.kind, b.kind)
        && same_steps(a, b)
        && same_bounds(a, b)
        && same_number(a.cache, b.cache)
        && a.cycle == b.cycle
}

// Whether two foreign keys refer to the same columns, or both constraints to none.
fn same_parent(a: &Option<(QName, Items<Name>)>, b: &Option<(QName, Items<Name>)>) -> bool
    ensures { IsTrue result ↔ (a.now ≡ b.now) }
{
    match (a, b) {
        (Some((a_table, a)), Some((b_table, b))) => same_path(a_table, b_table) && same_names(a, b),
        (None, None) => true,
        _ => false,
    }
}

fn same_constraint(a: &Constraint, b: &Constraint) -> bool
    ensures { IsTrue result ↔ (a.now ≡ b.now) }
{
    same_constraint_kind(a.kind, b.kind)
        && same_names(&a.columns, &b.columns)
        && same_parent(&a.parent, &b.parent)
        && same_text(&a.text, &b.text)
}

fn same_index(a: &Index, b: &Index) -> bool
    ensures { IsTrue result ↔ (a.now ≡ b.now) }
{
    same_name(&a.method, &b.method) && a.unique == b.unique && same_text(&a.text, &b.text)
}

fn same_rows(a: &TableRows, b: &TableRows) -> bool
    ensures { IsTrue result ↔ (a.now ≡ b.now) }
{
    a.is_same(b)
}

fn same_sequence_value(a: i64, a_is_called: bool, b: i64, b_is_called: bool) -> bool
    ensures { IsTrue result ↔ (sequence_value a a_is_called ≡ sequence_value b b_is_called) }
{
    same_number(a, b) && a_is_called == b_is_called
}

fn same_owner_column(a_table: &QName, a: &Name, b_table: &QName, b: &Name) -> bool
    ensures { IsTrue result ↔ (owned_by a_table.now a.now ≡ owned_by b_table.now b.now) }
{
    same_path(a_table, b_table) && same_name(a, b)
}

/// Whether two values are the same.
pub fn same_value(a: &Value, b: &Value) -> bool
    ensures { IsTrue result ↔ (a.now ≡ b.now) }
{
    match (a, b) {
        (Value::Role(a), Value::Role(b)) => same_role(a, b),
        (Value::Member(a), Value::Member(b)) => same_member(a, b),
        (Value::Schema, Value::Schema) => true,
        (Value::Enum(a), Value::Enum(b)) => same_labels(a, b),
        (Value::Domain(a), Value::Domain(b)) => same_domain(a, b),
        (Value::Table(a), Value::Table(b)) => same_columns(a.as_slice(), b.as_slice()),
        (Value::Sequence(a), Value::Sequence(b)) => same_sequence(a, b),
        (Value::View, Value::View) => true,
        (Value::IndexOf(a), Value::IndexOf(b)) => same_path(a, b),
        (Value::Owner(a), Value::Owner(b)) => same_name(a, b),
        (Value::DefaultText(a), Value::DefaultText(b)) => same_text(a, b),
        (Value::Constraint(a), Value::Constraint(b)) => same_constraint(a, b),
        (Value::Index(a), Value::Index(b)) => same_index(a, b),
        (Value::Rows(a), Value::Rows(b)) => same_rows(a, b),
        (Value::SequenceValue(a, a_is_called), Value::SequenceValue(b, b_is_called)) => {
            same_sequence_value(*a, *a_is_called, *b, *b_is_called)
        }
        (Value::OwnedBy(a_table, a), Value::OwnedBy(b_table, b)) => {
            same_owner_column(a_table, a, b_table, b)
        }
        (Value::Grants(a), Value::Grants(b)) => same_grants(a, b),
        (Value::Comment(a), Value::Comment(b)) => same_text(a, b),
        (Value::Body(a), Value::Body(b)) => same_text(a, b),
        (Value::Database(a), Value::Database(b)) => same_encoding(*a, *b),
        _ => false,
    }
}
