//! Whether two statements read and write the same.
ghost use Rattle.std.specs.Prelude.{◌≡◌, ◌↔◌, IsTrue};
ghost use Rattle.cat_model.specs.declared.class.Mark.TheVariants as mark;
ghost use Rattle.cat_model.specs.declared.class.Class.TheVariants as class;

use crate::fields::{same_name, same_names, same_path};
use cat_model::{Class, ConstraintKind, Footprint, Items, Key, Mark, QName};
use copy_text::Name;

fn same_key(a: &Key, b: &Key) -> bool
    ensures { IsTrue result ↔ (a.now ≡ b.now) }
{
    a == b
}

fn same_kind(a: ConstraintKind, b: ConstraintKind) -> bool
    ensures { IsTrue result ↔ (a ≡ b) }
{
    a == b
}

fn same_names_or_none(a: &Option<Items<Name>>, b: &Option<Items<Name>>) -> bool
    ensures { IsTrue result ↔ (a.now ≡ b.now) }
{
    match (a, b) {
        (None, None) => true,
        (Some(a), Some(b)) => same_names(a, b),
        _ => false,
    }
}

fn same_keys_on(a_table: &QName, a: &Items<Name>, b_table: &QName, b: &Items<Name>) -> bool
    ensures { IsTrue result ↔ (class.KeysOn a_table.now a.now ≡ class.KeysOn b_table.now b.now) }
{
    same_path(a_table, b_table) && same_names(a, b)
}

fn same_members(a_role: &Name, a: &Name, b_role: &Name, b: &Name) -> bool
    ensures { IsTrue result ↔ (class.Members a_role.now a.now ≡ class.Members b_role.now b.now) }
{
    same_name(a_role, b_role) && same_name(a, b)
}

fn same_class(a: &Class, b: &Class) -> bool
    ensures { IsTrue result ↔ (a.now ≡ b.now) }
{
    match (a, b) {
        (Class::Constraints(a), Class::Constraints(b)) => same_path(a, b),
        (Class::Indexes(a), Class::Indexes(b)) => same_path(a, b),
        (Class::PrimaryKeys(a), Class::PrimaryKeys(b)) => same_path(a, b),
        (Class::KeysOn(a_table, a), Class::KeysOn(b_table, b)) => {
            same_keys_on(a_table, a, b_table, b)
        }
        (Class::Members(a_role, a), Class::Members(b_role, b)) => {
            same_members(a_role, a, b_role, b)
        }
        _ => false,
    }
}

fn same_new_constraint(
    a_table: &QName,
    a_name: &Name,
    a_kind: ConstraintKind,
    a_columns: &Items<Name>,
    b_table: &QName,
    b_name: &Name,
    b_kind: ConstraintKind,
    b_columns: &Items<Name>,
) -> bool
    ensures { IsTrue result ↔ (mark.NewConstraint a_table.now a_name.now a_kind a_columns.now ≡ mark.NewConstraint b_table.now b_name.now b_kind b_columns.now) }
{
    same_path(a_table, b_table)
        && same_name(a_name, b_name)
        && same_kind(a_kind, b_kind)
        && same_names(a_columns, b_columns)
}

fn same_new_index(
    a_table: &QName,
    a_name: &Name,
    a_on: &Option<Items<Name>>,
    b_table: &QName,
    b_name: &Name,
    b_on: &Option<Items<Name>>,
) -> bool
    ensures { IsTrue result ↔ (mark.NewIndex a_table.now a_name.now a_on.now ≡ mark.NewIndex b_table.now b_name.now b_on.now) }
{
    same_path(a_table, b_table) && same_name(a_name, b_name) && same_names_or_none(a_on, b_on)
}

fn same_mark(a: &Mark, b: &Mark) -> bool
    ensures { IsTrue result ↔ (a.now ≡ b.now) }
{
    match (a, b) {
        (Mark::Key(a), Mark::Key(b)) => same_key(a, b),
        (
            Mark::NewConstraint {
                table: a_table,
                name: a_name,
                kind: a_kind,
                columns: a_columns,
            },
            Mark::NewConstraint {
                table: b_table,
                name: b_name,
                kind: b_kind,
                columns: b_columns,
            },
        ) => same_new_constraint(
            a_table, a_name, *a_kind, a_columns, b_table, b_name, *b_kind, b_columns,
        ),
        (
            Mark::NewIndex {
                table: a_table,
                name: a_name,
                unique_on: a_on,
            },
            Mark::NewIndex {
                table: b_table,
                name: b_name,
                unique_on: b_on,
            },
        ) => same_new_index(a_table, a_name, a_on, b_table, b_name, b_on),
        (Mark::Class(a), Mark::Class(b)) => same_class(a, b),
        _ => false,
    }
}

// Whether two lists have the same marks.
fn same_marks(a: &[Mark], b: &[Mark]) -> bool
    ensures { IsTrue result ↔ (a.now ≡ b.now) }
{
    if a.len() != b.len() {
        return false;
    }
    for (i, mark) in a.iter().enumerate() {
        if !same_mark(mark, &b[i]) {
            return false;
        }
    }
    true
}

/// Whether two footprints are the same. It takes no memory.
pub fn same_footprint(a: &Footprint, b: &Footprint) -> bool
    ensures { IsTrue result ↔ (a.now ≡ b.now) }
{
    same_marks(a.reads.as_slice(), b.reads.as_slice())
        && same_marks(a.writes.as_slice(), b.writes.as_slice())
}
