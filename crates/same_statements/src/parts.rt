//! Whether parts of two statements are the same.
ghost use Rattle.std.specs.Prelude.{◌≡◌, ◌↔◌, IsTrue};
ghost use Rattle.cat_model.specs.declared.grant.Commented.TheVariants as commented;

use crate::fields::{
    same_choice, same_name, same_number_or_none, same_path, same_text, same_text_or_none,
    same_type_name,
};
use cat_model::{CheckDef, ColumnDef, Commented, Granted, Owned, QName, RoleChanges};
use copy_text::Name;

fn same_check(a: &CheckDef, b: &CheckDef) -> bool
    ensures { IsTrue result ↔ (a.now ≡ b.now) }
{
    same_name(&a.name, &b.name) && same_text(&a.text, &b.text)
}

/// Whether two lists have the same checks.
pub(crate) fn same_checks(a: &[CheckDef], b: &[CheckDef]) -> bool
    ensures { IsTrue result ↔ (a.now ≡ b.now) }
{
    if a.len() != b.len() {
        return false;
    }
    for (i, check) in a.iter().enumerate() {
        if !same_check(check, &b[i]) {
            return false;
        }
    }
    true
}

fn same_column(a: &ColumnDef, b: &ColumnDef) -> bool
    ensures { IsTrue result ↔ (a.now ≡ b.now) }
{
    same_name(&a.name, &b.name)
        && same_type_name(&a.type_name, &b.type_name)
        && same_text_or_none(&a.default, &b.default)
        && a.not_null == b.not_null
}

/// Whether two lists have the same columns.
pub(crate) fn same_columns(a: &[ColumnDef], b: &[ColumnDef]) -> bool
    ensures { IsTrue result ↔ (a.now ≡ b.now) }
{
    if a.len() != b.len() {
        return false;
    }
    for (i, column) in a.iter().enumerate() {
        if !same_column(column, &b[i]) {
            return false;
        }
    }
    true
}

/// Whether rights are granted on the same.
pub(crate) fn same_granted(a: &Granted, b: &Granted) -> bool
    ensures { IsTrue result ↔ (a.now ≡ b.now) }
{
    match (a, b) {
        (Granted::Table(a), Granted::Table(b)) => same_path(a, b),
        (Granted::Sequence(a), Granted::Sequence(b)) => same_path(a, b),
        (Granted::Schema(a), Granted::Schema(b)) => same_name(a, b),
        (Granted::Type(a), Granted::Type(b)) => same_path(a, b),
        _ => false,
    }
}

/// Whether the same gets an owner.
pub(crate) fn same_owned(a: &Owned, b: &Owned) -> bool
    ensures { IsTrue result ↔ (a.now ≡ b.now) }
{
    match (a, b) {
        (Owned::Schema(a), Owned::Schema(b)) => same_name(a, b),
        (Owned::Type(a), Owned::Type(b)) => same_path(a, b),
        (Owned::Domain(a), Owned::Domain(b)) => same_path(a, b),
        (Owned::Table(a), Owned::Table(b)) => same_path(a, b),
        (Owned::Sequence(a), Owned::Sequence(b)) => same_path(a, b),
        (Owned::View(a), Owned::View(b)) => same_path(a, b),
        (Owned::Database(a), Owned::Database(b)) => same_name(a, b),
        _ => false,
    }
}

fn same_named(a_table: &QName, a: &Name, b_table: &QName, b: &Name) -> bool
    ensures { IsTrue result ↔ ((a_table.now ≡ b_table.now) × (a.now ≡ b.now)) }
{
    same_path(a_table, b_table) && same_name(a, b)
}

/// Whether the same gets a comment.
pub(crate) fn same_commented(a: &Commented, b: &Commented) -> bool
    ensures { IsTrue result ↔ (a.now ≡ b.now) }
{
    match (a, b) {
        (Commented::Schema(a), Commented::Schema(b)) => same_name(a, b),
        (Commented::Type(a), Commented::Type(b)) => same_path(a, b),
        (Commented::Domain(a), Commented::Domain(b)) => same_path(a, b),
        (Commented::Table(a), Commented::Table(b)) => same_path(a, b),
        (Commented::View(a), Commented::View(b)) => same_path(a, b),
        (Commented::Sequence(a), Commented::Sequence(b)) => same_path(a, b),
        (Commented::Index(a), Commented::Index(b)) => same_path(a, b),
        (Commented::Column(a_table, a), Commented::Column(b_table, b)) => {
            same_named(a_table, a, b_table, b)
        }
        (Commented::Constraint(a_table, a), Commented::Constraint(b_table, b)) => {
            same_named(a_table, a, b_table, b)
        }
        _ => false,
    }
}

// Whether two statements change the same rights of a role to the same.
fn same_attributes(a: &RoleChanges, b: &RoleChanges) -> bool
    ensures { IsTrue result ↔ ((a.now.superuser ≡ b.now.superuser) × (a.now.inherit ≡ b.now.inherit) × (a.now.create_role ≡ b.now.create_role) × (a.now.create_db ≡ b.now.create_db)) }
{
    same_choice(a.superuser, b.superuser)
        && same_choice(a.inherit, b.inherit)
        && same_choice(a.create_role, b.create_role)
        && same_choice(a.create_db, b.create_db)
}

// Whether two statements change the same of how a role connects to the same.
fn same_access(a: &RoleChanges, b: &RoleChanges) -> bool
    ensures { IsTrue result ↔ ((a.now.login ≡ b.now.login) × (a.now.replication ≡ b.now.replication) × (a.now.bypass_rls ≡ b.now.bypass_rls) × (a.now.limit ≡ b.now.limit)) }
{
    same_choice(a.login, b.login)
        && same_choice(a.replication, b.replication)
        && same_choice(a.bypass_rls, b.bypass_rls)
        && same_number_or_none(a.limit, b.limit)
}

/// Whether two statements change the same attributes of a role to the same.
pub(crate) fn same_changes(a: &RoleChanges, b: &RoleChanges) -> bool
    ensures { IsTrue result ↔ (a.now ≡ b.now) }
{
    same_attributes(a, b)
        && same_access(a, b)
        && same_text_or_none(&a.password, &b.password)
        && same_text_or_none(&a.valid_until, &b.valid_until)
}
