//! Whether two statements are the same.
ghost use Rattle.std.specs.Prelude.{◌≡◌, ◌↔◌, IsTrue};
ghost use Rattle.cat_model.specs.declared.stmt.Stmt.TheVariants as stmt;

use crate::fields::{
    same_bytes, same_choice, same_encoding_or_none, same_grantee, same_name, same_name_or_none,
    same_names, same_number, same_number_at, same_path, same_rights, same_sequence_kind, same_text,
    same_text_or_none, same_texts, same_type_name,
};
use crate::parts::{
    same_changes, same_checks, same_columns, same_commented, same_granted, same_owned,
};
use cat_model::{
    CheckDef, ColumnDef, Commented, Encoding, Granted, Grantee, Items, Owned, QName, Rights,
    RoleChanges, SequenceKind, Stmt, TypeName,
};
use copy_text::{Name, Text};

fn same_set(a_name: &Name, a_value: &Text, b_name: &Name, b_value: &Text) -> bool
    ensures { IsTrue result ↔ (stmt.Set a_name.now a_value.now ≡ stmt.Set b_name.now b_value.now) }
{
    same_name(a_name, b_name) && same_text(a_value, b_value)
}

fn same_set_config(a_name: &Text, a_value: &Text, b_name: &Text, b_value: &Text) -> bool
    ensures { IsTrue result ↔ (stmt.SetConfig a_name.now a_value.now ≡ stmt.SetConfig b_name.now b_value.now) }
{
    same_text(a_name, b_name) && same_text(a_value, b_value)
}

fn same_create_enum(
    a_q: &QName,
    a_labels: &Items<Text>,
    b_q: &QName,
    b_labels: &Items<Text>,
) -> bool
    ensures { IsTrue result ↔ (stmt.CreateEnum a_q.now a_labels.now ≡ stmt.CreateEnum b_q.now b_labels.now) }
{
    same_path(a_q, b_q) && same_texts(a_labels, b_labels)
}

fn same_create_domain(
    a_q: &QName,
    a_base: &TypeName,
    a_not_null: bool,
    a_default: &Option<Text>,
    a_checks: &Items<CheckDef>,
    b_q: &QName,
    b_base: &TypeName,
    b_not_null: bool,
    b_default: &Option<Text>,
    b_checks: &Items<CheckDef>,
) -> bool
    ensures { IsTrue result ↔ (stmt.CreateDomain a_q.now a_base.now a_not_null a_default.now a_checks.now ≡ stmt.CreateDomain b_q.now b_base.now b_not_null b_default.now b_checks.now) }
{
    same_path(a_q, b_q)
        && same_type_name(a_base, b_base)
        && a_not_null == b_not_null
        && same_text_or_none(a_default, b_default)
        && same_checks(a_checks.as_slice(), b_checks.as_slice())
}

fn same_add_domain_check(
    a_q: &QName,
    a_name: &Name,
    a_text: &Text,
    b_q: &QName,
    b_name: &Name,
    b_text: &Text,
) -> bool
    ensures { IsTrue result ↔ (stmt.AddDomainCheck a_q.now a_name.now a_text.now ≡ stmt.AddDomainCheck b_q.now b_name.now b_text.now) }
{
    same_path(a_q, b_q) && same_name(a_name, b_name) && same_text(a_text, b_text)
}

fn same_create_table(
    a_q: &QName,
    a_columns: &Items<ColumnDef>,
    a_checks: &Items<CheckDef>,
    b_q: &QName,
    b_columns: &Items<ColumnDef>,
    b_checks: &Items<CheckDef>,
) -> bool
    ensures { IsTrue result ↔ (stmt.CreateTable a_q.now a_columns.now a_checks.now ≡ stmt.CreateTable b_q.now b_columns.now b_checks.now) }
{
    same_path(a_q, b_q)
        && same_columns(a_columns.as_slice(), b_columns.as_slice())
        && same_checks(a_checks.as_slice(), b_checks.as_slice())
}

fn same_owned_by(
    a_q: &QName,
    a_table: &QName,
    a_column: &Name,
    b_q: &QName,
    b_table: &QName,
    b_column: &Name,
) -> bool
    ensures { IsTrue result ↔ (stmt.OwnedBy a_q.now a_table.now a_column.now ≡ stmt.OwnedBy b_q.now b_table.now b_column.now) }
{
    same_path(a_q, b_q) && same_path(a_table, b_table) && same_name(a_column, b_column)
}

fn same_set_val(
    a_q: &QName,
    a_value: i64,
    a_called: bool,
    b_q: &QName,
    b_value: i64,
    b_called: bool,
) -> bool
    ensures { IsTrue result ↔ (stmt.SetVal a_q.now a_value a_called ≡ stmt.SetVal b_q.now b_value b_called) }
{
    same_path(a_q, b_q) && same_number(a_value, b_value) && a_called == b_called
}

fn same_create_view(a_q: &QName, a_body: &Text, b_q: &QName, b_body: &Text) -> bool
    ensures { IsTrue result ↔ (stmt.CreateView a_q.now a_body.now ≡ stmt.CreateView b_q.now b_body.now) }
{
    same_path(a_q, b_q) && same_text(a_body, b_body)
}

fn same_replace_view(a_q: &QName, a_body: &Text, b_q: &QName, b_body: &Text) -> bool
    ensures { IsTrue result ↔ (stmt.ReplaceView a_q.now a_body.now ≡ stmt.ReplaceView b_q.now b_body.now) }
{
    same_path(a_q, b_q) && same_text(a_body, b_body)
}

fn same_set_default(
    a_q: &QName,
    a_column: &Name,
    a_text: &Text,
    b_q: &QName,
    b_column: &Name,
    b_text: &Text,
) -> bool
    ensures { IsTrue result ↔ (stmt.SetDefault a_q.now a_column.now a_text.now ≡ stmt.SetDefault b_q.now b_column.now b_text.now) }
{
    same_path(a_q, b_q) && same_name(a_column, b_column) && same_text(a_text, b_text)
}

fn same_add_primary(
    a_q: &QName,
    a_name: &Name,
    a_columns: &Items<Name>,
    a_rest: &Text,
    b_q: &QName,
    b_name: &Name,
    b_columns: &Items<Name>,
    b_rest: &Text,
) -> bool
    ensures { IsTrue result ↔ (stmt.AddPrimary a_q.now a_name.now a_columns.now a_rest.now ≡ stmt.AddPrimary b_q.now b_name.now b_columns.now b_rest.now) }
{
    same_path(a_q, b_q)
        && same_name(a_name, b_name)
        && same_names(a_columns, b_columns)
        && same_text(a_rest, b_rest)
}

fn same_add_unique(
    a_q: &QName,
    a_name: &Name,
    a_columns: &Items<Name>,
    a_rest: &Text,
    b_q: &QName,
    b_name: &Name,
    b_columns: &Items<Name>,
    b_rest: &Text,
) -> bool
    ensures { IsTrue result ↔ (stmt.AddUnique a_q.now a_name.now a_columns.now a_rest.now ≡ stmt.AddUnique b_q.now b_name.now b_columns.now b_rest.now) }
{
    same_path(a_q, b_q)
        && same_name(a_name, b_name)
        && same_names(a_columns, b_columns)
        && same_text(a_rest, b_rest)
}

fn same_add_foreign(
    a_q: &QName,
    a_name: &Name,
    a_columns: &Items<Name>,
    a_parent: &QName,
    a_parent_columns: &Items<Name>,
    a_rest: &Text,
    b_q: &QName,
    b_name: &Name,
    b_columns: &Items<Name>,
    b_parent: &QName,
    b_parent_columns: &Items<Name>,
    b_rest: &Text,
) -> bool
    ensures { IsTrue result ↔ (stmt.AddForeign a_q.now a_name.now a_columns.now a_parent.now a_parent_columns.now a_rest.now ≡ stmt.AddForeign b_q.now b_name.now b_columns.now b_parent.now b_parent_columns.now b_rest.now) }
{
    same_path(a_q, b_q)
        && same_name(a_name, b_name)
        && same_names(a_columns, b_columns)
        && same_path(a_parent, b_parent)
        && same_names(a_parent_columns, b_parent_columns)
        && same_text(a_rest, b_rest)
}

fn same_add_check(
    a_q: &QName,
    a_name: &Name,
    a_text: &Text,
    b_q: &QName,
    b_name: &Name,
    b_text: &Text,
) -> bool
    ensures { IsTrue result ↔ (stmt.AddCheck a_q.now a_name.now a_text.now ≡ stmt.AddCheck b_q.now b_name.now b_text.now) }
{
    same_path(a_q, b_q) && same_name(a_name, b_name) && same_text(a_text, b_text)
}

fn same_create_index(
    a_q: &QName,
    a_name: &Name,
    a_method: &Name,
    a_rest: &Text,
    b_q: &QName,
    b_name: &Name,
    b_method: &Name,
    b_rest: &Text,
) -> bool
    ensures { IsTrue result ↔ (stmt.CreateIndex a_q.now a_name.now a_method.now a_rest.now ≡ stmt.CreateIndex b_q.now b_name.now b_method.now b_rest.now) }
{
    same_path(a_q, b_q)
        && same_name(a_name, b_name)
        && same_name(a_method, b_method)
        && same_text(a_rest, b_rest)
}

fn same_create_unique_index(
    a_q: &QName,
    a_name: &Name,
    a_method: &Name,
    a_rest: &Text,
    b_q: &QName,
    b_name: &Name,
    b_method: &Name,
    b_rest: &Text,
) -> bool
    ensures { IsTrue result ↔ (stmt.CreateUniqueIndex a_q.now a_name.now a_method.now a_rest.now ≡ stmt.CreateUniqueIndex b_q.now b_name.now b_method.now b_rest.now) }
{
    same_path(a_q, b_q)
        && same_name(a_name, b_name)
        && same_name(a_method, b_method)
        && same_text(a_rest, b_rest)
}

fn same_copy_rows(
    a_q: &QName,
    a_columns: &Items<Name>,
    a_rows: &Items<u8>,
    b_q: &QName,
    b_columns: &Items<Name>,
    b_rows: &Items<u8>,
) -> bool
    ensures { IsTrue result ↔ (stmt.CopyRows a_q.now a_columns.now a_rows.now ≡ stmt.CopyRows b_q.now b_columns.now b_rows.now) }
{
    same_path(a_q, b_q)
        && same_names(a_columns, b_columns)
        && same_bytes(a_rows.as_slice(), b_rows.as_slice())
}

fn same_grant(
    a_object: &Granted,
    a_rights: Rights,
    a_grantee: &Grantee,
    a_option: bool,
    b_object: &Granted,
    b_rights: Rights,
    b_grantee: &Grantee,
    b_option: bool,
) -> bool
    ensures { IsTrue result ↔ (stmt.Grant a_object.now a_rights a_grantee.now a_option ≡ stmt.Grant b_object.now b_rights b_grantee.now b_option) }
{
    same_granted(a_object, b_object)
        && same_rights(a_rights, b_rights)
        && same_grantee(a_grantee, b_grantee)
        && a_option == b_option
}

fn same_revoke(
    a_object: &Granted,
    a_rights: Rights,
    a_grantee: &Grantee,
    b_object: &Granted,
    b_rights: Rights,
    b_grantee: &Grantee,
) -> bool
    ensures { IsTrue result ↔ (stmt.Revoke a_object.now a_rights a_grantee.now ≡ stmt.Revoke b_object.now b_rights b_grantee.now) }
{
    same_granted(a_object, b_object)
        && same_rights(a_rights, b_rights)
        && same_grantee(a_grantee, b_grantee)
}

fn same_comment(
    a_object: &Commented,
    a_text: &Option<Text>,
    b_object: &Commented,
    b_text: &Option<Text>,
) -> bool
    ensures { IsTrue result ↔ (stmt.Comment a_object.now a_text.now ≡ stmt.Comment b_object.now b_text.now) }
{
    same_commented(a_object, b_object) && same_text_or_none(a_text, b_text)
}

fn same_owner_to(a_object: &Owned, a_role: &Name, b_object: &Owned, b_role: &Name) -> bool
    ensures { IsTrue result ↔ (stmt.OwnerTo a_object.now a_role.now ≡ stmt.OwnerTo b_object.now b_role.now) }
{
    same_owned(a_object, b_object) && same_name(a_role, b_role)
}

fn same_alter_role(
    a_name: &Name,
    a_changes: &RoleChanges,
    b_name: &Name,
    b_changes: &RoleChanges,
) -> bool
    ensures { IsTrue result ↔ (stmt.AlterRole a_name.now a_changes.now ≡ stmt.AlterRole b_name.now b_changes.now) }
{
    same_name(a_name, b_name) && same_changes(a_changes, b_changes)
}

fn same_grant_role(
    a_role: &Name,
    a_member: &Name,
    a_grantor: &Option<Name>,
    a_admin: bool,
    a_inherit: Option<bool>,
    a_set: bool,
    b_role: &Name,
    b_member: &Name,
    b_grantor: &Option<Name>,
    b_admin: bool,
    b_inherit: Option<bool>,
    b_set: bool,
) -> bool
    ensures { IsTrue result ↔ (stmt.GrantRole a_role.now a_member.now a_grantor.now a_admin a_inherit a_set ≡ stmt.GrantRole b_role.now b_member.now b_grantor.now b_admin b_inherit b_set) }
{
    same_name(a_role, b_role)
        && same_name(a_member, b_member)
        && same_name_or_none(a_grantor, b_grantor)
        && a_admin == b_admin
        && same_choice(a_inherit, b_inherit)
        && a_set == b_set
}

fn same_create_database(
    a_name: &Name,
    a_encoding: Option<Encoding>,
    b_name: &Name,
    b_encoding: Option<Encoding>,
) -> bool
    ensures { IsTrue result ↔ (stmt.CreateDatabase a_name.now a_encoding ≡ stmt.CreateDatabase b_name.now b_encoding) }
{
    same_name(a_name, b_name) && same_encoding_or_none(a_encoding, b_encoding)
}

fn same_steps(a_start: &i64, a_step: &i64, b_start: &i64, b_step: &i64) -> bool
    ensures { IsTrue result ↔ ((a_start.now ≡ b_start.now) × (a_step.now ≡ b_step.now)) }
{
    same_number_at(a_start, b_start) && same_number_at(a_step, b_step)
}

fn same_bounds(a_min: &i64, a_max: &i64, b_min: &i64, b_max: &i64) -> bool
    ensures { IsTrue result ↔ ((a_min.now ≡ b_min.now) × (a_max.now ≡ b_max.now)) }
{
    same_number_at(a_min, b_min) && same_number_at(a_max, b_max)
}

fn same_create_sequence(
    a_q: &QName,
    a_kind: SequenceKind,
    a_start: &i64,
    a_step: &i64,
    a_min: &i64,
    a_max: &i64,
    a_cache: &i64,
    a_cycle: bool,
    b_q: &QName,
    b_kind: SequenceKind,
    b_start: &i64,
    b_step: &i64,
    b_min: &i64,
    b_max: &i64,
    b_cache: &i64,
    b_cycle: bool,
) -> bool
    ensures { IsTrue result ↔ (stmt.CreateSequence a_q.now a_kind a_start.now a_step.now a_min.now a_max.now a_cache.now a_cycle ≡ stmt.CreateSequence b_q.now b_kind b_start.now b_step.now b_min.now b_max.now b_cache.now b_cycle) }
{
    same_path(a_q, b_q)
        && same_sequence_kind(a_kind, b_kind)
        && same_steps(a_start, a_step, b_start, b_step)
        && same_bounds(a_min, a_max, b_min, b_max)
        && same_number_at(a_cache, b_cache)
        && a_cycle == b_cycle
}

/// Whether two statements are the same. It takes no memory.
pub fn same_statement(a: &Stmt, b: &Stmt) -> bool
    ensures { IsTrue result ↔ (a.now ≡ b.now) }
{
    match (a, b) {
        (
            Stmt::Set {
                name: a_name,
                value: a_value,
            },
            Stmt::Set {
                name: b_name,
                value: b_value,
            },
        ) => same_set(a_name, a_value, b_name, b_value),
        (
            Stmt::SetConfig {
                name: a_name,
                value: a_value,
            },
            Stmt::SetConfig {
                name: b_name,
                value: b_value,
            },
        ) => same_set_config(a_name, a_value, b_name, b_value),
        (Stmt::CreateSchema { name: a_name }, Stmt::CreateSchema { name: b_name }) => same_name(
            a_name, b_name,
        ),
        (
            Stmt::CreateEnum {
                q: a_q,
                labels: a_labels,
            },
            Stmt::CreateEnum {
                q: b_q,
                labels: b_labels,
            },
        ) => same_create_enum(a_q, a_labels, b_q, b_labels),
        (
            Stmt::CreateDomain {
                q: a_q,
                base: a_base,
                not_null: a_not_null,
                default: a_default,
                checks: a_checks,
            },
            Stmt::CreateDomain {
                q: b_q,
                base: b_base,
                not_null: b_not_null,
                default: b_default,
                checks: b_checks,
            },
        ) => same_create_domain(
            a_q,
            a_base,
            *a_not_null,
            a_default,
            a_checks,
            b_q,
            b_base,
            *b_not_null,
            b_default,
            b_checks,
        ),
        (
            Stmt::AddDomainCheck {
                q: a_q,
                name: a_name,
                text: a_text,
            },
            Stmt::AddDomainCheck {
                q: b_q,
                name: b_name,
                text: b_text,
            },
        ) => same_add_domain_check(a_q, a_name, a_text, b_q, b_name, b_text),
        (
            Stmt::CreateTable {
                q: a_q,
                columns: a_columns,
                checks: a_checks,
            },
            Stmt::CreateTable {
                q: b_q,
                columns: b_columns,
                checks: b_checks,
            },
        ) => same_create_table(a_q, a_columns, a_checks, b_q, b_columns, b_checks),
        (
            Stmt::CreateSequence {
                q: a_q,
                kind: a_kind,
                start: a_start,
                step: a_step,
                min: a_min,
                max: a_max,
                cache: a_cache,
                cycle: a_cycle,
            },
            Stmt::CreateSequence {
                q: b_q,
                kind: b_kind,
                start: b_start,
                step: b_step,
                min: b_min,
                max: b_max,
                cache: b_cache,
                cycle: b_cycle,
            },
        ) => same_create_sequence(
            a_q, *a_kind, a_start, a_step, a_min, a_max, a_cache, *a_cycle, b_q, *b_kind, b_start,
            b_step, b_min, b_max, b_cache, *b_cycle,
        ),
        (
            Stmt::OwnedBy {
                q: a_q,
                table: a_table,
                column: a_column,
            },
            Stmt::OwnedBy {
                q: b_q,
                table: b_table,
                column: b_column,
            },
        ) => same_owned_by(a_q, a_table, a_column, b_q, b_table, b_column),
        (
            Stmt::SetVal {
                q: a_q,
                value: a_value,
                called: a_called,
            },
            Stmt::SetVal {
                q: b_q,
                value: b_value,
                called: b_called,
            },
        ) => same_set_val(a_q, *a_value, *a_called, b_q, *b_value, *b_called),
        (
            Stmt::CreateView {
                q: a_q,
                body: a_body,
            },
            Stmt::CreateView {
                q: b_q,
                body: b_body,
            },
        ) => same_create_view(a_q, a_body, b_q, b_body),
        (
            Stmt::ReplaceView {
                q: a_q,
                body: a_body,
            },
            Stmt::ReplaceView {
                q: b_q,
                body: b_body,
            },
        ) => same_replace_view(a_q, a_body, b_q, b_body),
        (
            Stmt::SetDefault {
                q: a_q,
                column: a_column,
                text: a_text,
            },
            Stmt::SetDefault {
                q: b_q,
                column: b_column,
                text: b_text,
            },
        ) => same_set_default(a_q, a_column, a_text, b_q, b_column, b_text),
        (
            Stmt::AddPrimary {
                q: a_q,
                name: a_name,
                columns: a_columns,
                rest: a_rest,
            },
            Stmt::AddPrimary {
                q: b_q,
                name: b_name,
                columns: b_columns,
                rest: b_rest,
            },
        ) => same_add_primary(
            a_q, a_name, a_columns, a_rest, b_q, b_name, b_columns, b_rest,
        ),
        (
            Stmt::AddUnique {
                q: a_q,
                name: a_name,
                columns: a_columns,
                rest: a_rest,
            },
            Stmt::AddUnique {
                q: b_q,
                name: b_name,
                columns: b_columns,
                rest: b_rest,
            },
        ) => same_add_unique(
            a_q, a_name, a_columns, a_rest, b_q, b_name, b_columns, b_rest,
        ),
        (
            Stmt::AddForeign {
                q: a_q,
                name: a_name,
                columns: a_columns,
                parent: a_parent,
                parent_columns: a_parent_columns,
                rest: a_rest,
            },
            Stmt::AddForeign {
                q: b_q,
                name: b_name,
                columns: b_columns,
                parent: b_parent,
                parent_columns: b_parent_columns,
                rest: b_rest,
            },
        ) => same_add_foreign(
            a_q,
            a_name,
            a_columns,
            a_parent,
            a_parent_columns,
            a_rest,
            b_q,
            b_name,
            b_columns,
            b_parent,
            b_parent_columns,
            b_rest,
        ),
        (
            Stmt::AddCheck {
                q: a_q,
                name: a_name,
                text: a_text,
            },
            Stmt::AddCheck {
                q: b_q,
                name: b_name,
                text: b_text,
            },
        ) => same_add_check(a_q, a_name, a_text, b_q, b_name, b_text),
        (
            Stmt::CreateIndex {
                q: a_q,
                name: a_name,
                method: a_method,
                rest: a_rest,
            },
            Stmt::CreateIndex {
                q: b_q,
                name: b_name,
                method: b_method,
                rest: b_rest,
            },
        ) => same_create_index(a_q, a_name, a_method, a_rest, b_q, b_name, b_method, b_rest),
        (
            Stmt::CreateUniqueIndex {
                q: a_q,
                name: a_name,
                method: a_method,
                rest: a_rest,
            },
            Stmt::CreateUniqueIndex {
                q: b_q,
                name: b_name,
                method: b_method,
                rest: b_rest,
            },
        ) => same_create_unique_index(a_q, a_name, a_method, a_rest, b_q, b_name, b_method, b_rest),
        (
            Stmt::CopyRows {
                q: a_q,
                columns: a_columns,
                rows: a_rows,
            },
            Stmt::CopyRows {
                q: b_q,
                columns: b_columns,
                rows: b_rows,
            },
        ) => same_copy_rows(a_q, a_columns, a_rows, b_q, b_columns, b_rows),
        (
            Stmt::Grant {
                object: a_object,
                rights: a_rights,
                grantee: a_grantee,
                option: a_option,
            },
            Stmt::Grant {
                object: b_object,
                rights: b_rights,
                grantee: b_grantee,
                option: b_option,
            },
        ) => same_grant(
            a_object, *a_rights, a_grantee, *a_option, b_object, *b_rights, b_grantee, *b_option,
        ),
        (
            Stmt::Revoke {
                object: a_object,
                rights: a_rights,
                grantee: a_grantee,
            },
            Stmt::Revoke {
                object: b_object,
                rights: b_rights,
                grantee: b_grantee,
            },
        ) => same_revoke(
            a_object, *a_rights, a_grantee, b_object, *b_rights, b_grantee,
        ),
        (
            Stmt::Comment {
                object: a_object,
                text: a_text,
            },
            Stmt::Comment {
                object: b_object,
                text: b_text,
            },
        ) => same_comment(a_object, a_text, b_object, b_text),
        (
            Stmt::OwnerTo {
                object: a_object,
                role: a_role,
            },
            Stmt::OwnerTo {
                object: b_object,
                role: b_role,
            },
        ) => same_owner_to(a_object, a_role, b_object, b_role),
        (Stmt::CreateRole { name: a_name }, Stmt::CreateRole { name: b_name }) => same_name(
            a_name, b_name,
        ),
        (
            Stmt::AlterRole {
                name: a_name,
                changes: a_changes,
            },
            Stmt::AlterRole {
                name: b_name,
                changes: b_changes,
            },
        ) => same_alter_role(a_name, a_changes, b_name, b_changes),
        (
            Stmt::GrantRole {
                role: a_role,
                member: a_member,
                grantor: a_grantor,
                admin: a_admin,
                inherit: a_inherit,
                set: a_set,
            },
            Stmt::GrantRole {
                role: b_role,
                member: b_member,
                grantor: b_grantor,
                admin: b_admin,
                inherit: b_inherit,
                set: b_set,
            },
        ) => same_grant_role(
            a_role, a_member, a_grantor, *a_admin, *a_inherit, *a_set, b_role, b_member, b_grantor,
            *b_admin, *b_inherit, *b_set,
        ),
        (
            Stmt::CreateDatabase {
                name: a_name,
                encoding: a_encoding,
            },
            Stmt::CreateDatabase {
                name: b_name,
                encoding: b_encoding,
            },
        ) => same_create_database(a_name, *a_encoding, b_name, *b_encoding),
        (Stmt::Connect { name: a_name }, Stmt::Connect { name: b_name }) => same_name(
            a_name, b_name,
        ),
        _ => false,
    }
}
