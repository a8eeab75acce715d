//! What a statement comes to.
ghost use Rattle.std.specs.Prelude.{◌≡◌, [], ◌∷◌, Ok, Some, IfOk};
ghost use Rattle.cat_model.specs.declared.key.Key.TheVariants as key;
ghost use Rattle.cat_model.specs.Conditions.{needs};
ghost use Rattle.cat_model.specs.Effects.{effect};
ghost use Rattle.cat_model.specs.Trees.{sets, outcome, seen};
ghost use Rattle.eng_steps.specs.Outcomes.{Steps};

use cat_model::{Key, Sequence, Stmt};
use copy_effects::copy_rows;
use copy_text::Name;
use eng_map::{Change, NamedMap};
use eng_steps::{ApplyError, needs};
use key_effects::{
    NewForeign, NewIndex, NewKey, add_check, add_foreign, add_primary, add_unique, create_index,
    create_unique_index,
};
use object_effects::{
    GrantChange, MemberOptions, alter_role, change_grants, comment_on, create_database,
    create_role, create_schema, grant_role, owner_to,
};
use relation_effects::{
    LastValue, create_sequence, create_table, create_view, owned_by, replace_view, set_default,
    set_value,
};
use std::alloc::Global;
use type_effects::{NewDomain, add_domain_check, create_domain, create_enum};

// The database is there, and nothing changes.
fn connect(alloc: Global, named: &NamedMap, name: &Name) -> Result<Vec<Change>, ApplyError>
    ensures { Steps result (outcome (needs (key.Database name.now) (sets [])) (seen named.now)) (λ changes. Ok changes.items) }
{
    needs(named, Key::Database(name.clone()?))?;
    Ok(Vec::new(alloc))
}

/// What a statement comes to on a catalogue by names, where `boot` is the role that owns what is created: the changes, one
/// behind another, that it makes.
///
/// # Errors
///
/// `Refused` with the first condition of the statement that doesn't hold, or `Memory`.
pub fn changes_of(
    alloc: Global,
    named: &NamedMap,
    boot: &Name,
    stmt: &Stmt,
) -> Result<Vec<Change>, ApplyError>
    ensures { Steps result (outcome (effect boot.now stmt.now) (seen named.now)) (λ changes. Ok changes.items) }
{
    match stmt {
        Stmt::Set { .. } | Stmt::SetConfig { .. } => Ok(Vec::new(alloc)),
        Stmt::CreateSchema { name } => create_schema(alloc, named, boot, name),
        Stmt::CreateEnum { q, labels } => create_enum(alloc, named, boot, q, labels),
        Stmt::CreateDomain {
            q,
            base,
            not_null,
            default,
            checks,
        } => {
            let new = NewDomain {
                base,
                not_null: *not_null,
                default,
                checks: checks.as_slice(),
            };
            create_domain(alloc, named, boot, q, new)
        }
        Stmt::AddDomainCheck { q, name, text } => add_domain_check(alloc, named, q, name, text),
        Stmt::CreateTable { q, columns, checks } => {
            create_table(alloc, named, boot, q, columns.as_slice(), checks.as_slice())
        }
        Stmt::CreateSequence {
            q,
            kind,
            start,
            step,
            min,
            max,
            cache,
            cycle,
        } => {
            let sequence = Sequence {
                kind: *kind,
                start: *start,
                step: *step,
                min: *min,
                max: *max,
                cache: *cache,
                cycle: *cycle,
            };
            create_sequence(alloc, named, boot, q, sequence)
        }
        Stmt::OwnedBy { q, table, column } => owned_by(alloc, named, q, table, column),
        Stmt::SetVal { q, value, called } => {
            let last = LastValue {
                value: *value,
                called: *called,
            };
            set_value(alloc, named, q, &last)
        }
        Stmt::CreateView { q, body } => create_view(alloc, named, boot, q, body),
        Stmt::ReplaceView { q, body } => replace_view(alloc, named, q, body),
        Stmt::SetDefault { q, column, text } => set_default(alloc, named, q, column, text),
        Stmt::AddPrimary {
            q,
            name,
            columns,
            rest,
        } => add_primary(
            alloc,
            named,
            q,
            NewKey {
                name,
                columns,
                rest,
            },
        ),
        Stmt::AddUnique {
            q,
            name,
            columns,
            rest,
        } => add_unique(
            alloc,
            named,
            q,
            NewKey {
                name,
                columns,
                rest,
            },
        ),
        Stmt::AddForeign {
            q,
            name,
            columns,
            parent,
            parent_columns,
            rest,
        } => {
            let new = NewForeign {
                name,
                columns,
                parent,
                parent_columns,
                rest,
            };
            add_foreign(alloc, named, q, new)
        }
        Stmt::AddCheck { q, name, text } => add_check(alloc, named, q, name, text),
        Stmt::CreateIndex {
            q,
            name,
            method,
            rest,
        } => create_index(alloc, named, q, NewIndex { name, method, rest }),
        Stmt::CreateUniqueIndex {
            q,
            name,
            method,
            rest,
        } => create_unique_index(alloc, named, q, NewIndex { name, method, rest }),
        Stmt::CopyRows { q, columns, rows } => {
            copy_rows(alloc, named, q, columns.as_slice(), rows.as_slice())
        }
        Stmt::Grant {
            object,
            rights,
            grantee,
            option,
        } => change_grants(
            alloc,
            named,
            object,
            grantee,
            GrantChange::Grant(*rights, *option),
        ),
        Stmt::Revoke {
            object,
            rights,
            grantee,
        } => change_grants(alloc, named, object, grantee, GrantChange::Revoke(*rights)),
        Stmt::Comment { object, text } => comment_on(alloc, named, object, text),
        Stmt::OwnerTo { object, role } => owner_to(alloc, named, object, role),
        Stmt::CreateRole { name } => create_role(alloc, named, name),
        Stmt::AlterRole { name, changes } => alter_role(alloc, named, name, changes),
        Stmt::GrantRole {
            role,
            member,
            grantor,
            admin,
            inherit,
            set,
        } => {
            let options = MemberOptions {
                admin: *admin,
                inherit: *inherit,
                set: *set,
            };
            grant_role(alloc, named, boot, role, member, grantor, options)
        }
        Stmt::CreateDatabase { name, .. } => create_database(alloc, named, boot, name),
        Stmt::Connect { name } => connect(alloc, named, name),
    }
}
