//! Readers of CREATE ROLE and ALTER ROLE.
ghost use Rattle.std.specs.Prelude.{◌≡◌, drop, codes};
ghost use Rattle.cat_model.specs.declared.stmt.Stmt.TheVariants.{CreateRole, AlterRole};
ghost use Rattle.ddl_grammar.specs.Lexemes.{is_word, is_sign};
ghost use Rattle.ddl_grammar.specs.Parts.{seen, ◌then◌, ◌▸◌, ◌◂◌};
ghost use Rattle.ddl_grammar.specs.Leaves.{name, literal};
ghost use Rattle.ddl_grammar.specs.Pieces.{GivesPart};
ghost use Rattle.ddl_grammar.specs.Choices.{clause, flag};
ghost use Rattle.ddl_grammar_laws.specs.Numbers.{whole_number};
ghost use Rattle.ddl_grammar.specs.Roles.{later_flags, role_flags, role_settings, role_changes};

use cat_model::{RoleChanges, Stmt};
use copy_text::Text;
use ddl_pieces::{Parsed, Pieces, read, whole_number};
use std::alloc::Global;

/// The statement CREATE ROLE, behind these words, and the place behind it.
///
/// # Errors
///
/// `Halted` tells the first token with which no such statement goes on, `Memory` that memory ran out.
pub fn create_role(alloc: Global, pieces: &Pieces<'_>, at: usize) -> Parsed<Stmt>
    ensures { GivesPart pieces.now (λ s. s) result ((seen CreateRole (name ◂ is_sign 59)).read (drop at pieces.now)) }
{
    read!(alloc, pieces, at; name: .name; => Stmt::CreateRole { name })
}

/// Whether a key word stands at a place, or another that denies it, and the place behind it.
fn flag(pieces: &Pieces<'_>, at: usize, key: &str, denial: &str) -> Parsed<Option<bool>>
    ensures { GivesPart pieces.now (λ b. b) result ((flag key.now denial.now).read (drop at pieces.now)) }
{
    if let Some(at) = pieces.after_word(at, key) {
        return Ok((Some(true), at));
    }
    if let Some(at) = pieces.after_word(at, denial) {
        return Ok((Some(false), at));
    }
    Ok((None, at))
}

/// The attributes in their order, no limit and no texts.
#[tactic(auto, unfolding(ddl_grammar::specs::Roles::role_flags, ddl_grammar::specs::Roles::later_flags))]
fn role_flags(pieces: &Pieces<'_>, at: usize) -> Parsed<RoleChanges>
    ensures { GivesPart pieces.now (λ c. (c.superuser, (c.inherit, (c.create_role, (c.create_db, (c.login, (c.replication, c.bypass_rls))))))) result (role_flags.read (drop at pieces.now)) }
{
    read!(pieces, at;
        superuser: flag[pieces, at, "superuser", "nosuperuser"]
        inherit: flag[pieces, at, "inherit", "noinherit"]
        create_role: flag[pieces, at, "createrole", "nocreaterole"]
        create_db: flag[pieces, at, "createdb", "nocreatedb"]
        login: flag[pieces, at, "login", "nologin"]
        replication: flag[pieces, at, "replication", "noreplication"]
        bypass_rls: flag[pieces, at, "bypassrls", "nobypassrls"]
        => RoleChanges { superuser, inherit, create_role, create_db, login, replication, bypass_rls,
            limit: None, password: None, valid_until: None })
}

fn limit(pieces: &Pieces<'_>, at: usize) -> Parsed<Option<i64>>
    ensures { GivesPart pieces.now (λ n. n) result ((clause (codes "connection") (is_word (codes "limit") ▸ whole_number)).read (drop at pieces.now)) }
{
    read!(pieces, at; if "connection" { "limit" number: whole_number => Some(number) } => None)
}

fn password(alloc: Global, pieces: &Pieces<'_>, at: usize) -> Parsed<Option<Text>>
    ensures { GivesPart pieces.now (λ t. t) result ((clause (codes "password") literal).read (drop at pieces.now)) }
{
    read!(alloc, pieces, at; if "password" { text: .literal => Some(text) } => None)
}

fn valid_until(alloc: Global, pieces: &Pieces<'_>, at: usize) -> Parsed<Option<Text>>
    ensures { GivesPart pieces.now (λ t. t) result ((clause (codes "valid") (is_word (codes "until") ▸ literal)).read (drop at pieces.now)) }
{
    read!(alloc, pieces, at; if "valid" { "until" text: .literal => Some(text) } => None)
}

/// The statement ALTER ROLE, behind these words, and the place behind it.
///
/// What changes stands in the order of the fields of `RoleChanges`, each at most once: attributes as their words or with
/// NO before them, a connection limit of 64 bits, and texts as literals without escapes.
///
/// # Errors
///
/// `Halted` tells the first token with which no such statement goes on, `Memory` that memory ran out.
#[tactic(auto, unfolding(ddl_grammar::specs::Roles::role_changes, ddl_grammar::specs::Roles::role_settings))]
pub fn alter_role(alloc: Global, pieces: &Pieces<'_>, at: usize) -> Parsed<Stmt>
    ensures { GivesPart pieces.now (λ s. s) result ((seen (λ x. AlterRole x.0 x.1) ((name then (is_word (codes "with") ▸ role_changes)) ◂ is_sign 59)).read (drop at pieces.now)) }
{
    read!(alloc, pieces, at; name: .name "with"
        flags: role_flags[pieces, at] limit: limit[pieces, at] password: password valid_until: valid_until;
        => Stmt::AlterRole { name, changes: RoleChanges { limit, password, valid_until, ..flags } })
}
