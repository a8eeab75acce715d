//! Readers of the kinds of statement, each behind the words that tell it apart.
ghost use Rattle.std.specs.Prelude.{drop};
ghost use Rattle.ddl_scripts.specs.Pieces.{GivesPart, GivesValue, value_of};
ghost use Rattle.ddl_grammar.specs.Syntax.{part};
ghost use Rattle.ddl_scripts.specs.Grammar.{created, altered_domain, altered, selected, setting, command, statement};

use cat_model::{CheckDef, Owned, Stmt};
use ddl_admin::{alter_role, comment_on, create_database, create_role, granted, revoked};
use ddl_pieces::{Parsed, Pieces, ReadError, qualified_name, read};
use ddl_relations::{
    altered_sequence, altered_table, copy_from, create_domain, create_enum, create_table,
    created_relation, named_check, new_owner, set_value,
};
use std::alloc::Global;

#[tactic(auto, unfolding(ddl_grammar::specs::Syntax::part, ddl_grammar::specs::LeafParts::leaf_part, ddl_grammar::specs::Grammar::created))]
fn created(alloc: Global, pieces: &Pieces<'_>, at: usize) -> Parsed<Stmt>
    ensures { GivesPart pieces.now (λ s. s) result ((part created).read (drop at pieces.now)) }
{
    read!(alloc, pieces, at;
        if "schema" { name: .name; => Stmt::CreateSchema { name } }
        if "type" { -> create_enum }
        if "domain" { -> create_domain }
        if "table" { -> create_table }
        if "role" { -> create_role }
        if "database" { -> create_database }
        -> created_relation)
}

#[tactic(auto, unfolding(ddl_grammar::specs::Syntax::part, ddl_grammar::specs::LeafParts::leaf_part, ddl_grammar::specs::Grammar::altered_domain, ddl_grammar::specs::Grammar::new_owner))]
fn altered_domain(alloc: Global, pieces: &Pieces<'_>, at: usize) -> Parsed<Stmt>
    ensures { GivesPart pieces.now (λ s. s) result ((part altered_domain).read (drop at pieces.now)) }
{
    read!(alloc, pieces, at; q: qualified_name
        if at "owner" { role: new_owner => Stmt::OwnerTo { object: Owned::Domain(q), role } }
        "add" (CheckDef { name, text }): named_check; => Stmt::AddDomainCheck { q, name, text })
}

#[tactic(auto, unfolding(ddl_grammar::specs::Syntax::part, ddl_grammar::specs::LeafParts::leaf_part, ddl_grammar::specs::Grammar::altered))]
fn altered(alloc: Global, pieces: &Pieces<'_>, at: usize) -> Parsed<Stmt>
    ensures { GivesPart pieces.now (λ s. s) result ((part altered).read (drop at pieces.now)) }
{
    read!(alloc, pieces, at;
        if "schema" { name: .name role: new_owner => Stmt::OwnerTo { object: Owned::Schema(name), role } }
        if "type" { q: qualified_name role: new_owner => Stmt::OwnerTo { object: Owned::Type(q), role } }
        if "domain" { -> altered_domain }
        if "table" { -> altered_table }
        if "sequence" { -> altered_sequence }
        if "view" { q: qualified_name role: new_owner => Stmt::OwnerTo { object: Owned::View(q), role } }
        if "database" { name: .name role: new_owner => Stmt::OwnerTo { object: Owned::Database(name), role } }
        "role" -> alter_role)
}

#[tactic(auto, unfolding(ddl_grammar::specs::Syntax::part, ddl_grammar::specs::LeafParts::leaf_part, ddl_grammar::specs::Grammar::selected))]
fn selected(alloc: Global, pieces: &Pieces<'_>, at: usize) -> Parsed<Stmt>
    ensures { GivesPart pieces.now (λ s. s) result ((part selected).read (drop at pieces.now)) }
{
    read!(alloc, pieces, at; "pg_catalog" .
        if "set_config" { (name: .literal, value: .literal, "false"); => Stmt::SetConfig { name, value } }
        "setval" -> set_value)
}

#[tactic(auto, unfolding(ddl_grammar::specs::Syntax::part, ddl_grammar::specs::LeafParts::leaf_part, ddl_grammar::specs::Grammar::setting, ddl_grammar::specs::Clauses::equals_or_to))]
fn setting(alloc: Global, pieces: &Pieces<'_>, at: usize) -> Parsed<Stmt>
    ensures { GivesPart pieces.now (λ s. s) result ((part setting).read (drop at pieces.now)) }
{
    read!(alloc, pieces, at; name: .name
        if = { value: .expression; => Stmt::Set { name, value } }
        "to" value: .expression; => Stmt::Set { name, value })
}

#[tactic(auto, unfolding(ddl_grammar::specs::Syntax::part, ddl_grammar::specs::LeafParts::leaf_part, ddl_grammar::specs::Grammar::command))]
fn command(alloc: Global, pieces: &Pieces<'_>, at: usize) -> Parsed<Stmt>
    ensures { GivesPart pieces.now (λ s. s) result ((part command).read (drop at pieces.now)) }
{
    read!(alloc, pieces, at;
        if "create" { -> created }
        if "alter" { -> altered }
        if "select" { -> selected }
        if "set" { -> setting }
        if "copy" { -> copy_from }
        if "grant" { -> granted }
        if "revoke" { -> revoked }
        "comment" -> comment_on)
}

/// The statement at the front of the tokens; an empty one is None.
#[tactic(auto, unfolding(ddl_grammar::specs::Grammar::statement))]
pub(crate) fn statement(alloc: Global, pieces: &Pieces<'_>) -> Result<Option<Stmt>, ReadError>
    ensures { GivesValue pieces.now (λ s. s) result (value_of (statement.read pieces.now)) }
{
    if pieces.is_sign(0, b';') {
        pieces.sign(0, b';')?;
        return Ok(None);
    }
    let (stmt, _) = command(alloc, pieces, 0)?;
    Ok(Some(stmt))
}
