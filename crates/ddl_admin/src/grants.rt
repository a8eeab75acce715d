//! Readers of GRANT and REVOKE, behind their first words.
ghost use Rattle.std.specs.Prelude.{drop};
ghost use Rattle.ddl_grammar.specs.Pieces.{GivesPart};
ghost use Rattle.ddl_grammar.specs.Grants.{grant_option, to_grantee, from_grantee, grant_rights, revoke_rights, first, granted, revoked};

use crate::memberships::membership;
use crate::rights::{grantee, rights_and_object, wanted_at, wanted_rights};
use cat_model::Stmt;
use copy_text::Name;
use ddl_grammar::Wanted;
use ddl_pieces::{Parsed, Pieces, read};
use std::alloc::Global;

#[tactic(auto, unfolding(ddl_grammar::specs::Grants::grant_option))]
fn grant_option(pieces: &Pieces<'_>, at: usize) -> Parsed<bool>
    ensures { GivesPart pieces.now (λ b. b) result (grant_option.read (drop at pieces.now)) }
{
    read!(pieces, at; if "with" { "grant" "option"; => true } ; => false)
}

#[tactic(auto, unfolding(ddl_grammar::specs::Grants::grant_rights, ddl_grammar::specs::Grants::to_grantee))]
fn grant_rights(alloc: Global, pieces: &Pieces<'_>, at: usize, wanted: Wanted) -> Parsed<Stmt>
    ensures { GivesPart pieces.now (λ s. s) result ((grant_rights wanted).read (drop at pieces.now)) }
{
    read!(alloc, pieces, at; (object, rights): rights_and_object[alloc, pieces, at, wanted]
        "to" grantee: grantee option: grant_option[pieces, at] => Stmt::Grant { object, rights, grantee, option })
}

/// A name, and the rights that it may stand for.
#[tactic(auto, using(ddl_grammar_laws::proofs::Firsts::first_read))]
fn first(alloc: Global, pieces: &Pieces<'_>, at: usize) -> Parsed<(Name, Option<Wanted>)>
    ensures { GivesPart pieces.now (λ x. (x.0, x.1)) result (first.read (drop at pieces.now)) }
{
    let wanted = wanted_at(pieces, at);
    let (name, at) = pieces.name(alloc, at)?;
    Ok(((name, wanted), at))
}

/// GRANT of rights on an object or of a role, behind its first word; and the place behind its semicolon.
///
/// `Halted` tells the first token with which no GRANT goes on, `Memory` that memory ran out.
#[tactic(auto, unfolding(ddl_grammar::specs::Grants::granted, ddl_grammar::specs::Grants::behind_first))]
pub fn granted(alloc: Global, pieces: &Pieces<'_>, at: usize) -> Parsed<Stmt>
    ensures { GivesPart pieces.now (λ s. s) result (granted.read (drop at pieces.now)) }
{
    let ((name, wanted), at) = first(alloc, pieces, at)?;
    match wanted {
        Some(wanted) if !pieces.is_word(at, "to") => grant_rights(alloc, pieces, at, wanted),
        _ => membership(alloc, pieces, at, name),
    }
}

/// REVOKE of rights on an object, behind its first word; and the place behind its semicolon.
///
/// `Halted` tells the first token with which no REVOKE goes on, `Memory` that memory ran out.
#[tactic(auto, unfolding(ddl_grammar::specs::Grants::revoked, ddl_grammar::specs::Grants::revoke_rights, ddl_grammar::specs::Grants::from_grantee))]
pub fn revoked(alloc: Global, pieces: &Pieces<'_>, at: usize) -> Parsed<Stmt>
    ensures { GivesPart pieces.now (λ s. s) result (revoked.read (drop at pieces.now)) }
{
    read!(alloc, pieces, at; wanted: wanted_rights[pieces, at]
        (object, rights): rights_and_object[alloc, pieces, at, wanted] "from" grantee: grantee;
        => Stmt::Revoke { object, rights, grantee })
}
