//! Readers of GRANT of a role, behind the role's name.
#![tactic(auto, unfolding(ddl_grammar::specs::Memberships::truth_first, ddl_grammar::specs::Memberships::inherit_and_set, ddl_grammar::specs::Memberships::set_behind, ddl_grammar::specs::Memberships::with_options, ddl_grammar::specs::Memberships::options, ddl_grammar::specs::Memberships::others_behind, ddl_grammar::specs::Memberships::granted_by, ddl_grammar::specs::Memberships::membership, ddl_grammar::specs::Memberships::member))]

ghost use Rattle.std.specs.Prelude.{◌≡◌, drop};
ghost use Rattle.ddl_grammar.specs.Pieces.{GivesPart};
ghost use Rattle.ddl_grammar.specs.Memberships.{truth_first, truth, inherit_and_set, with_options, granted_by, membership};

use crate::rights::behind;
use cat_model::Stmt;
use copy_text::Name;
use ddl_pieces::{Parsed, Pieces, by_word, read};
use std::alloc::Global;

/// What a membership allows: ADMIN, and INHERIT and SET.
type Options = (bool, (Option<bool>, bool));

/// The truth at a place.
fn truth_at(pieces: &Pieces<'_>, at: usize) -> Option<bool>
    ensures { result ≡ truth_first (drop at pieces.now) }
{
    by_word!(pieces, at; "true" => true, "option" => true, "false" => false)
}

/// TRUE, FALSE or OPTION.
#[tactic(auto, unfolding(ddl_grammar::specs::Memberships::truth_first))]
fn truth(pieces: &Pieces<'_>, at: usize) -> Parsed<bool>
    ensures { GivesPart pieces.now (λ b. b) result (truth.read (drop at pieces.now)) }
{
    behind(pieces, at, truth_at(pieces, at))
}

fn inherit_and_set(pieces: &Pieces<'_>, at: usize) -> Parsed<(Option<bool>, bool)>
    ensures { GivesPart pieces.now (λ x. (x.0, x.1)) result (inherit_and_set.read (drop at pieces.now)) }
{
    read!(pieces, at;
        if "inherit" { inherit: truth
            if , { "set" set: truth => (Some(inherit), set) }
            => (Some(inherit), true) }
        "set" set: truth => (None, set))
}

fn with_options(pieces: &Pieces<'_>, at: usize) -> Parsed<Options>
    ensures { GivesPart pieces.now (λ x. (x.0, (x.1.0, x.1.1))) result (with_options.read (drop at pieces.now)) }
{
    read!(pieces, at;
        if "with" {
            if "admin" { admin: truth
                if , { others: inherit_and_set => (admin, others) }
                => (admin, (None, true)) }
            others: inherit_and_set => (false, others)
        }
        => (false, (None, true)))
}

fn granted_by(alloc: Global, pieces: &Pieces<'_>, at: usize) -> Parsed<Option<Name>>
    ensures { GivesPart pieces.now (λ n. n) result (granted_by.read (drop at pieces.now)) }
{
    read!(alloc, pieces, at; if "granted" { "by" name: .name; => Some(name) } ; => None)
}

pub(crate) fn membership(alloc: Global, pieces: &Pieces<'_>, at: usize, role: Name) -> Parsed<Stmt>
    ensures { GivesPart pieces.now (λ s. s) result ((membership role).read (drop at pieces.now)) }
{
    read!(alloc, pieces, at;
        "to" member: .name (admin, (inherit, set)): with_options[pieces, at] grantor: granted_by
        => Stmt::GrantRole { role, member, grantor, admin, inherit, set })
}
