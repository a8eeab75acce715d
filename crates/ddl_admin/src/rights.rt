//! Readers of rights, of objects that have them, and of grantees.
ghost use Rattle.std.specs.Prelude.{◌≡◌, ◌||◌, not, drop};
ghost use Rattle.ddl_grammar.specs.Pieces.{GivesPart};
ghost use Rattle.cat_model.specs.Grants.{no_rights};
ghost use Rattle.ddl_grammar.specs.Values.{answered};
ghost use Rattle.ddl_grammar.specs.RightsGrammar.{has, with_right, within, kind_rights, some_kind_has, goes_with, right_first, wanted_first, wanted, joining, right_behind, more_rights, rights_from, kind_first, kind_has, having, kind_with, rights_on, object, on_object, rights_and_object, grantee_of, grantee};

use cat_model::{Granted, Grantee, Rights};
use copy_text::Name;
use ddl_grammar::{Kind, Right, Wanted};
use ddl_pieces::{Halt, Parsed, Pieces, ReadError, by_word, qualified_name, read};
use std::alloc::Global;

fn no_rights() -> Rights
    ensures { result ≡ no_rights }
{
    Rights {
        select: false,
        usage: false,
        insert: false,
        references: false,
        delete: false,
        trigger: false,
        truncate: false,
        update: false,
        create: false,
    }
}

/// Whether a right is one of some rights.
fn has(right: Right, rights: Rights) -> bool
    ensures { result ≡ has right rights }
{
    match right {
        Right::Select => rights.select,
        Right::Usage => rights.usage,
        Right::Insert => rights.insert,
        Right::References => rights.references,
        Right::Delete => rights.delete,
        Right::Trigger => rights.trigger,
        Right::Truncate => rights.truncate,
        Right::Update => rights.update,
        Right::Create => rights.create,
    }
}

/// The rights and one more.
fn with_right(right: Right, mut rights: Rights) -> Rights
    ensures { result ≡ with_right right rights }
{
    match right {
        Right::Select => rights.select = true,
        Right::Usage => rights.usage = true,
        Right::Insert => rights.insert = true,
        Right::References => rights.references = true,
        Right::Delete => rights.delete = true,
        Right::Trigger => rights.trigger = true,
        Right::Truncate => rights.truncate = true,
        Right::Update => rights.update = true,
        Right::Create => rights.create = true,
    }
    rights
}

/// Whether the second holds where the first does.
fn implies(one: bool, other: bool) -> bool
    ensures { result ≡ (not one || other) }
{
    !one || other
}

/// Whether each of the first rights is one of the second.
fn within(rights: Rights, others: Rights) -> bool
    ensures { result ≡ within rights others }
{
    let each = [
        implies(rights.select, others.select),
        implies(rights.usage, others.usage),
        implies(rights.insert, others.insert),
        implies(rights.references, others.references),
        implies(rights.delete, others.delete),
        implies(rights.trigger, others.trigger),
        implies(rights.truncate, others.truncate),
        implies(rights.update, others.update),
        implies(rights.create, others.create),
    ];
    each.iter().all(|holds| *holds)
}

/// The rights that a kind of object has.
fn kind_rights(kind: Kind) -> Rights
    ensures { result ≡ kind_rights kind }
{
    match kind {
        Kind::Tables => Rights {
            select: true,
            insert: true,
            references: true,
            delete: true,
            trigger: true,
            truncate: true,
            update: true,
            ..no_rights()
        },
        Kind::Sequences => Rights {
            select: true,
            usage: true,
            update: true,
            ..no_rights()
        },
        Kind::Schemas => Rights {
            usage: true,
            create: true,
            ..no_rights()
        },
        Kind::Types => Rights {
            usage: true,
            ..no_rights()
        },
    }
}

/// Whether some kind of object has all of these rights.
#[tactic(auto, unfolding(ddl_grammar::specs::RightsGrammar::some_kind_has))]
fn some_kind_has(rights: Rights) -> bool
    ensures { result ≡ some_kind_has rights }
{
    within(rights, kind_rights(Kind::Tables))
        || within(rights, kind_rights(Kind::Sequences))
        || within(rights, kind_rights(Kind::Schemas))
        || within(rights, kind_rights(Kind::Types))
}

/// Whether a right may stand behind others.
#[tactic(auto, unfolding(ddl_grammar::specs::RightsGrammar::goes_with))]
fn goes_with(rights: Rights, right: Right) -> bool
    ensures { result ≡ goes_with rights right }
{
    has(right, rights) || some_kind_has(with_right(right, rights))
}

/// The right at a place.
#[tactic(auto, unfolding(ddl_grammar::specs::RightsGrammar::right_first))]
fn right_at(pieces: &Pieces<'_>, at: usize) -> Option<Right>
    ensures { result ≡ right_first (drop at pieces.now) }
{
    by_word!(pieces, at;
        "select" => Right::Select, "usage" => Right::Usage, "insert" => Right::Insert,
        "references" => Right::References, "delete" => Right::Delete, "trigger" => Right::Trigger,
        "truncate" => Right::Truncate, "update" => Right::Update, "create" => Right::Create)
}

/// ALL, or the first right of a list, at a place.
#[tactic(auto, unfolding(ddl_grammar::specs::RightsGrammar::wanted_first))]
pub(crate) fn wanted_at(pieces: &Pieces<'_>, at: usize) -> Option<Wanted>
    ensures { result ≡ wanted_first (drop at pieces.now) }
{
    if pieces.is_word(at, "all") {
        return Some(Wanted::All);
    }
    let right = right_at(pieces, at)?;
    Some(Wanted::These(with_right(right, no_rights())))
}

/// A value of the token at a place, and the place behind it.
#[tactic(auto, using(ddl_grammar_laws::proofs::Firsts::token_here))]
pub(crate) fn behind<T: Copy>(pieces: &Pieces<'_>, at: usize, value: Option<T>) -> Parsed<T>
    ensures { GivesPart pieces.now (λ v. v) result (answered value (drop at pieces.now)) }
{
    match value {
        Some(value) if at < pieces.len() => Ok((value, at + 1)),
        _ => Err(ReadError::Halted(Halt { long: false, at })),
    }
}

/// ALL, or the first right of a list.
#[tactic(auto, unfolding(ddl_grammar::specs::RightsGrammar::wanted_first, ddl_grammar::specs::RightsGrammar::right_first))]
pub(crate) fn wanted_rights(pieces: &Pieces<'_>, at: usize) -> Parsed<Wanted>
    ensures { GivesPart pieces.now (λ w. w) result (wanted.read (drop at pieces.now)) }
{
    behind(pieces, at, wanted_at(pieces, at))
}

/// The right at a place, where it may stand behind others.
fn joining(pieces: &Pieces<'_>, at: usize, rights: Rights) -> Option<Right>
    ensures { result ≡ joining rights (right_first (drop at pieces.now)) }
{
    match right_at(pieces, at) {
        Some(right) if goes_with(rights, right) => Some(right),
        _ => None,
    }
}

#[tactic(auto, unfolding(ddl_grammar::specs::RightsGrammar::right_first))]
fn right_behind(pieces: &Pieces<'_>, at: usize, rights: Rights) -> Parsed<Right>
    ensures { GivesPart pieces.now (λ x. x) result ((right_behind rights).read (drop at pieces.now)) }
{
    behind(pieces, at, joining(pieces, at, rights))
}

fn one_more_right(pieces: &Pieces<'_>, at: usize, rights: Rights) -> Parsed<Right>
    ensures { GivesPart pieces.now (λ x. x) result (((more_rights rights).item rights).read (drop at pieces.now)) }
{
    let at = pieces.sign(at, b',')?;
    right_behind(pieces, at, rights)
}

/// Some rights, and those of the rest of a list.
fn rights_from(pieces: &Pieces<'_>, from: usize, first: Rights) -> Parsed<Rights>
    ensures { GivesPart pieces.now (λ r. r) result ((rights_from first).read (drop from pieces.now)) }
{
    let mut rights = first;
    let mut at = from;
    'rights: loop {
        if !pieces.is_sign(at, b',') {
            return Ok((rights, at));
        }
        let (right, next) = one_more_right(pieces, at, rights)?;
        rights = with_right(right, rights);
        at = next;
    }
}

/// The kind of object at a place.
#[tactic(auto, unfolding(ddl_grammar::specs::RightsGrammar::kind_first))]
fn kind_at(pieces: &Pieces<'_>, at: usize) -> Option<Kind>
    ensures { result ≡ kind_first (drop at pieces.now) }
{
    by_word!(pieces, at;
        "table" => Kind::Tables, "sequence" => Kind::Sequences, "schema" => Kind::Schemas, "type" => Kind::Types)
}

/// Whether a kind of object has all these rights.
fn kind_has(wanted: Wanted, kind: Kind) -> bool
    ensures { result ≡ kind_has wanted kind }
{
    match wanted {
        Wanted::All => true,
        Wanted::These(rights) => within(rights, kind_rights(kind)),
    }
}

/// The kind of object at a place, where it has all these rights.
fn having(pieces: &Pieces<'_>, at: usize, wanted: Wanted) -> Option<Kind>
    ensures { result ≡ having wanted (kind_first (drop at pieces.now)) }
{
    match kind_at(pieces, at) {
        Some(kind) if kind_has(wanted, kind) => Some(kind),
        _ => None,
    }
}

#[tactic(auto, unfolding(ddl_grammar::specs::RightsGrammar::kind_first))]
fn kind_with(pieces: &Pieces<'_>, at: usize, wanted: Wanted) -> Parsed<Kind>
    ensures { GivesPart pieces.now (λ k. k) result ((kind_with wanted).read (drop at pieces.now)) }
{
    behind(pieces, at, having(pieces, at, wanted))
}

/// The rights on an object of a kind.
fn rights_on(wanted: Wanted, kind: Kind) -> Rights
    ensures { result ≡ rights_on wanted kind }
{
    match wanted {
        Wanted::All => kind_rights(kind),
        Wanted::These(rights) => rights,
    }
}

fn object(alloc: Global, pieces: &Pieces<'_>, at: usize, kind: Kind) -> Parsed<Granted>
    ensures { GivesPart pieces.now (λ o. o) result ((object kind).read (drop at pieces.now)) }
{
    match kind {
        Kind::Tables => read!(alloc, pieces, at; q: qualified_name => Granted::Table(q)),
        Kind::Sequences => read!(alloc, pieces, at; q: qualified_name => Granted::Sequence(q)),
        Kind::Schemas => read!(alloc, pieces, at; name: .name => Granted::Schema(name)),
        Kind::Types => read!(alloc, pieces, at; q: qualified_name => Granted::Type(q)),
    }
}

#[tactic(auto, unfolding(ddl_grammar::specs::RightsGrammar::on_object))]
fn on_object(
    alloc: Global,
    pieces: &Pieces<'_>,
    at: usize,
    wanted: Wanted,
) -> Parsed<(Granted, Rights)>
    ensures { GivesPart pieces.now (λ x. (x.0, x.1)) result ((on_object wanted).read (drop at pieces.now)) }
{
    read!(alloc, pieces, at; "on" kind: kind_with[pieces, at, wanted] object: object[alloc, pieces, at, kind]
        => (object, rights_on(wanted, kind)))
}

/// The rest of a list of rights, the object behind it, and the rights on it.
#[tactic(auto, unfolding(ddl_grammar::specs::RightsGrammar::rights_and_object))]
pub(crate) fn rights_and_object(
    alloc: Global,
    pieces: &Pieces<'_>,
    at: usize,
    wanted: Wanted,
) -> Parsed<(Granted, Rights)>
    ensures { GivesPart pieces.now (λ x. (x.0, x.1)) result ((rights_and_object wanted).read (drop at pieces.now)) }
{
    match wanted {
        Wanted::All => on_object(alloc, pieces, at, wanted),
        Wanted::These(first) => read!(alloc, pieces, at;
            rights: rights_from[pieces, at, first] -> on_object[alloc, pieces, at, Wanted::These(rights)]),
    }
}

/// Whom a name stands for.
#[tactic(auto, unfolding(ddl_grammar::specs::RightsGrammar::grantee_of))]
fn grantee_of(name: Name) -> Grantee
    ensures { result ≡ grantee_of name }
{
    if name.as_str() == "public" {
        return Grantee::Public;
    }
    Grantee::Role(name)
}

pub(crate) fn grantee(alloc: Global, pieces: &Pieces<'_>, at: usize) -> Parsed<Grantee>
    ensures { GivesPart pieces.now (λ g. g) result (grantee.read (drop at pieces.now)) }
{
    read!(alloc, pieces, at; name: .name => grantee_of(name))
}
