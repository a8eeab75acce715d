//! What may follow the columns of a key.
ghost use Rattle.std.specs.Prelude.{◌≡◌, drop, IfOk};
ghost use Rattle.ddl_grammar.specs.Lexemes.{source};
ghost use Rattle.ddl_grammar.specs.Pieces.{GivesPart};
ghost use Rattle.ddl_grammar.specs.Rests.{taken, set_columns, action, on_delete, deferral, reactions, key_rest, foreign_rest};

use crate::columns::columns;
use copy_text::Text;
use ddl_pieces::{Parsed, Pieces, read};
use std::alloc::{AllocError, Global};

/// DEFERRABLE, or DEFERRABLE INITIALLY DEFERRED, or nothing.
#[tactic(auto, unfolding(ddl_grammar::specs::Rests::deferral))]
fn deferral(pieces: &Pieces<'_>, at: usize) -> Parsed<()>
    ensures { GivesPart pieces.now (λ u. u) result (deferral.read (drop at pieces.now)) }
{
    read!(pieces, at; if "deferrable" { if "initially" { "deferred" => () } => () } => ())
}

/// The columns that are set where a parent's row goes, or nothing.
fn set_columns(alloc: Global, pieces: &Pieces<'_>, at: usize, goes: bool) -> Parsed<()>
    ensures { GivesPart pieces.now (λ u. u) result ((set_columns goes).read (drop at pieces.now)) }
{
    if goes {
        return read!(alloc, pieces, at; if at () { names: columns => drop(names) } => ());
    }
    Ok(((), at))
}

/// What is done where a parent's row changes, or where it goes.
#[tactic(auto, unfolding(ddl_grammar::specs::Rests::action))]
fn action(alloc: Global, pieces: &Pieces<'_>, at: usize, goes: bool) -> Parsed<()>
    ensures { GivesPart pieces.now (λ u. u) result ((action goes).read (drop at pieces.now)) }
{
    read!(alloc, pieces, at;
        if "no" { "action" => () }
        if "set" {
            if "null" { -> set_columns[alloc, pieces, at, goes] }
            "default" -> set_columns[alloc, pieces, at, goes] }
        if "cascade" { => () }
        "restrict" => ())
}

#[tactic(auto, unfolding(ddl_grammar::specs::Rests::on_delete))]
fn on_delete(alloc: Global, pieces: &Pieces<'_>, at: usize) -> Parsed<()>
    ensures { GivesPart pieces.now (λ u. u) result (on_delete.read (drop at pieces.now)) }
{
    read!(alloc, pieces, at; "delete" _: action[alloc, pieces, at, true] -> deferral[pieces, at])
}

/// ON UPDATE and ON DELETE with their actions, and whether it is deferred.
#[tactic(auto, unfolding(ddl_grammar::specs::Rests::reactions))]
fn reactions(alloc: Global, pieces: &Pieces<'_>, at: usize) -> Parsed<()>
    ensures { GivesPart pieces.now (λ u. u) result (reactions.read (drop at pieces.now)) }
{
    read!(alloc, pieces, at;
        if "on" {
            if "update" {
                _: action[alloc, pieces, at, false]
                if "on" { -> on_delete }
                -> deferral[pieces, at] }
            -> on_delete }
        -> deferral[pieces, at])
}

/// The text of the tokens from a place up to another.
#[tactic(auto, using(ddl_grammar_laws::proofs::RestLaws::taken_between))]
fn kept(alloc: Global, pieces: &Pieces<'_>, from: usize, end: usize) -> Result<Text, AllocError>
    ensures { IfOk result (λ t. t ≡ source (taken (drop from pieces.now) (drop end pieces.now))) }
{
    let end = end.min(pieces.len());
    if from < end {
        return pieces.source(alloc, from, end);
    }
    match Text::new(Vec::new(alloc)) {
        Some(text) => Ok(text),
        None => unreachable!(),
    }
}

/// What follows the columns of a primary key or a unique constraint, or nothing.
#[tactic(auto, unfolding(ddl_grammar::specs::Rests::key_rest))]
pub(crate) fn key_rest(alloc: Global, pieces: &Pieces<'_>, at: usize) -> Parsed<Text>
    ensures { GivesPart pieces.now (λ t. t) result (key_rest.read (drop at pieces.now)) }
{
    let ((), end) = deferral(pieces, at)?;
    Ok((kept(alloc, pieces, at, end)?, end))
}

/// What follows the columns of a foreign key's parents, or nothing.
#[tactic(auto, unfolding(ddl_grammar::specs::Rests::foreign_rest))]
pub(crate) fn foreign_rest(alloc: Global, pieces: &Pieces<'_>, at: usize) -> Parsed<Text>
    ensures { GivesPart pieces.now (λ t. t) result (foreign_rest.read (drop at pieces.now)) }
{
    let ((), end) = reactions(alloc, pieces, at)?;
    Ok((kept(alloc, pieces, at, end)?, end))
}
