//! Readers of the clauses of CREATE SEQUENCE.
ghost use Rattle.std.specs.Prelude.{◌≡◌, false, drop};
ghost use Rattle.std.specs.Option.{unwrap_or};
ghost use Rattle.ddl_grammar.specs.Lexemes.{starts};
ghost use Rattle.ddl_grammar.specs.Pieces.{GivesPart};
ghost use Rattle.ddl_grammar.specs.SequenceGrammar.{usual_bound, with_clause, clause_behind, begins_clause, sequence_clauses, bound_or, usual_start, sequence_of, sequence};

use cat_model::{Sequence, SequenceKind};
use ddl_grammar::{Bound, Clause, Clauses};
use ddl_pieces::{Parsed, Pieces, by_word, read, whole_number};
use ddl_spelling::{usual_max, usual_min};

/// The clauses with one more.
fn with_clause(mut clauses: Clauses, clause: Clause) -> Clauses
    ensures { result ≡ with_clause clauses clause }
{
    match clause {
        Clause::Kind(kind) => clauses.kind = Some(kind),
        Clause::Start(number) => clauses.start = Some(number),
        Clause::Step(number) => clauses.step = Some(number),
        Clause::Least(bound) => clauses.least = Some(bound),
        Clause::Greatest(bound) => clauses.greatest = Some(bound),
        Clause::Cache(number) => clauses.cache = Some(number),
        Clause::Cycle => clauses.cycle = true,
    }
    clauses
}

/// Whether nothing was said before of the clause that begins at a place, or None where none begins.
#[tactic(auto, unfolding(ddl_grammar::specs::SequenceGrammar::begins_clause))]
fn unsaid(pieces: &Pieces<'_>, at: usize, said: Clauses) -> Option<bool>
    ensures { unwrap_or result false ≡ starts (begins_clause said) (drop at pieces.now) }
{
    by_word!(pieces, at;
        "as" => said.kind.is_none(), "start" => said.start.is_none(), "increment" => said.step.is_none(),
        "no" => said.least.is_none() || said.greatest.is_none(), "minvalue" => said.least.is_none(),
        "maxvalue" => said.greatest.is_none(), "cache" => said.cache.is_none(), "cycle" => !said.cycle)
}

/// The bound that follows NO, by whether nothing was said of the least number and of the greatest.
fn usual_bound(pieces: &Pieces<'_>, at: usize, least: bool, greatest: bool) -> Parsed<Clause>
    ensures { GivesPart pieces.now (λ c. c) result ((usual_bound least greatest).read (drop at pieces.now)) }
{
    if !least {
        return read!(pieces, at; "maxvalue" => Clause::Greatest(Bound::Usual));
    }
    if !greatest {
        return read!(pieces, at; "minvalue" => Clause::Least(Bound::Usual));
    }
    read!(pieces, at;
        if "minvalue" { => Clause::Least(Bound::Usual) }
        "maxvalue" => Clause::Greatest(Bound::Usual))
}

/// The clause at a place, behind these.
#[tactic(auto, unfolding(ddl_grammar::specs::SequenceGrammar::clause_behind))]
fn clause_behind(pieces: &Pieces<'_>, at: usize, said: Clauses) -> Parsed<Clause>
    ensures { GivesPart pieces.now (λ c. c) result ((clause_behind said).read (drop at pieces.now)) }
{
    read!(pieces, at;
        if "no" { -> usual_bound[pieces, at, said.least.is_none(), said.greatest.is_none()] }
        if "as" {
            if "smallint" { => Clause::Kind(SequenceKind::SmallInt) }
            "integer" => Clause::Kind(SequenceKind::Integer)
        }
        if "start" { "with" number: whole_number => Clause::Start(number) }
        if "increment" { "by" number: whole_number => Clause::Step(number) }
        if "minvalue" { number: whole_number => Clause::Least(Bound::Given(number)) }
        if "maxvalue" { number: whole_number => Clause::Greatest(Bound::Given(number)) }
        if "cache" { number: whole_number => Clause::Cache(number) }
        "cycle" => Clause::Cycle)
}

/// The clauses at a place, and the place behind them.
fn sequence_clauses(pieces: &Pieces<'_>, from: usize) -> Parsed<Clauses>
    ensures { GivesPart pieces.now (λ c. c) result (sequence_clauses.read (drop from pieces.now)) }
{
    let mut said = Clauses {
        kind: None,
        start: None,
        step: None,
        least: None,
        greatest: None,
        cache: None,
        cycle: false,
    };
    let mut at = from;
    'clauses: loop {
        if !unsaid(pieces, at, said).unwrap_or(false) {
            return Ok((said, at));
        }
        let (clause, next) = clause_behind(pieces, at, said)?;
        said = with_clause(said, clause);
        at = next;
    }
}

/// The bound that was given, or the usual one.
fn bound_or(usual: i64, bound: Option<Bound>) -> i64
    ensures { result ≡ bound_or usual bound }
{
    match bound {
        Some(Bound::Given(number)) => number,
        _ => usual,
    }
}

/// Where a sequence starts.
fn usual_start(step: i64, min: i64, max: i64) -> i64
    ensures { result ≡ usual_start step min max }
{
    if step < 0 { max } else { min }
}

/// The numbers that a sequence with these clauses gives out.
#[tactic(auto, unfolding(ddl_grammar::specs::SequenceGrammar::sequence_of))]
fn sequence_of(clauses: Clauses) -> Sequence
    ensures { result ≡ sequence_of clauses }
{
    let kind = clauses.kind.unwrap_or(SequenceKind::BigInt);
    let step = clauses.step.unwrap_or(1);
    let min = bound_or(usual_min(kind, step), clauses.least);
    let max = bound_or(usual_max(kind, step), clauses.greatest);
    Sequence {
        kind,
        start: clauses.start.unwrap_or(usual_start(step, min, max)),
        step,
        min,
        max,
        cache: clauses.cache.unwrap_or(1),
        cycle: clauses.cycle,
    }
}

/// The clauses at a place, as numbers that a sequence gives out.
#[tactic(auto, unfolding(ddl_grammar::specs::SequenceGrammar::sequence))]
pub(crate) fn sequence(pieces: &Pieces<'_>, at: usize) -> Parsed<Sequence>
    ensures { GivesPart pieces.now (λ s. s) result (sequence.read (drop at pieces.now)) }
{
    read!(pieces, at; clauses: sequence_clauses => sequence_of(clauses))
}
