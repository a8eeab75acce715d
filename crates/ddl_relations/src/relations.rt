//! Readers of statements about sequences, views and indexes, behind the words that tell them apart.
ghost use Rattle.std.specs.Prelude.{drop};
ghost use Rattle.ddl_grammar.specs.Pieces.{GivesPart};
ghost use Rattle.ddl_grammar.specs.Syntax.{part};
ghost use Rattle.ddl_grammar.specs.Grammar.{altered_sequence, index_body, created_relation};

use crate::alters::new_owner;
use crate::sequences::sequence;
use cat_model::{Owned, Sequence, Stmt};
use ddl_grammar::Index;
use ddl_pieces::{Parsed, Pieces, halt, qualified_name, read};
use std::alloc::Global;

/// ALTER SEQUENCE, behind these words.
#[tactic(auto, unfolding(ddl_grammar::specs::Syntax::part, ddl_grammar::specs::LeafParts::leaf_part, ddl_grammar::specs::Grammar::altered_sequence, ddl_grammar::specs::Grammar::new_owner))]
pub fn altered_sequence(alloc: Global, pieces: &Pieces<'_>, at: usize) -> Parsed<Stmt>
    ensures { GivesPart pieces.now (λ s. s) result ((part altered_sequence).read (drop at pieces.now)) }
{
    read!(alloc, pieces, at; q: qualified_name
        if at "owner" { role: new_owner => Stmt::OwnerTo { object: Owned::Sequence(q), role } }
        "owned" "by" table: qualified_name . column: .name; => Stmt::OwnedBy { q, table, column })
}

/// The definition of an index, as it stands behind INDEX, and the place behind it.
///
/// `Halted` is the place among the tokens where it doesn't go on, `Memory` that there was none for what it says. It is the
/// whole of the tokens where the place behind it is their number.
/// <https://www.postgresql.org/docs/16/sql-createindex.html>
#[tactic(auto, unfolding(ddl_grammar::specs::Syntax::part, ddl_grammar::specs::LeafParts::leaf_part, ddl_grammar::specs::Grammar::index_body, ddl_grammar::specs::RelationGrammar::bracketed))]
pub fn index_body(alloc: Global, pieces: &Pieces<'_>, at: usize) -> Parsed<Index>
    ensures { GivesPart pieces.now (λ i. i) result ((part index_body).read (drop at pieces.now)) }
{
    read!(alloc, pieces, at; name: .name "on" table: qualified_name "using" method: .name
        if at () { rest: .expression => Index { name, table, method, rest } }
        -> halt[at])
}

/// CREATE of a view, an index or a sequence, behind its first word.
#[tactic(auto, unfolding(ddl_grammar::specs::Syntax::part, ddl_grammar::specs::LeafParts::leaf_part, ddl_grammar::specs::Grammar::created_relation))]
pub fn created_relation(alloc: Global, pieces: &Pieces<'_>, at: usize) -> Parsed<Stmt>
    ensures { GivesPart pieces.now (λ s. s) result ((part created_relation).read (drop at pieces.now)) }
{
    read!(alloc, pieces, at;
        if "view" { q: qualified_name "as" body: .expression; => Stmt::CreateView { q, body } }
        if "or" { "replace" "view" q: qualified_name "as" body: .expression; => Stmt::ReplaceView { q, body } }
        if "index" { (Index { name, table, method, rest }): index_body;
            => Stmt::CreateIndex { q: table, name, method, rest } }
        if "unique" { "index" (Index { name, table, method, rest }): index_body;
            => Stmt::CreateUniqueIndex { q: table, name, method, rest } }
        "sequence" q: qualified_name (Sequence { kind, start, step, min, max, cache, cycle }): sequence[pieces, at];
        => Stmt::CreateSequence { q, kind, start, step, min, max, cache, cycle })
}
