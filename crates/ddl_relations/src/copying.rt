//! Readers of COPY up to its semicolon.
ghost use Rattle.std.specs.Prelude.{◌≡◌, drop};
ghost use Rattle.ddl_grammar.specs.Pieces.{GivesPart};
ghost use Rattle.ddl_grammar.specs.CopyGrammar.{some_columns};
ghost use Rattle.ddl_grammar.specs.Syntax.{part};
ghost use Rattle.ddl_grammar.specs.Grammar.{copy_from};

use crate::columns::columns;
use cat_model::{Items, Stmt};
use copy_text::Name;
use ddl_pieces::{Parsed, Pieces, qualified_name, read};
use std::alloc::Global;

/// Columns in brackets, or none.
#[tactic(auto, unfolding(ddl_grammar::specs::CopyGrammar::some_columns))]
fn some_columns(alloc: Global, pieces: &Pieces<'_>, at: usize) -> Parsed<Vec<Name>>
    ensures { GivesPart pieces.now (λ v. v.items) result (some_columns.read (drop at pieces.now)) }
{
    read!(alloc, pieces, at; if at () { -> columns } => Vec::new(alloc))
}

/// COPY up to its semicolon, behind its first word.
#[tactic(auto, unfolding(ddl_grammar::specs::Syntax::part, ddl_grammar::specs::LeafParts::leaf_part, ddl_grammar::specs::Grammar::copy_from))]
pub fn copy_from(alloc: Global, pieces: &Pieces<'_>, at: usize) -> Parsed<Stmt>
    ensures { GivesPart pieces.now (λ s. s) result ((part copy_from).read (drop at pieces.now)) }
{
    read!(alloc, pieces, at; q: qualified_name columns: some_columns "from" "stdin";
        => Stmt::CopyRows { q, columns: Items::new(columns), rows: Items::new(Vec::new(alloc)) })
}
