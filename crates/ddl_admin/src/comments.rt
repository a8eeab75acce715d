//! The reader of COMMENT ON.
ghost use Rattle.std.specs.Prelude.{◌≡◌, codes, drop};
ghost use Rattle.cat_model.specs.declared.stmt.Stmt.TheVariants.{Comment};
ghost use Rattle.ddl_grammar.specs.Pieces.{GivesPart};
ghost use Rattle.ddl_grammar.specs.Lexemes.{is_word};
ghost use Rattle.ddl_grammar.specs.Parts.{◌▸◌};
ghost use Rattle.ddl_grammar.specs.Syntax.{part};
ghost use Rattle.ddl_grammar.specs.Grammar.{remark_end, path_remarked, commented_object};

use cat_model::{Commented, QName, Stmt};
use copy_text::Text;
use ddl_pieces::{Parsed, Pieces, qualified_name, read};
use std::alloc::Global;

#[tactic(auto, unfolding(ddl_grammar::specs::Syntax::part, ddl_grammar::specs::LeafParts::leaf_part, ddl_grammar::specs::Grammar::remark_end, ddl_grammar::specs::Comments::remark))]
fn remark_end(alloc: Global, pieces: &Pieces<'_>, at: usize) -> Parsed<Option<Text>>
    ensures { GivesPart pieces.now (λ t. t) result ((part remark_end).read (drop at pieces.now)) }
{
    read!(alloc, pieces, at; "is" if "null" { ; => None } text: .literal; => Some(text))
}

/// The comment on an object.
fn comment(object: Commented, text: Option<Text>) -> Stmt
    ensures { result ≡ Comment object text }
{
    Stmt::Comment { object, text }
}

/// A path and what is remarked on it.
#[tactic(auto, unfolding(ddl_grammar::specs::Syntax::part, ddl_grammar::specs::LeafParts::leaf_part, ddl_grammar::specs::Grammar::path_remarked))]
fn path_remarked(alloc: Global, pieces: &Pieces<'_>, at: usize) -> Parsed<(QName, Option<Text>)>
    ensures { GivesPart pieces.now (λ x. x) result ((part path_remarked).read (drop at pieces.now)) }
{
    read!(alloc, pieces, at; q: qualified_name text: remark_end => (q, text))
}

#[tactic(auto, unfolding(ddl_grammar::specs::Syntax::part, ddl_grammar::specs::LeafParts::leaf_part, ddl_grammar::specs::Grammar::commented_object))]
fn commented_object(alloc: Global, pieces: &Pieces<'_>, at: usize) -> Parsed<Stmt>
    ensures { GivesPart pieces.now (λ s. s) result ((part commented_object).read (drop at pieces.now)) }
{
    read!(alloc, pieces, at;
        if "schema" { name: .name text: remark_end => comment(Commented::Schema(name), text) }
        if "type" { x: path_remarked => comment(Commented::Type(x.0), x.1) }
        if "domain" { x: path_remarked => comment(Commented::Domain(x.0), x.1) }
        if "table" { x: path_remarked => comment(Commented::Table(x.0), x.1) }
        if "view" { x: path_remarked => comment(Commented::View(x.0), x.1) }
        if "sequence" { x: path_remarked => comment(Commented::Sequence(x.0), x.1) }
        if "index" { x: path_remarked => comment(Commented::Index(x.0), x.1) }
        if "column" { q: qualified_name . name: .name text: remark_end => comment(Commented::Column(q, name), text) }
        "constraint" name: .name "on" x: path_remarked => comment(Commented::Constraint(x.0, name), x.1))
}

/// The statement COMMENT ON, behind COMMENT, and the place behind it.
///
/// The kinds are SCHEMA, TYPE, DOMAIN, TABLE, VIEW, SEQUENCE, INDEX, COLUMN and CONSTRAINT (of a table), and the text is
/// a literal without escapes, or NULL for none.
///
/// # Errors
///
/// `Halted` tells the first token with which no such statement goes on, `Memory` that memory ran out.
pub fn comment_on(alloc: Global, pieces: &Pieces<'_>, at: usize) -> Parsed<Stmt>
    ensures { GivesPart pieces.now (λ s. s) result ((is_word (codes "on") ▸ part commented_object).read (drop at pieces.now)) }
{
    read!(alloc, pieces, at; "on" -> commented_object)
}
