//! Readers of a sequence's value, behind SELECT pg_catalog.setval.
ghost use Rattle.std.specs.Prelude.{◌≡◌, drop};
ghost use Rattle.ddl_grammar.specs.Pieces.{GivesPart};
ghost use Rattle.ddl_grammar.specs.Shortened.{path_in};
ghost use Rattle.ddl_grammar.specs.ValueGrammar.{GivesPath, literal_path, truth};
ghost use Rattle.ddl_grammar.specs.Syntax.{part};
ghost use Rattle.ddl_grammar.specs.Grammar.{set_value};

use cat_model::{QName, Stmt};
use ddl_pieces::{
    Halt, Parsed, Pieces, ReadError, Run, collect, qualified_name, read, whole_number,
};
use std::alloc::Global;

/// The path that all tokens of a text spell. Where they spell none, reading halts at the place that is given, and tells
/// whether it is for a name that is too long.
#[tactic(auto, unfolding(ddl_parts::specs::Shortened::path_in))]
fn path_in(alloc: Global, text: &[u8], at: usize) -> Result<QName, ReadError>
    ensures { GivesPath at result (path_in text.now) }
{
    let Run { pieces, fault, .. } = collect(alloc, text, 0)?;
    let pieces = Pieces::new(text, pieces);
    match qualified_name(alloc, &pieces, 0) {
        Ok((q, end)) => {
            if fault.is_some() || end < pieces.len() {
                return Err(ReadError::Halted(Halt { long: false, at }));
            }
            Ok(q)
        }
        Err(ReadError::Halted(Halt { long, .. })) => Err(ReadError::Halted(Halt { long, at })),
        Err(ReadError::Memory) => Err(ReadError::Memory),
    }
}

/// The path in the literal at a place, and the place behind it.
fn literal_path(alloc: Global, pieces: &Pieces<'_>, at: usize) -> Parsed<QName>
    ensures { GivesPart pieces.now (λ q. q) result (literal_path.read (drop at pieces.now)) }
{
    let (text, end) = pieces.literal(alloc, at)?;
    let q = path_in(alloc, text.as_bytes(), at)?;
    Ok((q, end))
}

#[tactic(auto, unfolding(ddl_grammar::specs::ValueGrammar::truth))]
fn truth(pieces: &Pieces<'_>, at: usize) -> Parsed<bool>
    ensures { GivesPart pieces.now (λ b. b) result (truth.read (drop at pieces.now)) }
{
    read!(pieces, at; if "true" { => true } "false" => false)
}

/// setval with its values, behind its name.
#[tactic(auto, unfolding(ddl_grammar::specs::Syntax::part, ddl_grammar::specs::LeafParts::leaf_part, ddl_grammar::specs::Grammar::set_value))]
pub fn set_value(alloc: Global, pieces: &Pieces<'_>, at: usize) -> Parsed<Stmt>
    ensures { GivesPart pieces.now (λ s. s) result ((part set_value).read (drop at pieces.now)) }
{
    read!(alloc, pieces, at; (q: literal_path, value: whole_number[pieces, at], called: truth[pieces, at]);
        => Stmt::SetVal { q, value, called })
}
