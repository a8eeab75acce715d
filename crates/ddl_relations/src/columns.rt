//! The columns of a key.
ghost use Rattle.std.specs.Prelude.{◌≡◌, drop};
ghost use Rattle.ddl_grammar.specs.Lexemes.{is_sign};
ghost use Rattle.ddl_grammar.specs.Leaves.{name};
ghost use Rattle.ddl_grammar.specs.Lists.{comma};
ghost use Rattle.ddl_grammar.specs.Parts.{◌▸◌};
ghost use Rattle.ddl_grammar.specs.Pieces.{GivesPart};
ghost use Rattle.ddl_grammar.specs.Columns.{further, columns};

use copy_text::Name;
use ddl_pieces::{Parsed, Pieces, read};
use std::alloc::Global;

fn next_name(alloc: Global, pieces: &Pieces<'_>, at: usize) -> Parsed<Name>
    ensures { GivesPart pieces.now (λ n. n) result ((comma ▸ name).read (drop at pieces.now)) }
{
    read!(alloc, pieces, at; , -> .name)
}

/// Names behind the first, each with its comma.
fn further(alloc: Global, pieces: &Pieces<'_>, from: usize) -> Parsed<Vec<Name>>
    ensures { GivesPart pieces.now (λ v. v.items) result (further.read (drop from pieces.now)) }
{
    let mut names = Vec::new(alloc);
    let mut at = from;
    'names: loop {
        if !pieces.is_sign(at, b',') {
            return Ok((names, at));
        }
        let (name, next) = next_name(alloc, pieces, at)?;
        names.push(name)?;
        at = next;
    }
}

/// Names with commas in brackets, one at least.
#[tactic(auto, unfolding(ddl_grammar::specs::Columns::columns))]
pub(crate) fn columns(alloc: Global, pieces: &Pieces<'_>, at: usize) -> Parsed<Vec<Name>>
    ensures { GivesPart pieces.now (λ v. v.items) result (columns.read (drop at pieces.now)) }
{
    let at = pieces.sign(at, b'(')?;
    let (first, at) = pieces.name(alloc, at)?;
    let (mut names, at) = further(alloc, pieces, at)?;
    names.insert(0, first)?;
    let at = pieces.sign(at, b')')?;
    Ok((names, at))
}
