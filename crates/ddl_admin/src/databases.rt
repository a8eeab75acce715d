//! The reader of CREATE DATABASE.
ghost use Rattle.std.specs.Prelude.{◌≡◌, drop, Some, IfOk};
ghost use Rattle.ddl_grammar.specs.Lexemes.{starts};
ghost use Rattle.ddl_grammar.specs.Parts.{mark};
ghost use Rattle.ddl_grammar.specs.Types.{is_number};
ghost use Rattle.ddl_grammar.specs.Pieces.{GivesPart, GivesPlace};
ghost use Rattle.ddl_grammar.specs.Choices.{any_word};
ghost use Rattle.ddl_grammar.specs.Syntax.{part};
ghost use Rattle.ddl_grammar.specs.Grammar.{create_database};
ghost use Rattle.ddl_grammar.specs.Databases.{word_first, is_bare, own_options, is_option, is_value, further, furthers, utf8, encoded, maybe_encoded, options};

use cat_model::{Encoding, Stmt};
use copy_text::Text;
use ddl_pieces::{Halt, Parsed, Pieces, ReadError, read};
use std::alloc::{AllocError, Global};

/// The bytes of the token at a place.
fn token_text(alloc: Global, pieces: &Pieces<'_>, at: usize) -> Result<Option<Text>, AllocError>
    ensures { IfOk result (λ t. t ≡ word_first (drop at pieces.now)) }
{
    if at >= pieces.len() {
        return Ok(None);
    }
    Ok(Some(pieces.source(alloc, at, at + 1)?))
}

/// Whether the token at a place, which has these bytes, is a bare word: the key word that is spelled so.
#[tactic(auto, using(ddl_grammar_laws::proofs::Further::bare_is))]
fn is_spelled(pieces: &Pieces<'_>, at: usize, word: &str) -> bool
    requires { Some word.now ≡ word_first (drop at pieces.now) }
    ensures { result ≡ starts is_bare (drop at pieces.now) }
{
    pieces.is_word(at, word)
}

/// Whether a bare word stands at a place.
#[tactic(auto, using(ddl_grammar_laws::proofs::Further::no_bare))]
fn is_bare(alloc: Global, pieces: &Pieces<'_>, at: usize) -> Result<bool, AllocError>
    ensures { IfOk result (λ b. b ≡ starts is_bare (drop at pieces.now)) }
{
    let word = token_text(alloc, pieces, at)?;
    match word {
        Some(word) => Ok(is_spelled(pieces, at, word.as_str())),
        None => Ok(false),
    }
}

/// Whether one of the options that stand once at most is named at a place.
fn is_own_option(pieces: &Pieces<'_>, at: usize) -> bool
    ensures { result ≡ starts (any_word own_options) (drop at pieces.now) }
{
    pieces.is_word(at, "template") || pieces.is_word(at, "encoding")
}

/// Whether a further option is named at a place.
#[tactic(auto, using(ddl_grammar_laws::proofs::Further::option_starts))]
fn is_option(alloc: Global, pieces: &Pieces<'_>, at: usize) -> Result<bool, AllocError>
    ensures { IfOk result (λ b. b ≡ starts is_option (drop at pieces.now)) }
{
    let own = is_own_option(pieces, at);
    let bare = is_bare(alloc, pieces, at)?;
    Ok(!own && bare)
}

/// Whether a number stands at a place.
#[tactic(auto, using(ddl_grammar_laws::proofs::Further::some_number, ddl_grammar_laws::proofs::Further::no_number))]
fn is_number(pieces: &Pieces<'_>, at: usize) -> bool
    ensures { result ≡ starts is_number (drop at pieces.now) }
{
    pieces.number(at).is_some()
}

/// Whether the value of an option stands at a place.
#[tactic(auto, using(ddl_grammar_laws::proofs::Further::value_starts))]
fn is_value(pieces: &Pieces<'_>, at: usize) -> bool
    ensures { result ≡ starts is_value (drop at pieces.now) }
{
    if pieces.is_name(at) {
        return true;
    }
    if pieces.is_literal(at) {
        return true;
    }
    is_number(pieces, at)
}

/// The name of a further option, and the place behind it.
#[tactic(auto, using(ddl_pieces::proofs::Places::token_here))]
fn option_name(alloc: Global, pieces: &Pieces<'_>, at: usize) -> Result<usize, ReadError>
    ensures { GivesPlace pieces.now result ((mark is_option).read (drop at pieces.now)) }
{
    if at >= pieces.len() {
        return Err(ReadError::Halted(Halt { long: false, at }));
    }
    let named = is_option(alloc, pieces, at)?;
    if named {
        return Ok(at + 1);
    }
    Err(ReadError::Halted(Halt { long: false, at }))
}

/// The value of an option, and the place behind it.
#[tactic(auto, using(ddl_pieces::proofs::Places::token_here))]
fn option_value(pieces: &Pieces<'_>, at: usize) -> Result<usize, ReadError>
    ensures { GivesPlace pieces.now result ((mark is_value).read (drop at pieces.now)) }
{
    if at >= pieces.len() {
        return Err(ReadError::Halted(Halt { long: false, at }));
    }
    if is_value(pieces, at) {
        return Ok(at + 1);
    }
    Err(ReadError::Halted(Halt { long: false, at }))
}

/// A further option with its value.
#[tactic(auto, unfolding(ddl_grammar::specs::Databases::further))]
fn further(alloc: Global, pieces: &Pieces<'_>, at: usize) -> Result<usize, ReadError>
    ensures { GivesPlace pieces.now result (further.read (drop at pieces.now)) }
{
    let at = option_name(alloc, pieces, at)?;
    let at = pieces.sign(at, b'=')?;
    option_value(pieces, at)
}

/// Any number of further options, and the place behind them.
fn furthers(alloc: Global, pieces: &Pieces<'_>, from: usize) -> Result<usize, ReadError>
    ensures { GivesPlace pieces.now result (furthers.read (drop from pieces.now)) }
{
    let mut at = from;
    'options: loop {
        let named = is_option(alloc, pieces, at)?;
        if !named {
            return Ok(at);
        }
        at = further(alloc, pieces, at)?;
    }
}

/// The literal UTF8.
#[tactic(auto, using(ddl_grammar_laws::proofs::Further::utf8_read))]
fn utf8(alloc: Global, pieces: &Pieces<'_>, at: usize) -> Parsed<Encoding>
    ensures { GivesPart pieces.now (λ e. e) result (utf8.read (drop at pieces.now)) }
{
    let (text, next) = pieces.literal(alloc, at)?;
    if text.as_str() == "UTF8" {
        return Ok((Encoding::Utf8, next));
    }
    Err(ReadError::Halted(Halt { long: false, at }))
}

/// The statement CREATE DATABASE, behind these words, and the place behind it.
///
/// The template is `template0`. Behind it stand options with a word, a name, a literal or a number as their value: the
/// encoding, which is `'UTF8'` and stands once at most, and others, which are dropped. No second template stands there.
///
/// # Errors
///
/// `Halted` tells the first token with which no such statement goes on, `Memory` that memory ran out.
#[tactic(auto, unfolding(ddl_grammar::specs::Syntax::part, ddl_grammar::specs::LeafParts::leaf_part, ddl_grammar::specs::Grammar::create_database, ddl_grammar::specs::Databases::options, ddl_grammar::specs::Databases::maybe_encoded, ddl_grammar::specs::Databases::encoded))]
pub fn create_database(alloc: Global, pieces: &Pieces<'_>, at: usize) -> Parsed<Stmt>
    ensures { GivesPart pieces.now (λ s. s) result ((part create_database).read (drop at pieces.now)) }
{
    read!(alloc, pieces, at; name: .name "with" "template" = "template0" ..furthers
        if "encoding" { = encoding: utf8 ..furthers; => Stmt::CreateDatabase { name, encoding: Some(encoding) } }
        ; => Stmt::CreateDatabase { name, encoding: None })
}
