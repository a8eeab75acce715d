//! All tokens of a text, and what was read of them as a whole.
ghost use Rattle.std.specs.Prelude.{◌≡◌, ◌≤◌, length, Err, IfOk, OnErr};
ghost use Rattle.ddl_part_laws.specs.fault.ReadError.TheVariants as errors;
ghost use Rattle.ddl_part_laws.specs.Parts.{Reading};
ghost use Rattle.ddl_part_laws.specs.Pieces.{GivesPart};
ghost use Rattle.row_texts.specs.Tokens.{is_end, all_tokens};
ghost use Rattle.row_texts.specs.Texts.{all_read};

use ddl_pieces::{Pieces, ReadError, Run, collect};
use sql_lex::next_token;
use std::alloc::{AllocError, Global};

// Whether blanks and comments alone stand behind a place.
fn is_end(text: &[u8], at: usize) -> bool
    requires { at ≤ length text.now }
    ensures { result ≡ is_end text.now at }
{
    matches!(next_token(text, at), Ok(None))
}

/// All tokens of a text; `None` where it has a fault, or a token behind its first semicolon.
pub fn all_tokens<'a>(alloc: Global, text: &'a [u8]) -> Result<Option<Pieces<'a>>, AllocError>
    ensures { IfOk result (λ pieces. pieces ≡ all_tokens text.now) }
{
    let Run { pieces, end, .. } = collect(alloc, text, 0)?;
    if !is_end(text, end) {
        return Ok(None);
    }
    Ok(Some(Pieces::new(text, pieces)))
}

/// What was read of these tokens from the first on; `None` where nothing was, or where a token is left behind it.
pub fn all_read<T: Drop>(
    pieces: &Pieces<'_>,
    reading: Result<(T, usize), ReadError>,
) -> Result<Option<T>, AllocError>
    ensures exact { (due : Reading T) → GivesPart pieces.now (λ v. v) reading due → IfOk result (λ value. value ≡ all_read due) }
    ensures memory { OnErr result (reading ≡ Err errors.Memory) }
{
    match reading {
        Ok((value, end)) => Ok((end >= pieces.len()).then_some(value)),
        Err(ReadError::Memory) => Err(AllocError),
        Err(ReadError::Halted(_)) => Ok(None),
    }
}
