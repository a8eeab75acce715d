//! One field of a line.
ghost use Rattle.std.specs.Prelude.{◌≡◌, ◌∷◌, Ok, Some, IfSome, List};
ghost use Rattle.std.specs.List.{slice_get};
ghost use Rattle.std.specs.Option.{option_map};
ghost use Rattle.copy_text.specs.Pieces.{pieces};
ghost use Rattle.copy_text.specs.Reading.{row_of};
ghost use Rattle.copy_text.specs.Rows.{Field};
ghost use Rattle.line_fields.specs.Fields.{IsRawFirst, IsFirst, IsBehindFirst, pieces_left};

use memchr::memchr2;

// How long the first piece of a line is, where it has no backslash.
fn piece_len(rest: &[u8]) -> Option<usize>
    ensures { IfSome result (λ n. IsRawFirst rest.now n) }
{
    match memchr2(b'\t', b'\\', rest) {
        Some(at) => { if rest[at] == b'\t' { Some(at) } else { None } }
        None => Some(rest.len()),
    }
}

// What stands behind the first piece of a line, where there is a further piece.
fn behind_piece(rest: &[u8]) -> Option<&[u8]>
    ensures { IfSome result (λ behind. IsBehindFirst rest.now behind.now) }
{
    let len = piece_len(rest)?;
    if len == rest.len() {
        return None;
    }
    let (_, behind) = rest.split_at(len + 1);
    Some(behind)
}

// The first piece of a line.
fn first_piece(rest: &[u8]) -> Option<&[u8]>
    ensures { IfSome result (λ piece. IsFirst rest.now piece.now) }
{
    let len = piece_len(rest)?;
    let (piece, _) = rest.split_at(len);
    Some(piece)
}

/// The first piece of a line, and what stands behind its tab, where there is a further piece; `None` where a backslash stands
/// before its end. It takes no memory.
pub fn split_piece(line: &[u8]) -> Option<(&[u8], Option<&[u8]>)>
    ensures { IfSome result (λ p. pieces line.now ≡ p.0.now ∷ pieces_left (option_map (λ b. b.now) p.1)) }
{
    let len = piece_len(line)?;
    let (piece, _) = line.split_at(len);
    if len == line.len() {
        return Some((piece, None));
    }
    let (_, behind) = line.split_at(len + 1);
    Some((piece, Some(behind)))
}

/// The field at a place of a line, counted from 0, as far as it can be told from the line up to there: if the line reads as a
/// row, the row has this text there. `None` where there is no field at the place, or a backslash stands before its end. What
/// follows the field isn't looked at, nor whether the line reads. It takes no memory.
pub fn line_field(line: &[u8], place: usize) -> Option<&[u8]>
    ensures { IfSome result (λ text. (row : List Field) → row_of line.now ≡ Ok row → slice_get row place ≡ Some (Some text.now)) }
{
    let mut rest = line;
    for i in 0..place {
        rest = behind_piece(rest)?;
    }
    let piece = first_piece(rest)?;
    Some(piece)
}
