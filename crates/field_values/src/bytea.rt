//! Values of `bytea`, and characters of texts.
ghost use Rattle.std.specs.Prelude.{◌≡◌, ◌<◌, ◌∷◌, ◌||◌, MatchOption, length, nat_lt, nat_le, count_by};
ghost use Rattle.std.specs.List.{list_all};
ghost use Rattle.cat_model.specs.FieldTypes.{is_hex, is_bytea, characters};

fn is_hex(b: u8) -> bool
    ensures { result ≡ is_hex b }
{
    matches!(b, b'0'..=b'9' | b'a'..=b'f')
}

fn are_hex(digits: &[u8]) -> bool
    ensures { result ≡ list_all is_hex digits.now }
{
    digits.iter().all(|b| is_hex(*b))
}

// The first two bytes, and what follows them.
fn first_two(text: &[u8]) -> Option<(u8, u8, &[u8])>
    ensures { MatchOption result (length text.now < 2) (λ p. text.now ≡ p.0 ∷ p.1 ∷ p.2.now) }
{
    match text {
        [a, b, rest @ ..] => Some((*a, *b, rest)),
        _ => None,
    }
}

/// Whether a text is a backslash, the letter x and an even number of hexadecimal digits.
/// <https://www.postgresql.org/docs/16/datatype-binary.html>
pub(crate) fn is_bytea(text: &[u8]) -> bool
    ensures { result ≡ is_bytea text.now }
{
    match first_two(text) {
        Some((a, x, digits)) => {
            a == b'\\' && x == b'x' && digits.len() % 2 == 0 && are_hex(digits)
        }
        None => false,
    }
}

/// How many characters a UTF-8 text has.
pub(crate) fn characters(text: &[u8]) -> usize
    ensures { result ≡ characters text.now }
{
    text.iter().filter(|b| **b < 128 || 192 <= **b).count()
}
