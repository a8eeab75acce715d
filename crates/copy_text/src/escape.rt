//! Escapes: what stands behind a backslash.
ghost use Rattle.std.specs.Prelude.{◌≡◌, ◌<◌, ◌≤◌, ℕ, [], ◌∷◌, length, take};
ghost use Rattle.std.specs.List.{AllPass, prefix_len};
ghost use Rattle.std.specs.Char.{is_digit};
ghost use Rattle.copy_text.specs.Escapes.{byte_of_letter, front_digits, byte_of_digits, escape};

const MOST_OCTAL: usize = 3;

const MOST_HEXADECIMAL: usize = 2;

/// The byte that an escape stands for, and how many bytes it has. `behind` is what follows the backslash.
pub(crate) fn read_escape(behind: &[u8]) -> (u8, usize)
    requires { 0 < length behind.now }
    ensures value { escape behind.now ≡ record { stands_for = result.0 ∷ []; len = result.1 } }
    ensures some { 0 < result.1 }
    ensures within { result.1 ≤ length behind.now }
{
    let octal = digits_at_front(8, MOST_OCTAL, behind);
    if !octal.is_empty() {
        return (byte_of(8, octal), octal.len());
    }
    let hexadecimal = digits_at_front(16, MOST_HEXADECIMAL, &behind[1..]);
    if behind[0] == b'x' && !hexadecimal.is_empty() {
        return (byte_of(16, hexadecimal), hexadecimal.len() + 1);
    }
    (letter_byte(behind[0]), 1)
}

fn digits_at_front(base: u32, most: usize, bytes: &[u8]) -> &[u8]
    requires low { 2 ≤ base }
    requires high { base ≤ 36 }
    ensures value { result.now ≡ front_digits base most bytes.now }
    ensures digits { AllPass (λ c. is_digit c base) result.now }
    ensures within { length result.now ≤ length bytes.now }
{
    let len = digits_len(base, most, bytes);
    &bytes[..len]
}

fn digits_len(base: u32, most: usize, bytes: &[u8]) -> usize
    requires low { 2 ≤ base }
    requires high { base ≤ 36 }
    ensures value { result ≡ prefix_len (λ c. is_digit c base) (take most bytes.now) }
    ensures within { result ≤ length bytes.now }
{
    bytes
        .iter()
        .take(most)
        .take_while(|b| char::from(**b).is_digit(base))
        .count()
}

fn byte_of(base: u32, digits: &[u8]) -> u8
    requires low { 2 ≤ base }
    requires high { base ≤ 36 }
    requires digits { AllPass (λ c. is_digit c base) digits.now }
    ensures { result ≡ byte_of_digits base digits.now }
{
    let mut number: u8 = 0;
    for digit in digits {
        let value = char::from(*digit).to_digit(base).unwrap();
        number = number.wrapping_mul(base as u8).wrapping_add(value as u8);
    }
    number
}

fn letter_byte(letter: u8) -> u8
    ensures { result ≡ byte_of_letter letter }
{
    match letter {
        b'b' => 8,
        b'f' => 12,
        b'n' => b'\n',
        b'r' => b'\r',
        b't' => b'\t',
        b'v' => 11,
        other => other,
    }
}
