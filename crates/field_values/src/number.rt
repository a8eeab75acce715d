//! Numbers in decimals.
ghost use Rattle.std.specs.Prelude.{◌≡◌, ◌<◌, ◌&&◌, true, IsTrue, min, nat_lt, nat_le};
ghost use Rattle.std.specs.List.{list_all};
ghost use Rattle.cat_model.specs.FieldTypes.{is_digit, is_plain, is_number, number_of};
ghost use Rattle.field_values.specs.Seen.{longest};

/// The number that digits spell, or the greatest that fits where it is greater.
pub(crate) fn number(digits: &[u8]) -> u64
    ensures { result ≡ min (number_of digits.now) longest }
{
    let mut n = 0u64;
    for digit in digits {
        n = n
            .saturating_mul(10)
            .saturating_add(u64::from(digit.saturating_sub(b'0')));
    }
    n
}

fn is_digit(b: u8) -> bool
    ensures { result ≡ is_digit b }
{
    48 <= b && b <= 57
}

/// Whether all bytes are digits.
pub(crate) fn are_digits(text: &[u8]) -> bool
    ensures { result ≡ list_all is_digit text.now }
{
    text.iter().all(|b| is_digit(*b))
}

// Digits without a leading zero.
fn is_plain(digits: &[u8]) -> bool
    ensures { result ≡ is_plain digits.now }
{
    match digits.split_first() {
        Some((d, rest)) if rest.is_empty() => is_digit(*d),
        Some((d, _)) => *d != b'0' && are_digits(digits),
        None => false,
    }
}

// Whether a plain decimal has so few digits that it is at most `high`.
#[tactic(auto, using(crate::proofs::FewDigits::few_digits))]
fn is_few(text: &[u8], high: u64) -> bool
    ensures { IsTrue result → is_plain text.now ≡ true → nat_le (number_of text.now) high ≡ true }
{
    text.len() <= 9 && 999_999_999 <= high
}

// A plain decimal up to `high`.
fn is_positive(text: &[u8], high: u64) -> bool
    requires { high < longest }
    ensures { result ≡ (is_plain text.now && nat_le (number_of text.now) high) }
{
    is_plain(text) && (is_few(text, high) || number(text) <= high)
}

// A plain decimal from 1 to `low`.
fn is_negative(digits: &[u8], low: u64) -> bool
    requires { low < longest }
    ensures { result ≡ (is_plain digits.now && nat_lt 0 (number_of digits.now) && nat_le (number_of digits.now) low) }
{
    let n = number(digits);
    is_plain(digits) && 0 < n && n <= low
}

/// Whether a text is a plain decimal from minus `low` to `high`. There is no minus zero.
#[inline(always)]
pub(crate) fn is_number(text: &[u8], low: u64, high: u64) -> bool
    requires low_fits { low < longest }
    requires high_fits { high < longest }
    ensures { result ≡ is_number low high text.now }
{
    match text.split_first() {
        Some((sign, digits)) if *sign == b'-' => is_negative(digits, low),
        Some(_) => is_positive(text, high),
        None => false,
    }
}
