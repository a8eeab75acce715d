//! Keys that are digits, as numbers.
ghost use Rattle.std.specs.Prelude.{◌≡◌, ◌+◌, ◌-◌, ◌*◌, ◌<◌, ◌≤◌, MatchOption, min, true, false};
ghost use Rattle.std.specs.List.{list_all};
ghost use Rattle.key_sets.specs.Numbers.{is_digit, is_numbered, longest, number_of};

fn is_digit(b: u8) -> bool
    ensures { result ≡ is_digit b }
{
    48 <= b && b <= 57
}

// A number with one digit more, or the greatest that fits where it is greater.
#[inline(always)]
fn with_digit(n: usize, digit: u8) -> usize
    requires { 48 ≤ digit }
    ensures { result ≡ min (n * 10 + (digit - 48)) longest }
{
    let value = usize::from(digit - b'0');
    if n <= 1_000_000_000_000_000_000 {
        n * 10 + value
    } else {
        n.saturating_mul(10).saturating_add(value)
    }
}

// The number of a key of digits, or the greatest that fits where it is greater; `None` for another key.
#[inline(always)]
fn number(key: &[u8]) -> Option<usize>
    ensures { MatchOption result (list_all is_digit key.now ≡ false) (λ n. (list_all is_digit key.now ≡ true) × (n ≡ min (number_of key.now) longest)) }
{
    let mut n = 1usize;
    for digit in key {
        if !is_digit(*digit) {
            return None;
        }
        n = with_digit(n, *digit);
    }
    Some(n)
}

/// The place of a key among this many numbers, if it has one: only digits have.
#[inline(always)]
pub(crate) fn place_of(key: &[u8], many: usize) -> Option<usize>
    ensures { MatchOption result (is_numbered many key.now ≡ false) (λ n. (is_numbered many key.now ≡ true) × (n ≡ number_of key.now) × (n < many)) }
{
    let n = number(key)?;
    if n < many { Some(n) } else { None }
}
