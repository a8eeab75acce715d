//! Letters that stand for kinds.
ghost use Rattle.std.specs.Prelude.{◌≡◌, ◌<◌};

use cat_rows::Letter;

/// The letter of a byte of ASCII.
pub(crate) fn letter(byte: u8) -> Letter
    requires { byte < 128 }
    ensures { result ≡ byte }
{
    match Letter::new(byte) {
        Some(letter) => letter,
        None => unreachable!(),
    }
}
