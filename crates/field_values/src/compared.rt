//! The bytes by which values of `character` are compared.
ghost use Rattle.std.specs.Prelude.{◌≡◌};
ghost use Rattle.cat_model.specs.FieldTypes.{trimmed};

/// A text without its trailing spaces.
pub(crate) fn trimmed(text: &[u8]) -> &[u8]
    ensures { result.now ≡ trimmed text.now }
{
    let mut left = text;
    while let Some((last, rest)) = left.split_last() {
        if *last != b' ' {
            return left;
        }
        left = rest;
    }
    left
}
