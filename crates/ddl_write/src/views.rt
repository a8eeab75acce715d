//! The body of a view.
ghost use Rattle.std.specs.Prelude.{◌≡◌};
ghost use Rattle.ddl_spelling.specs.Views.{stands_alone, space_before};

use sql_lex::next_token;

/// Whether nothing or a newline follows the first token.
#[tactic(auto, unfolding(ddl_spelling::specs::Views::stands_alone))]
fn stands_alone(body: &[u8]) -> bool
    ensures { result ≡ stands_alone body.now }
{
    match next_token(body, 0) {
        Ok(Some(token)) => match &body[token.end..] {
            [] => true,
            [first, ..] => *first == b'\n',
        },
        _ => false,
    }
}

/// The space before a body.
#[tactic(auto, unfolding(ddl_spelling::specs::Views::space_before))]
pub(crate) fn space_before(body: &[u8]) -> &'static [u8]
    ensures { result.now ≡ space_before body.now }
{
    if stands_alone(body) { b"" } else { b" " }
}
