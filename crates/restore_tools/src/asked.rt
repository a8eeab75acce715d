//! What the words say of a refusal.
ghost use Rattle.std.specs.Prelude.{◌≡◌};
ghost use Rattle.restore_tools.specs.Due.{refusal_of};

use command_line::RestoreWords;
use restore_folders::OnRefusal;

/// What a restore does where a statement is refused: `-1` undoes it, and `-e` stops it.
pub(crate) fn refusal_of(words: &RestoreWords) -> OnRefusal
    ensures { result ≡ refusal_of words.now }
{
    if words.single_transaction {
        OnRefusal::Undo
    } else if words.exit_on_error {
        OnRefusal::Stop
    } else {
        OnRefusal::GoOn
    }
}
