//! The answer of a restore that has ended.
ghost use Rattle.std.specs.Prelude.{◌≡◌};
ghost use Rattle.restore_folders.specs.Works.{answer_by};

use tool_words::{Outcome, RestoreStop};

/// The answer of a restore that has ended: `RestoreStopped` where it stopped, else `WithErrors` where it passed over any,
/// else `Done`.
pub fn answer_by(errors: u64, stopped: Option<RestoreStop>) -> Outcome
    ensures { result ≡ answer_by errors stopped }
{
    match stopped {
        Some(stop) => Outcome::RestoreStopped(stop),
        None if errors == 0 => Outcome::Done,
        None => Outcome::WithErrors(errors),
    }
}
