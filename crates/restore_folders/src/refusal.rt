//! What a restore does behind a refusal.
ghost use Rattle.std.specs.Prelude.{◌≡◌};
ghost use Rattle.restore_folders.specs.Works.{stops};
ghost use Rattle.restore_folders.specs.Written.{is_written};

use tool_words::RestoreStop;

/// What a restore does where a statement of an entry is refused.
/// <https://www.postgresql.org/docs/16/app-pgrestore.html>
#[derive(Clone, Copy)]
pub enum OnRefusal {
    /// It goes on with the next entry that it may restore.
    GoOn,
    /// It stops, and what it has restored is written.
    Stop,
    /// It stops, and nothing is written.
    Undo,
}

impl OnRefusal {
    /// Whether a restore stops at the first refusal.
    pub fn stops(self) -> bool
        ensures { result ≡ stops self }
    {
        match self {
            OnRefusal::GoOn => false,
            OnRefusal::Stop | OnRefusal::Undo => true,
        }
    }

    /// Whether the folder is written once a restore has stopped here, or hasn't.
    pub fn writes(self, stopped: &Option<RestoreStop>) -> bool
        ensures { result ≡ is_written self stopped.now }
    {
        match (self, stopped) {
            (OnRefusal::Undo, Some(_)) => false,
            _ => true,
        }
    }
}
