//! What came of the entries of a restore.
ghost use Rattle.std.specs.Prelude.{◌≡◌, ◌<◌, ◌≤◌, ◌++◌, ◌∷◌, [], length, vec_capacity};
ghost use Rattle.std.specs.List.{filter_map};
ghost use Rattle.restore_core.specs.Phases.{status_in};

use restore_core::Phase;
use restore_plan::EntryStatus;

// Adds the status of an entry that has ended.
fn push_status(statuses: &mut Vec<EntryStatus>, phase: Phase)
    requires { length statuses.old.items < vec_capacity statuses.old }
    ensures items { statuses.new.items ≡ statuses.old.items ++ filter_map status_in (phase ∷ []) }
    ensures capacity { vec_capacity statuses.new ≡ vec_capacity statuses.old }
{
    match phase {
        Phase::Ended(status) => statuses.push_reserved(status),
        Phase::Waiting | Phase::Running { .. } => {}
    }
}

/// The statuses of the entries that have ended, in their order. They are put into an empty list with room for all.
pub(crate) fn statuses_of(phases: Vec<Phase>, mut statuses: Vec<EntryStatus>) -> Vec<EntryStatus>
    requires none { statuses.items ≡ [] }
    requires room { length phases.items ≤ vec_capacity statuses }
    ensures { result.items ≡ filter_map status_in phases.items }
{
    let mut left = phases.into_iter();
    'entries: while let Some(phase) = left.next() {
        push_status(&mut statuses, phase);
    }
    statuses
}
