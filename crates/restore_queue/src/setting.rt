//! Where one entry is, and what one worker runs.
ghost use Rattle.std.specs.Prelude.{◌≡◌, ◌<◌, length, slice_set};

use restore_core::Phase;
use std::mem;

/// An entry goes into another phase.
pub(crate) fn set_phase(phases: &mut Vec<Phase>, i: usize, phase: Phase)
    requires { i < length phases.old.items }
    ensures { phases.new.items ≡ slice_set phases.old.items i phase }
{
    drop(mem::replace(&mut phases[i], phase));
}

/// A worker runs another entry, or none.
pub(crate) fn set_running(running: &mut Vec<Option<usize>>, worker: u32, entry: Option<usize>)
    requires { worker < length running.old.items }
    ensures { running.new.items ≡ slice_set running.old.items worker entry }
{
    running[worker as usize] = entry;
}
