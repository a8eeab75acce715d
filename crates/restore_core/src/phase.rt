//! Where an entry is in a restore.
ghost use Rattle.std.specs.Prelude.{◌≡◌};
ghost use Rattle.restore_core.specs.Phases.{has_ended as the_ended, is_waiting as the_waiting, is_run_by as the_runner};

use restore_plan::EntryStatus;

/// Where an entry is in a restore.
#[derive(Drop)]
pub enum Phase {
    /// It hasn't begun.
    Waiting,
    /// A worker runs it.
    Running {
        /// The worker.
        worker: u32,
        /// How many of its statements have run.
        run: u32,
    },
    /// It has ended.
    Ended(EntryStatus),
}

impl Phase {
    /// Whether it hasn't begun.
    pub fn is_waiting(&self) -> bool
        ensures { result ≡ the_waiting self.now }
    {
        matches!(self, Phase::Waiting)
    }

    /// Whether it has ended.
    pub fn has_ended(&self) -> bool
        ensures { result ≡ the_ended self.now }
    {
        matches!(self, Phase::Ended(_))
    }

    /// Whether this worker runs it.
    pub fn is_run_by(&self, by: u32) -> bool
        ensures { result ≡ the_runner by self.now }
    {
        match self {
            Phase::Running { worker, .. } => *worker == by,
            Phase::Waiting | Phase::Ended(_) => false,
        }
    }
}
