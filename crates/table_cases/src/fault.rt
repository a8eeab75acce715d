//! Why the cases weren't all answered.
use dump_ports::{Failed, WholeFault};
use std::alloc::AllocError;

/// Why the cases weren't all answered.
#[derive(Drop)]
pub enum TrialFault {
    /// Memory ran out.
    Memory,
    /// The input isn't a text, or couldn't be read or the answers written.
    Failed,
}

impl From<AllocError> for TrialFault {
    fn from(_error: AllocError) -> TrialFault {
        TrialFault::Memory
    }
}

impl From<Failed> for TrialFault {
    fn from(_error: Failed) -> TrialFault {
        TrialFault::Failed
    }
}

impl From<WholeFault> for TrialFault {
    fn from(_fault: WholeFault) -> TrialFault {
        TrialFault::Failed
    }
}
