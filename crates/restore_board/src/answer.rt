//! What a board answers to a step.

/// What a board answers to a step of a worker.
#[derive(Clone, Copy)]
pub enum StepAnswer {
    /// A statement of the worker's entry ran, and the entry goes on.
    More,
    /// The worker's entry has ended.
    Done,
    /// The worker runs no entry.
    Idle,
    /// There was no memory; nothing has changed.
    Memory,
}
