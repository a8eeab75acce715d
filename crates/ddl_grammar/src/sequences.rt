//! The clauses of a sequence.
use cat_model::SequenceKind;

/// A bound of a sequence, as it was said.
#[derive(Clone, Copy)]
pub enum Bound {
    /// The usual one.
    Usual,
    /// This one.
    Given(i64),
}

/// A clause of a sequence.
#[derive(Clone, Copy)]
pub enum Clause {
    /// The type of its numbers.
    Kind(SequenceKind),
    /// Where it starts.
    Start(i64),
    /// Its step.
    Step(i64),
    /// Its least number.
    Least(Bound),
    /// Its greatest number.
    Greatest(Bound),
    /// How many numbers are kept ready.
    Cache(i64),
    /// It begins again at its end.
    Cycle,
}

/// The clauses of a sequence so far.
#[derive(Clone, Copy)]
pub struct Clauses {
    /// The type of its numbers.
    pub kind: Option<SequenceKind>,
    /// Where it starts.
    pub start: Option<i64>,
    /// Its step.
    pub step: Option<i64>,
    /// Its least number.
    pub least: Option<Bound>,
    /// Its greatest number.
    pub greatest: Option<Bound>,
    /// How many numbers are kept ready.
    pub cache: Option<i64>,
    /// Whether it begins again at its end.
    pub cycle: bool,
}
