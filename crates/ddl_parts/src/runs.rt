//! Where a run of tokens with balanced brackets stands.
ghost use Rattle.ddl_parts.specs.declared.runs.Spot.TheVariants.{Inside};

/// An open bracket.
#[derive(Clone, Copy)]
pub enum Bracket {
    /// A round one.
    Round,
    /// A square one.
    Square,
}

/// Where a run stands outside brackets.
#[derive(Clone, Copy)]
pub enum Spot {
    /// Before its first token.
    First,
    /// Behind a first NOT.
    FirstNot,
    /// Behind a later NOT.
    LaterNot,
    /// Behind anything else.
    Inside,
    /// Behind NOT NULL, which ends it.
    Closed,
}
