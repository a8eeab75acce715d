//! Laws of the definitions, each the contract of a function that does nothing.
ghost use Rattle.graph_laws.specs.Keys.{TwoTables};
ghost use Rattle.graph_laws.specs.Serial.{Serial};
ghost use Rattle.graph_laws.specs.Views.{Ring, Grouped};
ghost use Rattle.graph_laws.specs.Types.{BothWays};
ghost use Rattle.graph_laws.specs.Chosen.{Chosen, Refused};

/// Worked examples of keys: what a foreign key depends on.
pub fn keys_meet_the_examples()
    ensures { TwoTables }
{}

/// Worked examples of sequences: a table and the sequence of its column depend on each other.
pub fn sequences_meet_the_examples()
    ensures { Serial }
{}

/// Worked examples of views: of each other, and of a key.
pub fn views_meet_the_examples()
    ensures ring { Ring }
    ensures grouped { Grouped }
{}

/// Worked examples of types: rows of pg_depend between them.
pub fn types_meet_the_examples()
    ensures { BothWays }
{}

/// Worked examples of selections: what options choose, and the patterns that are refused.
pub fn selections_meet_the_examples()
    ensures chosen { Chosen }
    ensures refused { Refused }
{}
