//! A pattern.
ghost use Rattle.std.specs.Prelude.{◌≡◌};
ghost use Rattle.std.specs.Option.{option_copied};

use crate::atom::Part;
use std::marker::Model;

/// A pattern that was read. A contract sees it as its two parts.
#[derive(Drop)]
pub struct Pattern {
    schema: Option<Part>,
    name: Part,
}

impl Model for Pattern {
    ghost use Rattle.patterns.specs.Parts.{Parts};

    ghost Value = { Parts };

    ghost view = { λ p. record { schema = p.schema; name = p.name } };
}

impl Pattern {
    /// The pattern of these parts.
    pub(crate) fn from_parts(schema: Option<Part>, name: Part) -> Pattern
        ensures { result ≡ record { schema = schema; name = name } }
    {
        Pattern { schema, name }
    }

    /// The part before the dot, where there is one.
    pub fn schema(&self) -> Option<&Part>
        ensures { option_copied result ≡ self.now.schema }
    {
        self.schema.as_ref()
    }

    /// The part behind the dot, or the whole pattern.
    pub fn name(&self) -> &Part
        ensures { result.now ≡ self.now.name }
    {
        &self.name
    }
}
