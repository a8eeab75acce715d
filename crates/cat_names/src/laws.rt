//! Laws of the definitions, each the contract of a function that does nothing.
ghost use Rattle.cat_names.specs.Examples.{Names};

/// Worked examples of what a catalogue stands for by names, computed from the definitions.
pub fn worked_examples()
    ensures { Names }
{}
