//! The parts of statements as texts: written again, they are read as the same.
#![tactic(auto)]
