//! The texts of statements about tables, sequences, indexes and types.
#![tactic(auto)]
