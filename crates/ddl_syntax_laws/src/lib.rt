//! The laws of the syntax of statements: what it reads is what it spells, and what it writes is read as the same.
#![tactic(auto)]
