//! Worked examples alone: what options of a dump choose of small catalogues, and what depends on what there.
#![tactic(auto)]

pub mod laws;
