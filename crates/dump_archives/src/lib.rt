//! Dumps in the custom format, written as they are made.
//!
//! `laws` says what holds of the definitions alone.
#![tactic(auto)]

mod block;
mod custom;
mod front;
pub mod laws;
mod pack;
mod passing;

pub use custom::custom_dump;
