//! The outside as the operating system gives it: files, the three streams and the clock, behind the traits of
//! `dump_ports`. What these objects hold is not told; their counts of faults are.
#![tactic(auto)]

mod clock;
mod disk;
mod faults;
mod files;
mod holds;
mod kept;
mod renames;
mod staging;
mod steps;
mod streams;
mod targets;

pub use clock::moment_now;
pub use faults::FileFault;
pub use files::OsFiles;
pub use holds::{Hold, Holdable};
pub use streams::{OsErr, OsIn, OsOut};
