//! The outside as traits: files, streams and the gate of a worker, with counts of their faults, and objects in
//! memory that implement them.
#![tactic(auto)]

mod calls;
mod failed;
mod files;
mod front;
mod gate;
mod laws;
mod mem_files;
mod mem_sink;
mod mem_source;
mod moment;
mod sink;
mod source;
mod texts;
mod whole;

pub use failed::Failed;
pub use files::Files;
pub use gate::{Gate, OpenGate};
pub use laws::{pieces_make_the_text, worked_examples};
pub use mem_files::MemFiles;
pub use mem_sink::MemSink;
pub use mem_source::MemSource;
pub use moment::Moment;
pub use sink::Sink;
pub use source::Source;
pub use whole::{WholeFault, read_all, read_whole, write_all};
