//! The words of the command line, the outcomes of the tools, and the lines that tell them.
#![tactic(auto)]

mod keys;
mod outcome;
mod stop;
mod telling;
mod words;

pub use keys::Difference;
pub use outcome::{ExportFault, Limit, Outcome, Unmatched};
pub use stop::{RestoreStop, Stop};
pub use telling::{tell, write_bytes};
pub use words::{
    ArchiveAsked, Asked, DumpAsked, RestoreAsked, ScriptSource, Teller, read_asked, teller_of,
};
