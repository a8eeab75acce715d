//! The table of contents of a dump.
#![tactic(auto)]

mod comments;
mod draft;
mod drafts;
mod error;
mod grants;
mod groups;
mod numbering;
mod owner;
mod session;
mod tags;
mod toc;

pub use error::TocError;
pub use toc::entries;
