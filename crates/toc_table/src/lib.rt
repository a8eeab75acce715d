//! Tables of contents: the entries of an archive, each with a dump id of its own.
#![tactic(auto)]

mod fault;
mod ids;
pub mod laws;
mod reading;
mod writing;

pub use fault::{TocHalt, TocStop};
pub use ids::{add_id, has_id, ids_with_rows};
pub use reading::{LIMIT, Toc, read_toc};
pub use writing::write_toc;
