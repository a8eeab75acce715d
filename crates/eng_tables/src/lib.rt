//! Rows by their oids and by the keys of what they stand for, and the oids of new objects.
#![tactic(auto)]

mod fault;
mod let_go;
mod oid_set;
mod table;

pub use fault::InsertFault;
pub use oid_set::OidSet;
pub use table::EngTable;
