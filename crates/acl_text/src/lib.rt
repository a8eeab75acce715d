//! Lists of rights as texts, read and written exactly.
#![tactic(auto)]

pub mod laws;
mod list;
mod reading;
mod rights;
mod writing;

pub use list::{Acl, AclItem};
pub use reading::read_acl;
pub use rights::{Privilege, Right, Rights};
pub use writing::write_acl;
