//! Answers to the cases that stand on texts of system tables: the first fault of tables, changes to a folder, catalogues
//! that are compared, and what a dump chooses and holds.
#![tactic(auto)]

mod base;
mod changes;
mod checks;
mod comparing;
mod fault;
mod kind;
mod selecting;

pub use crate::base::Base;
pub use crate::changes::change_texts;
pub use crate::checks::check_texts;
pub use crate::comparing::{compare_texts, formed};
pub use crate::fault::TrialFault;
pub use crate::kind::{Checked, checked_of};
pub use crate::selecting::{dump, select};
