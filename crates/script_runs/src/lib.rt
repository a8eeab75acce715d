//! Scripts run on openings: the statements one after another, the report of those that were refused, and the texts of a
//! folder that stands for what they leave.
#![tactic(auto)]

mod boot;
mod running;
mod stopping;
mod texts;

pub use boot::boot_role;
pub use running::{ScriptRun, run_opening};
pub use texts::named_texts;
