//! Restores into folders: an archive's entries carried out on an opening, the report of what came of them, and the texts of
//! a folder that stands for what they leave.
#![tactic(auto)]

mod answer;
mod reading;
mod refusal;
mod running;
mod work;
mod writing;

pub use answer::answer_by;
pub use reading::read_work;
pub use refusal::OnRefusal;
pub use running::{RestoreRun, run_work};
pub use work::RestoreWork;
pub use writing::write_run;
