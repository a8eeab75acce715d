//! The words of the program as the system gives them, the screens that tell how it is called, and what is told where the
//! program itself refuses.
#![tactic(auto)]

mod arguments;
mod help;
mod telling;

pub use arguments::{ArgumentFault, read_arguments};
pub use help::screens_of;
pub use telling::{exit_status, let_go, print, refuse, told};
