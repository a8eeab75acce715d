//! The statements that make the objects of a dump again, and those that take them away.
#![tactic(auto)]

mod defn;
mod drops;
mod keys;
mod pieces;
mod sequences;
mod tables;
mod texts;
mod types;
mod views;

pub use defn::{defn_of, path_of};
pub use drops::drop_of;
pub use pieces::{put_name, put_path};
pub use sequences::owned_by;
pub use tables::copy_line;
pub use texts::{empty_text, spelled, text_of, text_of_vec};
pub use types::is_domain;
