//! Whether two catalogues by names are the same, value by value and key by key.
#![tactic(auto)]

mod checks;
mod grants;
mod map;
mod value;

pub use map::same_maps;
pub use value::same_value;
