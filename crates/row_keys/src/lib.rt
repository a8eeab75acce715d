//! Keys of rows: which rows have the key of an earlier one, which have no parent, and which have a null in a key.
#![tactic(auto)]

mod joined_rows;
mod key_places;
mod nulls;
mod orphans;
mod repeating;
mod row_key;
mod seen;

pub use joined_rows::JoinedRows;
pub use nulls::null_in;
pub use orphans::orphan;
pub use repeating::repeated;
pub use row_key::RowKey;
