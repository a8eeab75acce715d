//! Which texts are values of a column's type, and by which bytes they are compared.
//!
//! The types are those of <https://www.postgresql.org/docs/16/datatype.html> whose values are looked at; all others
//! take any text.
#![tactic(auto)]

mod bytea;
mod column;
mod compared;
mod field_type;
mod labels;
mod name_places;
mod number;
mod table;
mod words;

pub use column::ColumnValues;
pub use name_places::NamePlaces;
pub use table::TableColumns;
