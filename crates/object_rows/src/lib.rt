//! The rows of types, labels, relations, columns, defaults, constraints, indexes, sequences, bodies of views and comments, made
//! of what a catalogue by names has and of oids.
#![tactic(auto)]

mod columns;
mod constraints;
mod indexes;
mod letters;
mod notes;
mod parts;
mod relations;
mod sequences;
mod texts;
mod types;
mod views;
mod words;

pub use columns::{column_row, default_row};
pub use constraints::{check_row, constraint_row};
pub use indexes::index_row;
pub use notes::comment_row;
pub use parts::{ColumnPlace, ConstraintOids, Head, Place};
pub use relations::{index_class, sequence_class, table_class, view_class};
pub use sequences::sequence_row;
pub use types::{domain_row, enum_row, label_row};
pub use views::body_row;
