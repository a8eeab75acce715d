//! From names back to rows: the tables of labels, columns, defaults, constraints, indexes, sequences, bodies of views and
//! comments, each made in one pass over the entries of a catalogue by names, whose objects have these oids and whose columns
//! have these numbers.
#![tactic(auto)]

mod bodies;
mod columns;
mod comments;
mod constraints;
mod defaults;
mod indexes;
mod labels;
mod let_go;
mod sequences;

pub use bodies::body_rows;
pub use columns::column_rows;
pub use comments::comment_rows;
pub use constraints::constraint_rows;
pub use defaults::default_rows;
pub use indexes::index_rows;
pub use labels::label_rows;
pub use sequences::sequence_rows;
