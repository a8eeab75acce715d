//! Folders whose only objects are schemas: read, changed by the statements of a script, and written.
#![tactic(auto)]

mod folder;
mod namespaces;
mod opening;
mod run;
mod schemas;
mod script;
mod texts;

pub use folder::write_folder;
pub use namespaces::namespaces_text;
pub use opening::{bare_schemas, read_folder};
pub use run::run_script;
pub use schemas::{ApplyFault, SchemaCause, SchemaRow, Schemas};
pub use script::are_taken;
pub use texts::read_file;
