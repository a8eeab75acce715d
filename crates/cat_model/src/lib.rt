//! The catalogue by names: its keys and values, the statements over it, their effects and footprints.
#![tactic(auto)]

mod cause;
mod checks;
mod class;
mod conflict;
mod constraint;
mod copies;
mod fk_set;
mod footprint;
mod grant;
mod grants;
mod holder;
mod items;
mod key;
mod key_order;
mod object;
mod rows;
mod stmt;
mod table;
mod type_name;
mod value;
mod words;

pub use cause::Cause;
pub use checks::Checks;
pub use class::{Class, Mark};
pub use conflict::conflicts;
pub use constraint::{ConstraintKind, Encoding, SequenceKind};
pub use fk_set::FkSet;
pub use footprint::Footprint;
pub use grant::{Commented, Granted, Grantee, Owned, Rights};
pub use grants::Grants;
pub use holder::{Holder, Item};
pub use items::Items;
pub use key::Key;
pub use object::{Object, QName};
pub use rows::TableRows;
pub use stmt::Stmt;
pub use table::{CheckDef, ColumnDef, RoleChanges};
pub use type_name::TypeName;
pub use value::{Column, Constraint, Domain, Index, Membership, Resolved, Role, Sequence, Value};
pub use words::{Sections, What};
