//! The fifteen system tables of an export folder, read and written exactly.
#![tactic(auto)]

mod catalogue;
mod cell;
mod columns;
mod constraints;
mod fault;
mod fields;
mod kind;
pub mod laws;
mod letter;
mod notes;
mod reading;
mod relations;
mod roles;
mod row_list;
mod schemas;
mod sequences;
mod table;
mod table_row;
mod table_text;
mod types;
mod value;

pub use acl_text::{Acl, AclItem, Privilege, Right, Rights};
pub use catalogue::{Catalogue, read_table, write_table};
pub use cell::{Cell, Cells};
pub use constraints::ConstraintRow;
pub use fault::{ReadCellsError, ReadTableError, RowFault, TableFault};
pub use kind::{
    ColKind, PG_ATTRDEF, PG_ATTRIBUTE, PG_AUTH_MEMBERS, PG_AUTHID, PG_CLASS, PG_CONSTRAINT,
    PG_DATABASE, PG_DEPEND, PG_DESCRIPTION, PG_ENUM, PG_INDEX, PG_NAMESPACE, PG_REWRITE,
    PG_SEQUENCE, PG_TYPE, TableSpec,
};
pub use letter::Letter;
pub use notes::{DependRow, DescriptionRow};
pub use reading::read_cells;
pub use relations::{AttrdefRow, AttributeRow, ClassRow, IndexRow, RewriteRow};
pub use roles::{AuthMembersRow, AuthidRow, DatabaseRow};
pub use row_list::Rows;
pub use schemas::NamespaceRow;
pub use sequences::SequenceRow;
pub use table::SysTable;
pub use types::{EnumRow, TypeRow};
