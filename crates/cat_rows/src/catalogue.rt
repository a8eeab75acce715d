//! The catalogue of an export folder: the rows of its system tables.
ghost use Rattle.std.specs.Prelude.{◌≡◌, OnOk, OnErr, List};
ghost use Rattle.cat_rows.specs.declared.cell.Cell.{Cell as CellValue};
ghost use Rattle.cat_rows.specs.Reading.{GivesTable, table_of};
ghost use Rattle.cat_rows.specs.Writing.{IsWritten};
ghost use Rattle.cat_rows.specs.Catalogues.{rows_in, no_rows, SameBut};

use crate::constraints::ConstraintRow;
use crate::fault::ReadTableError;
use crate::notes::{DependRow, DescriptionRow};
use crate::relations::{AttrdefRow, AttributeRow, ClassRow, IndexRow, RewriteRow};
use crate::roles::{AuthMembersRow, AuthidRow, DatabaseRow};
use crate::row_list::Rows;
use crate::schemas::NamespaceRow;
use crate::sequences::SequenceRow;
use crate::table::SysTable;
use crate::table_text::{read_into, write_rows};
use crate::types::{EnumRow, TypeRow};
use std::alloc::{AllocError, Global};

/// The rows of the system tables, each in the order of its text.
#[derive(Drop)]
pub struct Catalogue {
    /// The roles.
    pub pg_authid: Rows<AuthidRow>,
    /// Which role is a member of which.
    pub pg_auth_members: Rows<AuthMembersRow>,
    /// The databases.
    pub pg_database: Rows<DatabaseRow>,
    /// The schemas.
    pub pg_namespace: Rows<NamespaceRow>,
    /// The enums and domains.
    pub pg_type: Rows<TypeRow>,
    /// The labels of enums.
    pub pg_enum: Rows<EnumRow>,
    /// The tables, views, sequences and indexes.
    pub pg_class: Rows<ClassRow>,
    /// The columns of tables and views.
    pub pg_attribute: Rows<AttributeRow>,
    /// The defaults of columns.
    pub pg_attrdef: Rows<AttrdefRow>,
    /// The constraints of tables and domains.
    pub pg_constraint: Rows<ConstraintRow>,
    /// The indexes that stand for no constraint.
    pub pg_index: Rows<IndexRow>,
    /// The sequences' parameters and values.
    pub pg_sequence: Rows<SequenceRow>,
    /// The queries of views.
    pub pg_rewrite: Rows<RewriteRow>,
    /// The comments.
    pub pg_description: Rows<DescriptionRow>,
    /// Further dependencies.
    pub pg_depend: Rows<DependRow>,
}

impl Catalogue {
    /// A catalogue without rows. It takes no memory.
    pub fn new(alloc: Global) -> Catalogue
        ensures { result ≡ no_rows }
    {
        Catalogue {
            pg_authid: Rows::new(alloc),
            pg_auth_members: Rows::new(alloc),
            pg_database: Rows::new(alloc),
            pg_namespace: Rows::new(alloc),
            pg_type: Rows::new(alloc),
            pg_enum: Rows::new(alloc),
            pg_class: Rows::new(alloc),
            pg_attribute: Rows::new(alloc),
            pg_attrdef: Rows::new(alloc),
            pg_constraint: Rows::new(alloc),
            pg_index: Rows::new(alloc),
            pg_sequence: Rows::new(alloc),
            pg_rewrite: Rows::new(alloc),
            pg_description: Rows::new(alloc),
            pg_depend: Rows::new(alloc),
        }
    }
}

/// Replaces the rows of a table by those of a text. After an `Err`, of which `Fault` is the first fault of the text
/// with its line, the catalogue is unchanged.
pub fn read_table(
    alloc: Global,
    cat: &mut Catalogue,
    which: SysTable,
    text: &[u8],
) -> Result<(), ReadTableError>
    ensures read { GivesTable (λ _. rows_in which cat.new) result (table_of which text.now) }
    ensures others { SameBut which cat.old cat.new }
    ensures err { OnErr result (cat.new ≡ cat.old) }
{
    match which {
        SysTable::PgAuthid => read_into(alloc, text, &mut cat.pg_authid),
        SysTable::PgAuthMembers => read_into(alloc, text, &mut cat.pg_auth_members),
        SysTable::PgDatabase => read_into(alloc, text, &mut cat.pg_database),
        SysTable::PgNamespace => read_into(alloc, text, &mut cat.pg_namespace),
        SysTable::PgType => read_into(alloc, text, &mut cat.pg_type),
        SysTable::PgEnum => read_into(alloc, text, &mut cat.pg_enum),
        SysTable::PgClass => read_into(alloc, text, &mut cat.pg_class),
        SysTable::PgAttribute => read_into(alloc, text, &mut cat.pg_attribute),
        SysTable::PgAttrdef => read_into(alloc, text, &mut cat.pg_attrdef),
        SysTable::PgConstraint => read_into(alloc, text, &mut cat.pg_constraint),
        SysTable::PgIndex => read_into(alloc, text, &mut cat.pg_index),
        SysTable::PgSequence => read_into(alloc, text, &mut cat.pg_sequence),
        SysTable::PgRewrite => read_into(alloc, text, &mut cat.pg_rewrite),
        SysTable::PgDescription => read_into(alloc, text, &mut cat.pg_description),
        SysTable::PgDepend => read_into(alloc, text, &mut cat.pg_depend),
    }
}

/// Appends the text of a table's rows in its order: by rising first column, but pg_enum by enumtypid and enumpos,
/// pg_attribute by attrelid and attnum, pg_description by classoid, objoid and objsubid, and pg_depend as it was
/// read. After an `Err` nothing was appended.
pub fn write_table(
    alloc: Global,
    cat: &Catalogue,
    which: SysTable,
    out: &mut Vec<u8>,
) -> Result<(), AllocError>
    // What was written reads as the rows in their order.
    ensures ok { OnOk result ((written : List (List CellValue)) × IsWritten which (rows_in which cat.now) written out.old.items out.new.items) }
    ensures err { OnErr result (out.new.items ≡ out.old.items) }
{
    match which {
        SysTable::PgAuthid => write_rows(alloc, cat.pg_authid.as_slice(), out),
        SysTable::PgAuthMembers => write_rows(alloc, cat.pg_auth_members.as_slice(), out),
        SysTable::PgDatabase => write_rows(alloc, cat.pg_database.as_slice(), out),
        SysTable::PgNamespace => write_rows(alloc, cat.pg_namespace.as_slice(), out),
        SysTable::PgType => write_rows(alloc, cat.pg_type.as_slice(), out),
        SysTable::PgEnum => write_rows(alloc, cat.pg_enum.as_slice(), out),
        SysTable::PgClass => write_rows(alloc, cat.pg_class.as_slice(), out),
        SysTable::PgAttribute => write_rows(alloc, cat.pg_attribute.as_slice(), out),
        SysTable::PgAttrdef => write_rows(alloc, cat.pg_attrdef.as_slice(), out),
        SysTable::PgConstraint => write_rows(alloc, cat.pg_constraint.as_slice(), out),
        SysTable::PgIndex => write_rows(alloc, cat.pg_index.as_slice(), out),
        SysTable::PgSequence => write_rows(alloc, cat.pg_sequence.as_slice(), out),
        SysTable::PgRewrite => write_rows(alloc, cat.pg_rewrite.as_slice(), out),
        SysTable::PgDescription => write_rows(alloc, cat.pg_description.as_slice(), out),
        SysTable::PgDepend => write_rows(alloc, cat.pg_depend.as_slice(), out),
    }
}
