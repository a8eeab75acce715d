//! Statements.
use crate::constraint::{Encoding, SequenceKind};
use crate::grant::{Commented, Granted, Grantee, Owned, Rights};
use crate::items::Items;
use crate::object::QName;
use crate::table::{CheckDef, ColumnDef, RoleChanges};
use crate::type_name::TypeName;
use copy_text::{Name, Text};

/// A statement of PostgreSQL's dump scripts, with what its text says: 29 kinds. A path is a qualified name; a kept
/// text, as an expression or a view's body, runs from its first token to its last.
/// <https://www.postgresql.org/docs/16/sql-commands.html>
#[derive(Drop)]
pub enum Stmt {
    /// SET: a setting of the session.
    Set {
        /// The setting.
        name: Name,
        /// Its value, as it is written.
        value: Text,
    },
    /// SELECT pg_catalog.set_config: a setting of the session.
    SetConfig {
        /// The setting.
        name: Text,
        /// Its value.
        value: Text,
    },
    /// CREATE SCHEMA.
    CreateSchema {
        /// The schema.
        name: Name,
    },
    /// CREATE TYPE .. AS ENUM.
    CreateEnum {
        /// The enum.
        q: QName,
        /// Its labels in order.
        labels: Items<Text>,
    },
    /// CREATE DOMAIN.
    CreateDomain {
        /// The domain.
        q: QName,
        /// Its base type.
        base: TypeName,
        /// Whether it takes no null.
        not_null: bool,
        /// The expression of its default.
        default: Option<Text>,
        /// Its checks.
        checks: Items<CheckDef>,
    },
    /// ALTER DOMAIN .. ADD CONSTRAINT .. CHECK.
    AddDomainCheck {
        /// The domain.
        q: QName,
        /// The check.
        name: Name,
        /// The expression between its brackets.
        text: Text,
    },
    /// CREATE TABLE.
    CreateTable {
        /// The table.
        q: QName,
        /// Its columns in order.
        columns: Items<ColumnDef>,
        /// Its checks.
        checks: Items<CheckDef>,
    },
    /// CREATE SEQUENCE.
    CreateSequence {
        /// The sequence.
        q: QName,
        /// The type of its numbers.
        kind: SequenceKind,
        /// START WITH.
        start: i64,
        /// INCREMENT BY.
        step: i64,
        /// MINVALUE, or what stands for NO MINVALUE.
        min: i64,
        /// MAXVALUE, or what stands for NO MAXVALUE.
        max: i64,
        /// CACHE.
        cache: i64,
        /// CYCLE.
        cycle: bool,
    },
    /// ALTER SEQUENCE .. OWNED BY.
    OwnedBy {
        /// The sequence.
        q: QName,
        /// The table of the column that owns it.
        table: QName,
        /// The column.
        column: Name,
    },
    /// SELECT pg_catalog.setval.
    SetVal {
        /// The sequence.
        q: QName,
        /// Its value.
        value: i64,
        /// Whether the value was given out.
        called: bool,
    },
    /// CREATE VIEW.
    CreateView {
        /// The view.
        q: QName,
        /// Its body.
        body: Text,
    },
    /// CREATE OR REPLACE VIEW.
    ReplaceView {
        /// The view.
        q: QName,
        /// Its body.
        body: Text,
    },
    /// ALTER TABLE .. ALTER COLUMN .. SET DEFAULT.
    SetDefault {
        /// The table.
        q: QName,
        /// The column.
        column: Name,
        /// The expression.
        text: Text,
    },
    /// ALTER TABLE .. ADD CONSTRAINT .. PRIMARY KEY.
    AddPrimary {
        /// The table.
        q: QName,
        /// The primary key.
        name: Name,
        /// Its columns.
        columns: Items<Name>,
        /// What follows them.
        rest: Text,
    },
    /// ALTER TABLE .. ADD CONSTRAINT .. UNIQUE.
    AddUnique {
        /// The table.
        q: QName,
        /// The constraint.
        name: Name,
        /// Its columns.
        columns: Items<Name>,
        /// What follows them.
        rest: Text,
    },
    /// ALTER TABLE .. ADD CONSTRAINT .. FOREIGN KEY.
    AddForeign {
        /// The table whose rows have a parent.
        q: QName,
        /// The foreign key.
        name: Name,
        /// Its columns.
        columns: Items<Name>,
        /// The table of the parents.
        parent: QName,
        /// The parents' columns.
        parent_columns: Items<Name>,
        /// What follows them.
        rest: Text,
    },
    /// ALTER TABLE .. ADD CONSTRAINT .. CHECK.
    AddCheck {
        /// The table.
        q: QName,
        /// The check.
        name: Name,
        /// The expression between its brackets.
        text: Text,
    },
    /// CREATE INDEX.
    CreateIndex {
        /// The table.
        q: QName,
        /// The index, which stands in the table's schema.
        name: Name,
        /// How it is kept, as btree.
        method: Name,
        /// What follows, from the bracket on.
        rest: Text,
    },
    /// CREATE UNIQUE INDEX.
    CreateUniqueIndex {
        /// The table.
        q: QName,
        /// The index, which stands in the table's schema.
        name: Name,
        /// How it is kept, as btree.
        method: Name,
        /// What follows, from the bracket on.
        rest: Text,
    },
    /// COPY .. FROM stdin.
    CopyRows {
        /// The table.
        q: QName,
        /// The columns that the fields belong to; none stand for all in order.
        columns: Items<Name>,
        /// The rows' text.
        rows: Items<u8>,
    },
    /// GRANT of rights on an object.
    Grant {
        /// The object.
        object: Granted,
        /// The rights.
        rights: Rights,
        /// Whom they are granted to.
        grantee: Grantee,
        /// WITH GRANT OPTION.
        option: bool,
    },
    /// REVOKE of rights on an object, with the options to grant them.
    Revoke {
        /// The object.
        object: Granted,
        /// The rights.
        rights: Rights,
        /// Whom they are taken from.
        grantee: Grantee,
    },
    /// COMMENT ON.
    Comment {
        /// What gets the comment.
        object: Commented,
        /// The comment, or `None` to take it away.
        text: Option<Text>,
    },
    /// ALTER .. OWNER TO.
    OwnerTo {
        /// What gets an owner.
        object: Owned,
        /// The owner.
        role: Name,
    },
    /// CREATE ROLE.
    CreateRole {
        /// The role.
        name: Name,
    },
    /// ALTER ROLE.
    AlterRole {
        /// The role.
        name: Name,
        /// What changes.
        changes: RoleChanges,
    },
    /// GRANT of a role.
    GrantRole {
        /// The role.
        role: Name,
        /// Its member.
        member: Name,
        /// Who grants it; `None` stands for the boot role.
        grantor: Option<Name>,
        /// ADMIN.
        admin: bool,
        /// INHERIT; `None` stands for the member's own attribute.
        inherit: Option<bool>,
        /// SET.
        set: bool,
    },
    /// CREATE DATABASE.
    CreateDatabase {
        /// The database.
        name: Name,
        /// Its encoding, where the statement says it.
        encoding: Option<Encoding>,
    },
    /// \connect.
    Connect {
        /// The database.
        name: Name,
    },
}
