//! The kinds of cases of texts.
use cat_rows::SysTable;

/// What a case of a text is of.
#[derive(Clone, Copy)]
pub enum TextKind {
    /// A line of COPY text: its row, and the row written again.
    Rows,
    /// A text: its tokens.
    Tokens,
    /// A place and a text: the first token at or behind it.
    NextToken,
    /// A token: the name and the text that it stands for, and whether it is the key word CREATE.
    Meaning,
    /// `name` or `literal` and a text: how it is written.
    Names,
    /// A list of rights: how it is written.
    Rights,
    /// A script: its statements.
    Statements,
    /// A part of a statement.
    Part(Part),
    /// An expression: what it refers to.
    Expression,
    /// A view's body: what it refers to.
    View,
    /// What stands behind an index's method: its columns, where they are plain.
    IndexColumns,
    /// A script: what its last statement reads and writes, beside the foreign keys that are added before it.
    Footprint,
    /// The text of a system table: its rows, written again.
    Table(SysTable),
    /// A number of columns and a text: the number of its rows.
    Data,
    /// Two texts: whether they hold the same rows.
    SameRows,
    /// Refused statements: psql's report of them.
    Refused,
}

/// A part of a statement, and what its first token is behind.
#[derive(Clone, Copy)]
pub enum Part {
    /// A type.
    Type,
    /// A default.
    Default,
    /// A default, and NOT NULL behind it.
    DefaultAndNull,
    /// A whole number.
    Number,
    /// What stands behind COMMENT.
    Comment,
    /// What stands behind CREATE ROLE.
    CreateRole,
    /// What stands behind ALTER ROLE.
    AlterRole,
    /// What stands behind CREATE DATABASE.
    CreateDatabase,
    /// What stands behind GRANT.
    Grant,
    /// What stands behind REVOKE.
    Revoke,
    /// A place and a text: the rows of a COPY behind it.
    CopyRows,
    /// A line with a backslash.
    Line,
}

/// The system table of a name.
pub fn table_of(name: &str) -> Option<SysTable> {
    SysTable::ALL
        .iter()
        .copied()
        .find(|table| table.name() == name)
}

fn part_of(name: &str) -> Option<Part> {
    let part = match name {
        "type" => Part::Type,
        "default" => Part::Default,
        "default and null" => Part::DefaultAndNull,
        "number" => Part::Number,
        "comment" => Part::Comment,
        "create role" => Part::CreateRole,
        "alter role" => Part::AlterRole,
        "create database" => Part::CreateDatabase,
        "grant" => Part::Grant,
        "revoke" => Part::Revoke,
        "copy rows" => Part::CopyRows,
        "line" => Part::Line,
        _ => return None,
    };
    Some(part)
}

fn other_of(name: &str) -> Option<TextKind> {
    let kind = match name {
        "rows" => TextKind::Rows,
        "tokens" => TextKind::Tokens,
        "next token" => TextKind::NextToken,
        "meaning" => TextKind::Meaning,
        "names" => TextKind::Names,
        "rights" => TextKind::Rights,
        "statements" => TextKind::Statements,
        "expression" => TextKind::Expression,
        "view" => TextKind::View,
        "index columns" => TextKind::IndexColumns,
        "footprint" => TextKind::Footprint,
        "data" => TextKind::Data,
        "same rows" => TextKind::SameRows,
        "refused" => TextKind::Refused,
        _ => return None,
    };
    Some(kind)
}

/// The kind of a name.
pub fn text_kind(name: &str) -> Option<TextKind> {
    match name.split_once(' ') {
        Some(("table", table)) => table_of(table).map(TextKind::Table),
        Some(("part", part)) => part_of(part).map(TextKind::Part),
        _ => other_of(name),
    }
}
