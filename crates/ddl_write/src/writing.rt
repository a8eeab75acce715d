//! Statements as texts.
ghost use Rattle.std.specs.Prelude.{◌≡◌, ◌++◌, OnOk, OnErr};
ghost use Rattle.std.specs.List.{flat_map};
ghost use Rattle.cat_model.specs.declared.stmt.Stmt.TheVariants.{CreateTable, OwnerTo, Comment};
ghost use Rattle.ddl_grammar.specs.Respelling.{spelling};
ghost use Rattle.ddl_write.specs.Outcome.{Extends};
ghost use Rattle.ddl_write.specs.Pieces.{text_of};
ghost use Rattle.ddl_write.specs.Said.{said};

use crate::fault::WriteStmtError;
use crate::lists::put_elements;
use crate::words::{Piece, Written, put_all};
use cat_model::{CheckDef, ColumnDef, Commented, Owned, QName, Stmt};
use copy_text::{Name, Text};
use std::alloc::AllocError;

/// Appends the one written spelling of a statement, with its semicolon and a newline.
///
/// `Memory` comes where there was none for the text.
/// After an error `out` is as it was.
/// <https://www.postgresql.org/docs/16/sql-commands.html>
pub fn write_stmt(stmt: &Stmt, out: &mut Vec<u8>) -> Result<(), WriteStmtError>
    ensures ok { OnOk result (out.new.items ≡ out.old.items ++ spelling stmt.now) }
    ensures err { OnErr result (out.new.items ≡ out.old.items) }
{
    let len = out.len();
    match put_stmt(stmt, out) {
        Ok(()) => Ok(()),
        Err(AllocError) => {
            out.truncate(len);
            Err(WriteStmtError::Memory)
        }
    }
}

/// The same, where an error may leave some of the text.
#[tactic(auto, unfolding(crate::specs::Said::said))]
fn put_stmt(stmt: &Stmt, out: &mut Vec<u8>) -> Written
    ensures ok { OnOk result (out.new.items ≡ out.old.items ++ spelling stmt.now) }
    ensures kept { Extends out.old.items out.new.items }
{
    match stmt {
        Stmt::CreateSchema { name } =>
            put!(stmt, out; Words(b"CREATE SCHEMA "), Name(name), Words(b";\n")),
        Stmt::CreateEnum { q, labels } =>
            put!(stmt, out; Words(b"CREATE TYPE "), Path(q), Words(b" AS ENUM ("), Labels(labels.as_slice()),
                Words(b"\n);\n")),
        Stmt::CreateDomain {
            q,
            base,
            not_null,
            default,
            checks,
        } => put!(stmt, out; Words(b"CREATE DOMAIN "), Path(q), Words(b" AS "), TypeName(base),
                OnlyIf(*not_null, b" NOT NULL"), Default(default), Checks(b"\n\t", checks.as_slice()),
                Words(b";\n")),
        Stmt::CreateTable { q, columns, checks } => put_table(
            q,
            columns.as_slice(),
            checks.as_slice(),
            out,
        ),
        Stmt::CreateSequence {
            q,
            kind,
            start,
            step,
            min,
            max,
            cache,
            cycle,
        } => put!(stmt, out; Words(b"CREATE SEQUENCE "), Path(q), Kind(*kind),
                Words(b"\n    START WITH "), Number(start), Words(b"\n    INCREMENT BY "), Number(step),
                Min(*kind, step, min), Max(*kind, step, max),
                Words(b"\n    CACHE "), Number(cache), OnlyIf(*cycle, b"\n    CYCLE"), Words(b";\n")),
        Stmt::CreateView { q, body } =>
            put!(stmt, out; Words(b"CREATE VIEW "), Path(q), Words(b" AS\n"), Body(body), Words(b";\n")),
        Stmt::ReplaceView { q, body } =>
            put!(stmt, out; Words(b"CREATE OR REPLACE VIEW "), Path(q), Words(b" AS\n"), Body(body),
                Words(b";\n")),
        Stmt::CreateIndex {
            q,
            name,
            method,
            rest,
        } =>
            put!(stmt, out; Words(b"CREATE INDEX "), Name(name), Words(b" ON "), Path(q), Words(b" USING "),
                Name(method), Words(b" "), Text(rest), Words(b";\n")),
        Stmt::CreateUniqueIndex {
            q,
            name,
            method,
            rest,
        } => put!(stmt, out; Words(b"CREATE UNIQUE INDEX "), Name(name), Words(b" ON "), Path(q),
                Words(b" USING "), Name(method), Words(b" "), Text(rest), Words(b";\n")),
        Stmt::CreateRole { name } =>
            put!(stmt, out; Words(b"CREATE ROLE "), Name(name), Words(b";\n")),
        Stmt::CreateDatabase { name, encoding } =>
            put!(stmt, out; Words(b"CREATE DATABASE "), Name(name), Words(b" WITH TEMPLATE = template0"),
                Encoding(*encoding), Words(b";\n")),
        Stmt::SetDefault { q, column, text } =>
            put!(stmt, out; Words(b"ALTER TABLE ONLY "), Path(q), Words(b" ALTER COLUMN "), Name(column),
                Words(b" SET DEFAULT "), Text(text), Words(b";\n")),
        Stmt::AddPrimary {
            q,
            name,
            columns,
            rest,
        } =>
            put!(stmt, out; Words(b"ALTER TABLE ONLY "), Path(q), Words(b"\n    ADD CONSTRAINT "), Name(name),
                Words(b" PRIMARY KEY "), Names(columns.as_slice()), Rest(rest), Words(b";\n")),
        Stmt::AddUnique {
            q,
            name,
            columns,
            rest,
        } =>
            put!(stmt, out; Words(b"ALTER TABLE ONLY "), Path(q), Words(b"\n    ADD CONSTRAINT "), Name(name),
                Words(b" UNIQUE "), Names(columns.as_slice()), Rest(rest), Words(b";\n")),
        Stmt::AddForeign {
            q,
            name,
            columns,
            parent,
            parent_columns,
            rest,
        } =>
            put!(stmt, out; Words(b"ALTER TABLE ONLY "), Path(q), Words(b"\n    ADD CONSTRAINT "), Name(name),
                Words(b" FOREIGN KEY "), Names(columns.as_slice()), Words(b" REFERENCES "), Path(parent),
                Names(parent_columns.as_slice()), Rest(rest), Words(b";\n")),
        Stmt::AddCheck { q, name, text } =>
            put!(stmt, out; Words(b"ALTER TABLE ONLY "), Path(q), Words(b"\n    ADD CONSTRAINT "), Name(name),
                Words(b" CHECK ("), Text(text), Words(b");\n")),
        Stmt::AddDomainCheck { q, name, text } =>
            put!(stmt, out; Words(b"ALTER DOMAIN "), Path(q), Words(b"\n    ADD "), Check(name, text),
                Words(b";\n")),
        Stmt::OwnedBy { q, table, column } =>
            put!(stmt, out; Words(b"ALTER SEQUENCE "), Path(q), Words(b" OWNED BY "), Path(table),
                Words(b"."), Name(column), Words(b";\n")),
        Stmt::AlterRole { name, changes } =>
            put!(stmt, out; Words(b"ALTER ROLE "), Name(name), Words(b" WITH"),
                Flag(b"SUPERUSER", changes.superuser), Flag(b"INHERIT", changes.inherit),
                Flag(b"CREATEROLE", changes.create_role), Flag(b"CREATEDB", changes.create_db),
                Flag(b"LOGIN", changes.login), Flag(b"REPLICATION", changes.replication),
                Flag(b"BYPASSRLS", changes.bypass_rls), Limit(changes.limit),
                GivenLiteral(b" PASSWORD ", &changes.password),
                GivenLiteral(b" VALID UNTIL ", &changes.valid_until), Words(b";\n")),
        Stmt::OwnerTo { object, role } => put_owner(stmt, object, role, out),
        Stmt::Comment { object, text } => put_comment(stmt, object, text, out),
        Stmt::SetConfig { name, value } =>
            put!(stmt, out; Literal(b"SELECT pg_catalog.set_config(", name), Literal(b", ", value),
                Words(b", false);\n")),
        Stmt::SetVal { q, value, called } =>
            put!(stmt, out; Words(b"SELECT pg_catalog.setval("), PathLiteral(q), Words(b", "), Number(value),
                Words(b", "), Called(*called), Words(b");\n")),
        Stmt::Set { name, value } =>
            put!(stmt, out; Words(b"SET "), Name(name), Words(b" = "), Text(value), Words(b";\n")),
        Stmt::CopyRows { q, columns, rows } =>
            put!(stmt, out; Words(b"COPY "), Path(q), SomeNames(columns.as_slice()), Words(b" FROM stdin;\n"),
                Words(rows.as_slice()), Words(b"\\.\n")),
        Stmt::Grant {
            object,
            rights,
            grantee,
            option,
        } => put!(stmt, out; Words(b"GRANT "), Rights(object, *rights), On(object), Words(b" TO "),
                Whom(grantee), OnlyIf(*option, b" WITH GRANT OPTION"), Words(b";\n")),
        Stmt::Revoke {
            object,
            rights,
            grantee,
        } =>
            put!(stmt, out; Words(b"REVOKE "), Rights(object, *rights), On(object), Words(b" FROM "),
                Whom(grantee), Words(b";\n")),
        Stmt::GrantRole {
            role,
            member,
            grantor,
            admin,
            inherit,
            set,
        } => put!(stmt, out; Words(b"GRANT "), Name(role), Words(b" TO "), Name(member),
                Words(b" WITH ADMIN "), Truth(*admin), Inherit(*inherit), Words(b", SET "), Truth(*set),
                GivenName(b" GRANTED BY ", grantor), Words(b";\n")),
        Stmt::Connect { name } => put!(stmt, out; Words(b"\\connect "), Name(name), Words(b"\n")),
    }
}

/// Pieces that are the text of a statement.
#[tactic(auto, using(crate::proofs::Spelled::spells))]
pub(crate) fn put_said(stmt: &Stmt, pieces: &[Piece<'_>], out: &mut Vec<u8>) -> Written
    requires { flat_map text_of pieces.now ≡ said stmt.now }
    ensures ok { OnOk result (out.new.items ≡ out.old.items ++ spelling stmt.now) }
    ensures kept { Extends out.old.items out.new.items }
{
    put_all(pieces, out)
}

/// CREATE TABLE.
fn put_table(q: &QName, columns: &[ColumnDef], checks: &[CheckDef], out: &mut Vec<u8>) -> Written
    ensures ok { OnOk result (out.new.items ≡ out.old.items ++ spelling (CreateTable q.now columns.now checks.now)) }
    ensures kept { Extends out.old.items out.new.items }
{
    put!(out; Words(b"CREATE TABLE "), Path(q), Words(b" ("))?;
    put_elements(columns, checks, out)?;
    out.extend_from_slice(b"\n);\n")?;
    Ok(())
}

/// ALTER .. OWNER TO.
#[tactic(auto, unfolding(crate::specs::Said::said))]
fn put_owner<'a>(stmt: &Stmt, object: &'a Owned, role: &'a Name, out: &mut Vec<u8>) -> Written
    requires { stmt.now ≡ OwnerTo object.now role.now }
    ensures ok { OnOk result (out.new.items ≡ out.old.items ++ spelling stmt.now) }
    ensures kept { Extends out.old.items out.new.items }
{
    match object {
        Owned::Schema(name) =>
            put!(stmt, out; Words(b"ALTER SCHEMA "), Name(name), Words(b" OWNER TO "), Name(role), Words(b";\n")),
        Owned::Type(q) =>
            put!(stmt, out; Words(b"ALTER TYPE "), Path(q), Words(b" OWNER TO "), Name(role), Words(b";\n")),
        Owned::Domain(q) =>
            put!(stmt, out; Words(b"ALTER DOMAIN "), Path(q), Words(b" OWNER TO "), Name(role), Words(b";\n")),
        Owned::Table(q) =>
            put!(stmt, out; Words(b"ALTER TABLE "), Path(q), Words(b" OWNER TO "), Name(role), Words(b";\n")),
        Owned::Sequence(q) =>
            put!(stmt, out; Words(b"ALTER SEQUENCE "), Path(q), Words(b" OWNER TO "), Name(role), Words(b";\n")),
        Owned::View(q) =>
            put!(stmt, out; Words(b"ALTER VIEW "), Path(q), Words(b" OWNER TO "), Name(role), Words(b";\n")),
        Owned::Database(name) =>
            put!(stmt, out; Words(b"ALTER DATABASE "), Name(name), Words(b" OWNER TO "), Name(role), Words(b";\n")),
    }
}

/// COMMENT ON .. IS.
#[tactic(auto, unfolding(crate::specs::Said::said))]
fn put_comment<'a>(
    stmt: &Stmt,
    object: &'a Commented,
    text: &'a Option<Text>,
    out: &mut Vec<u8>,
) -> Written
    requires { stmt.now ≡ Comment object.now text.now }
    ensures ok { OnOk result (out.new.items ≡ out.old.items ++ spelling stmt.now) }
    ensures kept { Extends out.old.items out.new.items }
{
    match object {
        Commented::Schema(name) =>
            put!(stmt, out; Words(b"COMMENT ON SCHEMA "), Name(name), Words(b" IS "), Remark(text), Words(b";\n")),
        Commented::Type(q) =>
            put!(stmt, out; Words(b"COMMENT ON TYPE "), Path(q), Words(b" IS "), Remark(text), Words(b";\n")),
        Commented::Domain(q) =>
            put!(stmt, out; Words(b"COMMENT ON DOMAIN "), Path(q), Words(b" IS "), Remark(text), Words(b";\n")),
        Commented::Table(q) =>
            put!(stmt, out; Words(b"COMMENT ON TABLE "), Path(q), Words(b" IS "), Remark(text), Words(b";\n")),
        Commented::View(q) =>
            put!(stmt, out; Words(b"COMMENT ON VIEW "), Path(q), Words(b" IS "), Remark(text), Words(b";\n")),
        Commented::Sequence(q) =>
            put!(stmt, out; Words(b"COMMENT ON SEQUENCE "), Path(q), Words(b" IS "), Remark(text), Words(b";\n")),
        Commented::Index(q) =>
            put!(stmt, out; Words(b"COMMENT ON INDEX "), Path(q), Words(b" IS "), Remark(text), Words(b";\n")),
        Commented::Column(q, column) =>
            put!(stmt, out; Words(b"COMMENT ON COLUMN "), Path(q), Words(b"."), Name(column), Words(b" IS "), Remark(text),
                Words(b";\n")),
        Commented::Constraint(q, name) =>
            put!(stmt, out; Words(b"COMMENT ON CONSTRAINT "), Name(name), Words(b" ON "), Path(q),
                Words(b" IS "), Remark(text), Words(b";\n")),
    }
}
