//! A script applied to the schemas of a folder.
ghost use Rattle.std.specs.Prelude.{◌≡◌, true, ◌++◌, OnOk, IfOk};
ghost use Rattle.sql_lex.specs.Written.{written_name};
ghost use Rattle.schema_folders.specs.Naming.{boot, named};
ghost use Rattle.tool_words.specs.Messages.{cause_text, refusal_line, report};
ghost use Rattle.schema_folders.specs.Run.{cause_of, said, next, noted, catalogue_after, refusals, Grown};
ghost use Rattle.schema_folders.specs.Statements.{is_taken, are_taken};

use crate::schemas::{ApplyFault, SchemaCause, Schemas};
use copy_text::Name;
use ddl_read::Located;
use itoa::Buffer;
use sql_lex::write_name;
use std::alloc::{AllocError, Global};

/// Applies the statements in order, each of a kind that is carried out, and answers the report of those that were refused, which change nothing.
///
/// The rows that were there stay, and those that are made have oids from 16384 on. Where memory runs out the statements before it have been applied.
pub fn run_script(
    alloc: Global,
    schemas: &mut Schemas,
    statements: &[Located],
) -> Result<Vec<u8>, AllocError>
    requires { are_taken statements.now ≡ true }
    ensures reported { IfOk result (λ text. text.items ≡ report (refusals boot statements.now (named schemas.old))) }
    ensures applied { OnOk result (named schemas.new ≡ catalogue_after boot statements.now (named schemas.old)) }
    ensures grown { OnOk result (Grown schemas.old schemas.new) }
{
    let mut text = Vec::new(alloc);
    for located in statements {
        run_statement(schemas, located, &mut text)?;
    }
    Ok(text)
}

/// Applies a statement, and appends its line to the report where it is refused.
fn run_statement(
    schemas: &mut Schemas,
    located: &Located,
    out: &mut Vec<u8>,
) -> Result<(), AllocError>
    requires { is_taken located.now.stmt ≡ true }
    ensures reported { OnOk result (out.new.items ≡ out.old.items ++ report (noted located.now.start (said boot located.now.stmt (named schemas.old)))) }
    ensures applied { OnOk result (named schemas.new ≡ next (named schemas.old) (said boot located.now.stmt (named schemas.old))) }
    ensures grown { OnOk result (Grown schemas.old schemas.new) }
{
    match schemas.apply(&located.stmt) {
        Ok(()) => Ok(()),
        Err(ApplyFault::Refused(cause)) => write_refusal(located.start, &cause, out),
        Err(ApplyFault::Memory) => Err(AllocError),
    }
}

/// Appends the line of a statement that was refused.
fn write_refusal(at: usize, cause: &SchemaCause, out: &mut Vec<u8>) -> Result<(), AllocError>
    ensures { OnOk result (out.new.items ≡ out.old.items ++ refusal_line (at, cause_of cause.now)) }
{
    let mut place = Buffer::new();
    out.extend_from_slice(b"psql: error: at ")?;
    out.extend_from_slice(place.format(at).as_bytes())?;
    out.extend_from_slice(b": ")?;
    write_cause(cause, out)?;
    out.extend_from_slice(b"\n")?;
    Ok(())
}

/// Appends why a statement was refused.
fn write_cause(cause: &SchemaCause, out: &mut Vec<u8>) -> Result<(), AllocError>
    ensures { OnOk result (out.new.items ≡ out.old.items ++ cause_text (cause_of cause.now)) }
{
    match cause {
        SchemaCause::Exists(name) => write_around(b"schema ", name, b" already exists", out),
        SchemaCause::NoSchema(name) => write_around(b"schema ", name, b" does not exist", out),
        SchemaCause::NoRole(name) => write_around(b"role ", name, b" does not exist", out),
    }
}

/// Appends a name between two texts.
fn write_around(
    before: &[u8],
    name: &Name,
    behind: &[u8],
    out: &mut Vec<u8>,
) -> Result<(), AllocError>
    ensures { OnOk result (out.new.items ≡ out.old.items ++ ((before.now ++ written_name name.now) ++ behind.now)) }
{
    out.extend_from_slice(before)?;
    write_name(name.as_bytes(), out)?;
    out.extend_from_slice(behind)?;
    Ok(())
}
