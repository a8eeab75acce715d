//! Export folders whose only objects are schemas, read as openings.
ghost use Rattle.std.specs.Prelude.{◌≡◌, ℕ, ◌≤◌, ◌++◌, ◌||◌, ◌&&◌, not, List, [], Option, Some, option_map, IfOk, IfSome, Result, Ok, Err, map, true, option_and_then};
ghost use Rattle.dump_ports.specs.Tree.{Tree};
ghost use Rattle.cat_rows.specs.RowCells.{namespace_cells};
ghost use Rattle.cat_names.specs.Rights.{is_empty_list};
ghost use Rattle.std.specs.Result.{result_ok};
ghost use Rattle.tool_words.specs.Answers.{Gives, CountsRead};
ghost use Rattle.schema_folders.specs.Folder.{rows_after, plain_row, schemas_of, if_public, may_all, is_unlimited, is_boot_row, is_database_row, is_alone, has_no_relations, has_no_more, is_bare, or_unbuilt, opening_in, opening_of};

use crate::schemas::{SchemaRow, Schemas};
use cat_model::What;
use cat_rows::{AuthidRow, Catalogue, DatabaseRow, NamespaceRow, Rows};
use copy_text::Text;
use dump_ports::Files;
use exports::read_export;
use std::alloc::{AllocError, Global};
use tool_words::Outcome;

/// The oid of the role that owns what is created.
const BOOT_ROLE: u32 = 10;

/// The oid of the one database.
const DATABASE: u32 = 5;

/// The schemas of a folder whose only objects they are. The folder is read as an export is, whole; one with other objects
/// is `OutOfProfile(Unbuilt)`.
#[tactic(auto, unfolding(crate::specs::Folder::opening_of))]
pub fn read_folder<F: Files>(
    alloc: Global,
    files: &mut F,
    folder: &Text,
) -> Result<Schemas, Outcome>
    ensures due { (tree : Tree) → F.tree files.old ≡ Some tree → Gives (λ schemas. schemas) result (opening_of folder.now tree) }
    ensures kept { F.tree files.new ≡ F.tree files.old }
    ensures read_count { CountsRead result (F.read_faults files.old) (F.read_faults files.new) }
    ensures write_count { F.write_faults files.new ≡ F.write_faults files.old }
{
    let export = read_export(alloc, files, folder)?;
    opening_in(alloc, export.catalogue().rows())
}

/// The schemas of a catalogue whose only objects they are.
fn opening_in(alloc: Global, cat: &Catalogue) -> Result<Schemas, Outcome>
    ensures due { Gives (λ schemas. schemas) result (opening_in cat.now) }
    ensures count { (n : ℕ) → CountsRead result n n }
{
    let schemas = schemas_of(alloc, cat.pg_namespace.as_slice())?;
    or_unbuilt(is_bare(cat), schemas)
}

/// The schemas of a catalogue, where they are its only objects. The only error is want of memory.
pub fn bare_schemas(alloc: Global, cat: &Catalogue) -> Result<Option<Schemas>, AllocError>
    ensures { IfOk result (λ found. found ≡ result_ok (opening_in cat.now)) }
{
    let schemas = schemas_of(alloc, cat.pg_namespace.as_slice())?;
    Ok(where_bare(is_bare(cat), schemas))
}

fn where_bare(bare: bool, schemas: Option<Schemas>) -> Option<Schemas>
    ensures { result ≡ result_ok (or_unbuilt bare schemas) }
{
    match schemas {
        Some(schemas) if bare => Some(schemas),
        _ => None,
    }
}

/// The schemas, where there are some and all else is bare.
fn or_unbuilt(bare: bool, schemas: Option<Schemas>) -> Result<Schemas, Outcome>
    ensures { result ≡ or_unbuilt bare schemas }
{
    match schemas {
        Some(schemas) if bare => Ok(schemas),
        _ => Err(Outcome::OutOfProfile(What::Unbuilt)),
    }
}

/// Whether all but the schemas is as in the empty export.
fn is_bare(cat: &Catalogue) -> bool
    ensures { result ≡ is_bare cat.now }
{
    has_boot_role(&cat.pg_authid)
        && has_database(&cat.pg_database)
        && has_no_relations(cat)
        && has_no_more(cat)
}

/// Whether the one role is that of the empty export.
fn has_boot_role(rows: &Rows<AuthidRow>) -> bool
    ensures { result ≡ is_alone is_boot_row rows.now }
{
    match rows.as_slice() {
        [row] => is_boot_row(row),
        _ => false,
    }
}

fn is_boot_row(row: &AuthidRow) -> bool
    ensures { result ≡ is_boot_row row.now }
{
    row.oid == BOOT_ROLE && row.rolname.as_str() == "postgres" && may_all(row) && is_unlimited(row)
}

/// Whether a role may do anything.
fn may_all(row: &AuthidRow) -> bool
    ensures { result ≡ may_all row.now }
{
    row.rolsuper
        && row.rolinherit
        && row.rolcreaterole
        && row.rolcreatedb
        && row.rolcanlogin
        && row.rolreplication
        && row.rolbypassrls
}

/// Whether a role has no limit on connections, no password and no end.
fn is_unlimited(row: &AuthidRow) -> bool
    ensures { result ≡ is_unlimited row.now }
{
    row.rolconnlimit == -1 && row.rolpassword.is_none() && row.rolvaliduntil.is_none()
}

/// Whether the one database is that of the empty export.
fn has_database(rows: &Rows<DatabaseRow>) -> bool
    ensures { result ≡ is_alone is_database_row rows.now }
{
    match rows.as_slice() {
        [row] => is_database_row(row),
        _ => false,
    }
}

fn is_database_row(row: &DatabaseRow) -> bool
    ensures { result ≡ is_database_row row.now }
{
    row.oid == DATABASE
        && row.datname.as_str() == "postgres"
        && row.datdba == BOOT_ROLE
        && row.encoding.as_str() == "UTF8"
        && row.datcurrent
}

/// Whether there are no types and no relations.
fn has_no_relations(cat: &Catalogue) -> bool
    ensures { result ≡ has_no_relations cat.now }
{
    is_empty(&cat.pg_type)
        && is_empty(&cat.pg_enum)
        && is_empty(&cat.pg_class)
        && is_empty(&cat.pg_attribute)
        && is_empty(&cat.pg_attrdef)
        && is_empty(&cat.pg_constraint)
}

/// Whether there is nothing that stands on them, and no memberships and comments.
fn has_no_more(cat: &Catalogue) -> bool
    ensures { result ≡ has_no_more cat.now }
{
    is_empty(&cat.pg_index)
        && is_empty(&cat.pg_sequence)
        && is_empty(&cat.pg_rewrite)
        && is_empty(&cat.pg_description)
        && is_empty(&cat.pg_depend)
        && is_empty(&cat.pg_auth_members)
}

fn is_empty<R>(rows: &Rows<R>) -> bool
    ensures { result ≡ is_empty_list rows.now }
{
    match rows.as_slice() {
        [] => true,
        [_, ..] => false,
    }
}

/// The schemas of the rows of pg_namespace, where they have the plain form.
fn schemas_of(alloc: Global, rows: &[NamespaceRow]) -> Result<Option<Schemas>, AllocError>
    ensures { IfOk result (λ found. found ≡ schemas_of (map namespace_cells rows.now)) }
{
    let found = schemas_of_rows(alloc, rows)?;
    Ok(if_public(found))
}

/// The schemas, where `public` is among them.
fn if_public(found: Option<Schemas>) -> Option<Schemas>
    ensures { result ≡ option_and_then if_public found }
{
    match found {
        Some(schemas) if schemas.has_public() => Some(schemas),
        _ => None,
    }
}

/// The schemas of these rows, where each is plain and no oid and no name comes twice.
fn schemas_of_rows(alloc: Global, rows: &[NamespaceRow]) -> Result<Option<Schemas>, AllocError>
    ensures { IfOk result (λ found. found ≡ rows_after [] (map namespace_cells rows.now)) }
{
    let mut schemas = Schemas::new(alloc);
    for row in rows {
        let Some(row) = plain_row(row)? else {
            return Ok(None);
        };
        if !schemas.add(row)? {
            return Ok(None);
        }
    }
    Ok(Some(schemas))
}

/// The row without its owner and its grants, where it is plain.
fn plain_row(row: &NamespaceRow) -> Result<Option<SchemaRow>, AllocError>
    ensures { IfOk result (λ found. found ≡ plain_row (namespace_cells row.now)) }
{
    if row.nspowner != BOOT_ROLE || row.nspacl.is_some() {
        return Ok(None);
    }
    Ok(Some(SchemaRow {
        oid: row.oid,
        name: row.nspname.clone()?,
    }))
}
