//! What leads where in a catalogue.
ghost use Rattle.std.specs.Prelude.{◌≡◌, [], ◌∷◌, ◌++◌, ℕ, map, filter_map, option_map, List, IfOk, OnOk};
ghost use Rattle.cat_model.specs.declared.object.QName.{QName as Path};
ghost use Rattle.cat_model.specs.Values.{Bytes};
ghost use Rattle.cat_names.specs.Indexed.{AreKeys};
ghost use Rattle.cat_names.specs.Lookups.{schema_oids};
ghost use Rattle.cat_book.specs.Beside.{AreOids, AreOwnRows, AreOwners, AreNamed, IsBeside};
ghost use Rattle.cat_book.specs.Leads.{column_cmp, numbered, named};
ghost use Rattle.cat_book.specs.Paths.{path_cmp, schema_of, path_in, type_path, class_path};
ghost use Rattle.cat_book.specs.Rules.{Place, place_cmp};

use crate::chains::chain_ends;
use crate::found::row_at;
use crate::oids;
use cat_model::QName;
use cat_names::{OidCounts, OidIndex, RoleIndex, add_key};
use cat_rows::{AttributeRow, Catalogue, ClassRow, NamespaceRow, TypeRow};
use copy_text::Name;
use std::alloc::{AllocError, Global};
use std::collections::BTreeSet;

/// The oids of rows, in their order.
#[derive(Drop)]
pub(crate) struct Oids {
    /// Those of the schemas.
    pub(crate) schemas: OidIndex,
    /// Those of the types.
    pub(crate) types: OidIndex,
    /// Those of the relations.
    pub(crate) classes: OidIndex,
    /// Those of the constraints.
    pub(crate) constraints: OidIndex,
}

/// The relations that have a row in a table of their own.
#[derive(Drop)]
pub(crate) struct OwnRows {
    /// The views that have a row of pg_rewrite.
    pub(crate) views: OidIndex,
    /// The sequences that have a row of pg_sequence.
    pub(crate) sequences: OidIndex,
    /// The indexes that have a row of pg_index.
    pub(crate) indexes: OidIndex,
}

/// What keys, labels and columns belong to.
#[derive(Drop)]
pub(crate) struct Owners {
    /// The indexes of primary keys and unique constraints.
    pub(crate) key_indexes: OidCounts,
    /// The tables of primary keys.
    pub(crate) primary_tables: OidCounts,
    /// The types of labels.
    pub(crate) labels: OidCounts,
    /// The relations of columns.
    pub(crate) columns: OidCounts,
}

/// What is found by names, and columns by numbers.
#[derive(Drop)]
pub(crate) struct Named {
    /// The columns by their relations and numbers.
    pub(crate) column_numbers: BTreeSet<(u32, i64)>,
    /// The columns by their relations and names.
    pub(crate) column_names: BTreeSet<(u32, Name)>,
    /// The paths of types.
    pub(crate) type_paths: BTreeSet<QName>,
    /// The paths of relations of any kind.
    pub(crate) class_paths: BTreeSet<QName>,
}

/// What stands beside a catalogue in its book. Where several rows have an oid, it leads to the first.
#[derive(Drop)]
pub(crate) struct Leads<'a> {
    /// The roles.
    pub(crate) roles: RoleIndex<'a>,
    /// The oids of rows.
    pub(crate) oids: Oids,
    /// The relations that have a row in a table of their own.
    pub(crate) own_rows: OwnRows,
    /// What keys, labels and columns belong to.
    pub(crate) owners: Owners,
    /// What is found by names.
    pub(crate) named: Named,
    /// Whether the chain of the bases of the type at a place ends.
    pub(crate) ends: Vec<bool>,
}

/// The first schema of an oid.
pub(crate) fn schema_of<'a>(
    schemas: &OidIndex,
    rows: &'a [NamespaceRow],
    oid: u32,
) -> Option<&'a NamespaceRow>
    requires { schemas.now ≡ schema_oids rows.now }
    ensures { option_map (λ s. s.now) result ≡ schema_of rows.now oid }
{
    row_at(rows, schemas.find(oid))
}

/// The path of a name in the schema of an oid.
pub(crate) fn path_in(
    schemas: &OidIndex,
    rows: &[NamespaceRow],
    oid: u32,
    name: &Name,
) -> Result<Option<QName>, AllocError>
    requires { schemas.now ≡ schema_oids rows.now }
    ensures { IfOk result (λ path. path ≡ path_in rows.now oid name.now) }
{
    match schema_of(schemas, rows, oid) {
        Some(schema) => Ok(Some(QName {
            schema: schema.nspname.clone()?,
            name: name.clone()?,
        })),
        None => Ok(None),
    }
}

// Adds a path, where there is one.
fn add_path(paths: &mut BTreeSet<QName>, path: Option<QName>) -> Result<(), AllocError>
    ensures { OnOk result ((ps : List Path) → AreKeys path_cmp paths.old ps → AreKeys path_cmp paths.new (ps ++ filter_map (λ p. p) (path ∷ []))) }
{
    if let Some(path) = path {
        add_key(paths, path)?;
    }
    Ok(())
}

// The set of the types' paths.
fn type_paths(
    alloc: Global,
    schemas: &OidIndex,
    spaces: &[NamespaceRow],
    rows: &[TypeRow],
) -> Result<BTreeSet<QName>, AllocError>
    requires { schemas.now ≡ schema_oids spaces.now }
    ensures { IfOk result (λ set. AreKeys path_cmp set (filter_map (type_path spaces.now) rows.now)) }
{
    let mut paths = BTreeSet::new(alloc);
    for row in rows {
        let path = path_in(schemas, spaces, row.typnamespace, &row.typname)?;
        add_path(&mut paths, path)?;
    }
    Ok(paths)
}

// The set of the relations' paths.
fn class_paths(
    alloc: Global,
    schemas: &OidIndex,
    spaces: &[NamespaceRow],
    rows: &[ClassRow],
) -> Result<BTreeSet<QName>, AllocError>
    requires { schemas.now ≡ schema_oids spaces.now }
    ensures { IfOk result (λ set. AreKeys path_cmp set (filter_map (class_path spaces.now) rows.now)) }
{
    let mut paths = BTreeSet::new(alloc);
    for row in rows {
        let path = path_in(schemas, spaces, row.relnamespace, &row.relname)?;
        add_path(&mut paths, path)?;
    }
    Ok(paths)
}

// Adds a column by its relation and number.
fn add_number(numbers: &mut BTreeSet<(u32, i64)>, row: &AttributeRow) -> Result<(), AllocError>
    ensures { OnOk result ((ns : List Place) → AreKeys place_cmp numbers.old ns → AreKeys place_cmp numbers.new (ns ++ numbered row.now ∷ [])) }
{
    let number = row.attnum;
    add_key(numbers, (row.attrelid, number))?;
    Ok(())
}

// The set of the columns, by their relations and numbers.
fn column_numbers(alloc: Global, rows: &[AttributeRow]) -> Result<BTreeSet<(u32, i64)>, AllocError>
    ensures { IfOk result (λ set. AreKeys place_cmp set (map numbered rows.now)) }
{
    let mut set = BTreeSet::new(alloc);
    for row in rows {
        add_number(&mut set, row)?;
    }
    Ok(set)
}

// Adds a column by its relation and name.
fn add_name(names: &mut BTreeSet<(u32, Name)>, row: &AttributeRow) -> Result<(), AllocError>
    ensures { OnOk result ((ns : List (ℕ × Bytes)) → AreKeys column_cmp names.old ns → AreKeys column_cmp names.new (ns ++ named row.now ∷ [])) }
{
    let name = row.attname.clone()?;
    add_key(names, (row.attrelid, name))?;
    Ok(())
}

// The set of the columns, by their relations and names.
fn column_names(alloc: Global, rows: &[AttributeRow]) -> Result<BTreeSet<(u32, Name)>, AllocError>
    ensures { IfOk result (λ set. AreKeys column_cmp set (map named rows.now)) }
{
    let mut set = BTreeSet::new(alloc);
    for row in rows {
        add_name(&mut set, row)?;
    }
    Ok(set)
}

// The oids of rows.
fn oids_of(alloc: Global, cat: &Catalogue) -> Result<Oids, AllocError>
    ensures { IfOk result (λ oids. AreOids cat.now oids) }
{
    let schemas = oids::schemas(alloc, cat.pg_namespace.as_slice())?;
    let types = oids::types(alloc, cat.pg_type.as_slice())?;
    let classes = oids::classes(alloc, cat.pg_class.as_slice())?;
    let constraints = oids::constraints(alloc, cat)?;
    Ok(Oids {
        schemas,
        types,
        classes,
        constraints,
    })
}

// The relations that have a row in a table of their own.
fn own_rows_of(alloc: Global, cat: &Catalogue) -> Result<OwnRows, AllocError>
    ensures { IfOk result (λ own. AreOwnRows cat.now own) }
{
    let views = oids::views(alloc, cat)?;
    let sequences = oids::sequences(alloc, cat)?;
    let indexes = oids::indexes(alloc, cat)?;
    Ok(OwnRows {
        views,
        sequences,
        indexes,
    })
}

// What keys, labels and columns belong to.
fn owners_of(alloc: Global, cat: &Catalogue) -> Result<Owners, AllocError>
    ensures { IfOk result (λ owners. AreOwners cat.now owners) }
{
    let key_indexes = oids::key_indexes(alloc, cat)?;
    let primary_tables = oids::primary_tables(alloc, cat)?;
    let labels = oids::labels(alloc, cat)?;
    let columns = oids::columns(alloc, cat)?;
    Ok(Owners {
        key_indexes,
        primary_tables,
        labels,
        columns,
    })
}

// What is found by names.
fn named_of(alloc: Global, cat: &Catalogue, schemas: &OidIndex) -> Result<Named, AllocError>
    requires { schemas.now ≡ schema_oids cat.now.pg_namespace }
    ensures { IfOk result (λ found. AreNamed cat.now found) }
{
    let spaces = cat.pg_namespace.as_slice();
    let column_numbers = column_numbers(alloc, cat.pg_attribute.as_slice())?;
    let column_names = column_names(alloc, cat.pg_attribute.as_slice())?;
    let type_paths = type_paths(alloc, schemas, spaces, cat.pg_type.as_slice())?;
    let class_paths = class_paths(alloc, schemas, spaces, cat.pg_class.as_slice())?;
    Ok(Named {
        column_numbers,
        column_names,
        type_paths,
        class_paths,
    })
}

/// What leads where in a catalogue.
pub(crate) fn leads_of(alloc: Global, cat: &Catalogue) -> Result<Leads<'_>, AllocError>
    ensures { IfOk result (λ leads. IsBeside cat.now leads) }
{
    let oids = oids_of(alloc, cat)?;
    let named = named_of(alloc, cat, &oids.schemas)?;
    let ends = chain_ends(alloc, &oids.types, cat.pg_type.as_slice())?;
    let own_rows = own_rows_of(alloc, cat)?;
    let owners = owners_of(alloc, cat)?;
    let roles = RoleIndex::of(alloc, cat.pg_authid.as_slice())?;
    Ok(Leads {
        roles,
        oids,
        own_rows,
        owners,
        named,
        ends,
    })
}
