//! The schemas of a folder, found by oid and by name.
ghost use Rattle.std.specs.Prelude.{◌≡◌, ◌≢◌, ℕ, ◌+◌, ◌<◌, ◌≤◌, ◌↔◌, List, [], ◌∷◌, ◌++◌, ◌⊎◌, Bool, true, false, Option, Some, None, Result, Ok, Err, IsTrue, IfSome, OnOk, OnErr, IfOk, IfErr, codes, not, ◌||◌};
ghost use Rattle.std.specs.Ordering.{nat_cmp, eq_by_cmp};
ghost use Rattle.std.specs.BTreeSet.{contains};
ghost use Rattle.std.specs.List.{IsDistinct};
ghost use Rattle.cat_model.specs.Values.{Bytes, bytes_cmp};
ghost use Rattle.cat_model.specs.Effects.{effect};
ghost use Rattle.cat_model.specs.References.{is_system};
ghost use Rattle.cat_model.specs.Trees.{run};
ghost use Rattle.cat_model.specs.declared.stmt.Stmt.TheVariants as stmt;
ghost use Rattle.schema_folders.specs.Naming.{boot, named, has_name, has_oid};
ghost use Rattle.schema_folders.specs.Folder.{has_public};
ghost use Rattle.cat_model.specs.declared.grant.Owned.TheVariants as owned;
ghost use Rattle.schema_folders.specs.Run.{said, cause_of, IsUsers};
ghost use Rattle.schema_folders.specs.Statements.{is_taken};
ghost use Rattle.schema_folders.specs.declared.schemas.ApplyFault.TheVariants as faults;

use cat_model::{Owned, Stmt};
use copy_text::Name;
use std::alloc::{AllocError, AllocFailed, Global};
use std::collections::BTreeSet;
use std::marker::Model;

/// The least oid of an object that isn't the system's own.
const FIRST_OID: u32 = 16384;

/// A row of `pg_namespace` of plain form: its owner is the role of oid 10, its grants are the default.
#[derive(Drop)]
pub struct SchemaRow {
    pub oid: u32,
    pub name: Name,
}

/// Why a statement is refused.
#[derive(Drop)]
pub enum SchemaCause {
    /// The schema that would be made is there already, or is the system's own.
    Exists(Name),
    /// There is no schema of this name.
    NoSchema(Name),
    /// There is no role of this name.
    NoRole(Name),
}

/// Why a statement has no effect.
#[derive(Drop)]
pub enum ApplyFault {
    /// The catalogue refuses it.
    Refused(SchemaCause),
    /// Memory ran out.
    Memory,
}

impl From<AllocError> for ApplyFault {
    ghost from_gives = { λ _ fault. fault ≡ faults.Memory };

    fn from(_error: AllocError) -> ApplyFault {
        ApplyFault::Memory
    }
}

/// The schemas of a folder, each oid and each name once. A contract sees them as the list of their rows.
#[derive(Drop)]
pub struct Schemas {
    rows: Vec<SchemaRow>,
    oids: BTreeSet<u32>,
    names: BTreeSet<Name>,
    next: u32,
}

impl Model for Schemas {
    ghost use Rattle.std.specs.Prelude.{List};
    ghost use Rattle.schema_folders.specs.declared.schemas.SchemaRow.{SchemaRow};

    ghost Value = { List SchemaRow };

    ghost use Rattle.schema_folders.specs.Indexed.{IsIndexed};

    ghost view = { λ s. s.rows.items };

    ghost invariant = { λ s. IsIndexed s.rows.items s.oids s.names };
}

impl Schemas {
    /// No schemas.
    pub fn new(alloc: Global) -> Schemas
        ensures { result ≡ [] }
    {
        Schemas {
            rows: Vec::new(alloc),
            oids: BTreeSet::new(alloc),
            names: BTreeSet::new(alloc),
            next: FIRST_OID,
        }
    }

    /// Whether a schema has the name `public`.
    pub fn has_public(&self) -> bool
        ensures { result ≡ has_public self.now }
    {
        self.rows.iter().any(|row| row.name.as_str() == "public")
    }

    /// The rows, in the order in which they came; no oid and no name comes twice.
    pub fn into_rows(self) -> Vec<SchemaRow>
        ensures rows { result.items ≡ self }
        ensures names { IsDistinct (λ a b. eq_by_cmp bytes_cmp a.name b.name) result.items }
        ensures oids { IsDistinct (λ a b. eq_by_cmp nat_cmp a.oid b.oid) result.items }
    {
        let Schemas {
            rows,
            oids: _,
            names: _,
            next: _,
        } = self;
        rows
    }

    /// Adds a row, and answers whether its oid and its name are new. Else nothing changes.
    pub fn add(&mut self, row: SchemaRow) -> Result<bool, AllocError>
        ensures new { IfOk result (λ added. added ≡ not (has_oid row.oid self.old || has_name row.name self.old)) }
        ensures added { IfOk result (λ added. added ≡ true → self.new ≡ self.old ++ row ∷ []) }
        ensures repeated { IfOk result (λ added. added ≡ false → self.new ≡ self.old) }
        ensures err { OnErr result (self.new ≡ self.old) }
    {
        if self.oids.contains(&row.oid) || self.names.contains(&row.name) {
            return Ok(false);
        }
        self.push(row)?;
        Ok(true)
    }

    /// Applies a statement of a kind that is carried out. What is new comes behind the rows that were there, under an oid that none of them has. A
    /// refusal, and want of memory, change nothing.
    pub fn apply(&mut self, statement: &Stmt) -> Result<(), ApplyFault>
        requires { is_taken statement.now ≡ true }
        ensures ok { OnOk result (said boot statement.now (named self.old) ≡ Ok (named self.new)) }
        ensures grown { OnOk result ((self.new ≡ self.old) ⊎ ((row : SchemaRow) × (has_oid row.oid self.old ≡ false) × (self.new ≡ self.old ++ row ∷ []))) }
        ensures user { OnOk result ((self.new ≡ self.old) ⊎ ((row : SchemaRow) × IsUsers row × (self.new ≡ self.old ++ row ∷ []))) }
        ensures refused { IfErr result (λ fault. (why : SchemaCause) → fault ≡ ApplyFault.Refused why
            → said boot statement.now (named self.old) ≡ Err (cause_of why)) }
        ensures err { OnErr result (self.new ≡ self.old) }
    {
        match statement {
            Stmt::Set { .. } | Stmt::SetConfig { .. } => Ok(()),
            Stmt::CreateSchema { name } => self.create(name),
            Stmt::OwnerTo {
                object: Owned::Schema(schema),
                role,
            } => self.own(schema, role),
            _ => unreachable!(),
        }
    }

    /// Gives a schema to a role. There is no role but the boot role, which owns each schema already.
    fn own(&self, schema: &Name, role: &Name) -> Result<(), ApplyFault>
        ensures ok { OnOk result (run (effect boot (stmt.OwnerTo (owned.Schema schema.now) role.now)) (named self.now) ≡ Ok (named self.now)) }
        ensures refused { IfErr result (λ fault. (why : SchemaCause) → fault ≡ ApplyFault.Refused why
            → run (effect boot (stmt.OwnerTo (owned.Schema schema.now) role.now)) (named self.now) ≡ Err (cause_of why)) }
    {
        if !self.names.contains(schema) {
            return Err(ApplyFault::Refused(SchemaCause::NoSchema(schema.clone()?)));
        }
        if !is_boot(role.as_bytes()) {
            return Err(ApplyFault::Refused(SchemaCause::NoRole(role.clone()?)));
        }
        Ok(())
    }

    /// Makes a schema, owned by the boot role, under an oid that no row has. A refusal, and want of memory, change
    /// nothing.
    fn create(&mut self, name: &Name) -> Result<(), ApplyFault>
        ensures ok { OnOk result (run (effect boot (stmt.CreateSchema name.now)) (named self.old) ≡ Ok (named self.new)) }
        ensures drawn { OnOk result ((oid : ℕ) × (has_oid oid self.old ≡ false) × (self.new ≡ self.old ++ record { oid = oid; name = name.now } ∷ [])) }
        ensures user { OnOk result ((oid : ℕ) × (16384 ≤ oid) × (is_system name.now ≡ false) × (self.new ≡ self.old ++ record { oid = oid; name = name.now } ∷ [])) }
        ensures refused { IfErr result (λ fault. (why : SchemaCause) → fault ≡ ApplyFault.Refused why
            → run (effect boot (stmt.CreateSchema name.now)) (named self.old) ≡ Err (cause_of why)) }
        ensures err { OnErr result (self.new ≡ self.old) }
    {
        if self.refuses(name) {
            return Err(ApplyFault::Refused(SchemaCause::Exists(name.clone()?)));
        }
        let from = self.next.max(FIRST_OID);
        let Some(oid) = fresh_oid(&self.oids, from) else {
            return Err(ApplyFault::Memory);
        };
        let name = name.clone()?;
        self.next = oid;
        self.push(SchemaRow { oid, name })?;
        Ok(())
    }

    /// Whether a schema of this name can't be made.
    fn refuses(&self, name: &Name) -> bool
        ensures { result ≡ (has_name name.now self.now || is_system name.now) }
    {
        self.names.contains(name) || is_system_name(name.as_bytes())
    }

    fn push(&mut self, row: SchemaRow) -> Result<(), AllocError>
        requires oid { has_oid row.oid self.old ≡ false }
        requires name { has_name row.name self.old ≡ false }
        ensures ok { OnOk result (self.new ≡ self.old ++ row ∷ []) }
        ensures err { OnErr result (self.new ≡ self.old) }
    {
        let name = row.name.clone()?;
        self.rows.reserve(1)?;
        index(&mut self.oids, &mut self.names, row.oid, name)?;
        self.rows.push(row).unwrap();
        Ok(())
    }
}

/// Adds an oid and a name to the sets, both or none.
fn index(
    oids: &mut BTreeSet<u32>,
    names: &mut BTreeSet<Name>,
    oid: u32,
    name: Name,
) -> Result<(), AllocError>
    requires { contains nat_cmp oids.old oid ≡ false }
    ensures oids_ok { OnOk result ((q : ℕ) → contains nat_cmp oids.new q ≡ (eq_by_cmp nat_cmp oid q || contains nat_cmp oids.old q)) }
    ensures names_ok { OnOk result ((q : Bytes) → contains bytes_cmp names.new q ≡ (eq_by_cmp bytes_cmp name q || contains bytes_cmp names.old q)) }
    ensures oids_err { OnErr result ((q : ℕ) → contains nat_cmp oids.new q ≡ contains nat_cmp oids.old q) }
    ensures names_err { OnErr result ((q : Bytes) → contains bytes_cmp names.new q ≡ contains bytes_cmp names.old q) }
{
    oids.insert(oid)?;
    if let Err(error) = names.insert(name) {
        oids.remove(&oid);
        return Err(AllocError::from(error));
    }
    Ok(())
}

/// The least oid from a place on that isn't among these; `None` comes only where the greatest oid is taken.
fn fresh_oid(oids: &BTreeSet<u32>, from: u32) -> Option<u32>
    ensures fresh { IfSome result (λ oid. contains nat_cmp oids.now oid ≡ false) }
    ensures place { IfSome result (λ oid. from ≤ oid) }
    ensures full { result ≡ None → contains nat_cmp oids.now 4294967295 ≡ true }
{
    for oid in from..u32::MAX {
        if !oids.contains(&oid) {
            return Some(oid);
        }
    }
    if oids.contains(&u32::MAX) {
        None
    } else {
        Some(u32::MAX)
    }
}

/// Whether this is the name of the boot role.
fn is_boot(name: &[u8]) -> bool
    ensures yes { IsTrue result → name.now ≡ boot }
    ensures no { result ≡ false → name.now ≢ boot }
{
    name == b"postgres".as_slice()
}

/// Whether a schema of this name is the system's own.
fn is_system_name(name: &[u8]) -> bool
    ensures { result ≡ is_system name.now }
{
    name == b"pg_catalog".as_slice() || name == b"information_schema".as_slice()
}
