//! The rows of constraints of tables and of checks of domains.
ghost use Rattle.std.specs.Prelude.{◌≡◌, true, ℤ, map, OnOk, IfOk};
ghost use Rattle.std.specs.FinMap.{entries as entries_of};
ghost use Rattle.std.specs.List.{AllByRecursion, flat_map};
ghost use Rattle.std.specs.Map.Iter.{deref_pair};
ghost use Rattle.cat_model.specs.declared.key.Key.{Key as TheKey};
ghost use Rattle.cat_model.specs.declared.key.Key.TheVariants as key;
ghost use Rattle.cat_model.specs.declared.object.QName.{QName as ThePath};
ghost use Rattle.cat_model.specs.declared.value.Domain.{Domain as TheDomain};
ghost use Rattle.cat_model.specs.declared.value.Value.{Value as TheValue};
ghost use Rattle.cat_model.specs.declared.value.Value.TheVariants as value;
ghost use Rattle.cat_model.specs.Values.{Bytes};
ghost use Rattle.cat_sound.specs.Itself.{check_of, IsConstraint, IsDomain, Itself};
ghost use Rattle.cluster_loops.specs.Ids.{of_keys, oids_of};
ghost use Rattle.map_export.specs.Making.{AreSaid};
ghost use Rattle.object_export.specs.Constraints.{index_of, parent_oid, IsConstraintRow, IsCheckRow, IsConstrainedRow};
ghost use Rattle.object_loops.specs.Adding.{Adds};
ghost use Rattle.object_export.specs.Parts.{check_in, constrained_in};
ghost use Rattle.sound_texts.specs.Grammar.{grammar};

use cat_model::{Constraint, ConstraintKind, Domain, Key, QName, Value};
use cat_rows::{ConstraintRow, Rows};
use cluster_loops::{check_oid, constraint_oid, index_oid, push, relation_oid, type_oid};
use copy_text::{Name, Text};
use object_ids::Ids;
use object_rows::{ConstraintOids, check_row, constraint_row};
use std::alloc::{AllocError, Global};

// The index of a key; 0 for any other constraint.
fn index_of(
    ids: &Ids,
    table: &QName,
    name: &Name,
    constraint: &Constraint,
) -> Result<u32, AllocError>
    ensures { IfOk result (λ oid. oid ≡ index_of (of_keys ids.now) (record { table = table.now; name = name.now; constraint = constraint.now }) constraint.now.kind) }
{
    match constraint.kind {
        ConstraintKind::Primary => index_oid(ids, table, name),
        ConstraintKind::Unique => index_oid(ids, table, name),
        ConstraintKind::Foreign => Ok(0),
        ConstraintKind::Check => Ok(0),
    }
}

// The table that a foreign key refers to; 0 for any other constraint.
fn parent_oid(ids: &Ids, constraint: &Constraint) -> Result<u32, AllocError>
    ensures { IfOk result (λ oid. oid ≡ parent_oid (of_keys ids.now) constraint.now.parent) }
{
    match &constraint.parent {
        Some((parent, _)) => relation_oid(ids, parent),
        None => Ok(0),
    }
}

// The oids in the row of a constraint of a table.
fn oids_in(
    ids: &Ids,
    table: &QName,
    name: &Name,
    constraint: &Constraint,
) -> Result<ConstraintOids, AllocError>
    ensures { IfOk result (λ oids. oids ≡ record { oid = of_keys ids.now (key.Con table.now name.now); table = of_keys ids.now (key.Rel table.now); index = index_of (of_keys ids.now) (record { table = table.now; name = name.now; constraint = constraint.now }) constraint.now.kind; parent = parent_oid (of_keys ids.now) constraint.now.parent }) }
{
    let oid = constraint_oid(ids, table, name)?;
    let of = relation_oid(ids, table)?;
    let index = index_of(ids, table, name, constraint)?;
    let parent = parent_oid(ids, constraint)?;
    Ok(ConstraintOids {
        oid,
        table: of,
        index,
        parent,
    })
}

// The row of a constraint of a table.
fn row_of(
    alloc: Global,
    ids: &Ids,
    table: &QName,
    name: &Name,
    constraint: &Constraint,
) -> Result<ConstraintRow, AllocError>
    ensures { IfOk result (λ row. IsConstraint grammar constraint.now → IsConstraintRow (of_keys ids.now) (record { table = table.now; name = name.now; constraint = constraint.now }) row) }
{
    let oids = oids_in(ids, table, name, constraint)?;
    Ok(constraint_row(alloc, oids, name, constraint)?)
}

// Adds the row of a constraint of a table.
fn add_constraint(
    alloc: Global,
    ids: &Ids,
    table: &QName,
    name: &Name,
    constraint: &Constraint,
    rows: &mut Rows<ConstraintRow>,
) -> Result<(), AllocError>
    ensures { OnOk result ((number : ThePath → Bytes → ℤ) → IsConstraint grammar constraint.now → Adds (IsConstrainedRow (oids_of ids.now number)) (constrained_in (key.Con table.now name.now, value.Constraint constraint.now)) rows.old rows.new) }
{
    push(rows, row_of(alloc, ids, table, name, constraint)?)?;
    Ok(())
}

// The row of a check of a domain.
fn row_of_check(
    alloc: Global,
    ids: &Ids,
    path: &QName,
    name: &Name,
    text: &Text,
) -> Result<ConstraintRow, AllocError>
    ensures { IfOk result (λ row. (number : ThePath → Bytes → ℤ) (d : TheDomain) → grammar.constraint (check_of text.now) ≡ true → IsCheckRow (oids_of ids.now number) (record { path = path.now; domain = d; name = name.now; text = text.now }) row) }
{
    let own = check_oid(ids, path, name)?;
    let of = type_oid(ids, path)?;
    Ok(check_row(alloc, own, of, name, text)?)
}

// Adds the rows of the checks of a domain, in the order of their names.
fn add_checks(
    alloc: Global,
    ids: &Ids,
    path: &QName,
    domain: &Domain,
    rows: &mut Rows<ConstraintRow>,
) -> Result<(), AllocError>
    ensures { OnOk result ((number : ThePath → Bytes → ℤ) → AllByRecursion (λ e. grammar.constraint (check_of e.1) ≡ true) (entries_of domain.now.checks) → Adds (IsConstrainedRow (oids_of ids.now number)) (map (check_in path.now domain.now) (entries_of domain.now.checks)) rows.old rows.new) }
{
    for (name, text) in domain.checks.iter() {
        push(rows, row_of_check(alloc, ids, path, name, text)?)?;
    }
    Ok(())
}

// Adds the rows of the checks of a domain that is in order.
fn add_domain(
    alloc: Global,
    ids: &Ids,
    path: &QName,
    domain: &Domain,
    rows: &mut Rows<ConstraintRow>,
) -> Result<(), AllocError>
    ensures { OnOk result ((number : ThePath → Bytes → ℤ) → IsDomain grammar path.now domain.now → Adds (IsConstrainedRow (oids_of ids.now number)) (map (check_in path.now domain.now) (entries_of domain.now.checks)) rows.old rows.new) }
{
    add_checks(alloc, ids, path, domain, rows)?;
    Ok(())
}

// Adds the rows of an entry, where it is of a constraint or of a domain.
#[tactic(auto, using(crate::proofs::Passes::adds_none))]
fn add_entry(
    alloc: Global,
    ids: &Ids,
    key: &Key,
    value: &Value,
    rows: &mut Rows<ConstraintRow>,
) -> Result<(), AllocError>
    ensures { OnOk result ((number : ThePath → Bytes → ℤ) → Itself grammar key.now value.now → Adds (IsConstrainedRow (oids_of ids.now number)) (constrained_in (key.now, value.now)) rows.old rows.new) }
{
    match (key, value) {
        (Key::Con(table, name), Value::Constraint(constraint)) => {
            add_constraint(alloc, ids, table, name, constraint, rows)
        }
        (Key::UserType(path), Value::Domain(domain)) => {
            add_domain(alloc, ids, path, domain, rows)
        }
        _ => Ok(()),
    }
}

/// The rows of pg_constraint, one of each constraint and of each check of the domains among the entries, in their order. The
/// only error is want of memory. See <https://www.postgresql.org/docs/16/catalog-pg-constraint.html>.
pub fn constraint_rows(
    alloc: Global,
    ids: &Ids,
    entries: &[(&Key, &Value)],
) -> Result<Rows<ConstraintRow>, AllocError>
    ensures { IfOk result (λ rows. (number : ThePath → Bytes → ℤ) → AllByRecursion (λ e. Itself grammar e.0 e.1) (map (deref_pair {K = TheKey} {X = TheValue}) entries.now) → AreSaid (IsConstrainedRow (oids_of ids.now number)) (flat_map constrained_in (map (deref_pair {K = TheKey} {X = TheValue}) entries.now)) rows) }
{
    let mut rows = Rows::new(alloc);
    for i in 0..entries.len() {
        let (key, value) = entries[i];
        add_entry(alloc, ids, key, value, &mut rows)?;
    }
    Ok(rows)
}
