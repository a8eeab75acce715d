//! What the statements of an entry read and write.
ghost use Rattle.std.specs.Prelude.{◌≡◌, ◌++◌, ◌∷◌, [], IfOk, OnOk};
ghost use Rattle.std.specs.List.{flat_map};
ghost use Rattle.cat_model.specs.declared.class.Class.TheVariants as class;
ghost use Rattle.cat_model.specs.declared.class.Mark.TheVariants as mark;
ghost use Rattle.cat_model.specs.Footprints.{reads_of, writes_of};
ghost use Rattle.restore_plan.specs.Order.{footprint_of_steps, foreign_keys_in, foreign_keys_of};

use cat_model::{Class, ConstraintKind, FkSet, Footprint, Items, Key, Mark, QName, Stmt};
use copy_text::Name;
use restore_plan::Step;
use std::alloc::{AllocError, Global};
use stmt_marks::footprint;

fn copied_names(alloc: Global, names: &[Name]) -> Result<Items<Name>, AllocError>
    ensures { IfOk result (λ v. v ≡ names.now) }
{
    Ok(Items::new(names.to_vec(alloc)?))
}

fn copied_columns(
    alloc: Global,
    columns: &Option<Items<Name>>,
) -> Result<Option<Items<Name>>, AllocError>
    ensures { IfOk result (λ v. v ≡ columns.now) }
{
    match columns {
        Some(names) => Ok(Some(copied_names(alloc, names.as_slice())?)),
        None => Ok(None),
    }
}

fn keys_on(alloc: Global, table: &QName, columns: &[Name]) -> Result<Class, AllocError>
    ensures { IfOk result (λ c. c ≡ class.KeysOn table.now columns.now) }
{
    let table = table.clone()?;
    Ok(Class::KeysOn(table, copied_names(alloc, columns)?))
}

fn copied_class(alloc: Global, class: &Class) -> Result<Class, AllocError>
    ensures { IfOk result (λ c. c ≡ class.now) }
{
    match class {
        Class::Constraints(table) => Ok(Class::Constraints(table.clone()?)),
        Class::Indexes(table) => Ok(Class::Indexes(table.clone()?)),
        Class::PrimaryKeys(table) => Ok(Class::PrimaryKeys(table.clone()?)),
        Class::KeysOn(table, columns) => keys_on(alloc, table, columns.as_slice()),
        Class::Members(role, member) => {
            let role = role.clone()?;
            Ok(Class::Members(role, member.clone()?))
        }
    }
}

fn new_constraint(
    alloc: Global,
    table: &QName,
    name: &Name,
    kind: ConstraintKind,
    columns: &[Name],
) -> Result<Mark, AllocError>
    ensures { IfOk result (λ m. m ≡ mark.NewConstraint table.now name.now kind columns.now) }
{
    let table = table.clone()?;
    let name = name.clone()?;
    let columns = copied_names(alloc, columns)?;
    Ok(Mark::NewConstraint {
        table,
        name,
        kind,
        columns,
    })
}

fn new_index(
    alloc: Global,
    table: &QName,
    name: &Name,
    unique_on: &Option<Items<Name>>,
) -> Result<Mark, AllocError>
    ensures { IfOk result (λ m. m ≡ mark.NewIndex table.now name.now unique_on.now) }
{
    let table = table.clone()?;
    let name = name.clone()?;
    let unique_on = copied_columns(alloc, unique_on)?;
    Ok(Mark::NewIndex {
        table,
        name,
        unique_on,
    })
}

fn copied_key(key: &Key) -> Result<Key, AllocError>
    ensures { IfOk result (λ k. k ≡ key.now) }
{
    key.clone()
}

fn copied_mark(alloc: Global, mark: &Mark) -> Result<Mark, AllocError>
    ensures { IfOk result (λ m. m ≡ mark.now) }
{
    match mark {
        Mark::Key(key) => Ok(Mark::Key(copied_key(key)?)),
        Mark::NewConstraint {
            table,
            name,
            kind,
            columns,
        } => new_constraint(alloc, table, name, *kind, columns.as_slice()),
        Mark::NewIndex {
            table,
            name,
            unique_on,
        } => new_index(alloc, table, name, unique_on),
        Mark::Class(class) => Ok(Mark::Class(copied_class(alloc, class)?)),
    }
}

fn push_all(alloc: Global, marks: &mut Vec<Mark>, more: &[Mark]) -> Result<(), AllocError>
    ensures { OnOk result (marks.new.items ≡ marks.old.items ++ more.now) }
{
    for mark in more {
        marks.push(copied_mark(alloc, mark)?)?;
    }
    Ok(())
}

// Adds what a statement reads and writes.
fn push_marks(
    alloc: Global,
    stmt: &Stmt,
    parents: &FkSet,
    reads: &mut Vec<Mark>,
    writes: &mut Vec<Mark>,
) -> Result<(), AllocError>
    ensures reads { OnOk result (reads.new.items ≡ reads.old.items ++ reads_of stmt.now parents.now) }
    ensures writes { OnOk result (writes.new.items ≡ writes.old.items ++ writes_of stmt.now) }
{
    let marks = footprint(alloc, stmt, parents)?;
    push_all(alloc, reads, marks.reads.as_slice())?;
    push_all(alloc, writes, marks.writes.as_slice())
}

/// The footprint of statements together, where these are the foreign keys of the opening and of earlier entries.
pub(crate) fn footprint_of_steps(
    alloc: Global,
    steps: &[Step],
    parents: &FkSet,
) -> Result<Footprint, AllocError>
    ensures { IfOk result (λ f. f ≡ footprint_of_steps parents.now steps.now) }
{
    let mut reads = Vec::new(alloc);
    let mut writes = Vec::new(alloc);
    for step in steps {
        push_marks(alloc, &step.statement, parents, &mut reads, &mut writes)?;
    }
    Ok(Footprint {
        reads: Items::new(reads),
        writes: Items::new(writes),
    })
}

fn put_pair(parents: &mut FkSet, table: &QName, parent: &QName) -> Result<(), AllocError>
    ensures { OnOk result (parents.new ≡ parents.old ++ (table.now, parent.now) ∷ []) }
{
    let table = table.clone()?;
    parents.put(table, parent.clone()?)
}

// Adds the foreign key of a statement.
fn put_foreign_key(parents: &mut FkSet, stmt: &Stmt) -> Result<(), AllocError>
    ensures { OnOk result (parents.new ≡ parents.old ++ foreign_keys_of stmt.now) }
{
    match stmt {
        Stmt::AddForeign { q, parent, .. } => put_pair(parents, q, parent),
        _ => Ok(()),
    }
}

/// Adds the foreign keys of statements.
pub(crate) fn put_foreign_keys(parents: &mut FkSet, steps: &[Step]) -> Result<(), AllocError>
    ensures { OnOk result (parents.new ≡ parents.old ++ foreign_keys_in steps.now) }
{
    for step in steps {
        put_foreign_key(parents, &step.statement)?;
    }
    Ok(())
}
