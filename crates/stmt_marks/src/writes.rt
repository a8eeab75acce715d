//! What a statement writes.
ghost use Rattle.std.specs.Prelude.{◌≡◌, ◌++◌, [], ◌∷◌, List, IfOk, map};
ghost use Rattle.std.specs.List.{flat_map};
ghost use Rattle.cat_model.specs.declared.key.Key.TheVariants as key;
ghost use Rattle.cat_model.specs.declared.object.Object.TheVariants as object;
ghost use Rattle.cat_model.specs.declared.class.Mark.TheVariants as mark;
ghost use Rattle.cat_model.specs.declared.class.Class.TheVariants as class;
ghost use Rattle.cat_model.specs.IndexColumns.{plain_columns};
ghost use Rattle.cat_model.specs.KeyEffects.{index_path};
ghost use Rattle.cat_model.specs.ObjectEffects.{owned_object, granted_object, commented_object};
ghost use Rattle.cat_model.specs.Footprints.{default_writes, made_marks, writes_of};

use crate::lists::{copied, one};
use crate::objects::{commented_object, granted_object, owned_object};
use crate::parts::{push_checks, push_defaults};
use crate::single::{
    body, database, default, grants, index_relation, members, owned_by, owner, relation, role,
    rows, schema, sequence_value, user_type,
};
use cat_model::{
    CheckDef, ColumnDef, Commented, ConstraintKind, Granted, Items, Key, Mark, Object, Owned,
    QName, Stmt,
};
use copy_text::{Name, Text};
use std::alloc::{AllocError, Global};
use stmt_refs::plain_columns;

fn made_schema(alloc: Global, name: &Name) -> Result<Vec<Mark>, AllocError>
    ensures { IfOk result (λ v. v.items ≡ made_marks (key.Schema name.now) (object.Schema name.now)) }
{
    let mut marks = one(alloc, schema(name)?)?;
    marks.push(owner(Object::Schema(name.clone()?)))?;
    marks.push(grants(Object::Schema(name.clone()?)))?;
    Ok(marks)
}

fn made_type(alloc: Global, q: &QName) -> Result<Vec<Mark>, AllocError>
    ensures { IfOk result (λ v. v.items ≡ made_marks (key.UserType q.now) (object.Type q.now)) }
{
    let mut marks = one(alloc, user_type(q)?)?;
    marks.push(owner(Object::Type(q.clone()?)))?;
    marks.push(grants(Object::Type(q.clone()?)))?;
    Ok(marks)
}

fn made_relation(alloc: Global, q: &QName) -> Result<Vec<Mark>, AllocError>
    ensures { IfOk result (λ v. v.items ≡ made_marks (key.Rel q.now) (object.Relation q.now)) }
{
    let mut marks = one(alloc, relation(q)?)?;
    marks.push(owner(Object::Relation(q.clone()?)))?;
    marks.push(grants(Object::Relation(q.clone()?)))?;
    Ok(marks)
}

fn table_writes(
    alloc: Global,
    q: &QName,
    columns: &[ColumnDef],
    checks: &[CheckDef],
) -> Result<Vec<Mark>, AllocError>
    ensures { IfOk result (λ v. v.items ≡ made_marks (key.Rel q.now) (object.Relation q.now) ++ mark.Key (key.Rows q.now) ∷ flat_map (default_writes q.now) columns.now ++ map (λ c. mark.Key (key.Con q.now c.name)) checks.now) }
{
    let mut marks = made_relation(alloc, q)?;
    marks.push(rows(q)?)?;
    push_defaults(&mut marks, q, columns)?;
    push_checks(&mut marks, q, checks)?;
    Ok(marks)
}

fn sequence_writes(alloc: Global, q: &QName) -> Result<Vec<Mark>, AllocError>
    ensures { IfOk result (λ v. v.items ≡ made_marks (key.Rel q.now) (object.Relation q.now) ++ mark.Key (key.SeqVal q.now) ∷ []) }
{
    let mut marks = made_relation(alloc, q)?;
    marks.push(sequence_value(q)?)?;
    Ok(marks)
}

fn view_writes(alloc: Global, q: &QName) -> Result<Vec<Mark>, AllocError>
    ensures { IfOk result (λ v. v.items ≡ made_marks (key.Rel q.now) (object.Relation q.now) ++ mark.Key (key.Body q.now) ∷ []) }
{
    let mut marks = made_relation(alloc, q)?;
    marks.push(body(q)?)?;
    Ok(marks)
}

fn new_constraint(
    alloc: Global,
    q: &QName,
    name: &Name,
    kind: ConstraintKind,
    columns: &[Name],
) -> Result<Mark, AllocError>
    ensures { IfOk result (λ m. m ≡ mark.NewConstraint q.now name.now kind columns.now) }
{
    let table = q.clone()?;
    let name = name.clone()?;
    let columns = copied(alloc, columns)?;
    Ok(Mark::NewConstraint {
        table,
        name,
        kind,
        columns,
    })
}

// A constraint with an index of its own.
fn indexed_writes(
    alloc: Global,
    q: &QName,
    name: &Name,
    kind: ConstraintKind,
    columns: &[Name],
) -> Result<Vec<Mark>, AllocError>
    ensures { IfOk result (λ v. v.items ≡ mark.NewConstraint q.now name.now kind columns.now ∷ mark.Key (key.Rel (index_path q.now name.now)) ∷ []) }
{
    let mut marks = Vec::new(alloc);
    marks.push(new_constraint(alloc, q, name, kind, columns)?)?;
    marks.push(index_relation(q, name)?)?;
    Ok(marks)
}

fn new_index(q: &QName, name: &Name, unique_on: Option<Items<Name>>) -> Result<Mark, AllocError>
    ensures { IfOk result (λ m. m ≡ mark.NewIndex q.now name.now unique_on) }
{
    let table = q.clone()?;
    let name = name.clone()?;
    Ok(Mark::NewIndex {
        table,
        name,
        unique_on,
    })
}

fn index_writes(
    alloc: Global,
    q: &QName,
    name: &Name,
    unique_on: Option<Items<Name>>,
) -> Result<Vec<Mark>, AllocError>
    ensures { IfOk result (λ v. v.items ≡ mark.NewIndex q.now name.now unique_on ∷ mark.Key (key.Rel (index_path q.now name.now)) ∷ []) }
{
    let mut marks = Vec::new(alloc);
    marks.push(new_index(q, name, unique_on)?)?;
    marks.push(index_relation(q, name)?)?;
    Ok(marks)
}

fn comment_writes(alloc: Global, what: &Commented) -> Result<Vec<Mark>, AllocError>
    ensures { IfOk result (λ v. v.items ≡ mark.Key (key.Comment (commented_object what.now)) ∷ []) }
{
    one(alloc, Mark::Key(Key::Comment(commented_object(what)?)))
}

fn grant_writes(alloc: Global, what: &Granted) -> Result<Vec<Mark>, AllocError>
    ensures { IfOk result (λ v. v.items ≡ mark.Key (key.Acl (granted_object what.now)) ∷ []) }
{
    one(alloc, grants(granted_object(what)?))
}

fn owner_writes(alloc: Global, what: &Owned) -> Result<Vec<Mark>, AllocError>
    ensures { IfOk result (λ v. v.items ≡ mark.Key (key.Owner (owned_object what.now)) ∷ mark.Key (key.Acl (owned_object what.now)) ∷ []) }
{
    let mut marks = Vec::new(alloc);
    marks.push(owner(owned_object(what)?))?;
    marks.push(grants(owned_object(what)?))?;
    Ok(marks)
}

fn database_writes(alloc: Global, name: &Name) -> Result<Vec<Mark>, AllocError>
    ensures { IfOk result (λ v. v.items ≡ mark.Key (key.Database name.now) ∷ mark.Key (key.Owner (object.Database name.now)) ∷ []) }
{
    let mut marks = Vec::new(alloc);
    marks.push(database(name)?)?;
    marks.push(owner(Object::Database(name.clone()?)))?;
    Ok(marks)
}

fn type_writes(alloc: Global, q: &QName) -> Result<Vec<Mark>, AllocError>
    ensures { IfOk result (λ v. v.items ≡ mark.Key (key.UserType q.now) ∷ []) }
{
    one(alloc, user_type(q)?)
}

fn owned_by_writes(alloc: Global, q: &QName) -> Result<Vec<Mark>, AllocError>
    ensures { IfOk result (λ v. v.items ≡ mark.Key (key.OwnedBy q.now) ∷ []) }
{
    one(alloc, owned_by(q)?)
}

fn value_writes(alloc: Global, q: &QName) -> Result<Vec<Mark>, AllocError>
    ensures { IfOk result (λ v. v.items ≡ mark.Key (key.SeqVal q.now) ∷ []) }
{
    one(alloc, sequence_value(q)?)
}

fn body_writes(alloc: Global, q: &QName) -> Result<Vec<Mark>, AllocError>
    ensures { IfOk result (λ v. v.items ≡ mark.Key (key.Body q.now) ∷ []) }
{
    one(alloc, body(q)?)
}

fn column_default_writes(alloc: Global, q: &QName, column: &Name) -> Result<Vec<Mark>, AllocError>
    ensures { IfOk result (λ v. v.items ≡ mark.Key (key.Default q.now column.now) ∷ []) }
{
    one(alloc, default(q, column)?)
}

fn rows_writes(alloc: Global, q: &QName) -> Result<Vec<Mark>, AllocError>
    ensures { IfOk result (λ v. v.items ≡ mark.Key (key.Rows q.now) ∷ []) }
{
    one(alloc, rows(q)?)
}

fn role_writes(alloc: Global, name: &Name) -> Result<Vec<Mark>, AllocError>
    ensures { IfOk result (λ v. v.items ≡ mark.Key (key.Role name.now) ∷ []) }
{
    one(alloc, role(name)?)
}

fn member_writes(alloc: Global, of: &Name, member: &Name) -> Result<Vec<Mark>, AllocError>
    ensures { IfOk result (λ v. v.items ≡ mark.Class (class.Members of.now member.now) ∷ []) }
{
    one(alloc, members(of, member)?)
}

fn constraint_writes(
    alloc: Global,
    q: &QName,
    name: &Name,
    kind: ConstraintKind,
    columns: &[Name],
) -> Result<Vec<Mark>, AllocError>
    ensures { IfOk result (λ v. v.items ≡ mark.NewConstraint q.now name.now kind columns.now ∷ []) }
{
    one(alloc, new_constraint(alloc, q, name, kind, columns)?)
}

fn unique_index_writes(
    alloc: Global,
    q: &QName,
    name: &Name,
    rest: &Text,
) -> Result<Vec<Mark>, AllocError>
    ensures { IfOk result (λ v. v.items ≡ mark.NewIndex q.now name.now (plain_columns rest.now) ∷ mark.Key (key.Rel (index_path q.now name.now)) ∷ []) }
{
    let columns = plain_columns(alloc, rest.as_bytes())?;
    index_writes(alloc, q, name, columns)
}

/// What a statement writes.
pub(crate) fn writes_of(alloc: Global, stmt: &Stmt) -> Result<Vec<Mark>, AllocError>
    ensures { IfOk result (λ v. v.items ≡ writes_of stmt.now) }
{
    match stmt {
        Stmt::Set { .. } | Stmt::SetConfig { .. } | Stmt::Connect { .. } => Ok(Vec::new(alloc)),
        Stmt::CreateSchema { name } => made_schema(alloc, name),
        Stmt::CreateEnum { q, .. } | Stmt::CreateDomain { q, .. } => made_type(alloc, q),
        Stmt::AddDomainCheck { q, .. } => type_writes(alloc, q),
        Stmt::CreateTable { q, columns, checks } => table_writes(
            alloc,
            q,
            columns.as_slice(),
            checks.as_slice(),
        ),
        Stmt::CreateSequence { q, .. } => sequence_writes(alloc, q),
        Stmt::OwnedBy { q, .. } => owned_by_writes(alloc, q),
        Stmt::SetVal { q, .. } => value_writes(alloc, q),
        Stmt::CreateView { q, .. } => view_writes(alloc, q),
        Stmt::ReplaceView { q, .. } => body_writes(alloc, q),
        Stmt::SetDefault { q, column, .. } => column_default_writes(alloc, q, column),
        Stmt::AddPrimary {
            q,
            name,
            columns,
            ..
        } => indexed_writes(alloc, q, name, ConstraintKind::Primary, columns.as_slice()),
        Stmt::AddUnique {
            q,
            name,
            columns,
            ..
        } => indexed_writes(alloc, q, name, ConstraintKind::Unique, columns.as_slice()),
        Stmt::AddForeign {
            q,
            name,
            columns,
            ..
        } => constraint_writes(alloc, q, name, ConstraintKind::Foreign, columns.as_slice()),
        Stmt::AddCheck { q, name, .. } => constraint_writes(
            alloc,
            q,
            name,
            ConstraintKind::Check,
            &[],
        ),
        Stmt::CreateIndex { q, name, .. } => index_writes(alloc, q, name, None),
        Stmt::CreateUniqueIndex { q, name, rest, .. } => {
            unique_index_writes(alloc, q, name, rest)
        }
        Stmt::CopyRows { q, .. } => rows_writes(alloc, q),
        Stmt::Grant { object, .. } | Stmt::Revoke { object, .. } => grant_writes(alloc, object),
        Stmt::Comment { object, .. } => comment_writes(alloc, object),
        Stmt::OwnerTo { object, .. } => owner_writes(alloc, object),
        Stmt::CreateRole { name } | Stmt::AlterRole { name, .. } => role_writes(alloc, name),
        Stmt::GrantRole {
            role: of,
            member,
            ..
        } => member_writes(alloc, of, member),
        Stmt::CreateDatabase { name, .. } => database_writes(alloc, name),
    }
}
