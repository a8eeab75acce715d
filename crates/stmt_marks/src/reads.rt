//! What a statement reads.
ghost use Rattle.std.specs.Prelude.{◌≡◌, ◌++◌, [], ◌∷◌, List, IfOk, OnOk, map};
ghost use Rattle.std.specs.List.{flat_map};
ghost use Rattle.cat_model.specs.declared.key.Key.TheVariants as key;
ghost use Rattle.cat_model.specs.declared.class.Mark.TheVariants as mark;
ghost use Rattle.cat_model.specs.declared.class.Class.TheVariants as class;
ghost use Rattle.cat_model.specs.References.{expression_references, view_references};
ghost use Rattle.cat_model.specs.IndexColumns.{plain_columns};
ghost use Rattle.cat_model.specs.KeyEffects.{index_path};
ghost use Rattle.cat_model.specs.ObjectEffects.{owned_object, granted_object};
ghost use Rattle.cat_model.specs.TypeEffects.{but, default_references, check_references};
ghost use Rattle.cat_model.specs.Footprints.{marks as marks_of, type_reads, column_reads, grantee_reads, grantor_reads, parent_reads, row_reads, owned_key, granted_key, commented_key, reads_of};

use crate::lists::{one, push_marks, without_relation, without_type};
use crate::objects::{commented_key, granted_key, granted_object, owned_key, owned_object};
use crate::parts::{
    check_refs, default_refs, push_columns, push_grantee, push_grantor, push_parents, push_rows,
    push_type,
};
use crate::single::{
    constraint, constraints, database, grants, index, index_relation, indexes, keys_on, members,
    owner, primary_keys, relation, role, rows, schema, user_type,
};
use cat_model::{
    CheckDef, ColumnDef, Commented, Granted, Grantee, Mark, Owned, QName, Stmt, TypeName,
};
use copy_text::{Name, Text};
use std::alloc::{AllocError, Global};
use stmt_refs::{expr_refs, plain_columns, view_refs};

// What is read for a new enum or domain.
fn new_type_reads(alloc: Global, q: &QName) -> Result<Vec<Mark>, AllocError>
    ensures { IfOk result (λ v. v.items ≡ mark.Key (key.Schema q.now.schema) ∷ mark.Key (key.UserType q.now) ∷ []) }
{
    let mut marks = Vec::new(alloc);
    marks.push(schema(&q.schema)?)?;
    marks.push(user_type(q)?)?;
    Ok(marks)
}

// What is read for a new relation.
fn new_relation_reads(alloc: Global, q: &QName) -> Result<Vec<Mark>, AllocError>
    ensures { IfOk result (λ v. v.items ≡ mark.Key (key.Schema q.now.schema) ∷ mark.Key (key.Rel q.now) ∷ []) }
{
    let mut marks = Vec::new(alloc);
    marks.push(schema(&q.schema)?)?;
    marks.push(relation(q)?)?;
    Ok(marks)
}

fn both_reads(alloc: Global, q: &QName, other: &QName) -> Result<Vec<Mark>, AllocError>
    ensures { IfOk result (λ v. v.items ≡ mark.Key (key.Rel q.now) ∷ mark.Key (key.Rel other.now) ∷ []) }
{
    let mut marks = Vec::new(alloc);
    marks.push(relation(q)?)?;
    marks.push(relation(other)?)?;
    Ok(marks)
}

fn push_domain_default(
    alloc: Global,
    marks: &mut Vec<Mark>,
    text: &Option<Text>,
) -> Result<(), AllocError>
    ensures { OnOk result (marks.new.items ≡ marks.old.items ++ marks_of (default_references text.now)) }
{
    let keys = default_refs(alloc, text)?;
    push_marks(alloc, marks, keys)
}

// What checks refer to, but the domain itself.
fn push_domain_checks(
    alloc: Global,
    marks: &mut Vec<Mark>,
    q: &QName,
    checks: &[CheckDef],
) -> Result<(), AllocError>
    ensures { OnOk result (marks.new.items ≡ marks.old.items ++ marks_of (but (key.UserType q.now) (check_references checks.now))) }
{
    let keys = check_refs(alloc, checks)?;
    let keys = without_type(alloc, q, keys)?;
    push_marks(alloc, marks, keys)
}

// What checks refer to, but the table itself.
fn push_table_checks(
    alloc: Global,
    marks: &mut Vec<Mark>,
    q: &QName,
    checks: &[CheckDef],
) -> Result<(), AllocError>
    ensures { OnOk result (marks.new.items ≡ marks.old.items ++ marks_of (but (key.Rel q.now) (check_references checks.now))) }
{
    let keys = check_refs(alloc, checks)?;
    let keys = without_relation(alloc, q, keys)?;
    push_marks(alloc, marks, keys)
}

// What a body refers to, but the view itself.
fn push_body(alloc: Global, marks: &mut Vec<Mark>, q: &QName, body: &Text) -> Result<(), AllocError>
    ensures { OnOk result (marks.new.items ≡ marks.old.items ++ marks_of (but (key.Rel q.now) (view_references body.now))) }
{
    let keys = view_refs(alloc, body.as_bytes())?;
    let keys = without_relation(alloc, q, keys)?;
    push_marks(alloc, marks, keys)
}

fn domain_reads(
    alloc: Global,
    q: &QName,
    base: &TypeName,
    default: &Option<Text>,
    checks: &[CheckDef],
) -> Result<Vec<Mark>, AllocError>
    ensures { IfOk result (λ v. v.items ≡ mark.Key (key.Schema q.now.schema) ∷ mark.Key (key.UserType q.now) ∷ type_reads base.now ++ marks_of (default_references default.now) ++ marks_of (but (key.UserType q.now) (check_references checks.now))) }
{
    let mut marks = new_type_reads(alloc, q)?;
    push_type(&mut marks, base)?;
    push_domain_default(alloc, &mut marks, default)?;
    push_domain_checks(alloc, &mut marks, q, checks)?;
    Ok(marks)
}

fn domain_check_reads(alloc: Global, q: &QName, text: &Text) -> Result<Vec<Mark>, AllocError>
    ensures { IfOk result (λ v. v.items ≡ mark.Key (key.UserType q.now) ∷ marks_of (expression_references text.now)) }
{
    let mut marks = Vec::new(alloc);
    marks.push(user_type(q)?)?;
    push_marks(alloc, &mut marks, expr_refs(alloc, text.as_bytes())?)?;
    Ok(marks)
}

fn table_reads(
    alloc: Global,
    q: &QName,
    columns: &[ColumnDef],
    checks: &[CheckDef],
) -> Result<Vec<Mark>, AllocError>
    ensures { IfOk result (λ v. v.items ≡ mark.Key (key.Schema q.now.schema) ∷ mark.Key (key.Rel q.now) ∷ flat_map (column_reads q.now) columns.now ++ marks_of (but (key.Rel q.now) (check_references checks.now))) }
{
    let mut marks = new_relation_reads(alloc, q)?;
    push_columns(alloc, &mut marks, q, columns)?;
    push_table_checks(alloc, &mut marks, q, checks)?;
    Ok(marks)
}

fn view_reads(alloc: Global, q: &QName, body: &Text) -> Result<Vec<Mark>, AllocError>
    ensures { IfOk result (λ v. v.items ≡ mark.Key (key.Schema q.now.schema) ∷ mark.Key (key.Rel q.now) ∷ marks_of (but (key.Rel q.now) (view_references body.now))) }
{
    let mut marks = new_relation_reads(alloc, q)?;
    push_body(alloc, &mut marks, q, body)?;
    Ok(marks)
}

fn replaced_view_reads(alloc: Global, q: &QName, body: &Text) -> Result<Vec<Mark>, AllocError>
    ensures { IfOk result (λ v. v.items ≡ mark.Key (key.Rel q.now) ∷ marks_of (view_references body.now)) }
{
    let mut marks = Vec::new(alloc);
    marks.push(relation(q)?)?;
    push_marks(alloc, &mut marks, view_refs(alloc, body.as_bytes())?)?;
    Ok(marks)
}

fn default_reads(alloc: Global, q: &QName, text: &Text) -> Result<Vec<Mark>, AllocError>
    ensures { IfOk result (λ v. v.items ≡ mark.Key (key.Rel q.now) ∷ marks_of (expression_references text.now)) }
{
    let mut marks = Vec::new(alloc);
    marks.push(relation(q)?)?;
    push_marks(alloc, &mut marks, expr_refs(alloc, text.as_bytes())?)?;
    Ok(marks)
}

fn primary_reads(alloc: Global, q: &QName, name: &Name) -> Result<Vec<Mark>, AllocError>
    ensures { IfOk result (λ v. v.items ≡ mark.Key (key.Rel q.now) ∷ mark.Key (key.Con q.now name.now) ∷ mark.Key (key.Rel (index_path q.now name.now)) ∷ mark.Class (class.PrimaryKeys q.now) ∷ mark.Key (key.Rows q.now) ∷ []) }
{
    let mut marks = Vec::new(alloc);
    marks.push(relation(q)?)?;
    marks.push(constraint(q, name)?)?;
    marks.push(index_relation(q, name)?)?;
    marks.push(primary_keys(q)?)?;
    marks.push(rows(q)?)?;
    Ok(marks)
}

fn unique_reads(alloc: Global, q: &QName, name: &Name) -> Result<Vec<Mark>, AllocError>
    ensures { IfOk result (λ v. v.items ≡ mark.Key (key.Rel q.now) ∷ mark.Key (key.Con q.now name.now) ∷ mark.Key (key.Rel (index_path q.now name.now)) ∷ mark.Key (key.Rows q.now) ∷ []) }
{
    let mut marks = Vec::new(alloc);
    marks.push(relation(q)?)?;
    marks.push(constraint(q, name)?)?;
    marks.push(index_relation(q, name)?)?;
    marks.push(rows(q)?)?;
    Ok(marks)
}

fn foreign_reads(
    alloc: Global,
    q: &QName,
    name: &Name,
    parent: &QName,
    columns: &[Name],
) -> Result<Vec<Mark>, AllocError>
    ensures { IfOk result (λ v. v.items ≡ mark.Key (key.Rel q.now) ∷ mark.Key (key.Rel parent.now) ∷ mark.Key (key.Con q.now name.now) ∷ mark.Class (class.KeysOn parent.now columns.now) ∷ mark.Key (key.Rows q.now) ∷ mark.Key (key.Rows parent.now) ∷ []) }
{
    let mut marks = Vec::new(alloc);
    marks.push(relation(q)?)?;
    marks.push(relation(parent)?)?;
    marks.push(constraint(q, name)?)?;
    marks.push(keys_on(alloc, parent, columns)?)?;
    marks.push(rows(q)?)?;
    marks.push(rows(parent)?)?;
    Ok(marks)
}

fn check_reads(alloc: Global, q: &QName, name: &Name, text: &Text) -> Result<Vec<Mark>, AllocError>
    ensures { IfOk result (λ v. v.items ≡ mark.Key (key.Rel q.now) ∷ mark.Key (key.Con q.now name.now) ∷ marks_of (expression_references text.now)) }
{
    let mut marks = Vec::new(alloc);
    marks.push(relation(q)?)?;
    marks.push(constraint(q, name)?)?;
    push_marks(alloc, &mut marks, expr_refs(alloc, text.as_bytes())?)?;
    Ok(marks)
}

fn index_reads(alloc: Global, q: &QName, name: &Name) -> Result<Vec<Mark>, AllocError>
    ensures { IfOk result (λ v. v.items ≡ mark.Key (key.Rel q.now) ∷ mark.Key (key.Rel (index_path q.now name.now)) ∷ mark.Key (key.Index q.now name.now) ∷ []) }
{
    let mut marks = Vec::new(alloc);
    marks.push(relation(q)?)?;
    marks.push(index_relation(q, name)?)?;
    marks.push(index(q, name)?)?;
    Ok(marks)
}

fn unique_index_reads(
    alloc: Global,
    q: &QName,
    name: &Name,
    rest: &Text,
) -> Result<Vec<Mark>, AllocError>
    ensures { IfOk result (λ v. v.items ≡ mark.Key (key.Rel q.now) ∷ mark.Key (key.Rel (index_path q.now name.now)) ∷ mark.Key (key.Index q.now name.now) ∷ row_reads q.now (plain_columns rest.now)) }
{
    let mut marks = index_reads(alloc, q, name)?;
    push_rows(&mut marks, q, &plain_columns(alloc, rest.as_bytes())?)?;
    Ok(marks)
}

fn copy_reads(alloc: Global, q: &QName, pairs: &[(QName, QName)]) -> Result<Vec<Mark>, AllocError>
    ensures { IfOk result (λ v. v.items ≡ mark.Key (key.Rel q.now) ∷ mark.Class (class.Constraints q.now) ∷ mark.Class (class.Indexes q.now) ∷ mark.Key (key.Rows q.now) ∷ parent_reads q.now pairs.now) }
{
    let mut marks = Vec::new(alloc);
    marks.push(relation(q)?)?;
    marks.push(constraints(q)?)?;
    marks.push(indexes(q)?)?;
    marks.push(rows(q)?)?;
    push_parents(&mut marks, q, pairs)?;
    Ok(marks)
}

// What GRANT and REVOKE read.
fn grant_reads(alloc: Global, what: &Granted, who: &Grantee) -> Result<Vec<Mark>, AllocError>
    ensures { IfOk result (λ v. v.items ≡ mark.Key (granted_key what.now) ∷ mark.Key (key.Owner (granted_object what.now)) ∷ mark.Key (key.Acl (granted_object what.now)) ∷ grantee_reads who.now) }
{
    let mut marks = Vec::new(alloc);
    marks.push(granted_key(what)?)?;
    marks.push(owner(granted_object(what)?))?;
    marks.push(grants(granted_object(what)?))?;
    push_grantee(&mut marks, who)?;
    Ok(marks)
}

fn owner_reads(alloc: Global, what: &Owned, to: &Name) -> Result<Vec<Mark>, AllocError>
    ensures { IfOk result (λ v. v.items ≡ mark.Key (owned_key what.now) ∷ mark.Key (key.Role to.now) ∷ mark.Key (key.Acl (owned_object what.now)) ∷ []) }
{
    let mut marks = Vec::new(alloc);
    marks.push(owned_key(what)?)?;
    marks.push(role(to)?)?;
    marks.push(grants(owned_object(what)?))?;
    Ok(marks)
}

fn member_reads(
    alloc: Global,
    of: &Name,
    member: &Name,
    grantor: &Option<Name>,
) -> Result<Vec<Mark>, AllocError>
    ensures { IfOk result (λ v. v.items ≡ mark.Key (key.Role of.now) ∷ mark.Key (key.Role member.now) ∷ mark.Class (class.Members of.now member.now) ∷ grantor_reads grantor.now) }
{
    let mut marks = Vec::new(alloc);
    marks.push(role(of)?)?;
    marks.push(role(member)?)?;
    marks.push(members(of, member)?)?;
    push_grantor(&mut marks, grantor)?;
    Ok(marks)
}

fn schema_reads(alloc: Global, name: &Name) -> Result<Vec<Mark>, AllocError>
    ensures { IfOk result (λ v. v.items ≡ mark.Key (key.Schema name.now) ∷ []) }
{
    one(alloc, schema(name)?)
}

fn relation_reads(alloc: Global, q: &QName) -> Result<Vec<Mark>, AllocError>
    ensures { IfOk result (λ v. v.items ≡ mark.Key (key.Rel q.now) ∷ []) }
{
    one(alloc, relation(q)?)
}

fn role_reads(alloc: Global, name: &Name) -> Result<Vec<Mark>, AllocError>
    ensures { IfOk result (λ v. v.items ≡ mark.Key (key.Role name.now) ∷ []) }
{
    one(alloc, role(name)?)
}

fn database_reads(alloc: Global, name: &Name) -> Result<Vec<Mark>, AllocError>
    ensures { IfOk result (λ v. v.items ≡ mark.Key (key.Database name.now) ∷ []) }
{
    one(alloc, database(name)?)
}

fn comment_reads(alloc: Global, what: &Commented) -> Result<Vec<Mark>, AllocError>
    ensures { IfOk result (λ v. v.items ≡ mark.Key (commented_key what.now) ∷ []) }
{
    one(alloc, commented_key(what)?)
}

/// What a statement reads, in the order in which its conditions look.
pub(crate) fn reads_of(
    alloc: Global,
    stmt: &Stmt,
    pairs: &[(QName, QName)],
) -> Result<Vec<Mark>, AllocError>
    ensures { IfOk result (λ v. v.items ≡ reads_of stmt.now pairs.now) }
{
    match stmt {
        Stmt::Set { .. } | Stmt::SetConfig { .. } => Ok(Vec::new(alloc)),
        Stmt::CreateSchema { name } => schema_reads(alloc, name),
        Stmt::CreateEnum { q, .. } => new_type_reads(alloc, q),
        Stmt::CreateDomain {
            q,
            base,
            default,
            checks,
            ..
        } => domain_reads(alloc, q, base, default, checks.as_slice()),
        Stmt::AddDomainCheck { q, text, .. } => domain_check_reads(alloc, q, text),
        Stmt::CreateTable { q, columns, checks } => table_reads(
            alloc,
            q,
            columns.as_slice(),
            checks.as_slice(),
        ),
        Stmt::CreateSequence { q, .. } => new_relation_reads(alloc, q),
        Stmt::OwnedBy { q, table, .. } => both_reads(alloc, q, table),
        Stmt::SetVal { q, .. } => relation_reads(alloc, q),
        Stmt::CreateView { q, body } => view_reads(alloc, q, body),
        Stmt::ReplaceView { q, body } => replaced_view_reads(alloc, q, body),
        Stmt::SetDefault { q, text, .. } => default_reads(alloc, q, text),
        Stmt::AddPrimary { q, name, .. } => primary_reads(alloc, q, name),
        Stmt::AddUnique { q, name, .. } => unique_reads(alloc, q, name),
        Stmt::AddForeign {
            q,
            name,
            parent,
            parent_columns,
            ..
        } => foreign_reads(alloc, q, name, parent, parent_columns.as_slice()),
        Stmt::AddCheck { q, name, text } => check_reads(alloc, q, name, text),
        Stmt::CreateIndex { q, name, .. } => index_reads(alloc, q, name),
        Stmt::CreateUniqueIndex { q, name, rest, .. } => unique_index_reads(alloc, q, name, rest),
        Stmt::CopyRows { q, .. } => copy_reads(alloc, q, pairs),
        Stmt::Grant {
            object,
            grantee,
            ..
        } => grant_reads(alloc, object, grantee),
        Stmt::Revoke {
            object,
            grantee,
            ..
        } => grant_reads(alloc, object, grantee),
        Stmt::Comment { object, .. } => comment_reads(alloc, object),
        Stmt::OwnerTo { object, role: to } => owner_reads(alloc, object, to),
        Stmt::CreateRole { name } => role_reads(alloc, name),
        Stmt::AlterRole { name, .. } => role_reads(alloc, name),
        Stmt::GrantRole {
            role: of,
            member,
            grantor,
            ..
        } => member_reads(alloc, of, member, grantor),
        Stmt::CreateDatabase { name, .. } => database_reads(alloc, name),
        Stmt::Connect { name } => database_reads(alloc, name),
    }
}
