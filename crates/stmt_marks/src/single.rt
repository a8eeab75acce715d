//! Marks of single keys.
ghost use Rattle.std.specs.Prelude.{◌≡◌, IfOk};
ghost use Rattle.cat_model.specs.declared.key.Key.TheVariants as key;
ghost use Rattle.cat_model.specs.declared.class.Mark.TheVariants as mark;
ghost use Rattle.cat_model.specs.declared.class.Class.TheVariants as class;
ghost use Rattle.cat_model.specs.KeyEffects.{index_path};

use crate::lists::copied;
use cat_model::{Class, Key, Mark, Object, QName};
use copy_text::Name;
use std::alloc::{AllocError, Global};

pub(crate) fn role(name: &Name) -> Result<Mark, AllocError>
    ensures { IfOk result (λ m. m ≡ mark.Key (key.Role name.now)) }
{
    Ok(Mark::Key(Key::Role(name.clone()?)))
}

pub(crate) fn schema(name: &Name) -> Result<Mark, AllocError>
    ensures { IfOk result (λ m. m ≡ mark.Key (key.Schema name.now)) }
{
    Ok(Mark::Key(Key::Schema(name.clone()?)))
}

pub(crate) fn database(name: &Name) -> Result<Mark, AllocError>
    ensures { IfOk result (λ m. m ≡ mark.Key (key.Database name.now)) }
{
    Ok(Mark::Key(Key::Database(name.clone()?)))
}

pub(crate) fn user_type(q: &QName) -> Result<Mark, AllocError>
    ensures { IfOk result (λ m. m ≡ mark.Key (key.UserType q.now)) }
{
    Ok(Mark::Key(Key::UserType(q.clone()?)))
}

pub(crate) fn relation(q: &QName) -> Result<Mark, AllocError>
    ensures { IfOk result (λ m. m ≡ mark.Key (key.Rel q.now)) }
{
    Ok(Mark::Key(Key::Rel(q.clone()?)))
}

/// The relation of an index, which stands in the schema of its table.
pub(crate) fn index_relation(table: &QName, name: &Name) -> Result<Mark, AllocError>
    ensures { IfOk result (λ m. m ≡ mark.Key (key.Rel (index_path table.now name.now))) }
{
    let schema = table.schema.clone()?;
    let name = name.clone()?;
    Ok(Mark::Key(Key::Rel(QName { schema, name })))
}

pub(crate) fn rows(q: &QName) -> Result<Mark, AllocError>
    ensures { IfOk result (λ m. m ≡ mark.Key (key.Rows q.now)) }
{
    Ok(Mark::Key(Key::Rows(q.clone()?)))
}

pub(crate) fn body(q: &QName) -> Result<Mark, AllocError>
    ensures { IfOk result (λ m. m ≡ mark.Key (key.Body q.now)) }
{
    Ok(Mark::Key(Key::Body(q.clone()?)))
}

pub(crate) fn sequence_value(q: &QName) -> Result<Mark, AllocError>
    ensures { IfOk result (λ m. m ≡ mark.Key (key.SeqVal q.now)) }
{
    Ok(Mark::Key(Key::SeqVal(q.clone()?)))
}

pub(crate) fn owned_by(q: &QName) -> Result<Mark, AllocError>
    ensures { IfOk result (λ m. m ≡ mark.Key (key.OwnedBy q.now)) }
{
    Ok(Mark::Key(Key::OwnedBy(q.clone()?)))
}

pub(crate) fn default(q: &QName, column: &Name) -> Result<Mark, AllocError>
    ensures { IfOk result (λ m. m ≡ mark.Key (key.Default q.now column.now)) }
{
    let q = q.clone()?;
    let column = column.clone()?;
    Ok(Mark::Key(Key::Default(q, column)))
}

pub(crate) fn constraint(table: &QName, name: &Name) -> Result<Mark, AllocError>
    ensures { IfOk result (λ m. m ≡ mark.Key (key.Con table.now name.now)) }
{
    let table = table.clone()?;
    let name = name.clone()?;
    Ok(Mark::Key(Key::Con(table, name)))
}

pub(crate) fn index(table: &QName, name: &Name) -> Result<Mark, AllocError>
    ensures { IfOk result (λ m. m ≡ mark.Key (key.Index table.now name.now)) }
{
    let table = table.clone()?;
    let name = name.clone()?;
    Ok(Mark::Key(Key::Index(table, name)))
}

pub(crate) fn owner(object: Object) -> Mark
    ensures { result ≡ mark.Key (key.Owner object) }
{
    Mark::Key(Key::Owner(object))
}

pub(crate) fn grants(object: Object) -> Mark
    ensures { result ≡ mark.Key (key.Acl object) }
{
    Mark::Key(Key::Acl(object))
}

pub(crate) fn members(role: &Name, member: &Name) -> Result<Mark, AllocError>
    ensures { IfOk result (λ m. m ≡ mark.Class (class.Members role.now member.now)) }
{
    let role = role.clone()?;
    let member = member.clone()?;
    Ok(Mark::Class(Class::Members(role, member)))
}

pub(crate) fn constraints(table: &QName) -> Result<Mark, AllocError>
    ensures { IfOk result (λ m. m ≡ mark.Class (class.Constraints table.now)) }
{
    Ok(Mark::Class(Class::Constraints(table.clone()?)))
}

pub(crate) fn indexes(table: &QName) -> Result<Mark, AllocError>
    ensures { IfOk result (λ m. m ≡ mark.Class (class.Indexes table.now)) }
{
    Ok(Mark::Class(Class::Indexes(table.clone()?)))
}

pub(crate) fn primary_keys(table: &QName) -> Result<Mark, AllocError>
    ensures { IfOk result (λ m. m ≡ mark.Class (class.PrimaryKeys table.now)) }
{
    Ok(Mark::Class(Class::PrimaryKeys(table.clone()?)))
}

pub(crate) fn keys_on(alloc: Global, table: &QName, columns: &[Name]) -> Result<Mark, AllocError>
    ensures { IfOk result (λ m. m ≡ mark.Class (class.KeysOn table.now columns.now)) }
{
    let table = table.clone()?;
    let columns = copied(alloc, columns)?;
    Ok(Mark::Class(Class::KeysOn(table, columns)))
}
