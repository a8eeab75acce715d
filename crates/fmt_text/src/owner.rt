//! Owner statements.
ghost use Rattle.std.specs.Prelude.{◌≡◌, ◌++◌, OnOk, IfOk, Some, option_and_then};
ghost use Rattle.std.specs.Option.{option_copied};
ghost use Rattle.copy_text.specs.Rows.{Extends};
ghost use Rattle.cat_model.specs.declared.stmt.Stmt.TheVariants.{OwnerTo};
ghost use Rattle.ddl_write.specs.Respelling.{spelling};
ghost use Rattle.fmt_text.specs.Owners.{kind_of, name_in, path_of, object_of, owned_object, owner_part};

use cat_model::{Owned, QName, Stmt};
use copy_text::{Name, Text};
use ddl_write::{WriteStmtError, write_stmt};
use std::alloc::{AllocError, Global};
use toc_entry::Entry;

/// A kind of entry whose object has an owner.
#[derive(Clone, Copy)]
pub enum OwnedKind {
    Schema,
    Type,
    Domain,
    Table,
    Sequence,
    View,
}

impl OwnedKind {
    /// The kind that an entry says it is of.
    #[tactic(auto, unfolding(crate::specs::Owners::kind_of))]
    fn of(desc: &[u8]) -> Option<OwnedKind>
        ensures { result ≡ kind_of desc.now }
    {
        if desc == b"SCHEMA".as_slice() {
            Some(OwnedKind::Schema)
        } else if desc == b"TYPE".as_slice() {
            Some(OwnedKind::Type)
        } else if desc == b"DOMAIN".as_slice() {
            Some(OwnedKind::Domain)
        } else if desc == b"TABLE".as_slice() {
            Some(OwnedKind::Table)
        } else if desc == b"SEQUENCE".as_slice() {
            Some(OwnedKind::Sequence)
        } else if desc == b"VIEW".as_slice() {
            Some(OwnedKind::View)
        } else {
            None
        }
    }
}

/// The name that a text is, if it is one.
#[tactic(auto, unfolding(crate::specs::Owners::name_in))]
fn name_in(alloc: Global, text: &Text) -> Result<Option<Name>, AllocError>
    ensures { IfOk result (λ name. name ≡ name_in text.now) }
{
    Ok(Name::new(text.as_bytes().to_vec(alloc)?))
}

/// The name that a text is, if there is one.
fn name_of(alloc: Global, text: Option<&Text>) -> Result<Option<Name>, AllocError>
    ensures { IfOk result (λ name. name ≡ option_and_then name_in (option_copied text.entry)) }
{
    match text {
        None => Ok(None),
        Some(text) => name_in(alloc, text),
    }
}

/// The role that an entry tells as its owner, where that is a name.
pub fn owner_of(alloc: Global, entry: &Entry) -> Result<Option<Name>, AllocError>
    ensures { IfOk result (λ role. role ≡ option_and_then name_in entry.now.owner) }
{
    name_of(alloc, entry.owner.as_ref())
}

/// The path of an object in a schema, if its names are names.
#[tactic(auto, unfolding(crate::specs::Owners::path_of))]
fn path_of(alloc: Global, entry: &Entry) -> Result<Option<QName>, AllocError>
    ensures { IfOk result (λ path. path ≡ path_of entry.now) }
{
    let Some(schema) = name_of(alloc, entry.namespace.as_ref())? else {
        return Ok(None);
    };
    let Some(name) = name_in(alloc, &entry.tag)? else {
        return Ok(None);
    };
    Ok(Some(QName { schema, name }))
}

/// The object of an entry of this kind, if its names are names.
fn object_of(alloc: Global, entry: &Entry, kind: OwnedKind) -> Result<Option<Owned>, AllocError>
    ensures { IfOk result (λ object. object ≡ object_of entry.now (Some kind)) }
{
    match kind {
        OwnedKind::Schema => Ok(name_in(alloc, &entry.tag)?.map(Owned::Schema)),
        OwnedKind::Type => Ok(path_of(alloc, entry)?.map(Owned::Type)),
        OwnedKind::Domain => Ok(path_of(alloc, entry)?.map(Owned::Domain)),
        OwnedKind::Table => Ok(path_of(alloc, entry)?.map(Owned::Table)),
        OwnedKind::Sequence => Ok(path_of(alloc, entry)?.map(Owned::Sequence)),
        OwnedKind::View => Ok(path_of(alloc, entry)?.map(Owned::View)),
    }
}

/// The object that an entry gives an owner: that of an entry of six kinds, whose names are names.
#[tactic(auto, unfolding(crate::specs::Owners::owned_object))]
pub fn owned_object(alloc: Global, entry: &Entry) -> Result<Option<Owned>, AllocError>
    ensures { IfOk result (λ object. object ≡ owned_object entry.now) }
{
    match OwnedKind::of(entry.desc.as_bytes()) {
        None => Ok(None),
        Some(kind) => object_of(alloc, entry, kind),
    }
}

/// Appends the statement that gives an object to a role.
fn put_owner_to(object: Owned, role: Name, out: &mut Vec<u8>) -> Result<(), AllocError>
    ensures ok { OnOk result (out.new.items ≡ out.old.items ++ spelling (OwnerTo object role)) }
    ensures kept { Extends out.old.items out.new.items }
{
    let statement = Stmt::OwnerTo { object, role };
    let written = write_stmt(&statement, out);
    drop(statement);
    match written {
        Ok(()) => Ok(()),
        Err(WriteStmtError::Memory) => Err(AllocError),
    }
}

/// Appends the owner statement of an entry and an empty line, where it has one in a script with owners.
#[tactic(auto, unfolding(crate::specs::Owners::owner_part))]
pub fn put_owner(
    alloc: Global,
    entry: &Entry,
    owners: bool,
    out: &mut Vec<u8>,
) -> Result<(), AllocError>
    ensures ok { OnOk result (out.new.items ≡ out.old.items ++ owner_part owners entry.now) }
    ensures kept { Extends out.old.items out.new.items }
{
    if !owners {
        return Ok(());
    }
    let Some(object) = owned_object(alloc, entry)? else {
        return Ok(());
    };
    let Some(role) = owner_of(alloc, entry)? else {
        return Ok(());
    };
    put_owner_to(object, role, out)?;
    out.extend_from_slice(b"\n")
}
