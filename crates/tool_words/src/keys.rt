//! Keys of the catalogue by names, as they are told.
ghost use Rattle.std.specs.Prelude.{◌≡◌, ◌++◌, OnOk, IfOk};
ghost use Rattle.sql_lex.specs.Written.{written_name};
ghost use Rattle.tool_words.specs.Messages.{dotted, part, object_path, key_text};

use cat_model::{Key, Object, QName};
use copy_text::Name;
use sql_lex::write_name;
use std::alloc::{AllocError, Global};
use std::marker::Model;

/// The first key at which two catalogues differ, with its text. A contract sees it as the key.
#[derive(Drop)]
pub struct Difference {
    key: Key,
    text: Vec<u8>,
}

impl Model for Difference {
    ghost use Rattle.cat_model.specs.declared.key.Key.{Key};

    ghost Value = { Key };

    ghost use Rattle.std.specs.Prelude.{◌≡◌};
    ghost use Rattle.tool_words.specs.Messages.{key_text};

    ghost view = { λ d. d.key };

    ghost invariant = { λ d. d.text.items ≡ key_text d.key };
}

impl Difference {
    /// The difference at a key.
    pub fn new(alloc: Global, key: Key) -> Result<Difference, AllocError>
        ensures { IfOk result (λ difference. difference ≡ key) }
    {
        let mut text = Vec::new(alloc);
        put_key(&key, &mut text)?;
        Ok(Difference { key, text })
    }

    /// The key's kind and its names.
    pub fn text(&self) -> &[u8]
        ensures { result.now ≡ key_text self.now }
    {
        &self.text
    }
}

/// Appends the kind of a key and its names.
fn put_key(key: &Key, out: &mut Vec<u8>) -> Result<(), AllocError>
    ensures { OnOk result (out.new.items ≡ out.old.items ++ key_text key.now) }
{
    match key {
        Key::Role(name) => put_name(b"role ", name, out),
        Key::Member(role, member, grantor) => put_member(role, member, grantor, out),
        Key::Schema(name) => put_name(b"schema ", name, out),
        Key::UserType(path) => put_path(b"type ", path, out),
        Key::Rel(path) => put_path(b"relation ", path, out),
        Key::Owner(object) => put_object(b"owner ", object, out),
        Key::Default(path, name) => put_part(b"default ", path, name, out),
        Key::Con(path, name) => put_part(b"constraint ", path, name, out),
        Key::Index(path, name) => put_part(b"index ", path, name, out),
        Key::Rows(path) => put_path(b"rows ", path, out),
        Key::SeqVal(path) => put_path(b"value ", path, out),
        Key::OwnedBy(path) => put_path(b"owned by ", path, out),
        Key::Acl(object) => put_object(b"grants ", object, out),
        Key::Comment(object) => put_object(b"comment ", object, out),
        Key::Body(path) => put_path(b"body ", path, out),
        Key::Database(name) => put_name(b"database ", name, out),
    }
}

/// Appends a name behind a word.
fn put_name(word: &[u8], name: &Name, out: &mut Vec<u8>) -> Result<(), AllocError>
    ensures { OnOk result (out.new.items ≡ out.old.items ++ (word.now ++ written_name name.now)) }
{
    out.extend_from_slice(word)?;
    write_name(name.as_bytes(), out)
}

/// Appends the three names of a membership behind its word.
fn put_member(
    role: &Name,
    member: &Name,
    grantor: &Name,
    out: &mut Vec<u8>,
) -> Result<(), AllocError>
    ensures { OnOk result (out.new.items ≡ out.old.items ++ key_text (Key.Member role.now member.now grantor.now)) }
{
    put_name(b"member ", role, out)?;
    put_name(b" ", member, out)?;
    put_name(b" ", grantor, out)
}

/// Appends a path behind a word.
fn put_path(word: &[u8], path: &QName, out: &mut Vec<u8>) -> Result<(), AllocError>
    ensures { OnOk result (out.new.items ≡ out.old.items ++ (word.now ++ dotted path.now)) }
{
    put_name(word, &path.schema, out)?;
    put_name(b".", &path.name, out)
}

/// Appends what is part of a relation behind a word: the relation's path and a name.
fn put_part(word: &[u8], path: &QName, name: &Name, out: &mut Vec<u8>) -> Result<(), AllocError>
    ensures { OnOk result (out.new.items ≡ out.old.items ++ (word.now ++ part path.now name.now)) }
{
    put_path(word, path, out)?;
    put_name(b" ", name, out)
}

/// Appends an object's names behind a word.
fn put_object(word: &[u8], object: &Object, out: &mut Vec<u8>) -> Result<(), AllocError>
    ensures { OnOk result (out.new.items ≡ out.old.items ++ (word.now ++ object_path object.now)) }
{
    match object {
        Object::Schema(name) | Object::Database(name) => put_name(word, name, out),
        Object::Type(path) | Object::Relation(path) => put_path(word, path, out),
        Object::Column(path, name) | Object::Constraint(path, name) => {
            put_part(word, path, name, out)
        }
    }
}
