//! Rights on objects.
ghost use Rattle.std.specs.Prelude.{◌≡◌, ◌++◌, ◌||◌, ◌&&◌, codes, OnOk, IfOk};
ghost use Rattle.std.specs.List.{flat_map};
ghost use Rattle.ddl_write.specs.Outcome.{Extends};
ghost use Rattle.ddl_spelling.specs.Paths.{only_if};
ghost use Rattle.ddl_spelling.specs.RightsText.{row_rights, is_all, word_there, with_commas, right_list, rights_text};

use crate::words::Written;
use cat_model::{Granted, Rights};
use std::alloc::AllocError;

/// Whether a right that only tables have is there.
fn row_rights(rights: Rights) -> bool
    ensures { result ≡ row_rights rights }
{
    rights.insert || rights.references || rights.delete || rights.trigger || rights.truncate
}

/// Whether these are all rights of the object's kind.
#[tactic(auto, unfolding(ddl_spelling::specs::RightsText::is_all))]
fn is_all(object: &Granted, r: Rights) -> bool
    ensures { result ≡ is_all object.now r }
{
    match object {
        Granted::Table(_) => {
            let each = r.select && r.insert && r.references && r.delete;
            each && r.trigger && r.truncate && r.update && !(r.usage || r.create)
        }
        Granted::Sequence(_) => r.select && r.usage && r.update && !(row_rights(r) || r.create),
        Granted::Schema(_) => r.usage && r.create && !(row_rights(r) || r.select || r.update),
        Granted::Type(_) => r.usage && !(row_rights(r) || r.select || r.update || r.create),
    }
}

/// Whether a right is there, and its word.
#[derive(Clone, Copy)]
struct Right<'a>(bool, &'a [u8]);

/// A right, where it is there, behind a comma where another one stands before it; answers whether one stands there now.
fn put_right(before: bool, has: bool, word: &[u8], out: &mut Vec<u8>) -> Result<bool, AllocError>
    ensures ok { OnOk result (out.new.items ≡ out.old.items ++ (only_if (before && has) (codes ",") ++ only_if has word.now)) }
    ensures any { IfOk result (λ any. any ≡ (before || has)) }
    ensures kept { Extends out.old.items out.new.items }
{
    if has {
        if before {
            out.push(b',')?;
        }
        out.extend_from_slice(word)?;
    }
    Ok(before || has)
}

/// The words of the rights that are there, with commas.
fn put_each_right(rights: &[Right<'_>], out: &mut Vec<u8>) -> Written
    ensures ok { OnOk result (out.new.items ≡ out.old.items ++ with_commas (flat_map (λ right. word_there right.0 right.1.now) rights.now)) }
    ensures kept { Extends out.old.items out.new.items }
{
    let mut any = false;
    for right in rights {
        any = put_right(any, right.0, right.1, out)?;
    }
    Ok(())
}

/// ALL, where these are all rights of the object's kind, else their words with commas.
#[tactic(auto, unfolding(ddl_spelling::specs::RightsText::rights_text, ddl_spelling::specs::RightsText::right_list))]
pub(crate) fn put_rights(object: &Granted, rights: Rights, out: &mut Vec<u8>) -> Written
    ensures ok { OnOk result (out.new.items ≡ out.old.items ++ rights_text object.now rights) }
    ensures kept { Extends out.old.items out.new.items }
{
    if is_all(object, rights) {
        return out.extend_from_slice(b"ALL");
    }
    let each = [
        Right(rights.select, b"SELECT"),
        Right(rights.usage, b"USAGE"),
        Right(rights.insert, b"INSERT"),
        Right(rights.references, b"REFERENCES"),
        Right(rights.delete, b"DELETE"),
        Right(rights.trigger, b"TRIGGER"),
        Right(rights.truncate, b"TRUNCATE"),
        Right(rights.update, b"UPDATE"),
        Right(rights.create, b"CREATE"),
    ];
    put_each_right(&each, out)
}
