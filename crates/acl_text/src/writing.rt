//! Texts of lists of rights.
ghost use Rattle.std.specs.Prelude.{◌≡◌, ◌++◌, ◌∷◌, [], not, IfOk, OnOk};
ghost use Rattle.std.specs.List.{flat_map, list_all, AllByRecursion};
ghost use Rattle.copy_text.specs.Texts.{IsName, IsText};
ghost use Rattle.acl_text.specs.Acls.{spell_acl, spell_items, spell_element, spell_item, spell_right, spell_grantee, spell_name, escape_byte, double_quote, privilege_letter, is_special, is_plain, comma, IsAcl, IsAclItem, IsGrantee};

use crate::laws::written_list_is_a_text;
use crate::list::{Acl, AclItem};
use crate::reading::is_plain;
use crate::rights::{Privilege, Right};
use copy_text::{Name, Text};
use std::alloc::{AllocError, Global};

/// The one written spelling of a list of rights.
pub fn write_acl(alloc: Global, acl: &Acl) -> Result<Text, AllocError>
    ensures text { IfOk result (λ text. text ≡ spell_acl acl.now) }
    ensures written { OnOk result (IsAcl acl.now) }
{
    written_list_is_a_text();
    let mut bytes = Vec::new(alloc);
    write_braces(alloc, acl, &mut bytes)?;
    Ok(text_of(bytes))
}

fn text_of(bytes: Vec<u8>) -> Text
    requires { IsText bytes.items }
    ensures { result ≡ bytes.items }
{
    match Text::new(bytes) {
        Some(text) => text,
        None => unreachable!(),
    }
}

#[tactic(auto, unfolding(crate::specs::Acls::spell_acl))]
fn write_braces(alloc: Global, acl: &Acl, out: &mut Vec<u8>) -> Result<(), AllocError>
    ensures text { OnOk result (out.new.items ≡ out.old.items ++ spell_acl acl.now) }
    ensures items { OnOk result (AllByRecursion IsAclItem acl.now) }
{
    out.push(b'{')?;
    write_items(alloc, acl.as_slice(), out)?;
    out.push(b'}')?;
    Ok(())
}

fn write_items(alloc: Global, items: &[AclItem], out: &mut Vec<u8>) -> Result<(), AllocError>
    ensures text { OnOk result (out.new.items ≡ out.old.items ++ spell_items items.now) }
    ensures items { OnOk result (AllByRecursion IsAclItem items.now) }
{
    match items {
        [] => Ok(()),
        [first, others @ ..] => {
            write_entry(alloc, first, out)?;
            write_more(alloc, others, out)
        }
    }
}

// Each further item, with a comma before it.
fn write_more(alloc: Global, items: &[AclItem], out: &mut Vec<u8>) -> Result<(), AllocError>
    ensures text { OnOk result (out.new.items ≡ out.old.items ++ flat_map (λ item. comma ∷ spell_element (spell_item item)) items.now) }
    ensures items { OnOk result (AllByRecursion IsAclItem items.now) }
{
    for item in items {
        out.push(b',')?;
        write_entry(alloc, item, out)?;
    }
    Ok(())
}

fn write_entry(alloc: Global, item: &AclItem, out: &mut Vec<u8>) -> Result<(), AllocError>
    ensures text { OnOk result (out.new.items ≡ out.old.items ++ spell_element (spell_item item.now)) }
    ensures item { OnOk result (IsAclItem item.now) }
{
    let mut text = Vec::new(alloc);
    write_item(item, &mut text)?;
    write_element(text.as_slice(), out)
}

// An element stands in quotes where it has a byte that asks for them.
#[tactic(auto, unfolding(crate::specs::Acls::spell_element))]
fn write_element(text: &[u8], out: &mut Vec<u8>) -> Result<(), AllocError>
    ensures { OnOk result (out.new.items ≡ out.old.items ++ spell_element text.now) }
{
    if is_bare(text) {
        return out.extend_from_slice(text);
    }
    out.push(b'"')?;
    write_escaped(text, out)?;
    out.push(b'"')?;
    Ok(())
}

fn is_bare(text: &[u8]) -> bool
    ensures { result ≡ list_all (λ b. not (is_special b)) text.now }
{
    text.iter()
        .all(|b| !matches!(*b, b'"' | b',' | b'\\' | b'{' | b'}'))
}

fn write_escaped(text: &[u8], out: &mut Vec<u8>) -> Result<(), AllocError>
    ensures { OnOk result (out.new.items ≡ out.old.items ++ flat_map escape_byte text.now) }
{
    for byte in text {
        if matches!(*byte, b'"' | b'\\') {
            out.push(b'\\')?;
        }
        out.push(*byte)?;
    }
    Ok(())
}

fn write_item(item: &AclItem, out: &mut Vec<u8>) -> Result<(), AllocError>
    ensures text { OnOk result (out.new.items ≡ out.old.items ++ spell_item item.now) }
    ensures item { OnOk result (IsAclItem item.now) }
{
    write_grantee(&item.grantee, out)?;
    out.push(b'=')?;
    write_rights(item.rights.as_slice(), out)?;
    out.push(b'/')?;
    write_name(&item.grantor, out)
}

fn write_grantee(grantee: &Option<Name>, out: &mut Vec<u8>) -> Result<(), AllocError>
    ensures text { OnOk result (out.new.items ≡ out.old.items ++ spell_grantee grantee.now) }
    ensures name { OnOk result (IsGrantee grantee.now) }
{
    match grantee {
        None => Ok(()),
        Some(name) => write_name(name, out),
    }
}

// A name stands in quotes, with inner quotes doubled, where it has other bytes than letters, digits and `_`.
#[tactic(auto, unfolding(crate::specs::Acls::spell_name))]
fn write_name(name: &Name, out: &mut Vec<u8>) -> Result<(), AllocError>
    ensures text { OnOk result (out.new.items ≡ out.old.items ++ spell_name name.now) }
    ensures name { IsName name.now }
{
    let bytes = name.as_bytes();
    if is_plain_name(bytes) {
        return out.extend_from_slice(bytes);
    }
    out.push(b'"')?;
    write_doubled(bytes, out)?;
    out.push(b'"')?;
    Ok(())
}

fn is_plain_name(bytes: &[u8]) -> bool
    ensures { result ≡ list_all is_plain bytes.now }
{
    bytes.iter().all(|b| is_plain(*b))
}

fn write_doubled(bytes: &[u8], out: &mut Vec<u8>) -> Result<(), AllocError>
    ensures { OnOk result (out.new.items ≡ out.old.items ++ flat_map double_quote bytes.now) }
{
    for byte in bytes {
        if *byte == b'"' {
            out.push(b'"')?;
        }
        out.push(*byte)?;
    }
    Ok(())
}

fn write_rights(rights: &[Right], out: &mut Vec<u8>) -> Result<(), AllocError>
    ensures { OnOk result (out.new.items ≡ out.old.items ++ flat_map spell_right rights.now) }
{
    for right in rights {
        out.push(letter(right.privilege))?;
        if right.grant_option {
            out.push(b'*')?;
        }
    }
    Ok(())
}

fn letter(privilege: Privilege) -> u8
    ensures { result ≡ privilege_letter privilege }
{
    match privilege {
        Privilege::Insert => b'a',
        Privilege::Select => b'r',
        Privilege::Update => b'w',
        Privilege::Delete => b'd',
        Privilege::Truncate => b'D',
        Privilege::References => b'x',
        Privilege::Trigger => b't',
        Privilege::Usage => b'U',
        Privilege::Create => b'C',
    }
}
