//! Lists of rights from texts.
ghost use Rattle.std.specs.Prelude.{◌≡◌, ◌≤◌, ℕ, List, [], ◌∷◌, Option, Some, None, MatchOption, IfOk, OnOk, false, length, map};
ghost use Rattle.std.specs.List.{prefix_len};
ghost use Rattle.acl_text.specs.declared.reading.AclError.TheVariants.{Memory};
ghost use Rattle.acl_text.specs.Acls.{GivesAcl, acl_of, elements_of, elements_before, byte_before, next_state, effect_of, items_of, item_of, rights_of, privilege_of, starts_with_star, after_star, name_at, quoted_name, is_plain, behind, slash_at, grantee_of, last_name};

use crate::list::{Acl, AclItem};
use crate::rights::{Privilege, Right, Rights};
use copy_text::{Name, Text};
use std::alloc::{AllocError, AllocFailed, Global};

// Why a list of rights could not be read.
#[derive(Drop)]
pub(crate) enum AclError {
    NotAnAcl,
    Memory,
}

impl From<AllocError> for AclError {
    ghost from_gives = { λ _ e. e ≡ Memory };

    fn from(_e: AllocError) -> AclError {
        AclError::Memory
    }
}

impl<T: Drop> From<AllocFailed<T>> for AclError {
    ghost from_gives = { λ _ e. e ≡ Memory };

    fn from(_e: AllocFailed<T>) -> AclError {
        AclError::Memory
    }
}

/// The list of rights that a text spells.
pub fn read_acl(alloc: Global, text: &Text) -> Result<Option<Acl>, AllocError>
    ensures { IfOk result (λ acl. acl ≡ acl_of text.now) }
{
    match read_braces(alloc, text.as_bytes()) {
        Ok(items) => Ok(Some(Acl::from_vec(items))),
        Err(AclError::NotAnAcl) => Ok(None),
        Err(AclError::Memory) => Err(AllocError),
    }
}

#[tactic(auto, unfolding(crate::specs::Acls::acl_of))]
fn read_braces(alloc: Global, text: &[u8]) -> Result<Vec<AclItem>, AclError>
    ensures { GivesAcl (λ items. items.items) result (acl_of text.now) }
{
    let rest = skip(b'{', text)?;
    if rest == b"}".as_slice() {
        return Ok(Vec::new(alloc));
    }
    let elements = read_elements(alloc, rest)?;
    read_items(alloc, &elements)
}

// What follows a byte that has to stand first.
fn skip(first: u8, bytes: &[u8]) -> Result<&[u8], AclError>
    ensures { GivesAcl (λ rest. rest.now) result (behind first bytes.now) }
{
    match after(first, bytes) {
        Some(rest) => Ok(rest),
        None => Err(AclError::NotAnAcl),
    }
}

fn after(first: u8, bytes: &[u8]) -> Option<&[u8]>
    ensures { MatchOption result (behind first bytes.now ≡ None) (λ rest. behind first bytes.now ≡ Some rest.now) }
{
    match bytes {
        [b, rest @ ..] if *b == first => Some(rest),
        _ => None,
    }
}

// The first byte and what follows it.
fn split_byte(bytes: &[u8]) -> Option<(u8, &[u8])>
    ensures { MatchOption result (bytes.now ≡ []) (λ x. bytes.now ≡ x.0 ∷ x.1.now) }
{
    match bytes {
        [] => None,
        [b, rest @ ..] => Some((*b, rest)),
    }
}

// Where a place in the list's text is.
#[derive(Clone, Copy)]
enum State {
    Start,
    Bare,
    Quoted,
    Escaped,
    Closed,
    Done,
    Failed,
}

// What a byte is to the elements.
#[derive(Clone, Copy)]
enum Effect {
    Keep,
    Cut,
    Skip,
}

// What the elements hold, up to a closing brace at the end.
fn read_elements(alloc: Global, text: &[u8]) -> Result<Vec<Vec<u8>>, AclError>
    ensures { GivesAcl (λ elements. map (λ e. e.items) elements.items) result (elements_of text.now) }
{
    let mut elements = Vec::new(alloc);
    let mut element = Vec::new(alloc);
    let mut state = State::Start;
    for byte in text {
        let effect = effect_of(state, *byte);
        put_byte(alloc, effect, *byte, &mut elements, &mut element)?;
        state = next_state(state, *byte);
    }
    match state {
        State::Done => {
            elements.push(element)?;
            Ok(elements)
        }
        _ => Err(AclError::NotAnAcl),
    }
}

fn put_byte(
    alloc: Global,
    effect: Effect,
    byte: u8,
    elements: &mut Vec<Vec<u8>>,
    element: &mut Vec<u8>,
) -> Result<(), AllocError>
    ensures { OnOk result ((more : Option (List ℕ × List (List ℕ))) →
        elements_before (map (λ e. e.items) elements.new.items) element.new.items more
        ≡ elements_before (map (λ e. e.items) elements.old.items) element.old.items (byte_before effect byte more)) }
{
    match effect {
        Effect::Keep => {
            element.push(byte)?;
            Ok(())
        }
        Effect::Cut => {
            let bytes = Vec::from_slice(alloc, element.as_slice())?;
            elements.push(bytes)?;
            element.clear();
            Ok(())
        }
        Effect::Skip => Ok(()),
    }
}

fn next_state(state: State, byte: u8) -> State
    ensures { result ≡ next_state state byte }
{
    match (state, byte) {
        (State::Start, b'"') | (State::Escaped, _) => State::Quoted,
        (State::Quoted, b'"') => State::Closed,
        (State::Quoted, b'\\') => State::Escaped,
        (State::Quoted, _) => State::Quoted,
        (State::Start | State::Bare | State::Closed, b',') => State::Start,
        (State::Start | State::Bare | State::Closed, b'}') => State::Done,
        (State::Start | State::Bare, b'"' | b'\\' | b'{') => State::Failed,
        (State::Start | State::Bare, _) => State::Bare,
        (State::Closed | State::Done | State::Failed, _) => State::Failed,
    }
}

fn effect_of(state: State, byte: u8) -> Effect
    ensures { result ≡ effect_of state byte }
{
    match (state, byte) {
        (State::Escaped, _) => Effect::Keep,
        (State::Start | State::Bare | State::Closed, b',') => Effect::Cut,
        (State::Start | State::Bare, b'"' | b'\\' | b'{' | b'}') => Effect::Skip,
        (State::Quoted, b'"' | b'\\') => Effect::Skip,
        (State::Start | State::Bare | State::Quoted, _) => Effect::Keep,
        (State::Closed | State::Done | State::Failed, _) => Effect::Skip,
    }
}

fn read_items(alloc: Global, elements: &[Vec<u8>]) -> Result<Vec<AclItem>, AclError>
    ensures { GivesAcl (λ items. items.items) result (items_of (map (λ e. e.items) elements.now)) }
{
    let mut items = Vec::with_capacity(alloc, elements.len())?;
    for element in elements {
        items.push(read_item(alloc, element.as_slice())?)?;
    }
    Ok(items)
}

#[tactic(auto, unfolding(crate::specs::Acls::item_of))]
fn read_item(alloc: Global, text: &[u8]) -> Result<AclItem, AclError>
    ensures { GivesAcl (λ item. item) result (item_of text.now) }
{
    let (grantee, rest) = read_name(alloc, text)?;
    let grantee = grantee_of(grantee)?;
    let rest = skip(b'=', rest)?;
    let (letters, rest) = rest.split_at(slash_at(rest));
    let rights = read_rights(alloc, letters)?;
    let rest = skip(b'/', rest)?;
    let (grantor, rest) = read_name(alloc, rest)?;
    let grantor = last_name(grantor, rest)?;
    Ok(AclItem {
        grantee,
        rights,
        grantor,
    })
}

// PUBLIC has no name.
fn grantee_of(bytes: Vec<u8>) -> Result<Option<Name>, AclError>
    ensures { GivesAcl (λ name. name) result (grantee_of bytes.items) }
{
    if bytes.is_empty() {
        return Ok(None);
    }
    match Name::new(bytes) {
        Some(name) => Ok(Some(name)),
        None => Err(AclError::NotAnAcl),
    }
}

// A name with nothing behind it.
fn last_name(bytes: Vec<u8>, rest: &[u8]) -> Result<Name, AclError>
    ensures { GivesAcl (λ name. name) result (last_name (bytes.items, rest.now)) }
{
    if !rest.is_empty() {
        return Err(AclError::NotAnAcl);
    }
    match Name::new(bytes) {
        Some(name) => Ok(name),
        None => Err(AclError::NotAnAcl),
    }
}

fn slash_at(bytes: &[u8]) -> usize
    ensures value { result ≡ slash_at bytes.now }
    ensures within { result ≤ length bytes.now }
{
    bytes.iter().take_while(|b| **b != b'/').count()
}

fn read_rights(alloc: Global, letters: &[u8]) -> Result<Rights, AclError>
    ensures { GivesAcl (λ rights. rights) result (rights_of letters.now) }
{
    let mut rights = Vec::new(alloc);
    let mut rest = letters;
    while let Some((letter, behind)) = split_byte(rest) {
        let privilege = read_privilege(letter)?;
        rights.push(Right {
            privilege,
            grant_option: starts_with_star(behind),
        })?;
        rest = after_star(behind);
    }
    Ok(Rights::from_vec(rights))
}

fn starts_with_star(letters: &[u8]) -> bool
    ensures { result ≡ starts_with_star letters.now }
{
    matches!(letters, [b'*', ..])
}

fn after_star(letters: &[u8]) -> &[u8]
    ensures value { result.now ≡ after_star letters.now }
    ensures within { length result.now ≤ length letters.now }
{
    match letters {
        [b'*', rest @ ..] => rest,
        _ => letters,
    }
}

fn read_privilege(letter: u8) -> Result<Privilege, AclError>
    ensures { GivesAcl (λ privilege. privilege) result (privilege_of letter) }
{
    Ok(match letter {
        b'a' => Privilege::Insert,
        b'r' => Privilege::Select,
        b'w' => Privilege::Update,
        b'd' => Privilege::Delete,
        b'D' => Privilege::Truncate,
        b'x' => Privilege::References,
        b't' => Privilege::Trigger,
        b'U' => Privilege::Usage,
        b'C' => Privilege::Create,
        _ => return Err(AclError::NotAnAcl),
    })
}

// The bytes of the name that stands first, and what follows it.
#[tactic(auto, unfolding(crate::specs::Acls::name_at))]
fn read_name(alloc: Global, text: &[u8]) -> Result<(Vec<u8>, &[u8]), AclError>
    ensures { GivesAcl (λ x. (x.0.items, x.1.now)) result (name_at text.now) }
{
    match text {
        [b'"', rest @ ..] => read_quoted(alloc, rest),
        _ => {
            let (name, rest) = text.split_at(plain_len(text));
            Ok((Vec::from_slice(alloc, name)?, rest))
        }
    }
}

fn plain_len(text: &[u8]) -> usize
    ensures value { result ≡ prefix_len is_plain text.now }
    ensures within { result ≤ length text.now }
{
    text.iter().take_while(|b| is_plain(**b)).count()
}

pub(crate) fn is_plain(byte: u8) -> bool
    ensures { result ≡ is_plain byte }
{
    matches!(byte, b'0'..=b'9' | b'A'..=b'Z' | b'a'..=b'z' | b'_')
}

// The rest of a name in quotes, whose inner quotes are doubled.
fn read_quoted(alloc: Global, text: &[u8]) -> Result<(Vec<u8>, &[u8]), AclError>
    ensures { GivesAcl (λ x. (x.0.items, x.1.now)) result (quoted_name false text.now) }
{
    let mut name = Vec::new(alloc);
    let mut rest = text;
    while let Some((byte, behind)) = split_byte(rest) {
        rest = behind;
        if byte == b'"' {
            match after(b'"', behind) {
                Some(more) => rest = more,
                None => return Ok((name, behind)),
            }
        }
        name.push(byte)?;
    }
    Err(AclError::NotAnAcl)
}
