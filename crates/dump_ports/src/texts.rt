ghost use Rattle.std.specs.Prelude.{◌≡◌, ◌+◌, ◌≤◌, length, option_map, is_some, IsSome, IsOk, OnOk, OnErr, if◌then◌else◌};
ghost use Rattle.std.specs.FinMap.{insert};
ghost use Rattle.dump_ports.specs.Tree.{text_at, bytes_at, made, appended, patched, overwritten};
ghost use Rattle.dump_ports.specs.Memory.{seen};

use std::alloc::{AllocError, AllocFailed, Global};
use std::collections::BTreeMap;

/// The texts by their names.
pub type Texts = BTreeMap<String, Vec<u8>>;

/// The text of a name.
pub fn text_of<'a>(texts: &'a Texts, name: &str) -> Option<&'a [u8]>
    ensures { option_map (λ text. text.now) result ≡ text_at (seen texts.now) name.now }
{
    match texts.get(name) {
        Some(text) => Some(text.as_slice()),
        None => None,
    }
}

/// Puts a text in place of what the name held.
pub fn set_text(
    alloc: Global,
    texts: &mut Texts,
    name: &str,
    bytes: &[u8],
) -> Result<(), AllocError>
    ensures ok { OnOk result (seen texts.new ≡ insert (seen texts.old) name.now bytes.now) }
    ensures err { OnErr result (seen texts.new ≡ seen texts.old) }
{
    let text = Vec::from_slice(alloc, bytes)?;
    let key = String::from_str(alloc, name)?;
    texts.insert(key, text)?;
    Ok(())
}

/// Empties the text of a name, and says whether it is there.
fn clear_text(texts: &mut Texts, name: &str) -> bool
    ensures there { result ≡ is_some (text_at (seen texts.old) name.now) }
    ensures after { seen texts.new ≡ (if result then made name.now (seen texts.old) else seen texts.old) }
{
    match texts.get_mut(name) {
        Some(text) => {
            text.clear();
            true
        }
        None => false,
    }
}

/// Gives a name the empty text. It takes no memory where the name is there.
pub fn make_text(alloc: Global, texts: &mut Texts, name: &str) -> Result<(), AllocError>
    ensures ok { OnOk result (seen texts.new ≡ made name.now (seen texts.old)) }
    ensures err { OnErr result (seen texts.new ≡ seen texts.old) }
    ensures there { IsSome (text_at (seen texts.old) name.now) → IsOk result }
{
    if clear_text(texts, name) {
        return Ok(());
    }
    set_text(alloc, texts, name, b"")
}

/// Adds bytes at the end of a name's text; an absent name begins empty.
pub fn append_text(
    alloc: Global,
    texts: &mut Texts,
    name: &str,
    bytes: &[u8],
) -> Result<(), AllocError>
    ensures ok { OnOk result (seen texts.new ≡ appended name.now bytes.now (seen texts.old)) }
    ensures err { OnErr result (seen texts.new ≡ seen texts.old) }
{
    if let Some(text) = texts.get_mut(name) {
        text.extend_from_slice(bytes)?;
        return Ok(());
    }
    set_text(alloc, texts, name, bytes)
}

/// Puts bytes in place of those of a name's text from a place on.
pub fn patch_text(texts: &mut Texts, name: &str, at: usize, bytes: &[u8])
    requires { at + length bytes.now ≤ length (bytes_at (seen texts.old) name.now) }
    ensures { seen texts.new ≡ patched name.now at bytes.now (seen texts.old) }
{
    if let Some(text) = texts.get_mut(name) {
        overwrite(text, at, bytes);
    }
}

/// Puts bytes in place of those of a text from a place on.
fn overwrite(text: &mut [u8], at: usize, bytes: &[u8])
    requires { at + length bytes.now ≤ length text.old }
    ensures { text.new ≡ overwritten at bytes.now text.old }
{
    text[at..at + bytes.len()].copy_from_slice(bytes);
}
