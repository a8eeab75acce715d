//! Numbers, names and keys behind words.
ghost use Rattle.std.specs.Prelude.{◌≡◌, ◌++◌, OnOk, decimal};
ghost use Rattle.sql_lex.specs.Written.{written_name};
ghost use Rattle.tool_words.specs.Messages.{key_text};

use cat_model::Key;
use copy_text::Name;
use itoa::Buffer;
use sql_lex::write_name;
use std::alloc::AllocError;
use tool_words::Difference;

/// Appends a number.
pub(crate) fn put_digits(number: u64, out: &mut Vec<u8>) -> Result<(), AllocError>
    ensures { OnOk result (out.new.items ≡ out.old.items ++ decimal number) }
{
    let mut buffer = Buffer::new();
    out.extend_from_slice(buffer.format(number).as_bytes())
}

/// Appends a number behind words.
pub(crate) fn put_number(words: &[u8], number: u64, out: &mut Vec<u8>) -> Result<(), AllocError>
    ensures { OnOk result (out.new.items ≡ out.old.items ++ (words.now ++ decimal number)) }
{
    out.extend_from_slice(words)?;
    put_digits(number, out)
}

/// Appends a number between words.
pub(crate) fn put_numbered(
    before: &[u8],
    number: u64,
    behind: &[u8],
    out: &mut Vec<u8>,
) -> Result<(), AllocError>
    ensures { OnOk result (out.new.items ≡ out.old.items ++ (before.now ++ decimal number ++ behind.now)) }
{
    put_number(before, number, out)?;
    out.extend_from_slice(behind)
}

/// Appends two numbers, each behind words.
pub(crate) fn put_two_numbers(
    before: &[u8],
    first: u64,
    between: &[u8],
    second: u64,
    out: &mut Vec<u8>,
) -> Result<(), AllocError>
    ensures { OnOk result (out.new.items ≡ out.old.items ++ (before.now ++ decimal first ++ between.now ++ decimal second)) }
{
    put_numbered(before, first, between, out)?;
    put_digits(second, out)
}

/// Appends a name behind words.
pub(crate) fn put_name(words: &[u8], name: &Name, out: &mut Vec<u8>) -> Result<(), AllocError>
    ensures { OnOk result (out.new.items ≡ out.old.items ++ (words.now ++ written_name name.now)) }
{
    out.extend_from_slice(words)?;
    write_name(name.as_bytes(), out)
}

/// Appends the kind of a key and its names.
fn put_key(key: &Key, out: &mut Vec<u8>) -> Result<(), AllocError>
    ensures { OnOk result (out.new.items ≡ out.old.items ++ key_text key.now) }
{
    let told = Difference::new(*out.allocator(), key.clone()?)?;
    out.extend_from_slice(told.text())
}

/// Appends a key, and words behind it.
pub(crate) fn put_key_and(key: &Key, words: &[u8], out: &mut Vec<u8>) -> Result<(), AllocError>
    ensures { OnOk result (out.new.items ≡ out.old.items ++ (key_text key.now ++ words.now)) }
{
    put_key(key, out)?;
    out.extend_from_slice(words)
}
