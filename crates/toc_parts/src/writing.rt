//! Writing fields at the end of bytes. After an `Err` a part of the field may stand there.
ghost use Rattle.std.specs.Prelude.{◌≡◌, ◌<◌, ◌^◌, ◌++◌, length, OnOk, Some, decimal, unsigned_abs};
ghost use Rattle.std.specs.Int.{w32, w64};
ghost use Rattle.std.specs.Option.{option_copied, ForSome};
ghost use Rattle.copy_text.specs.Rows.{Extends};
ghost use Rattle.dump_ports.specs.Moment.{IsPart};
ghost use Rattle.toc_parts.specs.declared.fault.FieldFault.TheVariants.{Short};
ghost use Rattle.toc_parts.specs.Fields.{number, integer, string};

use copy_text::Text;
use itoa::Buffer;
use std::alloc::AllocError;

/// Appends a number of eight bytes, least significant first.
pub fn write_number_of_eight(n: u64, out: &mut Vec<u8>) -> Result<(), AllocError>
    ensures ok { OnOk result (out.new.items ≡ out.old.items ++ (number Short w64).write n) }
    ensures kept { Extends out.old.items out.new.items }
{
    out.extend_from_slice(&n.to_le_bytes())
}

/// Appends an integer: a sign byte, 0 or 1, and four bytes of the magnitude.
#[tactic(auto, unfolding(crate::specs::Fields::integer))]
pub fn write_integer(n: i64, out: &mut Vec<u8>) -> Result<(), AllocError>
    requires { IsPart n }
    ensures ok { OnOk result (out.new.items ≡ out.old.items ++ (integer Short).write n) }
    ensures kept { Extends out.old.items out.new.items }
{
    out.push(u8::from(n < 0))?;
    out.extend_from_slice(&magnitude(n).to_le_bytes())
}

fn magnitude(n: i64) -> u32
    requires { IsPart n }
    ensures { result ≡ unsigned_abs n }
{
    n.unsigned_abs() as u32
}

/// Appends a string: its length and its bytes, or the length -1 where there is none.
#[tactic(auto, unfolding(crate::specs::Fields::string, crate::specs::Fields::span))]
pub fn write_string(text: Option<&Text>, out: &mut Vec<u8>) -> Result<(), AllocError>
    requires { ForSome text (λ t. length t.now < 2 ^ 32) }
    ensures ok { OnOk result (out.new.items ≡ out.old.items ++ string.write (option_copied text.entry)) }
    ensures kept { Extends out.old.items out.new.items }
{
    match text {
        None => write_integer(-1, out),
        Some(text) => write_bytes(text.as_bytes(), out),
    }
}

/// Appends a string of these bytes: their number, and they.
#[tactic(auto, unfolding(crate::specs::Fields::string, crate::specs::Fields::span))]
pub fn write_bytes(bytes: &[u8], out: &mut Vec<u8>) -> Result<(), AllocError>
    requires { length bytes.now < 2 ^ 32 }
    ensures ok { OnOk result (out.new.items ≡ out.old.items ++ string.write (Some bytes.now)) }
    ensures kept { Extends out.old.items out.new.items }
{
    write_integer(bytes.len() as i64, out)?;
    out.extend_from_slice(bytes)
}

/// Appends a number as a string of its decimal digits, without a leading zero.
pub fn write_decimal(n: u32, out: &mut Vec<u8>) -> Result<(), AllocError>
    ensures ok { OnOk result (out.new.items ≡ out.old.items ++ string.write (Some (decimal n))) }
    ensures kept { Extends out.old.items out.new.items }
{
    write_bytes(Buffer::new().format(n).as_bytes(), out)
}
