//! Lines and comments.
ghost use Rattle.std.specs.Prelude.{◌≡◌, ◌++◌, OnOk};
ghost use Rattle.std.specs.List.{flat_map};
ghost use Rattle.std.specs.Option.{option_copied};
ghost use Rattle.copy_text.specs.Rows.{Extends};
ghost use Rattle.fmt_text.specs.Lines.{line, title, shown, shown_or_dash};

use copy_text::Text;
use std::alloc::AllocError;

/// Appends lines of these texts.
pub fn put_lines(lines: &[&[u8]], out: &mut Vec<u8>) -> Result<(), AllocError>
    ensures ok { OnOk result (out.new.items ≡ out.old.items ++ flat_map (λ text. line text.now) lines.now) }
    ensures kept { Extends out.old.items out.new.items }
{
    for text in lines {
        out.extend_from_slice(text)?;
        out.push(b'\n')?;
    }
    Ok(())
}

/// Appends three comment lines, the text between two empty ones, and an empty line.
pub fn put_title(text: &[u8], out: &mut Vec<u8>) -> Result<(), AllocError>
    ensures ok { OnOk result (out.new.items ≡ out.old.items ++ title text.now) }
    ensures kept { Extends out.old.items out.new.items }
{
    out.extend_from_slice(b"--\n-- ")?;
    out.extend_from_slice(text)?;
    out.extend_from_slice(b"\n--\n\n")
}

/// Appends a text as a comment shows it: the ends of lines in it are spaces.
pub fn put_shown(text: &[u8], out: &mut Vec<u8>) -> Result<(), AllocError>
    ensures ok { OnOk result (out.new.items ≡ out.old.items ++ shown text.now) }
    ensures kept { Extends out.old.items out.new.items }
{
    for byte in text {
        out.push(match *byte {
            b'\n' | b'\r' => b' ',
            other => other,
        })?;
    }
    Ok(())
}

/// Appends a text that may not be there, as a comment shows it: a dash stands for none.
pub fn put_shown_or_dash(text: Option<&Text>, out: &mut Vec<u8>) -> Result<(), AllocError>
    ensures ok { OnOk result (out.new.items ≡ out.old.items ++ shown_or_dash (option_copied text.entry)) }
    ensures kept { Extends out.old.items out.new.items }
{
    match text {
        None => out.extend_from_slice(b"-"),
        Some(text) => put_shown(text.as_bytes(), out),
    }
}
