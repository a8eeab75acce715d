//! The whole script.
ghost use Rattle.std.specs.Prelude.{◌≡◌, ◌++◌, OnOk, OnErr};
ghost use Rattle.copy_text.specs.Rows.{Extends};
ghost use Rattle.fmt_text.specs.Lines.{line, shown};
ghost use Rattle.fmt_text.specs.Script.{versions, session, script_head, script_end, parts, script};

use crate::lines::{put_lines, put_shown, put_title};
use crate::options::Options;
use crate::part::put_part;
use std::alloc::{AllocError, Global};
use toc_entry::{Entry, Head};

/// The statements that prepare the session.
const SETTINGS: [&[u8]; 10] = [
    b"SET statement_timeout = 0;",
    b"SET lock_timeout = 0;",
    b"SET idle_in_transaction_session_timeout = 0;",
    b"SET client_encoding = 'UTF8';",
    b"SET standard_conforming_strings = on;",
    b"SELECT pg_catalog.set_config('search_path', '', false);",
    b"SET check_function_bodies = false;",
    b"SET xmloption = content;",
    b"SET client_min_messages = warning;",
    b"SET row_security = off;",
];

/// Appends the script of these entries, each with its rows where it has some.
///
/// The script sets up the session, and then each entry but those of the session and the database has a part: a comment
/// that names it, its statements or its rows, and the statement that gives it to its owner. The end of a line within a
/// comment shows as a space, so that no text of an entry can leave its comment.
///
/// Where there is no memory `out` stays as it was.
/// <https://www.postgresql.org/docs/16/app-pgdump.html>
pub fn script_text(
    alloc: Global,
    head: &Head,
    entries: &[(Entry, Option<Vec<u8>>)],
    options: &Options,
    out: &mut Vec<u8>,
) -> Result<(), AllocError>
    ensures ok { OnOk result (out.new.items ≡ out.old.items ++ script head.now entries.now options.now.owners) }
    ensures err { OnErr result (out.new.items ≡ out.old.items) }
{
    let len = out.len();
    let put = put_script(alloc, head, entries, options.owners, out);
    if put.is_err() {
        out.truncate(len);
    }
    put
}

/// Appends the script. What was there before stays in any case.
#[tactic(auto, unfolding(crate::specs::Script::script))]
fn put_script(
    alloc: Global,
    head: &Head,
    entries: &[(Entry, Option<Vec<u8>>)],
    owners: bool,
    out: &mut Vec<u8>,
) -> Result<(), AllocError>
    ensures ok { OnOk result (out.new.items ≡ out.old.items ++ script head.now entries.now owners) }
    ensures kept { Extends out.old.items out.new.items }
{
    put_head(head, out)?;
    put_parts(alloc, entries, owners, out)?;
    put_end(out)
}

/// Appends a script's head: the versions, and the statements that prepare the session.
#[tactic(auto, unfolding(crate::specs::Script::script_head))]
pub fn put_head(head: &Head, out: &mut Vec<u8>) -> Result<(), AllocError>
    ensures ok { OnOk result (out.new.items ≡ out.old.items ++ script_head head.now) }
    ensures kept { Extends out.old.items out.new.items }
{
    put_title(b"PostgreSQL database dump", out)?;
    put_versions(head, out)?;
    put_session(out)?;
    Ok(())
}

/// Appends the two versions, as comments, and an empty line.
#[tactic(auto, unfolding(crate::specs::Script::versions))]
fn put_versions(head: &Head, out: &mut Vec<u8>) -> Result<(), AllocError>
    ensures ok { OnOk result (out.new.items ≡ out.old.items ++ versions head.now.server head.now.dumper) }
    ensures kept { Extends out.old.items out.new.items }
{
    put_version(
        b"-- Dumped from database version ",
        head.server.as_bytes(),
        out,
    )?;
    put_version(
        b"-- Dumped by pg_dump version ",
        head.dumper.as_bytes(),
        out,
    )?;
    out.push(b'\n')?;
    Ok(())
}

/// Appends the statements that prepare the session, and an empty line.
#[tactic(auto, unfolding(crate::specs::Script::session))]
fn put_session(out: &mut Vec<u8>) -> Result<(), AllocError>
    ensures ok { OnOk result (out.new.items ≡ out.old.items ++ session) }
    ensures kept { Extends out.old.items out.new.items }
{
    put_lines(&SETTINGS, out)?;
    out.push(b'\n')?;
    Ok(())
}

/// Appends a line of a word and a version.
fn put_version(word: &[u8], version: &[u8], out: &mut Vec<u8>) -> Result<(), AllocError>
    ensures ok { OnOk result (out.new.items ≡ out.old.items ++ line (word.now ++ shown version.now)) }
    ensures kept { Extends out.old.items out.new.items }
{
    out.extend_from_slice(word)?;
    put_shown(version, out)?;
    out.extend_from_slice(b"\n")
}

/// Appends the parts of the entries.
#[tactic(auto, unfolding(crate::specs::Script::parts))]
fn put_parts(
    alloc: Global,
    entries: &[(Entry, Option<Vec<u8>>)],
    owners: bool,
    out: &mut Vec<u8>,
) -> Result<(), AllocError>
    ensures ok { OnOk result (out.new.items ≡ out.old.items ++ parts owners entries.now) }
    ensures kept { Extends out.old.items out.new.items }
{
    for (entry, rows) in entries {
        put_part(alloc, entry, rows, owners, out)?;
    }
    Ok(())
}

/// Appends a script's end.
#[tactic(auto, unfolding(crate::specs::Script::script_end))]
pub fn put_end(out: &mut Vec<u8>) -> Result<(), AllocError>
    ensures ok { OnOk result (out.new.items ≡ out.old.items ++ script_end) }
    ensures kept { Extends out.old.items out.new.items }
{
    put_title(b"PostgreSQL database dump complete", out)
}
