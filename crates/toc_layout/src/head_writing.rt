//! Writing heads.
ghost use Rattle.std.specs.Prelude.{◌≡◌, ◌++◌, OnOk, OnErr};
ghost use Rattle.copy_text.specs.Rows.{Extends};
ghost use Rattle.dump_ports.specs.Moment.{IsPart};
ghost use Rattle.toc_parts.specs.Parts.{◌then◌};
ghost use Rattle.toc_layout.specs.Heads.{head_seen, instant_of, whole, text, front, moment, names, head};
ghost use Rattle.toc_layout.specs.Writable.{IsShort, HeadCanBeWritten};

use crate::writing::write_text;
use copy_text::Text;
use dump_ports::Moment;
use std::alloc::AllocError;
use toc_entry::Head;
use toc_parts::write_integer;

#[tactic(auto, unfolding(crate::specs::Heads::front))]
fn write_front(revision: u8, format: u8, out: &mut Vec<u8>) -> Result<(), AllocError>
    ensures ok { OnOk result (out.new.items ≡ out.old.items ++ front.write (revision, format)) }
    ensures kept { Extends out.old.items out.new.items }
{
    let bytes = [
        b'P', b'G', b'D', b'M', b'P', 1, 15, revision, 4, 8, format, 0,
    ];
    out.extend_from_slice(&bytes)
}

fn write_years(at: &Moment, out: &mut Vec<u8>) -> Result<(), AllocError>
    ensures ok { OnOk result (out.new.items ≡ out.old.items ++ (whole then whole).write (at.now.year, at.now.isdst)) }
    ensures kept { Extends out.old.items out.new.items }
{
    write_integer(at.year, out)?;
    write_integer(at.isdst, out)
}

fn write_days(at: &Moment, out: &mut Vec<u8>) -> Result<(), AllocError>
    ensures ok { OnOk result (out.new.items ≡ out.old.items
        ++ (whole then (whole then (whole then whole))).write (at.now.mday, (at.now.mon, (at.now.year, at.now.isdst)))) }
    ensures kept { Extends out.old.items out.new.items }
{
    write_integer(at.mday, out)?;
    write_integer(at.mon, out)?;
    write_years(at, out)
}

fn write_hours(at: &Moment, out: &mut Vec<u8>) -> Result<(), AllocError>
    ensures ok { OnOk result (out.new.items ≡ out.old.items
        ++ (whole then (whole then (whole then (whole then whole)))).write (at.now.hour, (at.now.mday, (at.now.mon, (at.now.year, at.now.isdst))))) }
    ensures kept { Extends out.old.items out.new.items }
{
    write_integer(at.hour, out)?;
    write_days(at, out)
}

#[tactic(auto, unfolding(crate::specs::Heads::moment))]
fn write_moment(at: &Moment, out: &mut Vec<u8>) -> Result<(), AllocError>
    ensures ok { OnOk result (out.new.items ≡ out.old.items ++ moment.write (instant_of at.now)) }
    ensures kept { Extends out.old.items out.new.items }
{
    write_integer(at.sec, out)?;
    write_integer(at.min, out)?;
    write_hours(at, out)
}

fn write_names(
    dbname: &Text,
    server: &Text,
    dumper: &Text,
    out: &mut Vec<u8>,
) -> Result<(), AllocError>
    requires { IsShort dbname.now × IsShort server.now × IsShort dumper.now }
    ensures ok { OnOk result (out.new.items ≡ out.old.items ++ names.write (dbname.now, (server.now, dumper.now))) }
    ensures kept { Extends out.old.items out.new.items }
{
    write_text(dbname, out)?;
    write_text(server, out)?;
    write_text(dumper, out)
}

#[tactic(auto, unfolding(crate::specs::Heads::head))]
fn write_head_fields(written: &Head, out: &mut Vec<u8>) -> Result<(), AllocError>
    requires { HeadCanBeWritten (head_seen written.now) }
    ensures ok { OnOk result (out.new.items ≡ out.old.items ++ head.write (head_seen written.now)) }
    ensures kept { Extends out.old.items out.new.items }
{
    write_front(written.revision, written.format, out)?;
    write_moment(&written.moment, out)?;
    write_names(&written.dbname, &written.server, &written.dumper, out)
}

/// Appends a head. After an `Err` nothing was appended.
/// <https://www.postgresql.org/docs/16/app-pgdump.html>
pub fn write_head(written: &Head, out: &mut Vec<u8>) -> Result<(), AllocError>
    requires { HeadCanBeWritten (head_seen written.now) }
    ensures ok { OnOk result (out.new.items ≡ out.old.items ++ head.write (head_seen written.now)) }
    ensures err { OnErr result (out.new.items ≡ out.old.items) }
{
    let len = out.len();
    let written = write_head_fields(written, out);
    if written.is_err() {
        out.truncate(len);
    }
    written
}
