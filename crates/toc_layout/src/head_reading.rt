//! Reading heads.
ghost use Rattle.std.specs.Prelude.{◌≡◌, ◌||◌, IfOk, IfSome, [], length, drop, codes};
ghost use Rattle.dump_ports.specs.Moment.{IsPart};
ghost use Rattle.toc_parts.specs.Answers.{Gives};
ghost use Rattle.toc_parts.specs.Fields.{byte};
ghost use Rattle.toc_layout.specs.declared.fault.HeadHalt.TheVariants.{Short};
ghost use Rattle.toc_layout.specs.Faults.{head_halt, head_fault, placed_head_fault};
ghost use Rattle.toc_layout.specs.Heads.{Instant, instant_of, head_seen, whole, text, expected, magic, version, compression, sizes, front, moment, names, head, begins_with_lines, is_text_dump, head_in, ended};

use crate::fault::{HeadFault, HeadHalt, HeadStop, ReadHeadError};
use crate::reading::empty;
use copy_text::Text;
use dump_ports::Moment;
use std::alloc::Global;
use toc_entry::Head;

fn byte(rest: &[u8]) -> Result<(u8, &[u8]), HeadStop>
    ensures { Gives head_halt (λ x. (x.0, x.1.now)) result ((byte Short).read rest.now) }
{
    Ok(toc_parts::byte(rest)?)
}

fn expected(rest: &[u8], byte: u8, halt: HeadHalt) -> Result<&[u8], HeadStop>
    ensures { Gives head_halt (λ x. (tt, x.now)) result ((expected byte halt).read rest.now) }
{
    let (found, behind) = self::byte(rest)?;
    if found == byte {
        Ok(behind)
    } else {
        Err(HeadStop::Halt(halt))
    }
}

fn magic(rest: &[u8]) -> Result<&[u8], HeadStop>
    ensures { Gives head_halt (λ x. ((tt, (tt, (tt, (tt, tt)))), x.now)) result (magic.read rest.now) }
{
    let rest = expected(rest, b'P', HeadHalt::Magic)?;
    let rest = expected(rest, b'G', HeadHalt::Magic)?;
    let rest = expected(rest, b'D', HeadHalt::Magic)?;
    let rest = expected(rest, b'M', HeadHalt::Magic)?;
    expected(rest, b'P', HeadHalt::Magic)
}

fn version(rest: &[u8]) -> Result<&[u8], HeadStop>
    ensures { Gives head_halt (λ x. (tt, x.now)) result (version.read rest.now) }
{
    let (major, rest) = byte(rest)?;
    let (minor, rest) = byte(rest)?;
    if major == 1 && minor == 15 {
        Ok(rest)
    } else {
        Err(HeadStop::Halt(HeadHalt::Version(major, minor)))
    }
}

fn sizes(rest: &[u8]) -> Result<&[u8], HeadStop>
    ensures { Gives head_halt (λ x. ((tt, tt), x.now)) result (sizes.read rest.now) }
{
    let rest = expected(rest, 4, HeadHalt::IntSize)?;
    expected(rest, 8, HeadHalt::OffSize)
}

fn compression(rest: &[u8]) -> Result<&[u8], HeadStop>
    ensures { Gives head_halt (λ x. (tt, x.now)) result (compression.read rest.now) }
{
    match byte(rest)? {
        (0, rest) => Ok(rest),
        (code, _) => Err(HeadStop::Halt(HeadHalt::Compressed(code))),
    }
}

/// The revision and the format, and the bytes behind the compression.
#[tactic(auto, unfolding(crate::specs::Heads::front))]
fn front(rest: &[u8]) -> Result<((u8, u8), &[u8]), HeadStop>
    ensures { Gives head_halt (λ x. ((x.0.0, x.0.1), x.1.now)) result (front.read rest.now) }
{
    let rest = magic(rest)?;
    let rest = version(rest)?;
    let (revision, rest) = byte(rest)?;
    let rest = sizes(rest)?;
    let (format, rest) = byte(rest)?;
    let rest = compression(rest)?;
    Ok(((revision, format), rest))
}

fn whole(rest: &[u8]) -> Result<(i64, &[u8]), HeadStop>
    ensures read { Gives head_halt (λ x. (x.0, x.1.now)) result (whole.read rest.now) }
    ensures range { IfOk result (λ x. IsPart x.0) }
{
    Ok(toc_parts::integer(rest)?)
}

#[tactic(auto, unfolding(crate::specs::Heads::moment))]
fn moment(rest: &[u8]) -> Result<(Moment, &[u8]), HeadStop>
    ensures { Gives head_halt (λ x. (instant_of x.0, x.1.now)) result (moment.read rest.now) }
{
    let (sec, rest) = whole(rest)?;
    let (min, rest) = whole(rest)?;
    let (hour, rest) = whole(rest)?;
    let (mday, rest) = whole(rest)?;
    let (mon, rest) = whole(rest)?;
    let (year, rest) = whole(rest)?;
    let (isdst, rest) = whole(rest)?;
    Ok((
        Moment {
            sec,
            min,
            hour,
            mday,
            mon,
            year,
            isdst,
        },
        rest,
    ))
}

fn text(alloc: Global, rest: &[u8]) -> Result<(Text, &[u8]), HeadStop>
    ensures { Gives head_halt (λ x. (x.0, x.1.now)) result (text.read rest.now) }
{
    let (text, behind) = toc_parts::string(alloc, rest)?;
    match text {
        Some(text) => Ok((text, behind)),
        None => Ok((empty(alloc)?, behind)),
    }
}

#[derive(Drop)]
struct HeadNames {
    dbname: Text,
    server: Text,
    dumper: Text,
}

fn names(alloc: Global, rest: &[u8]) -> Result<(HeadNames, &[u8]), HeadStop>
    ensures { Gives head_halt (λ x. ((x.0.dbname, (x.0.server, x.0.dumper)), x.1.now)) result (names.read rest.now) }
{
    let (dbname, rest) = text(alloc, rest)?;
    let (server, rest) = text(alloc, rest)?;
    let (dumper, rest) = text(alloc, rest)?;
    Ok((
        HeadNames {
            dbname,
            server,
            dumper,
        },
        rest,
    ))
}

#[tactic(auto, unfolding(crate::specs::Heads::head))]
fn head_at_front(alloc: Global, rest: &[u8]) -> Result<(Head, &[u8]), HeadStop>
    ensures { Gives head_halt (λ x. (head_seen x.0, x.1.now)) result (head.read rest.now) }
{
    let ((revision, format), rest) = front(rest)?;
    let (moment, rest) = moment(rest)?;
    let (names, rest) = names(alloc, rest)?;
    let head = Head {
        major: 1,
        minor: 15,
        revision,
        format,
        compression: 0,
        moment,
        dbname: names.dbname,
        server: names.server,
        dumper: names.dumper,
    };
    Ok((head, rest))
}

/// Whether a text is a plain script that pg_dump or pg_dumpall wrote, by its first three lines. It takes no memory.
#[tactic(auto, unfolding(crate::specs::Heads::is_text_dump))]
pub fn is_text_dump(text: &[u8]) -> bool
    ensures { result ≡ is_text_dump text.now }
{
    begins_with_lines(b"--\n-- PostgreSQL database dump\n--", text)
        || begins_with_lines(b"--\n-- PostgreSQL database cluster dump\n--", text)
}

fn begins_with_lines(lines: &[u8], text: &[u8]) -> bool
    ensures { result ≡ begins_with_lines lines.now text.now }
{
    match text.strip_prefix(lines) {
        Some([] | [b'\n', ..]) => true,
        _ => false,
    }
}

/// The head at the front of an archive, and the bytes behind it.
///
/// `TextDump` comes exactly for a plain script; else the fault is the first in the order of the bytes.
/// <https://www.postgresql.org/docs/16/app-pgdump.html>
pub fn split_head(alloc: Global, bytes: &[u8]) -> Result<(Head, &[u8]), ReadHeadError>
    ensures { Gives head_fault (λ x. (head_seen x.0, x.1.now)) result (head_in bytes.now) }
{
    if is_text_dump(bytes) {
        return Err(ReadHeadError::Fault(HeadFault::TextDump));
    }
    match head_at_front(alloc, bytes) {
        Ok(found) => Ok(found),
        Err(HeadStop::Halt(halt)) => Err(ReadHeadError::Fault(halt.placed(bytes.len()))),
        Err(HeadStop::Memory) => Err(ReadHeadError::Memory),
    }
}

/// The head at the front of an archive, and the place behind it.
///
/// `TextDump` comes exactly for a plain script; else the fault is the first in the order of the bytes.
/// <https://www.postgresql.org/docs/16/app-pgdump.html>
pub fn read_head(alloc: Global, bytes: &[u8]) -> Result<(Head, usize), ReadHeadError>
    ensures { Gives head_fault (λ x. (head_seen x.0, x.1)) result (ended (length bytes.now) (head_in bytes.now)) }
{
    let (head, rest) = split_head(alloc, bytes)?;
    Ok((head, bytes.len().saturating_sub(rest.len())))
}
