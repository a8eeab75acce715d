//! Reading entries.
ghost use Rattle.std.specs.Prelude.{◌≡◌, ◌<◌, ◌^◌, IfOk, [], option_and_then};
ghost use Rattle.std.specs.Option.{option_copied};
ghost use Rattle.dump_ports.specs.Moment.{IsPart};
ghost use Rattle.toc_parts.specs.Parts.{seen_at};
ghost use Rattle.toc_parts.specs.Answers.{Gives};
ghost use Rattle.std.specs.Int.{w64};
ghost use Rattle.toc_parts.specs.Fields.{byte, number, number_in};
ghost use Rattle.toc_layout.specs.declared.fault.EntryHalt.TheVariants.{Short};
ghost use Rattle.toc_layout.specs.Groups.{identity_seen, labels_seen, three_seen};
ghost use Rattle.toc_layout.specs.Faults.{entry_halt, entry_fault, placed, placed_entry_fault};
ghost use Rattle.toc_layout.specs.Entries.{whole, optional, text, dump_id, flag, oid, section, unread, dependency, dependencies, state, extra, identity, labels, three, setting, body, entry_of, entry};

use crate::fault::{EntryHalt, EntryStop, ReadEntryError};
use copy_text::Text;
use std::alloc::{AllocError, Global};
use toc_entry::{DumpIds, Entry, Extra};

/// The integer at the front, strictly between -2^32 and 2^32, and the bytes behind it. It takes no memory.
pub fn whole(rest: &[u8]) -> Result<(i64, &[u8]), EntryStop>
    ensures read { Gives entry_halt (λ x. (x.0, x.1.now)) result (whole.read rest.now) }
    ensures range { IfOk result (λ x. IsPart x.0) }
{
    Ok(toc_parts::integer(rest)?)
}

fn digits(rest: &[u8]) -> Result<(Option<&str>, &[u8]), EntryStop>
    ensures { Gives entry_halt (λ x. (option_copied x.0, x.1.now)) result (optional.read rest.now) }
{
    Ok(toc_parts::text(rest)?)
}

pub(crate) fn optional(alloc: Global, rest: &[u8]) -> Result<(Option<Text>, &[u8]), EntryStop>
    ensures { Gives entry_halt (λ x. (x.0, x.1.now)) result (optional.read rest.now) }
{
    Ok(toc_parts::string(alloc, rest)?)
}

fn text(alloc: Global, rest: &[u8]) -> Result<(Text, &[u8]), EntryStop>
    ensures { Gives entry_halt (λ x. (x.0, x.1.now)) result (text.read rest.now) }
{
    let (text, behind) = optional(alloc, rest)?;
    match text {
        Some(text) => Ok((text, behind)),
        None => Ok((empty(alloc)?, behind)),
    }
}

pub(crate) fn empty(alloc: Global) -> Result<Text, AllocError>
    ensures { IfOk result (λ text. text ≡ []) }
{
    Text::new(Vec::new(alloc)).ok_or(AllocError)
}

/// The dump id at the front, and the bytes behind it. It takes no memory.
#[tactic(auto, unfolding(crate::specs::Entries::dump_id))]
pub fn dump_id(rest: &[u8]) -> Result<(u32, &[u8]), EntryStop>
    ensures { Gives entry_halt (λ x. (x.0, x.1.now)) result (dump_id.read rest.now) }
{
    let (id, behind) = whole(rest)?;
    match toc_parts::natural(id) {
        Some(id) if id > 0 => Ok((id, behind)),
        _ => Err(EntryStop::Halt(EntryHalt::BadNumber { left: rest.len() })),
    }
}

fn flag(rest: &[u8]) -> Result<(bool, &[u8]), EntryStop>
    ensures { Gives entry_halt (λ x. (x.0, x.1.now)) result (flag.read rest.now) }
{
    let (flag, behind) = whole(rest)?;
    Ok((flag != 0, behind))
}

#[tactic(auto, unfolding(crate::specs::Entries::oid))]
fn oid(rest: &[u8]) -> Result<(u32, &[u8]), EntryStop>
    ensures { Gives entry_halt (λ x. (x.0, x.1.now)) result (oid.read rest.now) }
{
    let (text, behind) = digits(rest)?;
    match number_in(text) {
        Some(oid) => Ok((oid, behind)),
        None => Err(EntryStop::Halt(EntryHalt::BadNumber { left: rest.len() })),
    }
}

fn number_in(text: Option<&str>) -> Option<u32>
    ensures { result ≡ option_and_then number_in (option_copied text.entry) }
{
    toc_parts::number_in(text?)
}

#[tactic(auto, unfolding(crate::specs::Entries::section))]
fn section(rest: &[u8]) -> Result<(u8, &[u8]), EntryStop>
    ensures { Gives entry_halt (λ x. (x.0, x.1.now)) result (section.read rest.now) }
{
    let (section, behind) = whole(rest)?;
    match toc_parts::natural(section) {
        Some(section @ 1..=4) => Ok((section as u8, behind)),
        _ => Err(EntryStop::Halt(EntryHalt::BadSection { left: rest.len() })),
    }
}

#[tactic(auto, unfolding(crate::specs::Entries::dependency))]
fn dependency(rest: &[u8]) -> Result<(Option<u32>, &[u8]), EntryStop>
    ensures { Gives entry_halt (λ x. (x.0, x.1.now)) result (dependency.read rest.now) }
{
    let (text, behind) = digits(rest)?;
    let Some(text) = text else {
        return Ok((None, behind));
    };
    match toc_parts::number_in(text) {
        Some(id) => Ok((Some(id), behind)),
        None => Err(EntryStop::Halt(EntryHalt::BadNumber { left: rest.len() })),
    }
}

fn dependencies(alloc: Global, rest: &[u8]) -> Result<(DumpIds, &[u8]), EntryStop>
    ensures { Gives entry_halt (λ x. (x.0, x.1.now)) result (dependencies.read rest.now) }
{
    let mut ids = Vec::new(alloc);
    let mut left = rest;
    'ids: loop {
        let (id, behind) = dependency(left)?;
        left = behind;
        match id {
            Some(id) => ids.push(id)?,
            None => return Ok((DumpIds::from_vec(ids), left)),
        }
    }
}

fn state(rest: &[u8]) -> Result<(u8, &[u8]), EntryStop>
    ensures { Gives entry_halt (λ x. (x.0, x.1.now)) result (state.read rest.now) }
{
    let (state, behind) = byte(rest)?;
    match state {
        1..=3 => Ok((state, behind)),
        _ => Err(EntryStop::Halt(EntryHalt::BadState { left: rest.len() })),
    }
}

fn byte(rest: &[u8]) -> Result<(u8, &[u8]), EntryStop>
    ensures { Gives entry_halt (λ x. (x.0, x.1.now)) result ((byte Short).read rest.now) }
{
    Ok(toc_parts::byte(rest)?)
}

fn offset(rest: &[u8]) -> Result<(u64, &[u8]), EntryStop>
    ensures { Gives entry_halt (λ x. (x.0, x.1.now)) result ((number Short w64).read rest.now) }
{
    Ok(toc_parts::number_of_eight(rest)?)
}

#[tactic(auto, unfolding(crate::specs::Entries::extra))]
fn extra(alloc: Global, rest: &[u8], directory: bool) -> Result<(Extra, &[u8]), EntryStop>
    ensures { Gives entry_halt (λ x. (x.0, x.1.now)) result ((extra directory).read rest.now) }
{
    if directory {
        let (name, rest) = text(alloc, rest)?;
        return Ok((Extra::File(name), rest));
    }
    let (state, rest) = state(rest)?;
    let (offset, rest) = offset(rest)?;
    Ok((Extra::Place { state, offset }, rest))
}

#[derive(Drop)]
struct Identity {
    has_rows: bool,
    tableoid: u32,
    oid: u32,
}

fn read_identity(rest: &[u8]) -> Result<(Identity, &[u8]), EntryStop>
    ensures { Gives entry_halt (λ x. (identity_seen x.0, x.1.now)) result (identity.read rest.now) }
{
    let (has_rows, rest) = flag(rest)?;
    let (tableoid, rest) = oid(rest)?;
    let (oid, rest) = oid(rest)?;
    Ok((
        Identity {
            has_rows,
            tableoid,
            oid,
        },
        rest,
    ))
}

#[derive(Drop)]
struct Labels {
    tag: Text,
    desc: Text,
    section: u8,
}

fn read_labels(alloc: Global, rest: &[u8]) -> Result<(Labels, &[u8]), EntryStop>
    ensures { Gives entry_halt (λ x. (labels_seen x.0, x.1.now)) result (labels.read rest.now) }
{
    let (tag, rest) = text(alloc, rest)?;
    let (desc, rest) = text(alloc, rest)?;
    let (section, rest) = section(rest)?;
    Ok((Labels { tag, desc, section }, rest))
}

#[derive(Drop)]
struct ThreeTexts {
    first: Option<Text>,
    second: Option<Text>,
    third: Option<Text>,
}

fn three(alloc: Global, rest: &[u8]) -> Result<(ThreeTexts, &[u8]), EntryStop>
    ensures { Gives entry_halt (λ x. (three_seen x.0, x.1.now)) result (three.read rest.now) }
{
    let (first, rest) = optional(alloc, rest)?;
    let (second, rest) = optional(alloc, rest)?;
    let (third, rest) = optional(alloc, rest)?;
    Ok((
        ThreeTexts {
            first,
            second,
            third,
        },
        rest,
    ))
}

/// The namespace, the tablespace and the access method; and the owner.
fn setting(alloc: Global, rest: &[u8]) -> Result<((ThreeTexts, Option<Text>), &[u8]), EntryStop>
    ensures { Gives entry_halt (λ x. ((three_seen x.0.0, (x.0.1, tt)), x.1.now)) result (setting.read rest.now) }
{
    let (names, rest) = three(alloc, rest)?;
    let (owner, rest) = optional(alloc, rest)?;
    let (_, rest) = digits(rest)?;
    Ok(((names, owner), rest))
}

/// The entry of this dump id, of which the fields behind the id are at the front, and the bytes behind it. `directory`
/// says that its rows are in a file of a directory.
#[tactic(auto, unfolding(crate::specs::Entries::body))]
pub fn entry_behind(
    alloc: Global,
    dump_id: u32,
    rest: &[u8],
    directory: bool,
) -> Result<(Entry, &[u8]), EntryStop>
    ensures { Gives entry_halt (λ x. (x.0, x.1.now)) result (seen_at (λ b. entry_of (dump_id, b)) ((body directory).read rest.now)) }
{
    let (identity, rest) = read_identity(rest)?;
    let (labels, rest) = read_labels(alloc, rest)?;
    let (statements, rest) = three(alloc, rest)?;
    let ((names, owner), rest) = setting(alloc, rest)?;
    let (depends, rest) = dependencies(alloc, rest)?;
    let (extra, rest) = extra(alloc, rest, directory)?;
    let entry = Entry {
        dump_id,
        has_rows: identity.has_rows,
        tableoid: identity.tableoid,
        oid: identity.oid,
        tag: labels.tag,
        desc: labels.desc,
        section: labels.section,
        defn: statements.first,
        drop_stmt: statements.second,
        copy_stmt: statements.third,
        namespace: names.first,
        tablespace: names.second,
        tableam: names.third,
        owner,
        depends,
        extra,
    };
    Ok((entry, rest))
}
