//! Whether an archive can be made of a head and entries.
ghost use Rattle.std.specs.Prelude.{◌≡◌, true};
ghost use Rattle.toc_layout.specs.Heads.{head_seen};
ghost use Rattle.archive_entries.specs.Fits.{is_short, is_short_or_none, has_short_labels, has_short_statements, has_short_setting, is_extra, is_section, can_be_told, is_next, are_told, is_head, can_be_archived, CanBeArchived};

use copy_text::Text;
use toc_entry::{Entry, Extra, Head};

/// A text has fewer bytes than this.
const TEXT_END: usize = 1 << 32;

/// A table of contents has at most so many entries.
const MOST_ENTRIES: usize = 200_000;

/// Whether an archive can be made of a head and entries that reads as these: the head is of version 1.15 without compression;
/// there are at most 200,000 entries, in the order of their dump ids, which are 1 at least; each has a section, and a place
/// or a file; and no text has 2^32 bytes.
#[tactic(auto, using(crate::proofs::FitLemmas::archived))]
pub fn can_be_archived(head: &Head, entries: &[Entry]) -> bool
    ensures value { result ≡ can_be_archived (head_seen head.now) entries.now }
    ensures holds { result ≡ true → CanBeArchived (head_seen head.now) entries.now }
{
    is_archive(head, entries)
}

#[tactic(auto, unfolding(crate::specs::Fits::can_be_archived))]
fn is_archive(head: &Head, entries: &[Entry]) -> bool
    ensures { result ≡ can_be_archived (head_seen head.now) entries.now }
{
    is_head(head) && entries.len() <= MOST_ENTRIES && are_told(entries)
}

fn is_head(head: &Head) -> bool
    ensures { result ≡ is_head (head_seen head.now) }
{
    head.major == 1
        && head.minor == 15
        && head.compression == 0
        && is_short(&head.dbname)
        && is_short(&head.server)
        && is_short(&head.dumper)
}

/// Whether each can be told, and dump ids rise.
fn are_told(entries: &[Entry]) -> bool
    ensures { result ≡ are_told 0 entries.now }
{
    let mut last: u32 = 0;
    let mut rest = entries;
    while let Some((entry, later)) = rest.split_first() {
        if !is_next(last, entry) {
            return false;
        }
        last = entry.dump_id;
        rest = later;
    }
    true
}

/// Whether an entry can be told, and its dump id is behind this one.
fn is_next(last: u32, entry: &Entry) -> bool
    ensures { result ≡ is_next last entry.now }
{
    last < entry.dump_id && can_be_told(entry)
}

#[tactic(auto, unfolding(crate::specs::Fits::can_be_told))]
fn can_be_told(entry: &Entry) -> bool
    ensures { result ≡ can_be_told entry.now }
{
    is_section(entry.section)
        && has_short_labels(entry)
        && has_short_statements(entry)
        && has_short_setting(entry)
        && is_extra(&entry.extra)
}

fn is_section(section: u8) -> bool
    ensures { result ≡ is_section section }
{
    1 <= section && section <= 4
}

fn has_short_labels(entry: &Entry) -> bool
    ensures { result ≡ has_short_labels entry.now }
{
    is_short(&entry.tag) && is_short(&entry.desc)
}

fn has_short_statements(entry: &Entry) -> bool
    ensures { result ≡ has_short_statements entry.now }
{
    is_short_or_none(&entry.defn)
        && is_short_or_none(&entry.drop_stmt)
        && is_short_or_none(&entry.copy_stmt)
}

fn has_short_setting(entry: &Entry) -> bool
    ensures { result ≡ has_short_setting entry.now }
{
    is_short_or_none(&entry.namespace)
        && is_short_or_none(&entry.tablespace)
        && is_short_or_none(&entry.tableam)
        && is_short_or_none(&entry.owner)
}

fn is_extra(extra: &Extra) -> bool
    ensures { result ≡ is_extra extra.now }
{
    match extra {
        Extra::Place { state, .. } => 1 <= *state && *state <= 3,
        Extra::File(name) => is_short(name),
    }
}

fn is_short_or_none(text: &Option<Text>) -> bool
    ensures { result ≡ is_short_or_none text.now }
{
    match text {
        None => true,
        Some(text) => is_short(text),
    }
}

fn is_short(text: &Text) -> bool
    ensures { result ≡ is_short text.now }
{
    text.as_bytes().len() < TEXT_END
}
