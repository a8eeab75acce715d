//! Whether an entry is taken, by what is known of its first dependency.
ghost use Rattle.std.specs.Prelude.{◌≡◌};
ghost use Rattle.entry_choices.specs.Choices.{first_dependency, section_by, takes_section, is_data, is_empty, is_in, passes_data, passes_schemas, passes_tables, passes, is_beside, is_allowed, takes};
ghost use Rattle.entry_choices.specs.Asking.{asked_of};

use crate::kinds::{
    is_comment, is_grants, is_named, is_of_data, is_of_database, is_of_relation, sets_up_session,
};
use crate::options::Options;
use cat_model::{Items, Sections};
use copy_text::Text;
use toc_entry::Entry;

/// The entry's first dependency, if it has one.
pub fn first_dependency(entry: &Entry) -> Option<u32>
    ensures { result ≡ first_dependency entry.now }
{
    entry.depends.as_slice().first().copied()
}

/// The section of an entry, by that of its first dependency where that one is known.
pub fn section_by(first: Option<u8>, entry: &Entry) -> u8
    ensures { result ≡ section_by first entry.now }
{
    if entry.section == 1 {
        first.unwrap_or(2)
    } else {
        entry.section
    }
}

fn takes_section(sections: &Sections, section: u8) -> bool
    ensures { result ≡ takes_section sections.now section }
{
    sections.pre && section == 2 || sections.rows && section == 3 || sections.post && section == 4
}

fn is_empty(names: &Items<Text>) -> bool
    ensures { result ≡ is_empty names.now }
{
    names.as_slice().is_empty()
}

fn is_in(schemas: &Items<Text>, entry: &Entry) -> bool
    ensures { result ≡ is_in schemas.now entry.now }
{
    match &entry.namespace {
        None => false,
        Some(schema) => is_named(schemas.as_slice(), schema.as_bytes()),
    }
}

fn passes_data(options: &Options, entry: &Entry) -> bool
    ensures { result ≡ passes_data options.now entry.now }
{
    if is_of_data(entry.desc.as_bytes()) {
        !options.schema_only
    } else {
        !options.data_only
    }
}

fn passes_schemas(options: &Options, entry: &Entry) -> bool
    ensures { result ≡ passes_schemas options.now entry.now }
{
    (is_empty(&options.schemas) || is_in(&options.schemas, entry))
        && !is_in(&options.not_schemas, entry)
}

fn passes_tables(options: &Options, entry: &Entry) -> bool
    ensures { result ≡ passes_tables options.now entry.now }
{
    is_empty(&options.tables)
        || is_of_relation(entry.desc.as_bytes())
            && is_named(options.tables.as_slice(), entry.tag.as_bytes())
}

/// Whether the options take an entry of this section by itself.
fn passes(options: &Options, section: u8, entry: &Entry) -> bool
    ensures { result ≡ passes options.now section entry.now }
{
    passes_data(options, entry)
        && passes_schemas(options, entry)
        && passes_tables(options, entry)
        && takes_section(&options.sections, section)
}

/// Whether the entry says something of another one.
fn is_beside(entry: &Entry) -> bool
    ensures { result ≡ is_beside entry.now }
{
    is_comment(entry.desc.as_bytes()) || is_grants(entry.desc.as_bytes())
}

/// Whether comments are taken, or grants, whichever the entry is.
fn is_allowed(options: &Options, entry: &Entry) -> bool
    ensures { result ≡ is_allowed options.now entry.now }
{
    if is_comment(entry.desc.as_bytes()) {
        options.comments
    } else {
        options.grants
    }
}

/// Whether an entry of this section is taken, by whether its first dependency is, where that one is known.
pub fn takes(options: &Options, section: u8, first: Option<bool>, entry: &Entry) -> bool
    ensures { result ≡ takes options.now section first entry.now }
{
    if sets_up_session(entry.desc.as_bytes()) {
        true
    } else if is_of_database(entry.desc.as_bytes()) {
        false
    } else if is_beside(entry) {
        is_allowed(options, entry) && first.unwrap_or(passes(options, section, entry))
    } else {
        passes(options, section, entry)
    }
}

/// The id of the entry on which it depends whether this one is taken.
pub fn asked_of(options: &Options, entry: &Entry) -> Option<u32>
    ensures { result ≡ asked_of options.now entry.now }
{
    let desc = entry.desc.as_bytes();
    if sets_up_session(desc) || is_of_database(desc) {
        None
    } else if is_beside(entry) && is_allowed(options, entry) {
        first_dependency(entry)
    } else {
        None
    }
}
