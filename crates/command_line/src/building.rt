//! The command that words which read ask for.
ghost use Rattle.std.specs.Prelude.{◌≡◌, [], ◌∷◌, ◌++◌, IfOk, OnOk, option_map};
ghost use Rattle.std.specs.Option.{option_to_list};
ghost use Rattle.command_line.specs.Commands.{text_of, needed_text, number_given, format_given, archive_format_given, patterns_of, sections_of, folder_of, choice_of, dump_of, restore_of, dumpall_of, psql_of, compare_of, clone_of, gen_of, command_of};
ghost use Rattle.command_line.specs.Mentions.{last_of, values_of, other_of};
ghost use Rattle.command_line.specs.Seen.{places_of, value_said};
ghost use Rattle.command_line.specs.Steps.{left};

use crate::command::{
    Choice, CloneWords, Command, CompareWords, DumpWords, DumpallWords, Folder, GenWords,
    PsqlWords, RestoreWords,
};
use crate::lists::{Names, PatternWord, Patterns, SectionList};
use crate::mentions::{Mention, is_given, last, other};
use crate::options::{Opt, Tool, is_same};
use crate::reader::Reader;
use crate::reading::{Said, Step};
use crate::values::{
    Format, MOST_JOBS, MOST_TABLES, archive_format_of, format_of, number, section_of,
};
use copy_text::Text;
use patterns::{Pattern, PatternReadError, pattern_read};
use std::alloc::{AllocError, Global};

/// A text of its own.
fn owned(alloc: Global, value: &str) -> Result<Text, AllocError>
    ensures { IfOk result (λ text. text ≡ value.now) }
{
    let bytes = Vec::from_slice(alloc, value.as_bytes())?;
    match Text::new(bytes) {
        Some(text) => Ok(text),
        None => unreachable!(),
    }
}

/// The text of a mention.
fn text(alloc: Global, mention: Option<Mention<'_>>) -> Result<Option<Text>, AllocError>
    ensures { IfOk result (λ text. text ≡ text_of (places_of mention.entry)) }
{
    match mention {
        None => Ok(None),
        Some(mention) => Ok(Some(owned(alloc, mention.value)?)),
    }
}

/// The text of a mention that is there.
fn needed(alloc: Global, mention: Option<Mention<'_>>) -> Result<Text, AllocError>
    ensures { IfOk result (λ text. text ≡ needed_text (places_of mention.entry)) }
{
    match mention {
        None => owned(alloc, ""),
        Some(mention) => owned(alloc, mention.value),
    }
}

/// The number of a mention.
fn number_given(mention: Option<Mention<'_>>, most: u16) -> Option<u16>
    ensures { result ≡ number_given most (places_of mention.entry) }
{
    match mention {
        None => None,
        Some(mention) => number(mention.value, most),
    }
}

/// The format of a mention.
fn format_given(mention: Option<Mention<'_>>) -> Option<Format>
    ensures { result ≡ format_given (places_of mention.entry) }
{
    match mention {
        None => None,
        Some(mention) => format_of(mention.value),
    }
}

/// The archive's format of a mention.
fn archive_format_given(mention: Option<Mention<'_>>) -> Option<Format>
    ensures { result ≡ archive_format_given (places_of mention.entry) }
{
    match mention {
        None => None,
        Some(mention) => archive_format_of(mention.value),
    }
}

/// The folder, by `-d` or as a word.
fn folder(alloc: Global, reader: Reader<'_>) -> Result<Folder, AllocError>
    ensures { IfOk result (λ folder. folder ≡ folder_of (last_of Opt.Dbname (left reader.entry)) (other_of 0 (left reader.entry))) }
{
    match last(reader, Opt::Dbname) {
        None => Ok(Folder::Word(needed(alloc, other(reader, 0))?)),
        Some(mention) => Ok(Folder::Dbname(owned(alloc, mention.value)?)),
    }
}

/// The names that an option adds up.
#[tactic(auto, unfolding(crate::specs::Mentions::values_of))]
fn names(alloc: Global, reader: Reader<'_>, option: Opt) -> Result<Names, AllocError>
    ensures { IfOk result (λ names. names ≡ values_of option (left reader.entry)) }
{
    let mut names = Names::new(alloc);
    let mut reader = reader;
    'words: while let Step::Says(said, next) = reader.step() {
        add_name(alloc, said, option, &mut names)?;
        reader = next;
    }
    Ok(names)
}

/// Adds the value of an option, where this was said.
fn add_name(alloc: Global, said: Said<'_>, option: Opt, names: &mut Names) -> Result<(), AllocError>
    ensures { OnOk result (names.new ≡ names.old ++ option_to_list (value_said option said.entry)) }
{
    let Some(value) = value_of(said, option) else {
        return Ok(());
    };
    let name = owned(alloc, value)?;
    names.push(name)
}

/// The patterns that an option adds up.
#[tactic(auto, unfolding(crate::specs::Mentions::values_of))]
fn patterns(alloc: Global, reader: Reader<'_>, option: Opt) -> Result<Patterns, AllocError>
    ensures { IfOk result (λ patterns. patterns ≡ patterns_of (values_of option (left reader.entry))) }
{
    let mut patterns = Patterns::new(alloc);
    let mut reader = reader;
    'words: while let Step::Says(said, next) = reader.step() {
        add_pattern(alloc, said, option, &mut patterns)?;
        reader = next;
    }
    Ok(patterns)
}

/// Adds the pattern of an option, where this was said.
fn add_pattern(
    alloc: Global,
    said: Said<'_>,
    option: Opt,
    patterns: &mut Patterns,
) -> Result<(), AllocError>
    ensures { OnOk result (patterns.new ≡ patterns.old ++ patterns_of (option_to_list (value_said option said.entry))) }
{
    let Some(value) = value_of(said, option) else {
        return Ok(());
    };
    match pattern_read(alloc, value.as_bytes()) {
        Ok(pattern) => put_pattern(alloc, value, pattern, patterns),
        Err(PatternReadError::Fault(_)) => Ok(()),
        Err(PatternReadError::Memory) => Err(AllocError),
    }
}

/// Adds a pattern with its text.
fn put_pattern(
    alloc: Global,
    value: &str,
    pattern: Pattern,
    patterns: &mut Patterns,
) -> Result<(), AllocError>
    ensures { OnOk result (patterns.new ≡ patterns.old ++ record { text = value.now; pattern = pattern } ∷ []) }
{
    let text = owned(alloc, value)?;
    patterns.push(PatternWord { text, pattern })
}

/// The sections that are named.
#[tactic(auto, unfolding(crate::specs::Mentions::values_of))]
fn sections(alloc: Global, reader: Reader<'_>) -> Result<SectionList, AllocError>
    ensures { IfOk result (λ sections. sections ≡ sections_of (values_of Opt.Section (left reader.entry))) }
{
    let mut sections = SectionList::new(alloc);
    let mut reader = reader;
    'words: while let Step::Says(said, next) = reader.step() {
        add_section(said, &mut sections)?;
        reader = next;
    }
    Ok(sections)
}

/// Adds the section of an option, where this was said.
fn add_section(said: Said<'_>, sections: &mut SectionList) -> Result<(), AllocError>
    ensures { OnOk result (sections.new ≡ sections.old ++ sections_of (option_to_list (value_said Opt.Section said.entry))) }
{
    let Some(value) = value_of(said, Opt::Section) else {
        return Ok(());
    };
    match section_of(value) {
        None => Ok(()),
        Some(section) => sections.push(section),
    }
}

/// The value of an option, where this was said.
fn value_of<'a>(said: Said<'a>, option: Opt) -> Option<&'a str>
    ensures { option_map (λ value. value.now) result ≡ value_said option said.entry }
{
    match said {
        Said::Given {
            option: given,
            value,
            ..
        } if is_same(given, option) => Some(value),
        _ => None,
    }
}

/// Which objects are dumped, and how.
#[tactic(auto, unfolding(crate::specs::Commands::choice_of))]
fn choice(alloc: Global, reader: Reader<'_>) -> Result<Choice, AllocError>
    ensures { IfOk result (λ choice. choice ≡ choice_of (left reader.entry)) }
{
    Ok(Choice {
        data_only: is_given(reader, Opt::DataOnly),
        schema_only: is_given(reader, Opt::SchemaOnly),
        schemas: patterns(alloc, reader, Opt::Schema)?,
        exclude_schemas: patterns(alloc, reader, Opt::ExcludeSchema)?,
        tables: patterns(alloc, reader, Opt::Table)?,
        exclude_tables: patterns(alloc, reader, Opt::ExcludeTable)?,
        exclude_table_data: patterns(alloc, reader, Opt::ExcludeTableData)?,
        no_owner: is_given(reader, Opt::NoOwner),
        no_privileges: is_given(reader, Opt::NoPrivileges),
        no_comments: is_given(reader, Opt::NoComments),
        sections: sections(alloc, reader)?,
        strict_names: is_given(reader, Opt::StrictNames),
    })
}

#[tactic(auto, unfolding(crate::specs::Commands::dump_of))]
fn dump(alloc: Global, reader: Reader<'_>) -> Result<DumpWords, AllocError>
    ensures { IfOk result (λ words. words ≡ dump_of (left reader.entry)) }
{
    Ok(DumpWords {
        folder: folder(alloc, reader)?,
        file: text(alloc, last(reader, Opt::File))?,
        format: format_given(last(reader, Opt::Format)),
        choice: choice(alloc, reader)?,
        uncompressed: is_given(reader, Opt::Compress),
    })
}

#[tactic(auto, unfolding(crate::specs::Commands::restore_of))]
fn restore(alloc: Global, reader: Reader<'_>) -> Result<RestoreWords, AllocError>
    ensures { IfOk result (λ words. words ≡ restore_of (left reader.entry)) }
{
    Ok(RestoreWords {
        dbname: text(alloc, last(reader, Opt::Dbname))?,
        file: text(alloc, last(reader, Opt::File))?,
        format: archive_format_given(last(reader, Opt::Format)),
        list: is_given(reader, Opt::List),
        use_list: text(alloc, last(reader, Opt::UseList))?,
        jobs: number_given(last(reader, Opt::Jobs), MOST_JOBS),
        single_transaction: is_given(reader, Opt::SingleTransaction),
        exit_on_error: is_given(reader, Opt::ExitOnError),
        data_only: is_given(reader, Opt::DataOnly),
        schema_only: is_given(reader, Opt::SchemaOnly),
        schemas: names(alloc, reader, Opt::Schema)?,
        exclude_schemas: names(alloc, reader, Opt::ExcludeSchema)?,
        tables: names(alloc, reader, Opt::Table)?,
        no_owner: is_given(reader, Opt::NoOwner),
        no_privileges: is_given(reader, Opt::NoPrivileges),
        no_comments: is_given(reader, Opt::NoComments),
        sections: sections(alloc, reader)?,
        archive: text(alloc, other(reader, 0))?,
    })
}

#[tactic(auto, unfolding(crate::specs::Commands::dumpall_of))]
fn dumpall(alloc: Global, reader: Reader<'_>) -> Result<DumpallWords, AllocError>
    ensures { IfOk result (λ words. words ≡ dumpall_of (left reader.entry)) }
{
    Ok(DumpallWords {
        dbname: needed(alloc, last(reader, Opt::Dbname))?,
        file: text(alloc, last(reader, Opt::File))?,
        globals_only: is_given(reader, Opt::GlobalsOnly),
        roles_only: is_given(reader, Opt::RolesOnly),
        schema_only: is_given(reader, Opt::SchemaOnly),
        no_owner: is_given(reader, Opt::NoOwner),
        no_privileges: is_given(reader, Opt::NoPrivileges),
    })
}

#[tactic(auto, unfolding(crate::specs::Commands::psql_of))]
fn psql(alloc: Global, reader: Reader<'_>) -> Result<PsqlWords, AllocError>
    ensures { IfOk result (λ words. words ≡ psql_of (left reader.entry)) }
{
    Ok(PsqlWords {
        folder: folder(alloc, reader)?,
        file: text(alloc, last(reader, Opt::File))?,
        on_error_stop: is_given(reader, Opt::Variable),
    })
}

#[tactic(auto, unfolding(crate::specs::Commands::compare_of))]
fn compare(alloc: Global, reader: Reader<'_>) -> Result<CompareWords, AllocError>
    ensures { IfOk result (λ words. words ≡ compare_of (left reader.entry)) }
{
    Ok(CompareWords {
        first: needed(alloc, other(reader, 0))?,
        second: needed(alloc, other(reader, 1))?,
    })
}

#[tactic(auto, unfolding(crate::specs::Commands::clone_of))]
fn clone(alloc: Global, reader: Reader<'_>) -> Result<CloneWords, AllocError>
    ensures { IfOk result (λ words. words ≡ clone_of (left reader.entry)) }
{
    Ok(CloneWords {
        format: format_given(last(reader, Opt::Format)),
        file: needed(alloc, last(reader, Opt::File))?,
        jobs: number_given(last(reader, Opt::Jobs), MOST_JOBS),
        choice: choice(alloc, reader)?,
        source: needed(alloc, other(reader, 0))?,
        target: needed(alloc, other(reader, 1))?,
    })
}

#[tactic(auto, unfolding(crate::specs::Commands::gen_of))]
fn generate(alloc: Global, reader: Reader<'_>) -> Result<GenWords, AllocError>
    ensures { IfOk result (λ words. words ≡ gen_of (left reader.entry)) }
{
    Ok(GenWords {
        tables: number_given(last(reader, Opt::Tables), MOST_TABLES).unwrap_or(0),
        jobs: number_given(last(reader, Opt::Jobs), MOST_JOBS),
        file: needed(alloc, last(reader, Opt::File))?,
    })
}

/// The command that a tool's words ask for.
#[tactic(auto, unfolding(crate::specs::Commands::command_of))]
pub(crate) fn command(alloc: Global, tool: Tool, reader: Reader<'_>) -> Result<Command, AllocError>
    ensures { IfOk result (λ command. command ≡ command_of tool (left reader.entry)) }
{
    Ok(match tool {
        Tool::PgDump => Command::PgDump(dump(alloc, reader)?),
        Tool::PgRestore => Command::PgRestore(restore(alloc, reader)?),
        Tool::PgDumpall => Command::PgDumpall(dumpall(alloc, reader)?),
        Tool::Psql => Command::Psql(psql(alloc, reader)?),
        Tool::PgCatcmp => Command::PgCatcmp(compare(alloc, reader)?),
        Tool::PgClone => Command::PgClone(clone(alloc, reader)?),
        Tool::PgGen => Command::PgGen(generate(alloc, reader)?),
    })
}
