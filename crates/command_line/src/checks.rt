//! The checks between options.
ghost use Rattle.std.specs.Prelude.{◌≡◌, ◌&&◌, codes};
ghost use Rattle.command_line.specs.declared.usage.UsageKind.TheVariants as kinds;
ghost use Rattle.command_line.specs.Checks.{first_of, missing_if, none, excluded, apart, fault_if, is_text_of, above_one, restoring_jobs, named_format, is_directory, is_plain, reads_input, lies_in, is_in, folder_place, excluded_plain, pg_dump_checks, pg_restore_checks, pg_dumpall_checks, pg_clone_checks, pg_gen_checks, checks, room, words_fault};
ghost use Rattle.command_line.specs.Seen.{places_of};
ghost use Rattle.command_line.specs.Steps.{left};

use crate::mentions::{Mention, is_given, last, other, reading_fault};
use crate::options::{Opt, Tool};
use crate::reader::Reader;
use crate::usage::{UsageFault, UsageKind};
use crate::values::{Format, format_of};

/// The first fault of a list.
fn first_of(faults: &[Option<UsageFault>]) -> Option<UsageFault>
    ensures { result ≡ first_of faults.now }
{
    for fault in faults {
        if fault.is_some() {
            return *fault;
        }
    }
    None
}

/// Something is missing, where there are so many words.
fn missing_if(missing: bool, count: usize) -> Option<UsageFault>
    ensures { result ≡ missing_if missing count }
{
    if missing {
        Some(UsageFault {
            word: count,
            kind: UsageKind::MissingOption,
        })
    } else {
        None
    }
}

/// An option or a word is missing, where there are so many words.
fn missing(mention: Option<Mention<'_>>, count: usize) -> Option<UsageFault>
    ensures { result ≡ missing_if (none (places_of mention.entry)) count }
{
    missing_if(mention.is_none(), count)
}

/// A directory needs a file's name.
fn name_missing(directory: bool, file: Option<Mention<'_>>, count: usize) -> Option<UsageFault>
    ensures { result ≡ missing_if (directory && none (places_of file.entry)) count }
{
    missing_if(directory && file.is_none(), count)
}

/// Two options that exclude each other; the later word is named.
fn excluded(mention: Option<Mention<'_>>, other: Option<Mention<'_>>) -> Option<UsageFault>
    ensures { result ≡ excluded (places_of mention.entry) (places_of other.entry) }
{
    let (Some(mention), Some(other)) = (mention, other) else {
        return None;
    };
    Some(UsageFault {
        word: mention.word.max(other.word),
        kind: UsageKind::Excluded,
    })
}

/// The same of two options by their names.
fn apart(reader: Reader<'_>, option: Opt, other: Opt) -> Option<UsageFault>
    ensures { result ≡ apart option other (left reader.entry) }
{
    excluded(last(reader, option), last(reader, other))
}

/// A fault of this word where something holds.
fn fault_if(holds: bool, kind: UsageKind, mention: Option<Mention<'_>>) -> Option<UsageFault>
    ensures { result ≡ fault_if holds kind (places_of mention.entry) }
{
    match mention {
        Some(mention) if holds => Some(UsageFault {
            word: mention.word,
            kind,
        }),
        _ => None,
    }
}

/// Whether an option's value is this text.
fn is_text_of(text: &str, mention: Option<Mention<'_>>) -> bool
    ensures { result ≡ is_text_of text.now (places_of mention.entry) }
{
    match mention {
        None => false,
        Some(mention) => mention.value == text,
    }
}

/// Standard output is no file for what holds.
fn output_fault(holds: bool, file: Option<Mention<'_>>) -> Option<UsageFault>
    ensures { result ≡ fault_if (holds && is_text_of (codes "-") (places_of file.entry)) kinds.BadValue (places_of file.entry) }
{
    fault_if(holds && is_text_of("-", file), UsageKind::BadValue, file)
}

/// The option where its value is another than 1.
fn above_one<'a>(mention: Option<Mention<'a>>) -> Option<Mention<'a>>
    ensures { places_of result ≡ above_one (places_of mention.entry) }
{
    match mention {
        Some(mention) if mention.value != "1" => Some(mention),
        _ => None,
    }
}

/// `-j` of a restore, where it makes more workers than one.
fn restoring_jobs<'a>(reader: Reader<'a>) -> Option<Mention<'a>>
    ensures { places_of result ≡ restoring_jobs (left reader.entry) }
{
    if is_given(reader, Opt::File) || is_given(reader, Opt::List) {
        return None;
    }
    above_one(last(reader, Opt::Jobs))
}

/// The format that is named.
fn named_format(mention: Option<Mention<'_>>) -> Option<Format>
    ensures { result ≡ named_format (places_of mention.entry) }
{
    match mention {
        None => None,
        Some(mention) => format_of(mention.value),
    }
}

/// Whether a directory is written.
fn is_directory(format: Option<Format>) -> bool
    ensures { result ≡ is_directory format }
{
    matches!(format, Some(Format::Directory))
}

/// Whether a script is written.
fn is_plain(format: Option<Format>) -> bool
    ensures { result ≡ is_plain format }
{
    matches!(format, None | Some(Format::Plain))
}

/// Whether the archive comes from standard input.
fn reads_input(mention: Option<Mention<'_>>) -> bool
    ensures { result ≡ reads_input (places_of mention.entry) }
{
    match mention {
        None => true,
        Some(mention) => mention.value == "-",
    }
}

/// Whether a file lies in a folder, by their names.
fn lies_in(folder: &str, file: &str) -> bool
    ensures { result ≡ lies_in folder.now file.now }
{
    let file = file.as_bytes();
    let folder = folder.as_bytes();
    file.starts_with(folder) && file[folder.len()..].starts_with(b"/")
}

/// The same where both are given.
fn is_in(folder: Option<Mention<'_>>, file: Option<Mention<'_>>) -> bool
    ensures { result ≡ is_in (places_of folder.entry) (places_of file.entry) }
{
    let (Some(folder), Some(file)) = (folder, file) else {
        return false;
    };
    lies_in(folder.value, file.value)
}

/// A file may not lie in the folder.
fn inside_fault(folder: Option<Mention<'_>>, file: Option<Mention<'_>>) -> Option<UsageFault>
    ensures { result ≡ fault_if (is_in (places_of folder.entry) (places_of file.entry)) kinds.BadValue (places_of file.entry) }
{
    fault_if(is_in(folder, file), UsageKind::BadValue, file)
}

/// The folder of pg_dump, pg_dumpall or psql.
fn folder<'a>(reader: Reader<'a>) -> Option<Mention<'a>>
    ensures { places_of result ≡ folder_place (left reader.entry) }
{
    if is_given(reader, Opt::Dbname) {
        last(reader, Opt::Dbname)
    } else {
        other(reader, 0)
    }
}

/// Workers exclude a script.
fn excluded_plain(format: Option<Mention<'_>>, jobs: Option<Mention<'_>>) -> Option<UsageFault>
    ensures { result ≡ excluded_plain (places_of format.entry) (places_of jobs.entry) }
{
    match format {
        None => fault_if(true, UsageKind::Excluded, jobs),
        Some(named) if is_plain(format_of(named.value)) => excluded(Some(named), jobs),
        Some(_) => None,
    }
}

/// The checks of pg_dump.
#[tactic(auto, unfolding(crate::specs::Checks::pg_dump_checks))]
fn pg_dump_checks(reader: Reader<'_>, count: usize) -> Option<UsageFault>
    ensures { result ≡ first_of (pg_dump_checks count (left reader.entry)) }
{
    let file = last(reader, Opt::File);
    let directory = is_directory(named_format(last(reader, Opt::Format)));
    let folder = folder(reader);
    first_of(&[
        apart(reader, Opt::DataOnly, Opt::SchemaOnly),
        missing(folder, count),
        name_missing(directory, file, count),
        output_fault(directory, file),
        inside_fault(folder, file),
    ])
}

/// The checks of pg_restore.
#[tactic(auto, unfolding(crate::specs::Checks::pg_restore_checks))]
fn pg_restore_checks(reader: Reader<'_>, count: usize) -> Option<UsageFault>
    ensures { result ≡ first_of (pg_restore_checks count (left reader.entry)) }
{
    let jobs = restoring_jobs(reader);
    let has_target = is_given(reader, Opt::Dbname)
        || is_given(reader, Opt::File)
        || is_given(reader, Opt::List);
    first_of(&[
        apart(reader, Opt::DataOnly, Opt::SchemaOnly),
        apart(reader, Opt::Dbname, Opt::File),
        missing_if(!has_target, count),
        excluded(last(reader, Opt::SingleTransaction), jobs),
        excluded(last(reader, Opt::ExitOnError), jobs),
        apart(reader, Opt::SingleTransaction, Opt::File),
        fault_if(reads_input(other(reader, 0)), UsageKind::Excluded, jobs),
    ])
}

/// The checks of pg_dumpall.
#[tactic(auto, unfolding(crate::specs::Checks::pg_dumpall_checks))]
fn pg_dumpall_checks(reader: Reader<'_>, count: usize) -> Option<UsageFault>
    ensures { result ≡ first_of (pg_dumpall_checks count (left reader.entry)) }
{
    let file = last(reader, Opt::File);
    let folder = last(reader, Opt::Dbname);
    first_of(&[missing(folder, count), inside_fault(folder, file)])
}

/// The checks of pg_clone.
#[tactic(auto, unfolding(crate::specs::Checks::pg_clone_checks))]
fn pg_clone_checks(reader: Reader<'_>, count: usize) -> Option<UsageFault>
    ensures { result ≡ first_of (pg_clone_checks count (left reader.entry)) }
{
    let file = last(reader, Opt::File);
    let source = other(reader, 0);
    let target = other(reader, 1);
    let jobs = above_one(last(reader, Opt::Jobs));
    first_of(&[
        apart(reader, Opt::DataOnly, Opt::SchemaOnly),
        missing(target, count),
        missing(file, count),
        excluded_plain(last(reader, Opt::Format), jobs),
        output_fault(true, file),
        inside_fault(source, file),
        inside_fault(target, file),
    ])
}

/// The checks of pg_gen.
#[tactic(auto, unfolding(crate::specs::Checks::pg_gen_checks))]
fn pg_gen_checks(reader: Reader<'_>, count: usize) -> Option<UsageFault>
    ensures { result ≡ first_of (pg_gen_checks count (left reader.entry)) }
{
    let file = last(reader, Opt::File);
    first_of(&[
        missing(file, count),
        missing(last(reader, Opt::Tables), count),
        output_fault(true, file),
    ])
}

/// The checks of a tool.
#[tactic(auto, unfolding(crate::specs::Checks::checks))]
fn checks(tool: Tool, reader: Reader<'_>, count: usize) -> Option<UsageFault>
    ensures { result ≡ checks tool count (left reader.entry) }
{
    match tool {
        Tool::PgDump => pg_dump_checks(reader, count),
        Tool::PgRestore => pg_restore_checks(reader, count),
        Tool::PgDumpall => pg_dumpall_checks(reader, count),
        Tool::Psql => missing(folder(reader), count),
        Tool::PgCatcmp => missing(other(reader, 1), count),
        Tool::PgClone => pg_clone_checks(reader, count),
        Tool::PgGen => pg_gen_checks(reader, count),
    }
}

/// How many words the tool takes that are no options.
fn room(tool: Tool, reader: Reader<'_>) -> usize
    ensures { result ≡ room tool (left reader.entry) }
{
    match tool {
        Tool::PgDump | Tool::Psql if is_given(reader, Opt::Dbname) => 0,
        Tool::PgDump | Tool::Psql | Tool::PgRestore => 1,
        Tool::PgCatcmp | Tool::PgClone => 2,
        Tool::PgDumpall | Tool::PgGen => 0,
    }
}

/// Why the words behind a tool's name have no reading, where there are so many with it.
#[tactic(auto, unfolding(crate::specs::Checks::words_fault))]
pub(crate) fn words_fault(tool: Tool, reader: Reader<'_>, count: usize) -> Option<UsageFault>
    ensures { result ≡ words_fault tool count (left reader.entry) }
{
    let extra = other(reader, room(tool, reader));
    first_of(&[
        fault_if(true, UsageKind::ExtraWord, extra),
        reading_fault(reader),
        checks(tool, reader, count),
    ])
}
