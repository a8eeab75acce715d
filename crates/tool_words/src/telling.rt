//! The line of a call that is refused as a whole.
ghost use Rattle.std.specs.Prelude.{◌≡◌, ℕ, ◌≤◌, ◌++◌, List, OnOk, OnErr, decimal, codes};
ghost use Rattle.dump_ports.specs.Faults.{CountsFault};
ghost use Rattle.folder_io.specs.Folders.{file_name};
ghost use Rattle.tool_words.specs.Messages.{kind_text, limit_text, what_text, cause_text, place_of, line_of, archive_text, outcome_text, outcome_line};
ghost use Rattle.tool_words.specs.Lines.{Appends, AppendsPart};

use crate::outcome::{Limit, Outcome, Unmatched};
use crate::stop::{RestoreStop, Stop};
use crate::words::Teller;
use cat_model::What;
use command_line::UsageKind;
use dump_ports::{Failed, Sink, write_all};
use folder_io::ExportFile;
use itoa::Buffer;
use list_files::ListFault;
use toc_layout::{ArchiveFault, HeadFault};

/// Writes the line of a refusal to standard error. After an error a first part of it was written.
pub fn tell<E: Sink>(err: &mut E, teller: Teller, outcome: &Outcome) -> Result<(), Failed>
    ensures ok { OnOk result (Appends (outcome_line teller outcome.now) (E.written err.old) (E.written err.new)) }
    ensures err { OnErr result (AppendsPart (outcome_line teller outcome.now) (E.written err.old) (E.written err.new)) }
    ensures count { CountsFault result (E.faults err.old) (E.faults err.new) }
{
    write_two(err, teller.name().as_bytes(), b": error: ")?;
    write_outcome(err, outcome)?;
    write_bytes(err, b"\n")
}

/// Writes the text of a refusal.
fn write_outcome<E: Sink>(err: &mut E, outcome: &Outcome) -> Result<(), Failed>
    ensures ok { OnOk result (Appends (outcome_text outcome.now) (E.written err.old) (E.written err.new)) }
    ensures err { OnErr result (AppendsPart (outcome_text outcome.now) (E.written err.old) (E.written err.new)) }
    ensures count { CountsFault result (E.faults err.old) (E.faults err.new) }
{
    match outcome {
        Outcome::Done => Ok(()),
        Outcome::Usage { word, kind } => write_numbered(err, b"word ", *word, kind_text(*kind)),
        Outcome::ReadFault => write_bytes(err, b"could not read"),
        Outcome::WriteFault => write_bytes(err, b"could not write"),
        Outcome::Missing(name) => write_two(err, b"missing file ", name.as_bytes()),
        Outcome::BadExport { file, line, .. } => write_place(err, *file, *line),
        Outcome::BadScript(fault) => write_numbered(err, b"bad script at ", fault.place(), b""),
        Outcome::OutOfProfile(what) => write_two(err, b"not supported: ", what_text(what)),
        Outcome::TooLarge(limit, _) => write_two(err, b"too large: ", limit_text(*limit)),
        Outcome::Differs(difference) => write_two(err, b"differs: ", difference.text()),
        Outcome::ScriptStopped(stop) => write_stop(err, stop),
        Outcome::BadArchive(fault) => write_bytes(err, archive_text(*fault)),
        Outcome::BadList(fault) => write_list_line(err, *fault),
        Outcome::BadDefn { entry, .. } => {
            write_numbered(err, b"entry ", *entry as usize, b" has a bad definition")
        }
        Outcome::WithErrors(errors) => write_errors(err, *errors),
        Outcome::RestoreStopped(stop) => write_restore_stop(err, stop),
        Outcome::Loop(_) => write_bytes(err, b"dependency loop"),
        Outcome::NoMatch(pattern) => write_unmatched(err, *pattern),
        Outcome::Memory => write_bytes(err, b"out of memory"),
    }
}

/// Writes where a script stopped, and why.
fn write_stop<E: Sink>(err: &mut E, stop: &Stop) -> Result<(), Failed>
    ensures ok { OnOk result (Appends (codes "stopped at " ++ decimal stop.now.0 ++ codes ": " ++ cause_text stop.now.1) (E.written err.old) (E.written err.new)) }
    ensures err { OnErr result (AppendsPart (codes "stopped at " ++ decimal stop.now.0 ++ codes ": " ++ cause_text stop.now.1) (E.written err.old) (E.written err.new)) }
    ensures count { CountsFault result (E.faults err.old) (E.faults err.new) }
{
    write_counted(err, b"stopped at ", stop.place())?;
    write_two(err, b": ", stop.text())
}

/// Writes at which entry a restore stopped, and why.
fn write_restore_stop<E: Sink>(err: &mut E, stop: &RestoreStop) -> Result<(), Failed>
    ensures ok { OnOk result (Appends (codes "stopped at entry " ++ decimal stop.now.0 ++ codes ": " ++ cause_text stop.now.1) (E.written err.old) (E.written err.new)) }
    ensures err { OnErr result (AppendsPart (codes "stopped at entry " ++ decimal stop.now.0 ++ codes ": " ++ cause_text stop.now.1) (E.written err.old) (E.written err.new)) }
    ensures count { CountsFault result (E.faults err.old) (E.faults err.new) }
{
    write_counted(err, b"stopped at entry ", stop.entry() as usize)?;
    write_two(err, b": ", stop.text())
}

/// Writes how many entries and notes of a restore were refused.
fn write_errors<E: Sink>(err: &mut E, errors: u64) -> Result<(), Failed>
    ensures ok { OnOk result (Appends (codes "errors ignored on restore: " ++ decimal errors) (E.written err.old) (E.written err.new)) }
    ensures err { OnErr result (AppendsPart (codes "errors ignored on restore: " ++ decimal errors) (E.written err.old) (E.written err.new)) }
    ensures count { CountsFault result (E.faults err.old) (E.faults err.new) }
{
    let mut buffer = Buffer::new();
    write_two(
        err,
        b"errors ignored on restore: ",
        buffer.format(errors).as_bytes(),
    )
}

/// Writes which line of a list file names no entry.
fn write_list_line<E: Sink>(err: &mut E, fault: ListFault) -> Result<(), Failed>
    ensures ok { OnOk result (Appends (codes "bad list line " ++ decimal (line_of fault)) (E.written err.old) (E.written err.new)) }
    ensures err { OnErr result (AppendsPart (codes "bad list line " ++ decimal (line_of fault)) (E.written err.old) (E.written err.new)) }
    ensures count { CountsFault result (E.faults err.old) (E.faults err.new) }
{
    let mut buffer = Buffer::new();
    write_two(
        err,
        b"bad list line ",
        buffer.format(line_of(fault)).as_bytes(),
    )
}

fn line_of(fault: ListFault) -> u64
    ensures { result ≡ line_of fault }
{
    match fault {
        ListFault::NotANumber(line) | ListFault::UnknownId(line) => line,
    }
}

/// What is told of an archive that has no reading.
fn archive_text(fault: ArchiveFault) -> &'static [u8]
    ensures { result.now ≡ archive_text fault }
{
    match fault {
        ArchiveFault::Head(HeadFault::TextDump) => {
            b"input file appears to be a text format dump. Please use psql."
        }
        _ => b"bad archive",
    }
}

/// Writes a number behind a text.
fn write_counted<E: Sink>(err: &mut E, before: &[u8], number: usize) -> Result<(), Failed>
    ensures ok { OnOk result (Appends (before.now ++ decimal number) (E.written err.old) (E.written err.new)) }
    ensures err { OnErr result (AppendsPart (before.now ++ decimal number) (E.written err.old) (E.written err.new)) }
    ensures count { CountsFault result (E.faults err.old) (E.faults err.new) }
{
    let mut buffer = Buffer::new();
    write_two(err, before, buffer.format(number).as_bytes())
}

/// Writes which pattern hits nothing.
fn write_unmatched<E: Sink>(err: &mut E, pattern: Unmatched) -> Result<(), Failed>
    ensures ok { OnOk result (Appends (codes "no match for pattern " ++ decimal (place_of pattern)) (E.written err.old) (E.written err.new)) }
    ensures err { OnErr result (AppendsPart (codes "no match for pattern " ++ decimal (place_of pattern)) (E.written err.old) (E.written err.new)) }
    ensures count { CountsFault result (E.faults err.old) (E.faults err.new) }
{
    write_counted(err, b"no match for pattern ", place_of(pattern))
}

fn place_of(pattern: Unmatched) -> usize
    ensures { result ≡ place_of pattern }
{
    match pattern {
        Unmatched::Schemas(at) | Unmatched::Tables(at) => at,
    }
}

/// Writes a text. After an error a first part of it was written.
pub fn write_bytes<E: Sink>(err: &mut E, bytes: &[u8]) -> Result<(), Failed>
    ensures ok { OnOk result (Appends bytes.now (E.written err.old) (E.written err.new)) }
    ensures err { OnErr result (AppendsPart bytes.now (E.written err.old) (E.written err.new)) }
    ensures count { CountsFault result (E.faults err.old) (E.faults err.new) }
{
    write_all(err, bytes)
}

/// Writes two texts.
fn write_two<E: Sink>(err: &mut E, one: &[u8], two: &[u8]) -> Result<(), Failed>
    ensures ok { OnOk result (Appends (one.now ++ two.now) (E.written err.old) (E.written err.new)) }
    ensures err { OnErr result (AppendsPart (one.now ++ two.now) (E.written err.old) (E.written err.new)) }
    ensures count { CountsFault result (E.faults err.old) (E.faults err.new) }
{
    write_bytes(err, one)?;
    write_bytes(err, two)
}

/// Writes a text with a number in it.
fn write_numbered<E: Sink>(
    err: &mut E,
    before: &[u8],
    number: usize,
    behind: &[u8],
) -> Result<(), Failed>
    ensures ok { OnOk result (Appends (before.now ++ decimal number ++ behind.now) (E.written err.old) (E.written err.new)) }
    ensures err { OnErr result (AppendsPart (before.now ++ decimal number ++ behind.now) (E.written err.old) (E.written err.new)) }
    ensures count { CountsFault result (E.faults err.old) (E.faults err.new) }
{
    write_bytes(err, before)?;
    write_number(err, number)?;
    write_bytes(err, behind)
}

/// Writes the place of a file that fails.
fn write_place<E: Sink>(err: &mut E, file: ExportFile, line: u64) -> Result<(), Failed>
    ensures ok { OnOk result (Appends (codes "bad export " ++ file_name file ++ codes " line " ++ decimal line) (E.written err.old) (E.written err.new)) }
    ensures err { OnErr result (AppendsPart (codes "bad export " ++ file_name file ++ codes " line " ++ decimal line) (E.written err.old) (E.written err.new)) }
    ensures count { CountsFault result (E.faults err.old) (E.faults err.new) }
{
    write_file(err, file)?;
    write_line(err, line)
}

/// Writes the name of a file behind its words.
fn write_file<E: Sink>(err: &mut E, file: ExportFile) -> Result<(), Failed>
    ensures ok { OnOk result (Appends (codes "bad export " ++ file_name file) (E.written err.old) (E.written err.new)) }
    ensures err { OnErr result (AppendsPart (codes "bad export " ++ file_name file) (E.written err.old) (E.written err.new)) }
    ensures count { CountsFault result (E.faults err.old) (E.faults err.new) }
{
    write_bytes(err, b"bad export ")?;
    write_name(err, file)
}

/// Writes the name of a file.
fn write_name<E: Sink>(err: &mut E, file: ExportFile) -> Result<(), Failed>
    ensures ok { OnOk result (Appends (file_name file) (E.written err.old) (E.written err.new)) }
    ensures err { OnErr result (AppendsPart (file_name file) (E.written err.old) (E.written err.new)) }
    ensures count { CountsFault result (E.faults err.old) (E.faults err.new) }
{
    let mut digits = Buffer::new();
    let (before, number, behind) = file.name_parts(&mut digits);
    write_two(err, before.as_bytes(), number.as_bytes())?;
    write_bytes(err, behind.as_bytes())
}

/// Writes the number of a line behind its word.
fn write_line<E: Sink>(err: &mut E, line: u64) -> Result<(), Failed>
    ensures ok { OnOk result (Appends (codes " line " ++ decimal line) (E.written err.old) (E.written err.new)) }
    ensures err { OnErr result (AppendsPart (codes " line " ++ decimal line) (E.written err.old) (E.written err.new)) }
    ensures count { CountsFault result (E.faults err.old) (E.faults err.new) }
{
    let mut buffer = Buffer::new();
    write_two(err, b" line ", buffer.format(line).as_bytes())
}

/// Writes a number.
fn write_number<E: Sink>(err: &mut E, number: usize) -> Result<(), Failed>
    ensures ok { OnOk result (Appends (decimal number) (E.written err.old) (E.written err.new)) }
    ensures err { OnErr result (AppendsPart (decimal number) (E.written err.old) (E.written err.new)) }
    ensures count { CountsFault result (E.faults err.old) (E.faults err.new) }
{
    let mut buffer = Buffer::new();
    write_bytes(err, buffer.format(number).as_bytes())
}

/// What stands behind the number of a word.
fn kind_text(kind: UsageKind) -> &'static [u8]
    ensures { result.now ≡ codes ": " ++ kind_text kind }
{
    match kind {
        UsageKind::NoCommand => b": NoCommand",
        UsageKind::UnknownCommand => b": UnknownCommand",
        UsageKind::OutOfProfile => b": OutOfProfile",
        UsageKind::UnknownOption => b": UnknownOption",
        UsageKind::MissingValue => b": MissingValue",
        UsageKind::BadValue => b": BadValue",
        UsageKind::ExtraWord => b": ExtraWord",
        UsageKind::Excluded => b": Excluded",
        UsageKind::MissingOption => b": MissingOption",
    }
}

fn limit_text(limit: Limit) -> &'static [u8]
    ensures { result.now ≡ limit_text limit }
{
    match limit {
        Limit::Script => b"Script",
        Limit::TableFile => b"TableFile",
        Limit::DataFile => b"DataFile",
        Limit::Folder => b"Folder",
        Limit::Entries => b"Entries",
        Limit::Archive => b"Archive",
        Limit::ListFile => b"ListFile",
    }
}

fn what_text(what: &What) -> &'static [u8]
    ensures { result.now ≡ what_text what.now }
{
    match what {
        What::Gzip => b"Gzip",
        What::Lz4 => b"Lz4",
        What::Zstd => b"Zstd",
        What::Tar => b"Tar",
        What::LargeObjects => b"LargeObjects",
        What::RelKind(_) => b"RelKind",
        What::Persistence => b"Persistence",
        What::TypeKind(_) => b"TypeKind",
        What::ConstraintKind(_) => b"ConstraintKind",
        What::Encoding => b"Encoding",
        What::Identity => b"Identity",
        What::Inheritance => b"Inheritance",
        What::Tablespace => b"Tablespace",
        What::GrantByOther => b"GrantByOther",
        What::CommentKind => b"CommentKind",
        What::DefaultOnView => b"DefaultOnView",
        What::Columns => b"Columns",
        What::EntryKind(_) => b"EntryKind",
        What::Unbuilt => b"Unbuilt",
    }
}
