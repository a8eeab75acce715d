//! Values of options.
ghost use Rattle.std.specs.Prelude.{◌≡◌, ◌≤◌, IfSome};
ghost use Rattle.command_line.specs.Values.{format_of, archive_format_of, section_of, number_from, at_most, number_up_to, bad_unless, value_fault, is_tar, is_plain_text};

use crate::options::ValueKind;
use crate::usage::UsageKind;
use patterns::pattern_fault;

/// The format of a dump.
#[derive(Clone, Copy)]
pub enum Format {
    /// A script of SQL.
    Plain,
    /// An archive in one file.
    Custom,
    /// An archive in a directory.
    Directory,
}

/// A section of an archive.
#[derive(Clone, Copy)]
pub enum Section {
    /// What comes before the data.
    PreData,
    /// The data.
    Data,
    /// What comes after the data.
    PostData,
}

/// The greatest number of workers.
pub const MOST_JOBS: u16 = 64;

/// The greatest number of tables that pg_gen makes.
pub const MOST_TABLES: u16 = 20_000;

/// The format that a value of `-F` names, but for the archives of pg_restore.
pub(crate) fn format_of(value: &str) -> Option<Format>
    ensures { result ≡ format_of value.now }
{
    match value {
        "p" | "plain" => Some(Format::Plain),
        "c" | "custom" => Some(Format::Custom),
        "d" | "directory" => Some(Format::Directory),
        _ => None,
    }
}

/// The format of an archive that a value of pg_restore's `-F` names.
pub(crate) fn archive_format_of(value: &str) -> Option<Format>
    ensures { result ≡ archive_format_of value.now }
{
    match value {
        "c" => Some(Format::Custom),
        "d" => Some(Format::Directory),
        _ => None,
    }
}

/// The section that a value of `--section` names.
pub(crate) fn section_of(value: &str) -> Option<Section>
    ensures { result ≡ section_of value.now }
{
    match value {
        "pre-data" => Some(Section::PreData),
        "data" => Some(Section::Data),
        "post-data" => Some(Section::PostData),
        _ => None,
    }
}

/// The number that decimal digits without a leading zero stand for, where it is at most `most`.
#[tactic(auto, unfolding(crate::specs::Values::number_up_to))]
pub(crate) fn number(value: &str, most: u16) -> Option<u16>
    ensures { result ≡ number_up_to most value.now }
{
    let digits = value.as_bytes();
    match digits {
        [] | [b'0', ..] => None,
        _ => digits_up_to(digits, most),
    }
}

/// The number that decimal digits stand for, where it is at most `most`.
#[tactic(auto, using(crate::proofs::Numbers::digit_more, crate::proofs::Numbers::digits_none, crate::proofs::Numbers::too_large, crate::proofs::Numbers::small_enough))]
fn digits_up_to(digits: &[u8], most: u16) -> Option<u16>
    ensures { result ≡ at_most most (number_from 0 digits.now) }
{
    let mut number: u32 = 0;
    for digit in digits {
        if !digit.is_ascii_digit() {
            return None;
        }
        number = number * 10 + u32::from(*digit - b'0');
        if number > u32::from(most) {
            return None;
        }
    }
    Some(number as u16)
}

/// Why an option doesn't take a value.
#[tactic(auto, unfolding(crate::specs::Values::value_fault))]
pub(crate) fn value_fault(kind: ValueKind, value: &str) -> Option<UsageKind>
    ensures { result ≡ value_fault kind value.now }
{
    match kind {
        ValueKind::Any => None,
        ValueKind::DumpFormat if is_tar(value) => Some(UsageKind::OutOfProfile),
        ValueKind::DumpFormat => bad_unless(format_of(value).is_some()),
        ValueKind::ArchiveFormat => bad_unless(archive_format_of(value).is_some()),
        ValueKind::Pattern => bad_unless(pattern_fault(value.as_bytes()).is_none()),
        ValueKind::Section => bad_unless(section_of(value).is_some()),
        ValueKind::Compression if is_plain_text(value) => None,
        ValueKind::Compression => Some(UsageKind::OutOfProfile),
        ValueKind::Jobs => bad_unless(number(value, MOST_JOBS).is_some()),
        ValueKind::Tables => bad_unless(number(value, MOST_TABLES).is_some()),
        ValueKind::Variable => bad_unless(value == "ON_ERROR_STOP=1"),
    }
}

/// `BadValue` where the value isn't taken.
fn bad_unless(taken: bool) -> Option<UsageKind>
    ensures { result ≡ bad_unless taken }
{
    if taken {
        None
    } else {
        Some(UsageKind::BadValue)
    }
}

/// Whether a value of `-F` names the tar format.
fn is_tar(value: &str) -> bool
    ensures { result ≡ is_tar value.now }
{
    value == "t" || value == "tar"
}

/// Whether a value of `-Z` names no compression.
fn is_plain_text(value: &str) -> bool
    ensures { result ≡ is_plain_text value.now }
{
    value == "0" || value == "none"
}
