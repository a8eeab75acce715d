//! Why an archive isn't written as a list or a script, as the program answers it.
ghost use Rattle.std.specs.Prelude.{◌≡◌};
ghost use Rattle.restore_outcomes.specs.Told.{compression, beyond, beyond_head, archive_outcome, text_outcome, limit_of, told};

use cat_model::What;
use restore_texts::{TextFault, TextLimit};
use toc_layout::{ArchiveFault, HeadFault};
use tool_words::{Limit, Outcome};

/// What a code of a compression stands for.
fn compression(code: u8) -> Option<What>
    ensures { result ≡ compression code }
{
    if code == 1 {
        Some(What::Gzip)
    } else if code == 2 {
        Some(What::Lz4)
    } else if code == 3 {
        Some(What::Zstd)
    } else {
        None
    }
}

/// What this program doesn't support, where the head's fault is that.
fn beyond_head(fault: HeadFault) -> Option<What>
    ensures { result ≡ beyond_head fault }
{
    match fault {
        HeadFault::Compressed(code) => compression(code),
        _ => None,
    }
}

/// What this program doesn't support, where the fault is that.
fn beyond(fault: ArchiveFault) -> Option<What>
    ensures { result ≡ beyond fault }
{
    match fault {
        ArchiveFault::Head(fault) => beyond_head(fault),
        ArchiveFault::WrongFormat(code) => { if code == 3 { Some(What::Tar) } else { None } }
        ArchiveFault::LargeObjects(_) => Some(What::LargeObjects),
        _ => None,
    }
}

/// Why an archive has no reading.
fn archive_outcome(fault: ArchiveFault) -> Outcome
    ensures { result ≡ archive_outcome fault }
{
    if let ArchiveFault::TooMany(count) = fault {
        return Outcome::TooLarge(Limit::Entries, count);
    }
    match beyond(fault) {
        Some(what) => Outcome::OutOfProfile(what),
        None => Outcome::BadArchive(fault),
    }
}

/// Which limit is passed.
fn limit_of(limit: TextLimit) -> Limit
    ensures { result ≡ limit_of limit }
{
    match limit {
        TextLimit::Archive => Limit::Archive,
        TextLimit::List => Limit::ListFile,
    }
}

/// What the program answers where the list or the script of an archive isn't written. A compression that is known, a tar
/// archive and large objects are out of the program's profile; more entries than 200,000 are too many; any other fault of
/// the archive is its own.
pub fn text_outcome(fault: TextFault) -> Outcome
    ensures { result ≡ text_outcome fault }
{
    match fault {
        TextFault::Failed => Outcome::ReadFault,
        TextFault::Missing(name) => Outcome::Missing(name),
        TextFault::TooLarge(limit, most) => Outcome::TooLarge(limit_of(limit), most),
        TextFault::Archive(fault) => archive_outcome(fault),
        TextFault::List(fault) => Outcome::BadList(fault),
        TextFault::Memory => Outcome::Memory,
    }
}

/// The same of an answer.
pub(crate) fn told(answer: Result<Vec<u8>, TextFault>) -> Result<Vec<u8>, Outcome>
    ensures { result ≡ told answer }
{
    match answer {
        Ok(text) => Ok(text),
        Err(fault) => Err(text_outcome(fault)),
    }
}
