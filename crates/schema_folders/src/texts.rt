//! Files that must be there.
ghost use Rattle.std.specs.Prelude.{◌≡◌, ℕ, ◌≤◌, ◌++◌, Some, IfSome, IfOk, string_bytes};
ghost use Rattle.dump_ports.specs.Tree.{Tree};
ghost use Rattle.tool_words.specs.Answers.{Gives, CountsRead, IsMissing};
ghost use Rattle.schema_folders.specs.Texts.{file_of, path};

use copy_text::Text;
use dump_ports::{Files, WholeFault, read_whole};
use std::alloc::{AllocError, Global};
use tool_words::{Limit, Outcome};

/// The text of a file that must be there and have at most `limit` bytes.
#[tactic(auto, unfolding(crate::specs::Texts::file_of))]
pub fn read_file<F: Files>(
    alloc: Global,
    files: &mut F,
    name: &Text,
    what: Limit,
    limit: u64,
) -> Result<Vec<u8>, Outcome>
    ensures due { (tree : Tree) → F.tree files.old ≡ Some tree → Gives (λ text. text.items) result (file_of what limit name.now tree) }
    ensures kept { F.tree files.new ≡ F.tree files.old }
    ensures read_count { CountsRead result (F.read_faults files.old) (F.read_faults files.new) }
    ensures write_count { F.write_faults files.new ≡ F.write_faults files.old }
{
    match read_whole(alloc, files, name.as_str(), limit) {
        Ok(Some(text)) => Ok(text),
        Ok(None) => Err(missing(name)),
        Err(WholeFault::TooLarge(n)) => Err(Outcome::TooLarge(what, n)),
        Err(WholeFault::Failed) => Err(Outcome::ReadFault),
        Err(WholeFault::Memory) => Err(Outcome::Memory),
    }
}

/// That a file is absent, or that memory ran out.
pub fn missing(name: &Text) -> Outcome
    ensures { IsMissing name.now result }
{
    match name.clone() {
        Ok(name) => Outcome::Missing(name),
        Err(_) => Outcome::Memory,
    }
}

/// The path of a file in a folder.
pub fn path(alloc: Global, folder: &Text, name: &str) -> Result<Text, AllocError>
    ensures { IfOk result (λ text. text ≡ path folder.now name.now) }
{
    let mut text = String::from_str(alloc, folder.as_str())?;
    text.push_str("/")?;
    text.push_str(name)?;
    Ok(text_of(text))
}

/// The text of a string.
fn text_of(string: String) -> Text
    ensures { result ≡ string_bytes string }
{
    match Text::new(string.into_bytes()) {
        Some(text) => text,
        None => unreachable!(),
    }
}
