//! What is written of an archive, as pg_restore's words ask for it.
ghost use Rattle.std.specs.Prelude.{◌≡◌, Some};
ghost use Rattle.dump_ports.specs.Tree.{Tree};
ghost use Rattle.tool_words.specs.Answers.{Gives, CountsRead};
ghost use Rattle.restore_outcomes.specs.Texts.{wish_of, path_text, input_text};

use crate::answers::told;
use command_line::RestoreWords;
use copy_text::Text;
use dump_ports::Files;
use restore_texts::{Wish, archive_text, custom_text};
use restore_words::{archive_format, restore_options};
use std::alloc::Global;
use tool_words::Outcome;

/// Whether the list is asked for, or the script.
fn wish_of(words: &RestoreWords) -> Wish
    ensures { result ≡ wish_of words.now }
{
    if words.list { Wish::List } else { Wish::Script }
}

/// What pg_restore writes of the archive at a path without restoring it, as its words ask for it: the list of the entries
/// that it takes, or their script.
///
/// A path with a file `toc.dat` in it is an archive in a folder, any other a custom one, unless the words name a format. The
/// archive is read first, then the list file, and for a script the file of each entry with rows, in the order of the list:
/// the first step that fails gives the answer, `Missing`, `TooLarge`, `BadArchive`, `OutOfProfile` or `BadList`.
/// `ReadFault` comes exactly where a read failed, and `Memory` may come at any time. Nothing is written.
/// <https://www.postgresql.org/docs/16/app-pgrestore.html>
#[tactic(auto, unfolding(crate::specs::Texts::path_text))]
pub fn path_text<F: Files>(
    alloc: Global,
    files: &mut F,
    path: &Text,
    words: &RestoreWords,
) -> Result<Vec<u8>, Outcome>
    ensures due { (tree : Tree) → F.tree files.old ≡ Some tree → Gives (λ text. text.items) result (path_text words.now path.now tree) }
    ensures kept { F.tree files.new ≡ F.tree files.old }
    ensures read_count { CountsRead result (F.read_faults files.old) (F.read_faults files.new) }
    ensures write_count { F.write_faults files.new ≡ F.write_faults files.old }
{
    let options = restore_options(alloc, words)?;
    told(archive_text(
        alloc,
        files,
        path,
        archive_format(words.format),
        words.use_list.as_ref(),
        &options,
        wish_of(words),
    ))
}

/// The same of the custom archive that these bytes are. A list file is read as a file all the same.
#[tactic(auto, unfolding(crate::specs::Texts::input_text))]
pub fn input_text<F: Files>(
    alloc: Global,
    files: &mut F,
    bytes: &[u8],
    words: &RestoreWords,
) -> Result<Vec<u8>, Outcome>
    ensures due { (tree : Tree) → F.tree files.old ≡ Some tree → Gives (λ text. text.items) result (input_text words.now bytes.now tree) }
    ensures kept { F.tree files.new ≡ F.tree files.old }
    ensures read_count { CountsRead result (F.read_faults files.old) (F.read_faults files.new) }
    ensures write_count { F.write_faults files.new ≡ F.write_faults files.old }
{
    let options = restore_options(alloc, words)?;
    told(custom_text(
        alloc,
        files,
        bytes,
        words.use_list.as_ref(),
        &options,
        wish_of(words),
    ))
}
