//! What is left to read of the words.
ghost use Rattle.std.specs.Prelude.{◌≤◌, length};

use crate::options::Tool;
use copy_text::Text;

/// The letters of a word that are left, and the words behind it.
#[derive(Clone, Copy)]
pub(crate) struct Reader<'a> {
    pub(crate) tool: Tool,
    /// All words, the tool's own too.
    pub(crate) words: &'a [Text],
    /// The number of the next word.
    pub(crate) at: usize,
    /// The number of the word before, which has the letters.
    pub(crate) word: usize,
    pub(crate) letters: &'a str,
    /// `--` has come. Then there are no letters.
    pub(crate) ended: bool,
    ghost within: { at ≤ length words.now },
}
