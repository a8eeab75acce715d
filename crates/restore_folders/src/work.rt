//! What a restore works on.
use copy_text::Name;
use openings::Opening;
use restore_plan::Entry;
use toc_entry::Entry as Archived;

/// The entries that a restore takes, as the archive has them and as statements, the opening on which they are carried out,
/// and the role that owns what they create.
#[derive(Drop)]
pub struct RestoreWork {
    /// The opening.
    pub opening: Opening,
    /// The role.
    pub boot: Name,
    /// The entries, in the order in which they are restored.
    pub entries: Vec<Archived>,
    /// The same entries as statements.
    pub wanted: Vec<Entry>,
}
