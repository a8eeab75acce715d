//! Entries as a restore sees them.
use crate::kind::Kind;
use crate::step::Step;
use cat_model::Items;

/// An entry of an archive, as a restore sees it. <https://www.postgresql.org/docs/16/app-pgrestore.html>
#[derive(Drop)]
pub struct Entry {
    /// The number by which other entries name it.
    pub id: u32,
    /// Whether its section is post-data.
    pub post_data: bool,
    /// Its kind.
    pub kind: Kind,
    /// The dump ids that it lists as its dependencies.
    pub listed: Items<u32>,
    /// Its statements, in order.
    pub steps: Items<Step>,
}
