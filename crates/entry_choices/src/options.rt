//! What a restore takes.
use cat_model::{Items, Sections};
use copy_text::Text;

/// Which entries of an archive a restore takes, and what it makes of them. Names are exact: no sign stands for others.
/// <https://www.postgresql.org/docs/16/app-pgrestore.html>
#[derive(Drop)]
pub struct Options {
    /// Neither rows nor the values of sequences.
    pub schema_only: bool,
    /// These alone.
    pub data_only: bool,
    /// The schemas that are taken; none stands for all.
    pub schemas: Items<Text>,
    /// The schemas that are not.
    pub not_schemas: Items<Text>,
    /// The tables, views and sequences that are taken, and nothing else then; none stands for all entries.
    pub tables: Items<Text>,
    /// Owners are set.
    pub owners: bool,
    /// Grants are taken.
    pub grants: bool,
    /// Comments are taken.
    pub comments: bool,
    /// The sections that are taken.
    pub sections: Sections,
}
