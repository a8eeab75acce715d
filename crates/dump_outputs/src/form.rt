//! How a dump is written, and where.
use copy_text::Text;

/// How a dump is written, and where.
#[derive(Drop)]
pub enum DumpForm {
    /// A script.
    Script {
        /// The file of this name, or standard output.
        target: Option<Text>,
        /// Whether it says who owns what.
        owners: bool,
    },
    /// An archive in the custom format.
    Custom {
        /// The file of this name, or standard output.
        target: Option<Text>,
    },
    /// An archive in the directory format.
    Directory {
        /// The folder.
        folder: Text,
    },
}
