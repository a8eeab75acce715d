//! Why a row isn't taken.

/// Why a row isn't taken.
#[derive(Debug, Drop, thiserror::Error)]
pub enum InsertFault {
    /// A row has the oid or the key already.
    #[error("repeated")]
    Repeated,
    /// Memory ran out.
    #[error("out of memory")]
    Memory,
}
