//! Cases of system tables' texts.
use cat_rows::{Catalogue, ReadTableError, SysTable, read_table, write_table};
use std::alloc::{AllocError, Global};

/// The text of a table: its rows written in their order, or the first fault.
pub(crate) fn rewritten(
    alloc: Global,
    table: SysTable,
    text: &[u8],
    out: &mut Vec<u8>,
) -> Result<(), AllocError> {
    let mut cat = Catalogue::new(alloc);
    match read_table(alloc, &mut cat, table, text) {
        Ok(()) => write_table(alloc, &cat, table, out),
        Err(ReadTableError::Fault(fault)) => {
            out.extend_from_slice(format!(in alloc; "{fault}")?.as_bytes())
        }
        Err(ReadTableError::Memory) => Err(AllocError),
    }
}
