//! What is wrong with a row.
ghost use Rattle.std.specs.Prelude.{◌≡◌};
ghost use Rattle.rows_fit.specs.Causes.{cause_of};

use cat_model::Cause;
use copy_text::CopyFault;

/// Why a line is no row of a table. Columns and fields count from 1.
#[derive(Clone, Copy, PartialEq, Eq)]
pub(crate) enum RowFault {
    /// The field of this column is no value of its type.
    BadValue(u64),
    /// The field of this column is null where it can't be.
    NullValue(u64),
    /// The line has this number of fields, and the table another number of columns.
    Fields(u64),
    /// The line is no COPY text.
    BadRow(CopyFault),
}

/// The cause for which a statement is refused, where the row with this number has the fault.
pub(crate) fn cause_of(row: u64, fault: RowFault) -> Cause
    ensures { result ≡ cause_of row fault }
{
    match fault {
        RowFault::BadValue(column) => Cause::BadValue { column, row },
        RowFault::NullValue(column) => Cause::NullValue { column, row },
        RowFault::Fields(found) => Cause::Fields { row, found },
        RowFault::BadRow(fault) => Cause::BadRow { row, fault },
    }
}
