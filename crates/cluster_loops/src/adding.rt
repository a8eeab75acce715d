//! Rows one behind the other.
ghost use Rattle.std.specs.Prelude.{◌≡◌, ◌++◌, ◌∷◌, [], OnOk, option_to_list};

use cat_rows::Rows;
use std::alloc::AllocError;

/// Adds a row. The only error is want of memory.
pub fn push<R: Drop>(rows: &mut Rows<R>, row: R) -> Result<(), AllocError>
    ensures { OnOk result (rows.new ≡ rows.old ++ row ∷ []) }
{
    rows.push(row)?;
    Ok(())
}

/// Adds a row, where there is one. The only error is want of memory.
pub fn push_some<R: Drop>(rows: &mut Rows<R>, row: Option<R>) -> Result<(), AllocError>
    ensures { OnOk result (rows.new ≡ rows.old ++ option_to_list row) }
{
    if let Some(row) = row {
        rows.push(row)?;
    }
    Ok(())
}
