//! The rows of a text.
ghost use Rattle.std.specs.Prelude.{◌≡◌, ◌++◌, List, IfOk, OnOk};
ghost use Rattle.std.specs.List.{filter_map};
ghost use Rattle.std.specs.Option.{option_to_list};
ghost use Rattle.std.specs.Result.{result_ok};
ghost use Rattle.data_rows.specs.Rows.{read_lines};

use crate::lines::{read_line, split_line};
use copy_text::{CopyFault, Row};
use std::alloc::{AllocError, Global};

fn push_row(rows: &mut Vec<Row>, read: Result<Row, CopyFault>) -> Result<(), AllocError>
    ensures { OnOk result (rows.new.items ≡ rows.old.items ++ option_to_list (result_ok read)) }
{
    if let Ok(row) = read {
        rows.push(row)?;
    }
    Ok(())
}

/// The rows of a text in COPY text format: of each line that reads as one. They end at the line `\.` or at the text's
/// end. The error is that memory ran out. See <https://www.postgresql.org/docs/16/sql-copy.html>.
pub fn read_rows(alloc: Global, text: &[u8]) -> Result<Vec<Row>, AllocError>
    ensures { IfOk result (λ rows. rows.items ≡ filter_map result_ok (read_lines text.now)) }
{
    let mut rows = Vec::new(alloc);
    let mut rest = text;
    while let Some((line, behind)) = split_line(rest) {
        push_row(&mut rows, read_line(alloc, line)?)?;
        rest = behind;
    }
    Ok(rows)
}
