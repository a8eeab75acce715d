//! Whether names are columns of a table.
ghost use Rattle.std.specs.Prelude.{◌≡◌, ◌==◌, ◌&&◌, ◌∷◌, not, ℕ, List, length, IfOk, OnOk};
ghost use Rattle.std.specs.List.{list_all, list_any};
ghost use Rattle.cat_model.specs.Lexemes.{same_text};
ghost use Rattle.field_values.specs.Labels.{AreLabels};
ghost use Rattle.cat_model.specs.Tables.{column_there, distinct, columns_there};
ghost use Rattle.cat_model.specs.CopiedRows.{all_columns};

use copy_text::Name;
use field_values::TableColumns;
use std::alloc::{AllocError, Global};
use std::collections::HashSet;

/// Whether the names are columns of the table, none twice. The error says that there was no memory.
pub fn columns_there(
    alloc: Global,
    columns: &TableColumns,
    names: &[Name],
) -> Result<bool, AllocError>
    ensures { IfOk result (λ there. there ≡ columns_there columns.now names.now) }
{
    let distinct = are_distinct(alloc, names)?;
    Ok(all_there(columns, names) && distinct)
}

/// Whether the names are all of the table's columns, each once; no names stand for all in order. The error says that
/// there was no memory.
pub fn all_columns(
    alloc: Global,
    columns: &TableColumns,
    names: &[Name],
) -> Result<bool, AllocError>
    ensures { IfOk result (λ all. all ≡ all_columns columns.now names.now) }
{
    if names.is_empty() {
        return Ok(true);
    }
    let there = columns_there(alloc, columns, names)?;
    Ok(are_whole(there, columns, names))
}

fn are_whole(there: bool, columns: &TableColumns, names: &[Name]) -> bool
    ensures { result ≡ (there && length columns.now == length names.now) }
{
    there && columns.as_slice().len() == names.len()
}

fn all_there(columns: &TableColumns, names: &[Name]) -> bool
    ensures { result ≡ list_all (column_there columns.now) names.now }
{
    names.iter().all(|name| is_there(columns, name))
}

fn is_there(columns: &TableColumns, name: &Name) -> bool
    ensures { result ≡ column_there columns.now name.now }
{
    columns.place(name.as_bytes()).is_some()
}

/// Whether no two of the names are equal. The error says that there was no memory.
pub fn are_distinct(alloc: Global, names: &[Name]) -> Result<bool, AllocError>
    ensures { IfOk result (λ apart. apart ≡ distinct names.now) }
{
    let mut later = HashSet::new(alloc);
    let mut i = names.len();
    while i > 0 {
        let at = i - 1;
        let new = add_name(&mut later, names[at].as_bytes())?;
        if new {
            i = at;
        } else {
            return Ok(false);
        }
    }
    Ok(true)
}

// Adds a name to those that stand behind it; the answer is whether it is none of them.
fn add_name<'a>(later: &mut HashSet<&'a [u8]>, name: &'a [u8]) -> Result<bool, AllocError>
    ensures new { IfOk result (λ new. (names : List (List ℕ)) → AreLabels names later.old → new ≡ not (list_any (same_text name.now) names)) }
    ensures added { OnOk result ((names : List (List ℕ)) → AreLabels names later.old → AreLabels (name.now ∷ names) later.new) }
{
    Ok(later.insert(name)?)
}
