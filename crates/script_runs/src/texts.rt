//! The texts of a folder that stands for what an opening became.
ghost use Rattle.std.specs.Prelude.{◌≡◌, None, Some, IfErr, IfOk, IfSome};
ghost use Rattle.opening_written.specs.Export.{CanBeExported, IsExported};
ghost use Rattle.script_runs.specs.Writing.{current_name, IsUnwritten, NoOidIsLeft, StandFor};

use cat_lookups::Lookups;
use cat_model::What;
use cat_rows::{Catalogue, DatabaseRow};
use column_numbers::Numbers;
use copy_text::Name;
use eng_map::NamedMap;
use opening_ids::{opening_ids, opening_numbers};
use opening_written::laws::{exports_are_read, what_is_read_is_what_was_left};
use saved_folders::{ExportTexts, make_texts};
use std::alloc::{AllocError, Global};
use tool_words::Outcome;
use whole_export::{Exported, export};

// The name of the current database.
fn current_name(databases: &[DatabaseRow]) -> Result<Option<Name>, AllocError>
    ensures { IfOk result (λ name. name ≡ current_name databases.now) }
{
    for database in databases {
        if database.datcurrent {
            return Ok(Some(database.datname.clone()?));
        }
    }
    Ok(None)
}

// The tables and texts of rows of what an opening became, by numbers of its columns; `None` where no oid is left.
fn numbered_export(
    alloc: Global,
    named: &NamedMap,
    current: &Name,
    opening: &Lookups<'_>,
    numbers: &Numbers,
) -> Result<Option<Exported>, AllocError>
    ensures made { IfOk result (λ made. IfSome made (λ out. CanBeExported opening.now named.now → IsExported opening.now named.now current.now out.catalogue out.rows)) }
    ensures left { IfOk result (λ made. made ≡ None → NoOidIsLeft opening.now) }
{
    let mut ids = opening_ids(alloc, opening)?;
    export(alloc, named, &mut ids, numbers, current, opening.tables())
}

// The same, once its columns' numbers are looked up.
fn looked_up_export(
    alloc: Global,
    named: &NamedMap,
    current: &Name,
    opening: &Lookups<'_>,
) -> Result<Option<Exported>, AllocError>
    ensures made { IfOk result (λ made. IfSome made (λ out. CanBeExported opening.now named.now → IsExported opening.now named.now current.now out.catalogue out.rows)) }
    ensures left { IfOk result (λ made. made ≡ None → NoOidIsLeft opening.now) }
{
    let numbers = opening_numbers(alloc, opening.book())?;
    numbered_export(alloc, named, current, opening, &numbers)
}

// The tables and texts of rows of what an opening became; `None` where no oid is left.
fn exported(
    alloc: Global,
    named: &NamedMap,
    current: &Name,
    opening: &Catalogue,
) -> Result<Option<Exported>, AllocError>
    ensures made { IfOk result (λ made. IfSome made (λ out. CanBeExported opening.now named.now → IsExported opening.now named.now current.now out.catalogue out.rows)) }
    ensures left { IfOk result (λ made. made ≡ None → NoOidIsLeft opening.now) }
{
    let opening = Lookups::of(alloc, opening)?;
    looked_up_export(alloc, named, current, &opening)
}

// The texts of these tables.
fn texts_of(
    alloc: Global,
    named: &NamedMap,
    current: &Name,
    opening: &Catalogue,
    export: &Exported,
) -> Result<ExportTexts, Outcome>
    requires current { current_name opening.now.pg_database ≡ Some current.now }
    requires made { CanBeExported opening.now named.now → IsExported opening.now named.now current.now export.now.catalogue export.now.rows }
    ensures stand { IfOk result (λ made. CanBeExported opening.now named.now → StandFor opening.now named.now made) }
    ensures unwritten { IfErr result (λ outcome. CanBeExported opening.now named.now → IsUnwritten opening.now named.now outcome) }
{
    exports_are_read();
    what_is_read_is_what_was_left();
    make_texts(alloc, &export.catalogue, &export.rows)
}

// The same, once the tables are made.
fn current_texts(
    alloc: Global,
    named: &NamedMap,
    current: &Name,
    opening: &Catalogue,
) -> Result<ExportTexts, Outcome>
    requires current { current_name opening.now.pg_database ≡ Some current.now }
    ensures stand { IfOk result (λ made. CanBeExported opening.now named.now → StandFor opening.now named.now made) }
    ensures unwritten { IfErr result (λ outcome. CanBeExported opening.now named.now → IsUnwritten opening.now named.now outcome) }
{
    let made = exported(alloc, named, current, opening)?;
    match &made {
        Some(export) => texts_of(alloc, named, current, opening, export),
        None => Err(Outcome::OutOfProfile(What::Unbuilt)),
    }
}

/// The texts of a folder that is read as an export which stands for a catalogue by names, where this opening became that. What was
/// there keeps its oid.
///
/// # Errors
///
/// `TooLarge` where the folder's files would be over a limit of reading, `OutOfProfile(Unbuilt)` where no oid is left for what is
/// new, or `Memory`.
pub fn named_texts(
    alloc: Global,
    named: &NamedMap,
    opening: &Catalogue,
) -> Result<ExportTexts, Outcome>
    ensures stand { IfOk result (λ made. CanBeExported opening.now named.now → StandFor opening.now named.now made) }
    ensures unwritten { IfErr result (λ outcome. CanBeExported opening.now named.now → IsUnwritten opening.now named.now outcome) }
{
    match current_name(opening.pg_database.as_slice())? {
        Some(current) => current_texts(alloc, named, &current, opening),
        None => Err(Outcome::OutOfProfile(What::Unbuilt)),
    }
}
