//! The checks of domains.
ghost use Rattle.std.specs.Prelude.{◌≡◌, [], ◌∷◌, ◌++◌, option_map, filter_map, IfOk, OnOk};
ghost use Rattle.std.specs.FinMap.{from_entries};
ghost use Rattle.std.specs.List.{cons_option, slice_get};
ghost use Rattle.std.specs.Option.{option_and_then};
ghost use Rattle.constraint_table.specs.Said.{statement_said};
ghost use Rattle.cat_naming.specs.Types.{check_said, check_of, checks_of};

use cat_lookups::Lookups;
use cat_model::{Checks, Stmt};
use cat_rows::ConstraintRow;
use constraint_table::{let_go_statements, only_statement, statement_text, statements_of};
use copy_text::{Name, Text};
use std::alloc::{AllocError, Global};

// The text between the brackets of a check.
fn check_in(stmt: Option<&Stmt>) -> Result<Option<Text>, AllocError>
    ensures { IfOk result (λ said. said ≡ option_and_then check_said (option_map (λ s. s.now) stmt.entry)) }
{
    match stmt {
        Some(Stmt::AddCheck { text, .. }) => {
            let text = text.clone()?;
            Ok(Some(text))
        }
        _ => Ok(None),
    }
}

// What the text of a constraint says between the brackets of its check; `None` where it is no check.
fn check_said(alloc: Global, text: &Text) -> Result<Option<Text>, AllocError>
    ensures { IfOk result (λ said. said ≡ option_and_then check_said (statement_said text.now)) }
{
    let text = statement_text(alloc, text.as_bytes())?;
    let statements = statements_of(alloc, &text)?;
    let said = check_in(only_statement(text.len(), &statements));
    let_go_statements(statements);
    said
}

// The name of a check with the text between its brackets; `None` for other constraints.
fn check_of(alloc: Global, row: &ConstraintRow) -> Result<Option<(Name, Text)>, AllocError>
    ensures { IfOk result (λ check. check ≡ check_of row.now) }
{
    match check_said(alloc, &row.condef)? {
        Some(text) => {
            let name = row.conname.clone()?;
            Ok(Some((name, text)))
        }
        None => Ok(None),
    }
}

// The same of the constraint at a place.
fn check_at(
    alloc: Global,
    rows: &[ConstraintRow],
    place: usize,
) -> Result<Option<(Name, Text)>, AllocError>
    ensures { IfOk result (λ check. check ≡ option_and_then check_of (slice_get rows.now place)) }
{
    match rows.get(place) {
        Some(row) => check_of(alloc, row),
        None => Ok(None),
    }
}

// Adds a check, where there is one.
fn push_check(checks: &mut Vec<(Name, Text)>, check: Option<(Name, Text)>) -> Result<(), AllocError>
    ensures { OnOk result (checks.new.items ≡ checks.old.items ++ cons_option check []) }
{
    if let Some(check) = check {
        checks.push(check)?;
    }
    Ok(())
}

// The checks among the constraints at these places.
fn checks_at(
    alloc: Global,
    rows: &[ConstraintRow],
    places: &[usize],
) -> Result<Vec<(Name, Text)>, AllocError>
    ensures { IfOk result (λ checks. checks.items ≡ filter_map (λ p. option_and_then check_of (slice_get rows.now p)) places.now) }
{
    let mut checks = Vec::new(alloc);
    for place in places {
        let check = check_at(alloc, rows, *place)?;
        push_check(&mut checks, check)?;
    }
    Ok(checks)
}

// The checks of a domain, in the order of their rows.
fn listed_checks(
    alloc: Global,
    lookups: &Lookups<'_>,
    domain: u32,
) -> Result<Vec<(Name, Text)>, AllocError>
    ensures { IfOk result (λ checks. checks.items ≡ checks_of lookups.now domain) }
{
    let rows = lookups.tables().pg_constraint.as_slice();
    checks_at(alloc, rows, lookups.check_places(domain))
}

// These checks by name, of which the first of a name counts: the last is put first.
fn by_name(alloc: Global, mut listed: Vec<(Name, Text)>) -> Result<Checks, AllocError>
    ensures { IfOk result (λ checks. checks ≡ from_entries listed.items) }
{
    let mut checks = Checks::new(alloc);
    'checks: while let Some((name, text)) = listed.pop() {
        checks.put(name, text)?;
    }
    Ok(checks)
}

/// The checks of a domain, by name. Of two of a name the first counts.
pub(crate) fn checks_of(
    alloc: Global,
    lookups: &Lookups<'_>,
    domain: u32,
) -> Result<Checks, AllocError>
    ensures { IfOk result (λ checks. checks ≡ from_entries (checks_of lookups.now domain)) }
{
    by_name(alloc, listed_checks(alloc, lookups, domain)?)
}
