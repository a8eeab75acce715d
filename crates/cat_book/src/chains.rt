//! The chains of domains' bases, all at once.
ghost use Rattle.std.specs.Prelude.{◌≡◌, map, IfOk, is_none, option_and_then, unwrap_or, true, List};
ghost use Rattle.std.specs.List.{slice_get};
ghost use Rattle.cat_rows.specs.declared.types.TypeRow.{TypeRow as TypeLine};
ghost use Rattle.cat_book.specs.Chains.{has_base, base_place, step, doubled, chain_ends, AreEnds};
ghost use Rattle.cat_book.specs.Leads.{type_oids};

use cat_names::OidIndex;
use cat_rows::TypeRow;
use std::alloc::{AllocError, Global};

// Whether a type is a domain over a type that should be in the table.
fn has_base(row: &TypeRow) -> bool
    ensures { result ≡ has_base row.now }
{
    row.typtype.byte() == b'd' && row.typbasetype != 0
}

/// The place of the type that a domain is over, counted from 0; `None` where it is over none of these types, and of other
/// types.
pub(crate) fn base_place(types: &OidIndex, row: &TypeRow) -> Option<usize>
    ensures { result ≡ base_place types.now row.now }
{
    if has_base(row) {
        types.find(row.typbasetype)
    } else {
        None
    }
}

// Where each domain's chain goes on.
fn bases(
    alloc: Global,
    types: &OidIndex,
    rows: &[TypeRow],
) -> Result<Vec<Option<usize>>, AllocError>
    ensures { IfOk result (λ steps. steps.items ≡ map (base_place types.now) rows.now) }
{
    rows.iter().map(|row| base_place(types, row)).collect(alloc)
}

// Where the steps lead from a place.
fn step(steps: &[Option<usize>], place: usize) -> Option<usize>
    ensures { result ≡ step steps.now place }
{
    match steps.get(place) {
        Some(next) => *next,
        None => None,
    }
}

fn step_on(steps: &[Option<usize>], place: Option<usize>) -> Option<usize>
    ensures { result ≡ option_and_then (step steps.now) place }
{
    match place {
        Some(place) => step(steps, place),
        None => None,
    }
}

// Twice as many steps at once.
fn doubled(alloc: Global, steps: &[Option<usize>]) -> Result<Vec<Option<usize>>, AllocError>
    ensures { IfOk result (λ more. more.items ≡ doubled steps.now) }
{
    steps
        .iter()
        .map(|place| step_on(steps, *place))
        .collect(alloc)
}

// The places without a step.
fn ended(alloc: Global, steps: &[Option<usize>]) -> Result<Vec<bool>, AllocError>
    ensures { IfOk result (λ ends. ends.items ≡ map is_none steps.now) }
{
    steps.iter().map(|place| place.is_none()).collect(alloc)
}

/// Whether the chain of each type ends. The steps along all chains are doubled until they are more than the types, when
/// only the chains that go round have a step left.
pub(crate) fn chain_ends(
    alloc: Global,
    types: &OidIndex,
    rows: &[TypeRow],
) -> Result<Vec<bool>, AllocError>
    requires { types.now ≡ type_oids rows.now }
    ensures { IfOk result (λ ends. AreEnds rows.now ends.items) }
{
    let mut steps = bases(alloc, types, rows)?;
    let mut count = 1;
    while count <= rows.len() {
        steps = doubled(alloc, &steps)?;
        count *= 2;
    }
    let ends = ended(alloc, &steps)?;
    Ok(ends)
}

/// Whether the chain ends at a place; where there is none it has ended.
pub(crate) fn ends_at(ends: &[bool], place: Option<usize>) -> bool
    ensures { result ≡ unwrap_or (option_and_then (slice_get ends.now) place) true }
{
    match place {
        Some(place) => ends.get(place).copied().unwrap_or(true),
        None => true,
    }
}
