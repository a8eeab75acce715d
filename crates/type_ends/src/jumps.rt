//! The chains of all domains at once, by the places of their types.
ghost use Rattle.std.specs.Prelude.{◌≡◌, ◌&&◌, IfOk};
ghost use Rattle.cat_book.specs.Chains.{is_domain_letter};
ghost use Rattle.type_ends.specs.Jumps.{jump_from, behind, doubled, LeadFar};
ghost use Rattle.type_ends.specs.Steps.{base_among, step_of, steps_among};

use cat_names::OidIndex;
use cat_rows::TypeRow;
use std::alloc::{AllocError, Global};

/// Where some steps along a chain lead from a place.
#[derive(Clone, Copy)]
pub(crate) struct Jump {
    /// The place that is reached. A chain that has ended stays at its last.
    pub(crate) place: usize,
    /// Whether a domain that was passed takes no null.
    pub(crate) not_null: bool,
}

/// Whether a type is a domain.
pub(crate) fn is_domain(row: &TypeRow) -> bool
    ensures { result ≡ is_domain_letter row.now.typtype }
{
    row.typtype.byte() == b'd'
}

// The place of the type that a domain is over; `None` where it is over none of these types, and of other types.
fn base_among(oids: &OidIndex, row: &TypeRow) -> Option<usize>
    ensures { result ≡ base_among oids.now row.now }
{
    if is_domain(row) && row.typbasetype != 0 {
        oids.find(row.typbasetype)
    } else {
        None
    }
}

// The step of the type at a place: to its base, or nowhere.
#[tactic(auto, unfolding(crate::specs::Steps::step_of))]
fn step(oids: &OidIndex, place: usize, row: &TypeRow) -> Jump
    ensures { result ≡ step_of oids.now place row.now }
{
    Jump {
        place: base_among(oids, row).unwrap_or(place),
        not_null: is_domain(row) && row.typnotnull,
    }
}

/// The single steps of all types.
pub(crate) fn steps(
    alloc: Global,
    oids: &OidIndex,
    rows: &[TypeRow],
) -> Result<Vec<Jump>, AllocError>
    ensures { IfOk result (λ steps. steps.items ≡ steps_among oids.now rows.now) }
{
    let mut steps = Vec::new(alloc);
    for (place, row) in rows.iter().enumerate() {
        let step = step(oids, place, row);
        steps.push(step)?;
    }
    Ok(steps)
}

/// The jump from a place. From a place that isn't there it goes nowhere.
pub(crate) fn jump_from(jumps: &[Jump], place: usize) -> Jump
    ensures { result ≡ jump_from jumps.now place }
{
    match jumps.get(place) {
        Some(jump) => *jump,
        None => Jump {
            place,
            not_null: false,
        },
    }
}

// One jump and then the one behind it.
fn behind(jumps: &[Jump], first: Jump) -> Jump
    ensures { result ≡ behind first (jump_from jumps.now first.place) }
{
    let next = jump_from(jumps, first.place);
    Jump {
        place: next.place,
        not_null: next.not_null || first.not_null,
    }
}

// Twice as many steps at once.
fn doubled(alloc: Global, jumps: &[Jump]) -> Result<Vec<Jump>, AllocError>
    ensures { IfOk result (λ more. more.items ≡ doubled jumps.now) }
{
    jumps
        .iter()
        .map(|first| behind(jumps, *first))
        .collect(alloc)
}

/// Jumps along the chains of which these are the single steps. They are doubled until they are of as many steps as there
/// are types, so that each chain has ended that ends at all.
pub(crate) fn far_jumps(alloc: Global, steps: Vec<Jump>) -> Result<Vec<Jump>, AllocError>
    ensures { IfOk result (λ jumps. LeadFar steps.items jumps.items) }
{
    let mut jumps = steps;
    let mut count = 1;
    while count < jumps.len() {
        jumps = doubled(alloc, &jumps)?;
        count *= 2;
    }
    Ok(jumps)
}
