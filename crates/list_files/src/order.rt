//! Places in the order of their first mention.
ghost use Rattle.std.specs.Prelude.{◌≡◌, IfOk, OnOk};
ghost use Rattle.std.specs.List.{fold};
ghost use Rattle.list_files.specs.Books.{AreMet};
ghost use Rattle.list_files.specs.Edits.{put};

use std::alloc::{AllocError, Global};
use std::collections::HashSet;

fn met_places(alloc: Global, places: &[usize]) -> Result<HashSet<usize>, AllocError>
    ensures { IfOk result (λ met. AreMet places.now met) }
{
    let mut met = HashSet::new(alloc);
    for place in places {
        met.insert(*place)?;
    }
    Ok(met)
}

// Puts a place behind the others, where it isn't among them.
fn put(places: &mut Vec<usize>, met: &mut HashSet<usize>, place: usize) -> Result<(), AllocError>
    ensures places { OnOk result (AreMet places.old.items met.old → places.new.items ≡ put places.old.items place) }
    ensures met { OnOk result (AreMet places.old.items met.old → AreMet places.new.items met.new) }
{
    if met.contains(&place) {
        return Ok(());
    }
    met.insert(place)?;
    places.push(place)?;
    Ok(())
}

/// The first places, and behind them those that are mentioned, each once.
pub fn in_order(
    alloc: Global,
    first: Vec<usize>,
    mentions: &[usize],
) -> Result<Vec<usize>, AllocError>
    ensures { IfOk result (λ places. places.items ≡ fold put first.items mentions.now) }
{
    let mut met = met_places(alloc, &first)?;
    let mut places = first;
    for place in mentions {
        put(&mut places, &mut met, *place)?;
    }
    Ok(places)
}
