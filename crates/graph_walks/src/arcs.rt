//! Arcs, found by the places at which they begin.
ghost use Rattle.std.specs.Prelude.{◌≡◌, ℕ, ◌+◌, ◌^◌, ◌<◌, ◌≤◌, length, IfOk};
ghost use Rattle.std.specs.List.Sorted.{IsPermutation};
ghost use Rattle.graph_walks.specs.Alike.{AreAlike};
ghost use Rattle.graph_walks.specs.Arcs.{arcs_from, AreWithin};
ghost use Rattle.graph_walks.specs.Starts.{IsStart, AreStarts, IsRising};

use std::alloc::{AllocError, Global};
use std::marker::Model;

/// Arcs among places from 0 up to a count, found by where they begin without going through them. A contract sees the count
/// and the list of the arcs in order.
#[derive(Drop)]
pub struct Arcs {
    count: usize,
    arcs: Vec<(usize, usize)>,
    // Where the arcs of each place begin in `arcs`, and at last where they end.
    starts: Vec<usize>,
}

impl Model for Arcs {
    ghost use Rattle.graph_walks.specs.Starts.{Net, AreFound};

    ghost Value = { Net };

    ghost view = { λ a. record { count = a.count; arcs = a.arcs.items } };

    ghost invariant = { λ a. AreFound a.count a.arcs.items a.starts.items };
}

impl Arcs {
    /// These arcs among so many places. They may stand in any order and be repeated. The only error is that memory ran out.
    pub fn of(
        alloc: Global,
        count: usize,
        mut arcs: Vec<(usize, usize)>,
    ) -> Result<Arcs, AllocError>
        requires few { count < 2 ^ 32 }
        requires within { AreWithin count arcs.items }
        ensures count { IfOk result (λ net. net.count ≡ count) }
        ensures arcs { IfOk result (λ net. IsPermutation arcs.items net.arcs) }
        ensures alike { IfOk result (λ net. AreAlike count arcs.items net.arcs) }
    {
        arcs.sort()?;
        let starts = starts_of(alloc, count, &arcs)?;
        Ok(Arcs {
            count,
            arcs,
            starts,
        })
    }

    /// How many places there are.
    pub fn count(&self) -> usize
        ensures count { result ≡ self.now.count }
        ensures few { result < 2 ^ 32 }
        ensures within { AreWithin result self.now.arcs }
        ensures rising { (place : ℕ) → IsRising (arcs_from place self.now.arcs) }
    {
        self.count
    }

    /// All arcs, in order.
    pub fn all(&self) -> &[(usize, usize)]
        ensures value { result.now ≡ self.now.arcs }
        ensures within { AreWithin self.now.count result.now }
    {
        &self.arcs
    }

    /// The arcs that begin at this place, in order.
    pub fn from(&self, place: usize) -> &[(usize, usize)]
        requires { place < self.now.count }
        ensures value { result.now ≡ arcs_from place self.now.arcs }
        ensures within { AreWithin self.now.count result.now }
        ensures rising { IsRising result.now }
    {
        let start = self.starts[place];
        let end = self.starts[place + 1];
        &self.arcs[start..end]
    }
}

// Where the arcs of each place begin, if they are in order, and at last where they end.
fn starts_of(alloc: Global, count: usize, arcs: &[(usize, usize)]) -> Result<Vec<usize>, AllocError>
    requires { count < 2 ^ 32 }
    ensures { IfOk result (λ starts. AreStarts arcs.now (count + 1) starts.items) }
{
    let mut starts = Vec::with_capacity(alloc, count + 1)?;
    for place in 0..count + 1 {
        starts.push(start_of(arcs, place))?;
    }
    Ok(starts)
}

fn start_of(arcs: &[(usize, usize)], place: usize) -> usize
    ensures { IsStart arcs.now place result }
{
    arcs.partition_point(|arc| arc.0 < place)
}
