//! Which edges of a dump's graph break.
ghost use Rattle.std.specs.Prelude.{◌≡◌, ◌&&◌, nat_eq, length, All, IfOk, map, slice_index};
ghost use Rattle.graph_parts.specs.Parts.{LeadsAcross};
ghost use Rattle.dep_sort.specs.Cut.{arc_of, is_breakable, breaks};

use graph_parts::{Edge, Graph};
use graph_walks::{Arcs, mark_components};
use std::alloc::{AllocError, Global};

/// Whether each edge breaks: a default or a rule can take it over, `from` doesn't keep it, and it lies on a cycle. The only
/// error is that memory ran out.
pub fn breaking(alloc: Global, graph: &Graph) -> Result<Vec<bool>, AllocError>
    ensures { IfOk result (λ breaking. breaking.items ≡ map (breaks graph.now.edges) graph.now.edges) }
{
    let edges = graph.edges();
    let arcs = arcs_of(alloc, edges)?;
    let net = Arcs::of(alloc, graph.objects().len(), arcs)?;
    let marks = mark_components(alloc, &net)?;
    breakable_mates(alloc, edges, &marks)
}

fn arcs_of(alloc: Global, edges: &[Edge]) -> Result<Vec<(usize, usize)>, AllocError>
    ensures { IfOk result (λ arcs. arcs.items ≡ map arc_of edges.now) }
{
    let mut arcs = Vec::new(alloc);
    for edge in edges {
        arcs.push((edge.from as usize, edge.to as usize))?;
    }
    Ok(arcs)
}

// Which breakable edges have one mark at both ends.
fn breakable_mates(alloc: Global, edges: &[Edge], marks: &[usize]) -> Result<Vec<bool>, AllocError>
    requires { All (LeadsAcross (length marks.now)) edges.now }
    ensures { IfOk result (λ mates. mates.items ≡ map (λ e. is_breakable e && nat_eq (slice_index marks.now e.from) (slice_index marks.now e.to)) edges.now) }
{
    let mut mates = Vec::new(alloc);
    for edge in edges {
        mates.push(is_breakable_mate(edge, marks))?;
    }
    Ok(mates)
}

fn is_breakable_mate(edge: &Edge, marks: &[usize]) -> bool
    requires { LeadsAcross (length marks.now) edge.now }
    ensures { result ≡ (is_breakable edge.now && nat_eq (slice_index marks.now edge.now.from) (slice_index marks.now edge.now.to)) }
{
    edge.moves_to.is_some() && !edge.stays && marks[edge.from as usize] == marks[edge.to as usize]
}
