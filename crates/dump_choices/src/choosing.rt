//! The table of contents of a dump of what a selection chooses.
ghost use Rattle.dep_sort.specs.Ordering.{due};
ghost use Rattle.dump_toc.specs.Gives.{GivesToc};
ghost use Rattle.dump_toc.specs.Toc.{counted, ordered_due, toc};

use cat_book::Book;
use dep_sort::{OrderError, Ordered, order};
use dump_rows::DumpRows;
use dump_toc::TocError;
use graph_parts::Graph;
use obj_graph::{ObjectsError, Select};
use obj_links::objects;
use std::alloc::Global;
use toc_entry::Entry;
use well_formed::WellFormed;

// The entries of objects in their order, with the rows of the book's catalogue.
fn of_book<'a>(
    alloc: Global,
    book: &'a Book<'a>,
    select: &Select,
    ordered: &Ordered,
) -> Result<Vec<Entry>, TocError>
    ensures { GivesToc result (counted book.now select.now ordered.now) }
{
    let rows = DumpRows::of(alloc, book)?;
    dump_toc::entries(alloc, &rows, select, ordered)
}

// The same, of a catalogue.
fn of_ordered(
    alloc: Global,
    cat: &WellFormed,
    select: &Select,
    ordered: &Ordered,
) -> Result<Vec<Entry>, TocError>
    ensures { GivesToc result (counted cat.now select.now ordered.now) }
{
    let book = cat.book(alloc)?;
    of_book(alloc, &book, select, ordered)
}

// The same, of a graph's objects, or the loop that keeps them from an order.
fn of_graph(
    alloc: Global,
    cat: &WellFormed,
    select: &Select,
    graph: &Graph,
) -> Result<Vec<Entry>, TocError>
    ensures { GivesToc result (ordered_due cat.now select.now (due graph.now)) }
{
    match order(alloc, graph) {
        Ok(ordered) => of_ordered(alloc, cat, select, &ordered),
        Err(OrderError::Loop(path)) => Err(TocError::Loop(path)),
        Err(OrderError::Memory) => Err(TocError::Memory),
    }
}

/// The table of contents of a dump of what a selection chooses.
///
/// Three entries set up the session and one makes the database; then the objects follow in their order, with numbers from 5
/// on, each with the column that owns it, where it is a sequence, and its comments behind it, and at the end the grants. An
/// entry lists the entries of the objects that its own needs.
///
/// `NoMatch` names the pattern that is refused, `Loop` the objects that need each other, and `TooMany` the number of entries
/// where there would be more than 200,000. `Memory` may be answered for any selection.
/// <https://www.postgresql.org/docs/16/app-pgdump.html>
#[tactic(auto, unfolding(dump_toc::specs::Toc::toc))]
pub fn entries(alloc: Global, cat: &WellFormed, select: &Select) -> Result<Vec<Entry>, TocError>
    ensures { GivesToc result (toc cat.now select.now) }
{
    match objects(alloc, cat, select) {
        Ok(graph) => of_graph(alloc, cat, select, &graph),
        Err(ObjectsError::Fault(fault)) => Err(TocError::NoMatch(fault)),
        Err(ObjectsError::Memory) => Err(TocError::Memory),
    }
}
