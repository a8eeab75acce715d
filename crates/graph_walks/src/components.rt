//! Which places need each other.
//!
//! A path of groups is followed along the arcs, where the places of a group lead to each other. An arc that leads back to
//! the path joins all groups from there on; a group from which no arc is left is a whole component.
ghost use Rattle.std.specs.Prelude.{◌≡◌, ℕ, ◌+◌, ◌-◌, ◌<◌, ◌≤◌, ◌&&◌, ◌++◌, true, false, nat_eq, List, length, All, IfOk, OnOk, slice_index, slice_get, map, option_map, drop};
ghost use Rattle.std.specs.Option.{IsSomeAnd};
ghost use Rattle.graph_walks.specs.Arcs.{needs, arcs_from, is_in};
ghost use Rattle.graph_walks.specs.Reaching.{reaches, on_cycle};
ghost use Rattle.graph_walks.specs.Starts.{Net};
ghost use Rattle.graph_walks.specs.Searching.{IsSearch, IsLooking, standing, none_seen, status_of, shut, is_new, last_todo, work, AreClosed};

use crate::arcs::Arcs;
use std::alloc::{AllocError, Global};

// How far the search has come with a place.
#[derive(Clone, Copy)]
enum Status {
    New,
    // On the path, at this place of it.
    Open(usize),
    Closed,
}

#[derive(Drop)]
struct Search {
    statuses: Vec<Status>,
    // The mark of each closed place.
    marks: Vec<usize>,
    // How many marks were given.
    found: usize,
    path: Vec<usize>,
    // Places that are still to be looked at, those of the last group behind the others.
    pending: Vec<usize>,
    // Where each group begins in `path` and in `pending`.
    groups: Vec<(usize, usize)>,
}

/// A mark for each place, so that two places have the same exactly where each reaches the other. No place has a higher mark
/// than those that need it. The only error is that memory ran out.
pub fn mark_components(alloc: Global, arcs: &Arcs) -> Result<Vec<usize>, AllocError>
    ensures count { IfOk result (λ marks. length marks.items ≡ arcs.now.count) }
    ensures alike { IfOk result (λ marks. (a b : ℕ) → a < arcs.now.count → b < arcs.now.count → nat_eq (slice_index marks.items a) (slice_index marks.items b) ≡ (reaches arcs.now.arcs a b && reaches arcs.now.arcs b a)) }
    ensures mates { IfOk result (λ marks. (a b : ℕ) → needs arcs.now.arcs a b ≡ true → nat_eq (slice_index marks.items a) (slice_index marks.items b) ≡ on_cycle arcs.now.arcs (a, b)) }
    ensures falling { IfOk result (λ marks. (a b : ℕ) → needs arcs.now.arcs a b ≡ true → slice_index marks.items b ≤ slice_index marks.items a) }
{
    let mut search = Search::new(alloc, arcs.count())?;
    for place in 0..arcs.count() {
        search.begin(arcs, place)?;
    }
    Ok(search.into_marks())
}

impl Search {
    fn new(alloc: Global, count: usize) -> Result<Search, AllocError>
        ensures stands { IfOk result (λ search. (net : Net) → net.count ≡ count → IsSearch net none_seen (standing search)) }
        ensures empty { IfOk result (λ search. length search.groups.items ≡ 0) }
    {
        Ok(Search {
            statuses: vec![in alloc; Status::New; count]?,
            marks: vec![in alloc; 0; count]?,
            found: 0,
            path: Vec::new(alloc),
            pending: Vec::new(alloc),
            groups: Vec::new(alloc),
        })
    }

    fn into_marks(self) -> Vec<usize>
        ensures { result.items ≡ self.marks.items }
    {
        self.marks
    }

    // Closes a place and all that it leads to.
    fn begin(&mut self, arcs: &Arcs, place: usize) -> Result<(), AllocError>
        requires within { place < arcs.now.count }
        requires stands { IsSearch arcs.now none_seen (standing self.old) }
        requires empty { length self.old.groups.items ≡ 0 }
        ensures stands { OnOk result (IsSearch arcs.now none_seen (standing self.new)) }
        ensures empty { OnOk result (length self.new.groups.items ≡ 0) }
        ensures closed { OnOk result (shut self.new.statuses.items place ≡ true) }
        ensures kept { OnOk result ((x : ℕ) → shut self.old.statuses.items x ≡ true → shut self.new.statuses.items x ≡ true) }
    {
        if let Status::New = self.statuses[place] {
            self.open(arcs, place)?;
            self.finish(arcs)?;
        }
        Ok(())
    }

    // Where the last group begins in the path, and where in what is to be looked at.
    fn last_group(&self) -> Option<(usize, usize)>
        ensures { result ≡ slice_get self.now.groups.items (length self.now.groups.items - 1) }
    {
        self.groups.last().copied()
    }

    // Goes on until the path is empty.
    fn finish(&mut self, arcs: &Arcs) -> Result<(), AllocError>
        requires { IsSearch arcs.now none_seen (standing self.old) }
        ensures stands { OnOk result (IsSearch arcs.now none_seen (standing self.new)) }
        ensures empty { OnOk result (length self.new.groups.items ≡ 0) }
        ensures come { OnOk result ((x : ℕ) → is_new (status_of self.old.statuses.items x) ≡ false → is_new (status_of self.new.statuses.items x) ≡ false) }
        ensures kept { OnOk result ((x : ℕ) → shut self.old.statuses.items x ≡ true → shut self.new.statuses.items x ≡ true) }
    {
        while let Some(group) = self.last_group() {
            if self.pending.len() > group.1 {
                self.follow(arcs)?;
            } else {
                self.close();
            }
        }
        Ok(())
    }

    // Looks at the last place that is still to be looked at.
    fn follow(&mut self, arcs: &Arcs) -> Result<(), AllocError>
        requires stands { IsSearch arcs.now none_seen (standing self.old) }
        requires todo { IsSomeAnd (last_todo self.old.groups.items) (λ todo. todo < length self.old.pending.items) }
        ensures stands { OnOk result (IsSearch arcs.now none_seen (standing self.new)) }
        ensures less { OnOk result (work arcs.now (standing self.new) < work arcs.now (standing self.old)) }
        ensures come { OnOk result ((x : ℕ) → is_new (status_of self.old.statuses.items x) ≡ false → is_new (status_of self.new.statuses.items x) ≡ false) }
        ensures kept { OnOk result ((x : ℕ) → shut self.old.statuses.items x ≡ true → shut self.new.statuses.items x ≡ true) }
    {
        let Some(place) = self.pending.pop() else {
            return Ok(());
        };
        match self.statuses[place] {
            Status::New => self.open(arcs, place)?,
            Status::Open(at) => self.join(at),
            Status::Closed => {}
        }
        Ok(())
    }

    // Puts a new place at the end of the path, in a group of its own.
    fn open(&mut self, arcs: &Arcs, place: usize) -> Result<(), AllocError>
        requires within { place < arcs.now.count }
        requires new { status_of self.old.statuses.items place ≡ Status.New }
        requires looking { IsLooking arcs.now place (standing self.old) }
        ensures stands { OnOk result (IsSearch arcs.now none_seen (standing self.new)) }
        ensures less { OnOk result (work arcs.now (standing self.new) < work arcs.now (standing self.old)) }
        ensures come { OnOk result (is_new (status_of self.new.statuses.items place) ≡ false) }
        ensures kept { OnOk result ((x : ℕ) → is_new (status_of self.old.statuses.items x) ≡ false → status_of self.new.statuses.items x ≡ status_of self.old.statuses.items x) }
    {
        self.groups.push((self.path.len(), self.pending.len()))?;
        self.statuses[place] = Status::Open(self.path.len());
        self.path.push(place)?;
        push_ends(&mut self.pending, arcs.from(place))
    }

    // Joins the last groups into one, back to the one that holds this place of the path.
    fn join(&mut self, at: usize)
        requires { at < length self.old.path.items }
        ensures stands { (net : Net) → IsLooking net (slice_index self.old.path.items at) (standing self.old) → IsSearch net none_seen (standing self.new) }
        ensures fewer { length self.new.groups.items ≤ length self.old.groups.items }
        ensures same { self.new ≡ record self.old { groups = self.new.groups } }
    {
        while let Some(group) = self.last_group() {
            if group.0 <= at {
                break;
            }
            let _ = self.groups.pop();
        }
    }

    // Closes the last group, which is a component.
    fn close(&mut self)
        requires done { IsSomeAnd (last_todo self.old.groups.items) (λ todo. length self.old.pending.items ≤ todo) }
        requires stands { (net : Net) × IsSearch net none_seen (standing self.old) }
        ensures stands { (net : Net) → IsSearch net none_seen (standing self.old) → IsSearch net none_seen (standing self.new) }
        ensures less { (net : Net) → IsSearch net none_seen (standing self.old) → work net (standing self.new) < work net (standing self.old) }
        ensures come { (x : ℕ) → is_new (status_of self.old.statuses.items x) ≡ false → is_new (status_of self.new.statuses.items x) ≡ false }
        ensures kept { (x : ℕ) → shut self.old.statuses.items x ≡ true → shut self.new.statuses.items x ≡ true }
    {
        let Some(group) = self.groups.pop() else {
            return;
        };
        let (_, places) = self.path.split_at(group.0);
        close_places(places, self.found, &mut self.statuses, &mut self.marks);
        self.path.truncate(group.0);
        self.found += 1;
    }
}

fn push_ends(pending: &mut Vec<usize>, arcs: &[(usize, usize)]) -> Result<(), AllocError>
    ensures { OnOk result (pending.new.items ≡ pending.old.items ++ map (λ arc. arc.1) arcs.now) }
{
    for arc in arcs {
        pending.push(arc.1)?;
    }
    Ok(())
}

fn close_places(places: &[usize], mark: usize, statuses: &mut [Status], marks: &mut [usize])
    requires within { All (λ place. place < length statuses.old) places.now }
    requires marks { length marks.old ≡ length statuses.old }
    requires come { All (λ place. is_new (status_of statuses.old place) ≡ false) places.now }
    ensures { AreClosed places.now mark statuses.old statuses.new marks.old marks.new }
{
    for place in places {
        statuses[*place] = Status::Closed;
        marks[*place] = mark;
    }
}
