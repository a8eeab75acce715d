//! The notes of the entries of a restore.
ghost use Rattle.std.specs.Prelude.{◌≡◌, ◌+◌, ◌<◌, ◌≤◌, ◌++◌, ◌∷◌, [], length, replicate, vec_capacity, IfOk, OnErr, OnOk};
ghost use Rattle.restore_board.specs.Notes.{all_notes, lists_in, noted_at};

use restore_plan::Note;
use std::alloc::{AllocError, Global};
use std::marker::Model;

/// The notes of each entry, in the order of the plan. A contract sees a list for each entry. Room to put them into one list
/// is taken as they come.
#[derive(Drop)]
pub(crate) struct Notes {
    alloc: Global,
    lists: Vec<Vec<Note>>,
    many: usize,
    all: Vec<Note>,
}

impl Model for Notes {
    ghost use Rattle.std.specs.Prelude.{List, vec_capacity};
    ghost use Rattle.restore_plan.specs.declared.status.Note.{Note};
    ghost use Rattle.restore_board.specs.Notes.{lists_in};
    ghost use Rattle.restore_board.specs.Rooms.{HasRoom};

    ghost Value = { List (List Note) };

    ghost view = { λ n. lists_in n.lists.items };

    ghost invariant = { λ n. HasRoom n.lists.items n.many n.all.items (vec_capacity n.all) };
}

// As many empty lists.
fn empties(alloc: Global, many: usize) -> Result<Vec<Vec<Note>>, AllocError>
    ensures { IfOk result (λ lists. lists_in lists.items ≡ replicate many []) }
{
    let mut lists = Vec::new(alloc);
    for _ in 0..many {
        lists.push(Vec::new(alloc))?;
    }
    Ok(lists)
}

// A list of this note alone.
fn alone(alloc: Global, note: Note) -> Result<Vec<Note>, AllocError>
    ensures { IfOk result (λ own. own.items ≡ note ∷ []) }
{
    let mut own = Vec::new(alloc);
    own.push(note)?;
    Ok(own)
}

fn append_to(notes: &mut Vec<Note>, own: &mut Vec<Note>) -> Result<(), AllocError>
    ensures ok { OnOk result (notes.new.items ≡ notes.old.items ++ own.old.items) }
    ensures err { OnErr result (notes.new.items ≡ notes.old.items) }
{
    notes.append(own)?;
    Ok(())
}

// Adds notes to those in this place.
#[tactic(auto, using(crate::proofs::Noting::noted_set, crate::proofs::Noting::same_set))]
fn append_at(
    lists: &mut Vec<Vec<Note>>,
    entry: usize,
    own: &mut Vec<Note>,
) -> Result<(), AllocError>
    requires { entry < length lists.old.items }
    ensures ok { OnOk result (lists_in lists.new.items ≡ noted_at (lists_in lists.old.items) entry own.old.items) }
    ensures err { OnErr result (lists_in lists.new.items ≡ lists_in lists.old.items) }
{
    match lists.get_mut(entry) {
        Some(notes) => append_to(notes, own),
        None => Ok(()),
    }
}

// One more than so many, with room for them in a list.
fn one_more(all: &mut Vec<Note>, many: usize) -> Result<usize, AllocError>
    ensures more { IfOk result (λ n. n ≡ many + 1) }
    ensures room { OnOk result (length all.new.items + (many + 1) ≤ vec_capacity all.new) }
    ensures kept { all.new.items ≡ all.old.items }
    ensures capacity { vec_capacity all.old ≤ vec_capacity all.new }
{
    let more = many.checked_add(1).ok_or(AllocError)?;
    all.reserve(more)?;
    Ok(more)
}

// Puts notes behind others, for which there is room.
fn push_all(all: &mut Vec<Note>, notes: Vec<Note>)
    requires { length all.old.items + length notes.items ≤ vec_capacity all.old }
    ensures items { all.new.items ≡ all.old.items ++ notes.items }
    ensures capacity { vec_capacity all.new ≡ vec_capacity all.old }
{
    let mut left = notes.into_iter();
    'notes: while let Some(note) = left.next() {
        all.push_reserved(note);
    }
}

// All notes in one list, which is empty and has room for them.
fn joined(lists: Vec<Vec<Note>>, mut all: Vec<Note>) -> Vec<Note>
    requires empty { all.items ≡ [] }
    requires fits { length (all_notes (lists_in lists.items)) ≤ vec_capacity all }
    ensures { result.items ≡ all_notes (lists_in lists.items) }
{
    let mut left = lists.into_iter();
    'entries: while let Some(notes) = left.next() {
        push_all(&mut all, notes);
    }
    all
}

impl Notes {
    /// No notes of so many entries. The error is that memory ran out.
    pub(crate) fn new(alloc: Global, many: usize) -> Result<Notes, AllocError>
        ensures { IfOk result (λ notes. notes ≡ replicate many []) }
    {
        let lists = empties(alloc, many)?;
        Ok(Notes {
            alloc,
            lists,
            many: 0,
            all: Vec::new(alloc),
        })
    }

    /// Adds a note to those of an entry. After an error, that memory ran out, they are as before.
    pub(crate) fn push(&mut self, entry: usize, note: Note) -> Result<(), AllocError>
        requires { entry < length self.old }
        ensures ok { OnOk result (self.new ≡ noted_at self.old entry (note ∷ [])) }
        ensures err { OnErr result (self.new ≡ self.old) }
    {
        let mut own = alone(self.alloc, note)?;
        let many = one_more(&mut self.all, self.many)?;
        append_at(&mut self.lists, entry, &mut own)?;
        self.many = many;
        Ok(())
    }

    /// All notes, in the order of the entries. It takes no memory.
    pub(crate) fn into_all(self) -> Vec<Note>
        ensures { result.items ≡ all_notes self }
    {
        joined(self.lists, self.all)
    }
}
