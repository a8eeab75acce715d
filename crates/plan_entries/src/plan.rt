//! Plans.
ghost use Rattle.std.specs.Prelude.{◌≡◌, ◌<◌, ◌≤◌, Some, None, length, option_map, unwrap_or, IfOk, OnOk};
ghost use Rattle.std.specs.List.{slice_get};
ghost use Rattle.restore_plan.specs.Order.{before_at, clash_at};
ghost use Rattle.restore_steps.specs.Faults.{Gives};
ghost use Rattle.plan_entries.specs.Plans.{plan_due};
ghost use Rattle.plan_entries.specs.Texts.{text_at};

use crate::places::placed_entries;
use crate::texts::rows_behind;
use cat_model::FkSet;
use restore_plan::Planned;
use restore_steps::{PlanError, restored_entries};
use std::alloc::Global;
use std::marker::Model;
use toc_entry::Entry;

/// The entries of an archive in the order of a list, and what each of them comes to in its place. A contract sees the two
/// lists.
#[derive(Drop)]
pub struct Plan {
    entries: Vec<Entry>,
    planned: Vec<Planned>,
    // How many statements each entry's definition reads as.
    defined: Vec<usize>,
}

impl Model for Plan {
    ghost use Rattle.std.specs.Prelude.{◌≡◌, length, map};
    ghost use Rattle.plan_entries.specs.Plans.{Made};
    ghost use Rattle.restore_steps.specs.Statements.{definition_count};

    ghost Value = { Made };

    ghost view = { λ p. record { entries = p.entries.items; planned = p.planned.items } };

    ghost invariant = { λ p. (length p.entries.items ≡ length p.planned.items) × (p.defined.items ≡ map definition_count p.entries.items) };
}

impl Plan {
    /// The plan of entries in the order of a list. The texts are the rows of each; an entry for which no text is left has
    /// none. `owners` says whether owners are restored, and `parents` are pairs of a table and a parent of one of its
    /// foreign keys, those of the opening.
    ///
    /// # Errors
    ///
    /// That of the first entry that has one: `BadDefn` where its definition doesn't read, else where its COPY statement
    /// followed by its rows doesn't, else `OutOfProfile` where it is left out. Or `Memory`.
    #[tactic(auto, unfolding(crate::specs::Plans::plan_due))]
    pub fn make(
        alloc: Global,
        parents: FkSet,
        entries: Vec<Entry>,
        texts: Vec<Option<Vec<u8>>>,
        owners: bool,
    ) -> Result<Plan, PlanError>
        ensures { Gives (λ p. p) result (plan_due parents owners entries.items texts.items) }
    {
        let restored = restored_entries(alloc, &entries, texts, owners)?;
        let planned = placed_entries(alloc, parents, restored.entries)?;
        Ok(Plan {
            entries,
            planned,
            defined: restored.defined,
        })
    }

    /// How many entries there are.
    pub fn len(&self) -> usize
        ensures entries { result ≡ length self.now.entries }
        ensures planned { result ≡ length self.now.planned }
    {
        self.planned.len()
    }

    /// An entry.
    pub fn entry(&self, i: usize) -> &Entry
        requires { i < length self.now.entries }
        ensures { slice_get self.now.entries i ≡ Some result.now }
    {
        &self.entries[i]
    }

    /// The rows of an entry: those of the last COPY that its COPY statement followed by its rows reads as, or None where
    /// there is none. It takes no memory.
    pub fn text(&self, i: usize) -> Option<&[u8]>
        requires { i < length self.now.entries }
        ensures { option_map (λ rows. rows.now) result ≡ text_at self.now i }
    {
        rows_behind(self.planned[i].steps.as_slice(), self.defined[i])
    }

    /// The entries in their places.
    pub fn planned(&self) -> &[Planned]
        ensures { result.now ≡ self.now.planned }
    {
        &self.planned
    }

    /// Whether an entry stands earlier than another and has to end before that one starts: the other depends on it, or one
    /// of them writes what the other reads or writes.
    pub fn before(&self, i: usize, j: usize) -> bool
        requires first { i < length self.now.planned }
        requires second { j < length self.now.planned }
        ensures { result ≡ before_at self.now.planned i j }
    {
        i < j && self.planned[i].is_before(&self.planned[j])
    }

    /// Whether two entries lock one same entry.
    pub fn locks_clash(&self, i: usize, j: usize) -> bool
        requires first { i < length self.now.planned }
        requires second { j < length self.now.planned }
        ensures { result ≡ clash_at self.now.planned i j }
    {
        self.planned[i].clashes(&self.planned[j])
    }
}
