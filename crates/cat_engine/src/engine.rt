//! The engine.
ghost use Rattle.std.specs.Prelude.{◌≡◌, Ok, OnErr, OnOk};
ghost use Rattle.cat_model.specs.CopyEffect.{copy_rows};
ghost use Rattle.cat_model.specs.Effects.{effect};
ghost use Rattle.cat_model.specs.Trees.{run, outcome, seen};
ghost use Rattle.eng_steps.specs.Outcomes.{Steps};

use crate::statements::changes_of;
use cat_model::{QName, Stmt};
use copy_effects::{Prepared, copy_prepared, copy_rows};
use copy_text::Name;
use eng_map::{Change, NamedMap};
use eng_steps::ApplyError;
use std::alloc::Global;
use std::marker::Model;

// What COPY comes to. The prepared rows are used where they are those of this text.
fn copied(
    alloc: Global,
    named: &NamedMap,
    q: &QName,
    names: &[Name],
    text: &[u8],
    prepared: Prepared<'_>,
) -> Result<Vec<Change>, ApplyError>
    ensures { Steps result (outcome (copy_rows q.now names.now text.now) (seen named.now)) (λ changes. Ok changes.items) }
{
    if prepared.is_of(text) {
        copy_prepared(alloc, named, q, names, prepared)
    } else {
        copy_rows(alloc, named, q, names, text)
    }
}

// What a statement comes to. The prepared rows are used where it is a COPY of their text.
fn changes_prepared(
    alloc: Global,
    named: &NamedMap,
    boot: &Name,
    stmt: &Stmt,
    prepared: Prepared<'_>,
) -> Result<Vec<Change>, ApplyError>
    ensures { Steps result (outcome (effect boot.now stmt.now) (seen named.now)) (λ changes. Ok changes.items) }
{
    match stmt {
        Stmt::CopyRows { q, columns, rows } => copied(
            alloc,
            named,
            q,
            columns.as_slice(),
            rows.as_slice(),
            prepared,
        ),
        _ => changes_of(alloc, named, boot, stmt),
    }
}

/// A catalogue by names, on which statements are carried out. A contract sees the catalogue and the name of the role that
/// owns what is created.
#[derive(Drop)]
pub struct Engine {
    alloc: Global,
    named: NamedMap,
    boot: Name,
}

impl Model for Engine {
    ghost use Rattle.std.specs.Coded.{codes};
    ghost use Rattle.cat_engine.specs.Held.{Held, named_code};

    ghost Value = { Held };

    ghost coded = { Prim.hlevel (codes, named_code) };

    ghost view = { λ e. record { named = e.named; boot = e.boot } };
}

impl Engine {
    /// An engine that holds this catalogue, and in which this role owns what is created.
    pub fn new(alloc: Global, named: NamedMap, boot: Name) -> Engine
        ensures { result ≡ record { named = named; boot = boot } }
    {
        Engine { alloc, named, boot }
    }

    /// The catalogue.
    pub fn named(&self) -> &NamedMap
        ensures { result.now ≡ self.now.named }
    {
        &self.named
    }

    /// Carries a statement out.
    ///
    /// # Errors
    ///
    /// `Refused` with the first condition of the statement that doesn't hold, or `Memory`; all is as it was then.
    pub fn apply(&mut self, stmt: &Stmt) -> Result<(), ApplyError>
        ensures run { Steps result (run (effect self.old.boot stmt.now) self.old.named) (λ _. Ok self.new.named) }
        ensures boot { self.new.boot ≡ self.old.boot }
        ensures err { OnErr result (self.new ≡ self.old) }
    {
        let changes = changes_of(self.alloc, &self.named, &self.boot, stmt)?;
        self.named.commit(changes)?;
        Ok(())
    }

    /// Carries a statement out, with the rows of a COPY text that were read before. Where the statement is a COPY of that
    /// very text, byte for byte, its rows are not read again; else they are dropped, and all is as by `apply`.
    ///
    /// # Errors
    ///
    /// Those of `apply`.
    pub fn apply_prepared(&mut self, stmt: &Stmt, rows: Prepared<'_>) -> Result<(), ApplyError>
        ensures run { Steps result (run (effect self.old.boot stmt.now) self.old.named) (λ _. Ok self.new.named) }
        ensures boot { self.new.boot ≡ self.old.boot }
        ensures err { OnErr result (self.new ≡ self.old) }
    {
        let changes = changes_prepared(self.alloc, &self.named, &self.boot, stmt, rows)?;
        Ok(self.named.commit(changes)?)
    }
}
