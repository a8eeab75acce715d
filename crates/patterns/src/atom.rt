//! What a part of a pattern is made of.
ghost use Rattle.std.specs.Prelude.{◌≡◌, List, [], ◌∷◌, ◌++◌, OnOk, OnErr};

use std::alloc::{AllocError, Global};
use std::marker::Model;

/// What a place of a pattern stands for.
#[derive(Clone, Copy)]
pub enum Atom {
    /// This byte.
    Byte(u8),
    /// One character, whichever it is.
    One,
    /// Any characters, or none.
    Many,
}

/// The schema part or the name part of a pattern. A contract sees it as the list of its atoms.
#[derive(Drop)]
pub struct Part {
    atoms: Vec<Atom>,
}

impl Model for Part {
    ghost use Rattle.std.specs.Prelude.{List};
    ghost use Rattle.patterns.specs.declared.atom.Atom.{Atom};

    ghost Value = { List Atom };

    ghost view = { λ p. p.atoms.items };
}

impl Part {
    /// A part without atoms. It takes no memory.
    pub(crate) fn new(alloc: Global) -> Part
        ensures { result ≡ [] }
    {
        Part {
            atoms: Vec::new(alloc),
        }
    }

    /// Adds an atom at the end. After an `Err` the part is as it was.
    pub(crate) fn push(&mut self, atom: Atom) -> Result<(), AllocError>
        ensures ok { OnOk result (self.new ≡ self.old ++ atom ∷ []) }
        ensures err { OnErr result (self.new ≡ self.old) }
    {
        self.atoms.push(atom)?;
        Ok(())
    }

    /// The atoms.
    pub fn atoms(&self) -> &[Atom]
        ensures { result.now ≡ self.now }
    {
        &self.atoms
    }
}
