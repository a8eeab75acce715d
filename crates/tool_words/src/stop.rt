//! Where a script, or a restore, stopped.
ghost use Rattle.std.specs.Prelude.{◌≡◌, ◌++◌, ◌∷◌, [], OnOk, codes, decimal};
ghost use Rattle.tool_words.specs.Messages.{cause_text};

use cat_model::Cause;
use std::marker::Model;

/// The statement of a script at which the script stopped, since it was refused. A contract sees it as its place and the cause.
#[derive(Drop)]
pub struct Stop {
    at: usize,
    cause: Cause,
    text: Vec<u8>,
}

impl Model for Stop {
    ghost use Rattle.std.specs.Prelude.{ℕ};
    ghost use Rattle.cat_model.specs.declared.cause.Cause.{Cause};

    ghost Value = { ℕ × Cause };

    ghost use Rattle.std.specs.Prelude.{◌≡◌};
    ghost use Rattle.tool_words.specs.Messages.{cause_text};

    ghost view = { λ s. (s.at, s.cause) };

    ghost invariant = { λ s. s.text.items ≡ cause_text s.cause };
}

impl Stop {
    /// A statement whose first byte is the script's byte `at`, from 0, and why it was refused: the cause and its text.
    pub fn new(at: usize, cause: Cause, text: Vec<u8>) -> Stop
        requires { text.items ≡ cause_text cause }
        ensures { result ≡ (at, cause) }
    {
        Stop { at, cause, text }
    }

    /// The place of the statement's first byte, from 0.
    pub fn place(&self) -> usize
        ensures { result ≡ self.now.0 }
    {
        self.at
    }

    /// Why it was refused, in words.
    pub fn text(&self) -> &[u8]
        ensures { result.now ≡ cause_text self.now.1 }
    {
        &self.text
    }
}

/// The entry of an archive at which a restore stopped, since it was refused. A contract sees it as its dump id and the cause.
#[derive(Drop)]
pub struct RestoreStop {
    entry: u32,
    cause: Cause,
    text: Vec<u8>,
}

impl Model for RestoreStop {
    ghost use Rattle.std.specs.Prelude.{ℕ};
    ghost use Rattle.cat_model.specs.declared.cause.Cause.{Cause};

    ghost Value = { ℕ × Cause };

    ghost use Rattle.std.specs.Prelude.{◌≡◌};
    ghost use Rattle.tool_words.specs.Messages.{cause_text};

    ghost view = { λ s. (s.entry, s.cause) };

    ghost invariant = { λ s. s.text.items ≡ cause_text s.cause };
}

impl RestoreStop {
    /// An entry by its dump id, and why it was refused: the cause and its text.
    pub fn new(entry: u32, cause: Cause, text: Vec<u8>) -> RestoreStop
        requires { text.items ≡ cause_text cause }
        ensures { result ≡ (entry, cause) }
    {
        RestoreStop { entry, cause, text }
    }

    /// The entry's dump id.
    pub fn entry(&self) -> u32
        ensures { result ≡ self.now.0 }
    {
        self.entry
    }

    /// Why it was refused, in words.
    pub fn text(&self) -> &[u8]
        ensures { result.now ≡ cause_text self.now.1 }
    {
        &self.text
    }
}
