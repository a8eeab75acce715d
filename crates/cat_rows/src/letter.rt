//! A letter: one byte that stands for a kind, as `r` for a table.
ghost use Rattle.std.specs.Prelude.{◌≡◌, ◌<◌, IsSome, IfSome, ◌↔◌};

use std::marker::Model;

/// One byte of ASCII. A contract sees a letter as that byte.
#[derive(Drop)]
pub struct Letter {
    byte: u8,
}

impl Model for Letter {
    ghost use Rattle.std.specs.Prelude.{ℕ, ◌<◌};

    ghost Value = { ℕ };

    ghost view = { λ l. l.byte };

    ghost invariant = { λ l. l.byte < 128 };

    ghost inverse = { λ b. record { byte = b } };
}

impl Clone for Letter {
    ghost is_clone = { λ t u. u ≡ t };

    fn clone(&self) -> Result<Letter, std::alloc::AllocError> {
        Ok(*self)
    }
}

impl Copy for Letter {}

impl Letter {
    /// The letter of this byte, where it is ASCII.
    pub fn new(byte: u8) -> Option<Letter>
        ensures valid { IsSome result ↔ (byte < 128) }
        ensures value { IfSome result (λ l. l ≡ byte) }
    {
        if byte < 128 {
            Some(Letter { byte })
        } else {
            None
        }
    }

    /// The byte.
    pub fn byte(self) -> u8
        ensures value { result ≡ self }
        ensures ascii { result < 128 }
    {
        self.byte
    }
}
