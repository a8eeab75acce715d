ghost use Rattle.std.specs.Prelude.{◌≡◌, ℕ, ◌≤◌, ◌<◌, List, ◌++◌, length, take, Option, option_map, IfOk, OnErr};
ghost use Rattle.dump_ports.specs.Faults.{CountsFault};

use crate::failed::Failed;

/// A stream of bytes to write.
///
/// What it means is the bytes written, where the object tells them.
pub trait Sink {
    ghost written: { Self → Option (List ℕ) };

    ghost faults: { Self → ℕ };

    /// Takes the first bytes of a piece, at least one where there is one, and says how many. After an error
    /// nothing was taken.
    fn write(&mut self, bytes: &[u8]) -> Result<usize, Failed>
        ensures fits { IfOk result (λ n. n ≤ length bytes.now) }
        ensures some { IfOk result (λ n. 0 < length bytes.now → 0 < n) }
        ensures ok { IfOk result (λ n. written self.new ≡ option_map (λ text. text ++ take n bytes.now) (written self.old)) }
        ensures err { OnErr result (written self.new ≡ written self.old) }
        ensures count { CountsFault result (faults self.old) (faults self.new) };
}
