ghost use Rattle.std.specs.Prelude.{◌≡◌, ℕ, ◌≤◌, List, length, drop, Option, option_map, IfSome, IfOk, OnErr};
ghost use Rattle.dump_ports.specs.Tree.{FillsFront};
ghost use Rattle.dump_ports.specs.Faults.{CountsFault};

use crate::failed::Failed;

/// A stream of bytes to read.
///
/// What it means is the bytes left, where the object tells them.
pub trait Source {
    ghost left: { Self → Option (List ℕ) };

    ghost faults: { Self → ℕ };

    /// Moves the next bytes to the front of the buffer, and says how many: 0 exactly where the buffer is empty
    /// or nothing is left. After an error nothing was taken.
    fn read(&mut self, buffer: &mut [u8]) -> Result<usize, Failed>
        ensures fits { IfOk result (λ n. n ≤ length buffer.new) }
        ensures told { IfOk result (λ n. IfSome (left self.old) (λ bytes. FillsFront bytes buffer.new n)) }
        ensures ok { IfOk result (λ n. left self.new ≡ option_map (λ bytes. drop n bytes) (left self.old)) }
        ensures err { OnErr result (left self.new ≡ left self.old) }
        ensures count { CountsFault result (faults self.old) (faults self.new) };
}
