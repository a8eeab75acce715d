ghost use Rattle.std.specs.Prelude.{◌≡◌, ℕ, ◌≤◌, List, [], length, drop, Option, option_map, IfSome, IfOk, OnOk, OnErr};
ghost use Rattle.dump_ports.specs.Tree.{Tree, text_at, bytes_at, made, appended, patched, HasRange, TakesPrefix, FillsFront};
ghost use Rattle.dump_ports.specs.Faults.{CountsFault};

use crate::failed::Failed;

/// Files by their names.
///
/// What they hold is the tree, where the object tells it: what a file system holds is not told. Each call that
/// fails raises one of the two counts, and nothing else changes a count.
pub trait Files {
    ghost tree: { Self → Option Tree };

    ghost read_faults: { Self → ℕ };

    ghost write_faults: { Self → ℕ };

    /// The length of the named text in bytes, `None` where the name is absent.
    fn size(&mut self, name: &str) -> Result<Option<u64>, Failed>
        ensures told { IfOk result (λ size. IfSome (tree self.old)
            (λ t. size ≡ option_map (λ text. length text) (text_at t name.now))) }
        ensures kept { tree self.new ≡ tree self.old }
        ensures read_count { CountsFault result (read_faults self.old) (read_faults self.new) }
        ensures write_count { write_faults self.new ≡ write_faults self.old };

    /// Fills the front of the buffer with the text's next bytes from a place on, and says how many: 0 exactly
    /// where the buffer is empty or the text ends there or before. An absent name reads as the empty text.
    fn read_at(&mut self, name: &str, at: u64, buffer: &mut [u8]) -> Result<usize, Failed>
        ensures fits { IfOk result (λ n. n ≤ length buffer.new) }
        ensures told { IfOk result (λ n. IfSome (tree self.old)
            (λ t. FillsFront (drop at (bytes_at t name.now)) buffer.new n)) }
        ensures kept { tree self.new ≡ tree self.old }
        ensures read_count { CountsFault result (read_faults self.old) (read_faults self.new) }
        ensures write_count { write_faults self.new ≡ write_faults self.old };

    /// The name holds the empty text from then on. After an error it does, or it is as it was.
    fn make(&mut self, name: &str) -> Result<(), Failed>
        ensures ok { OnOk result (tree self.new ≡ option_map (made name.now) (tree self.old)) }
        ensures err { OnErr result (TakesPrefix (λ _. made name.now) [] (tree self.old) (tree self.new)) }
        ensures read_count { read_faults self.new ≡ read_faults self.old }
        ensures write_count { CountsFault result (write_faults self.old) (write_faults self.new) };

    /// Adds the bytes at the end of the named text; an absent name begins empty. After an error a first part of
    /// them was added.
    fn append(&mut self, name: &str, bytes: &[u8]) -> Result<(), Failed>
        ensures ok { OnOk result (tree self.new ≡ option_map (appended name.now bytes.now) (tree self.old)) }
        ensures err { OnErr result (TakesPrefix (appended name.now) bytes.now (tree self.old) (tree self.new)) }
        ensures read_count { read_faults self.new ≡ read_faults self.old }
        ensures write_count { CountsFault result (write_faults self.old) (write_faults self.new) };

    /// Puts the bytes in place of those from a place on. After an error a first part of them was put there.
    fn patch(&mut self, name: &str, at: u64, bytes: &[u8]) -> Result<(), Failed>
        requires { HasRange (tree self.old) name.now at (length bytes.now) }
        ensures ok { OnOk result (tree self.new ≡ option_map (patched name.now at bytes.now) (tree self.old)) }
        ensures err { OnErr result (TakesPrefix (patched name.now at) bytes.now (tree self.old) (tree self.new)) }
        ensures read_count { read_faults self.new ≡ read_faults self.old }
        ensures write_count { CountsFault result (write_faults self.old) (write_faults self.new) };
}
