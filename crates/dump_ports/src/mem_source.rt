ghost use Rattle.std.specs.Prelude.{◌≡◌, ◌≤◌, length, drop, min, Some, option_map, IfSome, IfOk, OnErr, is_err};
ghost use Rattle.dump_ports.specs.Tree.{FillsFront};
ghost use Rattle.dump_ports.specs.Faults.{CountsFault};
ghost use Rattle.dump_ports.specs.Memory.{next_fails, after_given};

use crate::calls::Calls;
use crate::failed::Failed;
use crate::front::fill_front;
use crate::source::Source;
use std::marker::Model;

/// A stream of bytes in memory to read, of which a test says which calls fail.
///
/// The calls of `read` are counted from 1; exactly those whose numbers were given to `new` fail, and give nothing.
/// Counts stop at 2^64 - 1.
#[derive(Drop)]
pub struct MemSource {
    bytes: Vec<u8>,
    at: usize,
    step: usize,
    calls: Calls,
    faults: u64,
}

impl Model for MemSource {
    ghost use Rattle.std.specs.Prelude.{◌≤◌, drop, vec_len};
    ghost use Rattle.dump_ports.specs.Memory.{MemorySource};

    ghost Value = { MemorySource };

    ghost view = { λ m. record { left = drop m.at m.bytes.items; step = m.step; calls = m.calls; faults = m.faults } };

    ghost invariant = { λ m. (m.at ≤ vec_len m.bytes) × (1 ≤ m.step) };
}

impl MemSource {
    /// Gives these bytes, at most `step` of them at a call, and fails the calls whose numbers, from 1, are in
    /// `fail`. The step is at least 1.
    pub fn new(bytes: Vec<u8>, step: usize, fail: Vec<u64>) -> MemSource
        requires { 1 ≤ step }
        ensures { result ≡ record {
          left = bytes.items;
          step = step;
          calls = record { fail = fail.items; made = 0 };
          faults = 0;
        } }
    {
        MemSource {
            bytes,
            at: 0,
            step,
            calls: Calls::new(fail),
            faults: 0,
        }
    }
}

impl Source for MemSource {
    ghost left = { λ m. Some m.left };

    ghost faults = { λ m. m.faults };

    fn read(&mut self, buffer: &mut [u8]) -> Result<usize, Failed>
        ensures fits { IfOk result (λ n. n ≤ length buffer.new) }
        ensures told { IfOk result (λ n. IfSome (Some self.old.left) (λ bytes. FillsFront bytes buffer.new n)) }
        ensures ok { IfOk result (λ n. Some self.new.left ≡ option_map (λ bytes. drop n bytes) (Some self.old.left)) }
        ensures err { OnErr result (Some self.new.left ≡ Some self.old.left) }
        ensures count { CountsFault result self.old.faults self.new.faults }
        ensures fails { is_err result ≡ next_fails self.old.calls }
        ensures after { self.new ≡ after_given result self.old }
        ensures most { IfOk result (λ n. n ≡ min self.old.step (min (length self.old.left) (length buffer.new))) }
    {
        if self.calls.begin() {
            self.faults = self.faults.saturating_add(1);
            return Err(Failed);
        }
        let n = fill_front(&self.bytes[self.at..], self.step, buffer);
        self.at += n;
        Ok(n)
    }
}
