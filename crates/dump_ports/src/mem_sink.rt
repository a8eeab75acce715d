ghost use Rattle.std.specs.Prelude.{◌≡◌, ◌≤◌, ◌<◌, [], ◌++◌, length, take, Some, option_map, IfOk, OnErr, IsErr, IsTrue};
ghost use Rattle.dump_ports.specs.Faults.{CountsFault};
ghost use Rattle.dump_ports.specs.Memory.{next_fails, after_taken};

use crate::calls::Calls;
use crate::failed::Failed;
use crate::sink::Sink;
use std::alloc::Global;
use std::marker::Model;

/// A stream of bytes in memory to write, of which a test says which calls fail.
///
/// The calls of `write` are counted from 1, and those whose numbers were given to `new` fail. A call that finds no
/// memory fails too, and no other does. A call that doesn't fail takes all of its bytes. Counts stop at 2^64 - 1.
#[derive(Drop)]
pub struct MemSink {
    bytes: Vec<u8>,
    calls: Calls,
    faults: u64,
    starved: u64,
}

impl Model for MemSink {
    ghost use Rattle.dump_ports.specs.Memory.{MemorySink};

    ghost Value = { MemorySink };

    ghost view = { λ m. record { written = m.bytes.items; calls = m.calls; faults = m.faults; starved = m.starved } };
}

impl MemSink {
    /// Holds no byte, and fails the calls whose numbers, from 1, are in `fail`.
    pub fn new(alloc: Global, fail: Vec<u64>) -> MemSink
        ensures { result ≡ record {
          written = [];
          calls = record { fail = fail.items; made = 0 };
          faults = 0;
          starved = 0;
        } }
    {
        MemSink {
            bytes: Vec::new(alloc),
            calls: Calls::new(fail),
            faults: 0,
            starved: 0,
        }
    }

    /// The bytes written.
    pub fn text(&self) -> &[u8]
        ensures { result.now ≡ self.now.written }
    {
        self.bytes.as_slice()
    }

    /// How many calls failed for want of memory alone. Where no number was given to `new`, that is the count of
    /// faults.
    pub fn starved(&self) -> u64
        ensures { result ≡ self.now.starved }
    {
        self.starved
    }
}

impl Sink for MemSink {
    ghost written = { λ m. Some m.written };

    ghost faults = { λ m. m.faults };

    fn write(&mut self, bytes: &[u8]) -> Result<usize, Failed>
        ensures fits { IfOk result (λ n. n ≤ length bytes.now) }
        ensures some { IfOk result (λ n. 0 < length bytes.now → 0 < n) }
        ensures ok { IfOk result (λ n. Some self.new.written ≡ option_map (λ text. text ++ take n bytes.now) (Some self.old.written)) }
        ensures err { OnErr result (Some self.new.written ≡ Some self.old.written) }
        ensures count { CountsFault result self.old.faults self.new.faults }
        ensures fails { IsTrue (next_fails self.old.calls) → IsErr result }
        ensures after { self.new ≡ after_taken result bytes.now self.old }
        ensures all { IfOk result (λ n. n ≡ length bytes.now) }
    {
        if self.calls.begin() {
            self.faults = self.faults.saturating_add(1);
            return Err(Failed);
        }
        if self.bytes.extend_from_slice(bytes).is_err() {
            self.faults = self.faults.saturating_add(1);
            self.starved = self.starved.saturating_add(1);
            return Err(Failed);
        }
        Ok(bytes.len())
    }
}
