ghost use Rattle.std.specs.Prelude.{◌≡◌};
ghost use Rattle.dump_ports.specs.Memory.{next_call, next_fails};

use std::marker::Model;

/// The calls of an object in memory: the numbers of those that are to fail, and how many there were.
#[derive(Drop)]
pub struct Calls {
    fail: Vec<u64>,
    made: u64,
}

impl Model for Calls {
    ghost use Rattle.dump_ports.specs.Memory.{CallPlan, coded_plan};

    ghost Value = { CallPlan };

    ghost coded = { coded_plan };

    ghost view = { λ c. record { fail = c.fail.items; made = c.made } };
}

impl Calls {
    pub fn new(fail: Vec<u64>) -> Calls
        ensures { result ≡ record { fail = fail.items; made = 0 } }
    {
        Calls { fail, made: 0 }
    }

    /// Counts one more call, and says whether it is to fail.
    pub fn begin(&mut self) -> bool
        ensures to_fail { result ≡ next_fails self.old }
        ensures counted { self.new ≡ next_call self.old }
    {
        self.made = self.made.saturating_add(1);
        self.fail.contains(&self.made)
    }
}
