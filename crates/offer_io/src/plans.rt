ghost use Rattle.std.specs.Prelude.{◌≡◌, OnOk, OnErr};
ghost use Rattle.offer_io.specs.Plans.{new_plan, plan_with, plan_after, fails_next};

use offer_model::NoMemory;
use std::alloc::Global;
use std::marker::Model;

/// How many calls a device in memory had, and the numbers of those that are to fail.
#[derive(Drop)]
pub struct Plan {
    calls: u64,
    failing: Vec<u64>,
}

impl Model for Plan {
    ghost use Rattle.offer_io.specs.Plans.{CallPlan};

    ghost Value = { CallPlan };

    ghost view = { λ p. record { calls = p.calls; failing = p.failing.items } };
}

impl Plan {
    pub fn new(alloc: Global) -> Plan
        ensures { result ≡ new_plan }
    {
        Plan {
            calls: 0,
            failing: Vec::new(alloc),
        }
    }

    /// Makes the call of this number fail.
    pub fn fail_at(&mut self, call: u64) -> Result<(), NoMemory>
        ensures ok { OnOk result (self.new ≡ plan_with self.old call) }
        ensures err { OnErr result (self.new ≡ self.old) }
    {
        self.failing.push(call)?;
        Ok(())
    }

    /// Counts a call, and says whether it is one that fails.
    pub fn fails_now(&mut self) -> bool
        ensures value { result ≡ fails_next self.old }
        ensures counted { self.new ≡ plan_after self.old }
    {
        self.calls = self.calls.saturating_add(1);
        self.failing.contains(&self.calls)
    }
}
