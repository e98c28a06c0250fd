//! Which calls of a device in memory fail.

ghost use Rattle.std.specs.Prelude.{◌≡◌, ◌≤◌, ◌↔◌, IsErr, OnErr};
ghost use Rattle.aioc_io.specs.Faults.{Rose, count_after};

use crate::Failed;
use crate::failed::count_fault;

/// Which calls of a device in memory fail, and how many bytes the others move at most.
#[derive(Drop)]
pub struct Plan {
    pub most: usize,
    fails: Vec<u64>,
    calls: u64,
    pub faults: u64,
    ghost moves: { 1 ≤ most },
}

impl Plan {
    ghost use Rattle.aioc_io.specs.Plan.{FailsNext, IsNewPlan, OneCall};

    /// The first call has the number 1.
    pub fn new(most: usize, fails: Vec<u64>) -> Plan
        requires { 1 ≤ most }
        ensures { IsNewPlan result most fails.items }
    {
        Plan {
            most,
            fails,
            calls: 0,
            faults: 0,
        }
    }

    /// Counts a call, and fails where that is planned.
    pub fn begin_call(&mut self) -> Result<(), Failed>
        ensures planned { IsErr result ↔ FailsNext self.old }
        ensures call { OneCall self.old self.new }
        ensures faults { self.new.faults ≡ count_after result self.old.faults }
        ensures never_falls { self.old.faults ≤ self.new.faults }
        ensures rose { OnErr result (Rose self.old.faults self.new.faults) }
    {
        self.calls = self.calls.saturating_add(1);
        if self.fails.contains(&self.calls) {
            return Err(count_fault(&mut self.faults));
        }
        Ok(())
    }
}
