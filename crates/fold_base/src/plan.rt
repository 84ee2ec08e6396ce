ghost use Rattle.std.specs.Prelude.{◌≡◌, ◌↔◌, ◌⊎◌, false, IsErr, is_ok};
ghost use Rattle.fold_base.specs.Outside.{HasCause};

use crate::{Failed, List};

/// Which calls fail, and what came so far.
#[derive(Debug, Drop)]
pub struct Plan {
    /// The numbers of the failing calls, counted from 1.
    failing: List<u64>,
    calls: u64,
    faults: u64,
}

impl Plan {
    ghost use Rattle.fold_base.specs.Plan.{fresh, FailsNext, after_call};

    pub fn new(failing: List<u64>) -> Plan
        ensures { result ≡ fresh failing }
    {
        Plan {
            failing,
            calls: 0,
            faults: 0,
        }
    }

    /// Counts a call. It fails where it can't be served or is a failing one, and then counts a fault.
    pub fn start_call(&mut self, can_serve: bool) -> Result<(), Failed>
        ensures planned { IsErr result ↔ (FailsNext self.old ⊎ (can_serve ≡ false)) }
        ensures counted { self.new ≡ after_call (is_ok result) self.old }
        ensures cause { HasCause self.old.faults self.new.faults result }
    {
        self.calls = self.calls.saturating_add(1);
        if can_serve && !self.failing.as_slice().contains(&self.calls) {
            return Ok(());
        }
        self.faults = self.faults.saturating_add(1);
        Err(Failed)
    }
}
