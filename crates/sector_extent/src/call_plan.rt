//! Which calls fail, for objects in memory.
ghost use Rattle.std.specs.Prelude.{◌≡◌, ◌+◌, ◌-◌, ◌^◌, ◌↔◌, min, IsTrue, Contains};

use crate::lists::CallList;
use std::marker::Model;

/// The calls of an object that were named to fail, and the number of the next call.
#[derive(Debug, Drop)]
pub struct CallPlan {
    failing: CallList,
    calls: u64,
}

impl Model for CallPlan {
    ghost use Rattle.sector_extent.specs.Calls.{PlannedCalls};

    ghost Value = { PlannedCalls };

    ghost view = { λ plan. record { failing = plan.failing; calls = plan.calls } };
}

impl CallPlan {
    /// The calls whose numbers, from 0, are in `failing` are to fail.
    pub fn new(failing: CallList) -> CallPlan
        ensures { result ≡ record { failing = failing; calls = 0 } }
    {
        CallPlan { failing, calls: 0 }
    }

    /// Counts a call, and answers whether it was named to fail. The number of calls stands still at
    /// 2^64 - 1.
    pub fn next_fails(&mut self) -> bool
        ensures named { IsTrue result ↔ Contains self.old.failing self.old.calls }
        ensures counted { self.new ≡ record self.old { calls = min (self.old.calls + 1) (2 ^ 64 - 1) } }
    {
        let call = self.calls;
        self.calls = call.saturating_add(1);
        self.failing.as_slice().contains(&call)
    }
}
