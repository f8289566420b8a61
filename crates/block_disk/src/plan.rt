ghost use Rattle.std.specs.Prelude.{◌≡◌, ◌↔◌, IsTrue};

use sector_extent::CallPlan;

// Which calls of a disk in memory fail: those that are named, counted from the one after the naming,
// and all from some call on.
#[derive(Drop)]
pub(crate) struct Plan {
    pub(crate) named: CallPlan,
    // How many calls are left before the disk stops.
    pub(crate) stop: Option<u64>,
}

impl Plan {
    ghost use Rattle.block_disk.specs.Plan.{IsToFail, after_call};

    // Counts a call, and answers whether it fails.
    #[tactic(auto, unfolding(crate::specs::Plan::IsToFail))]
    pub(crate) fn next_fails(&mut self) -> bool
        ensures fails { IsTrue result ↔ IsToFail self.old }
        ensures after { self.new ≡ after_call self.old }
    {
        let is_named = self.named.next_fails();
        match self.stop {
            None => is_named,
            Some(calls) => {
                self.stop = Some(calls.saturating_sub(1));
                is_named || calls == 0
            }
        }
    }
}
