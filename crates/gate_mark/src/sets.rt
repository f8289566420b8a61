//! Sets in a row.
ghost use Rattle.std.specs.Prelude.{◌≡◌, ℕ, ◌+◌, ◌^◌, ◌<◌, ◌≤◌, List, length};
ghost use Rattle.sector_extent.specs.Causes.{Charges};
ghost use Rattle.gate_mark.specs.Mark.{file_of, sequence_in, IsKept};
ghost use Rattle.gate_mark.specs.Sets.{Act, SetInTurn};

use crate::mark::Mark;
use block_disk::Disk;

impl Mark {
    /// Sets bodies in turn, goes on after each failure, and answers how many of the sets failed. At
    /// each moment a crash leaves the body of the last set that succeeded, or the one that was
    /// attempted since.
    pub fn set_each<D: Disk>(&mut self, disk: &mut D, bodies: &[[u8; 48]]) -> u64
        requires sequence { sequence_in self.old + length bodies.now ≤ 2 ^ 63 }
        requires kept { IsKept (D.state disk.old) self.old }
        ensures sets { (acts : List Act)
            × SetInTurn (file_of self.old) (D.state disk.old) (D.state disk.new) self.old self.new bodies.now acts }
        ensures kept { IsKept (D.state disk.new) self.new }
        // Each set that succeeds raises the sequence by one, and each other one the count of faults.
        ensures failed { result + sequence_in self.new ≡ sequence_in self.old + length bodies.now }
        ensures each { D.faults disk.old + result ≤ D.faults disk.new }
        ensures cause { Charges D.faults disk.old disk.new (0 < result) }
    {
        let before = self.sequence();
        for body in bodies {
            let _ = self.set(disk, body);
        }
        before + bodies.len() as u64 - self.sequence()
    }
}
