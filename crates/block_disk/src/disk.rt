ghost use Rattle.std.specs.Prelude.{◌≡◌, ℕ, ◌+◌, ◌^◌, ◌≤◌, List, length, take, Bool, IsTrue, OnOk, OnErr, IfOk, MatchResult, IsErr};
ghost use Rattle.sector_extent.specs.Causes.{Charges};
ghost use Rattle.block_disk.specs.Changes.{piece, put, Torn, Cut, Same, Only, WroteInPart, CutInPart};
ghost use Rattle.block_disk.specs.DiskState.{DiskState, Steps, MayLeave};

// The greatest size of a file that is answered, in bytes.
pub(crate) const MAX_FILE: u64 = 1 << 50;

/// A call of a disk failed.
#[derive(Clone, Copy, Debug, PartialEq, Eq)]
pub struct DiskFailed;

/// A disk of files named by numbers. A file is empty until it is written. Places and lengths are in
/// bytes, and calls reach at most 2^50 of them.
///
/// A call that fails raises the count of faults. A write or a cut that fails may have happened in
/// part.
pub trait Disk {
    /// Whether disks of this type tell what their files hold. One that does not tell allows no
    /// outcome of a crash, and nothing is said of the bytes that it reads.
    ghost tells: { Bool };

    /// What the files read as, and what a crash may leave, now and at each past moment.
    ghost state: { Self → DiskState };

    /// A count that rises where a call fails.
    ghost faults: { Self → ℕ };

    /// The length of a file. A file of more than 2^50 bytes fails.
    fn size(&mut self, file: u32) -> Result<u64, DiskFailed>
        ensures size { IfOk result (λ n. IsTrue tells → n ≡ length ((state self.old).seen file)) }
        ensures limit { IfOk result (λ n. n ≤ 2 ^ 50) }
        ensures steps { Steps file Same (state self.old) (state self.new) }
        ensures may_leave { MayLeave file Same (state self.old) (state self.new) }
        ensures cause { Charges faults self.old self.new (IsErr result) };

    /// Fills `out` with the bytes from `at` on. A range that ends past the end of the file fails.
    fn read_at(&mut self, file: u32, at: u64, out: &mut [u8]) -> Result<(), DiskFailed>
        requires { at + length out.old ≤ 2 ^ 50 }
        ensures within { OnOk result (IsTrue tells → at + length out.new ≤ length ((state self.old).seen file)) }
        ensures bytes { OnOk result (IsTrue tells → out.new ≡ piece at (length out.new) ((state self.old).seen file)) }
        ensures steps { Steps file Same (state self.old) (state self.new) }
        ensures may_leave { MayLeave file Same (state self.old) (state self.new) }
        ensures cause { Charges faults self.old self.new (IsErr result) };

    /// Writes the bytes from `at` on, over what is there and past the end. A gap before `at` becomes
    /// zeros. Until the next sync of the file that succeeds, a crash may leave anything at these
    /// places and past the old end, and any end between the two.
    fn write_at(&mut self, file: u32, at: u64, bytes: &[u8]) -> Result<(), DiskFailed>
        requires { at + length bytes.now ≤ 2 ^ 50 }
        ensures written { OnOk result
            (IsTrue tells → (state self.new).seen file ≡ put ((state self.old).seen file) at bytes.now) }
        ensures in_part { OnErr result
            (IsTrue tells → WroteInPart at bytes.now ((state self.old).seen file) ((state self.new).seen file)) }
        ensures steps { Steps file (Torn at (length bytes.now)) (state self.old) (state self.new) }
        ensures may_leave { MatchResult result
            (λ _. MayLeave file (Torn at (length bytes.now)) (state self.old) (state self.new))
            (λ _. MayLeave file Same (state self.old) (state self.new)) }
        ensures cause { Charges faults self.old self.new (IsErr result) };

    /// Cuts a file off after `length` bytes. A shorter file stays as it is. Until the next sync of
    /// the file that succeeds, a crash may leave any of the part that was cut off, and anything in it.
    fn cut(&mut self, file: u32, length: u64) -> Result<(), DiskFailed>
        ensures cut { OnOk result
            (IsTrue tells → (state self.new).seen file ≡ take length ((state self.old).seen file)) }
        ensures in_part { OnErr result
            (IsTrue tells → CutInPart ((state self.old).seen file) ((state self.new).seen file)) }
        ensures steps { Steps file (Cut length) (state self.old) (state self.new) }
        ensures may_leave { MatchResult result (λ _. MayLeave file (Cut length) (state self.old) (state self.new))
            (λ _. MayLeave file Same (state self.old) (state self.new)) }
        ensures cause { Charges faults self.old self.new (IsErr result) };

    /// Puts a file onto the disk: after a sync that succeeds a crash leaves what a read gives, also
    /// where an earlier sync failed.
    fn sync(&mut self, file: u32) -> Result<(), DiskFailed>
        ensures durable { OnOk result (Only ((state self.new).seen file) ((state self.new).may_leave file)) }
        ensures steps { Steps file Same (state self.old) (state self.new) }
        ensures others { (f : ℕ) (c : List ℕ) → ¬ (f ≡ file) → (state self.old).may_leave f c
            → (state self.new).may_leave f c }
        ensures cause { Charges faults self.old self.new (IsErr result) };

    /// A disk that does not tell allows no outcome of a crash.
    ghost told: { (d : Self) (f : ℕ) (c : List ℕ) → (state d).may_leave f c → IsTrue tells };

    /// Of a disk that tells, a crash may leave what a read gives.
    ghost seen_may_stay: { (d : Self) (f : ℕ) → IsTrue tells → (state d).may_leave f ((state d).seen f) };

    /// What a crash at this very moment might leave is what it may leave now.
    ghost now_at: { (d : Self) (files : ℕ → List ℕ) → (state d).left_at (state d).moment files → (f : ℕ)
        → (state d).may_leave f (files f) };

    /// What it may leave now it might leave at this very moment.
    ghost at_now: { (d : Self) (files : ℕ → List ℕ) → ((f : ℕ) → (state d).may_leave f (files f))
        → (state d).left_at (state d).moment files };
}
