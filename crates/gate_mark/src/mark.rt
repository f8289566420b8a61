ghost use Rattle.std.specs.Prelude.{◌≡◌, ℕ, ◌+◌, ◌^◌, ◌<◌, ◌≤◌, ◌⊎◌, ◌↔◌, List, [], IsTrue, OnOk, OnErr, IfOk, IfSome, IfNone, None, IsErrOf, IsErr};
ghost use Rattle.sector_extent.specs.Causes.{Charges};
ghost use Rattle.block_disk.specs.Changes.{Only};
ghost use Rattle.block_disk.specs.Claims.{FileRun, FileRunBy, Quiet};

use crate::slots::{SlotRead, attempt_bytes, closed_slots, read_both, read_slot};
use crate::through::write_through;
use block_disk::{Disk, DiskFailed};

/// Which of the two slots.
#[derive(Clone, Copy, Debug, PartialEq, Eq)]
pub enum Slot {
    First,
    Second,
}

/// What is known of the slot that does not count.
#[derive(Clone, Copy, Debug, PartialEq, Eq)]
pub enum Rest {
    /// Its gate is closed in whatever a crash leaves. What stands under it may be unsynced.
    Closed,
    /// Whatever its gate is, its sequence does not count.
    Stale,
    /// Whatever its gate is, the next sequence and this body stand there.
    Attempted([u8; 48]),
}

/// Why a mark was not loaded.
#[derive(Clone, Copy, Debug, PartialEq, Eq)]
pub enum MarkFault {
    /// The disk failed.
    Failed,
    /// The file has fewer than 1,024 bytes, or no open slot.
    NoMark,
    /// The counting sequence is over 2^61.
    Worn(u64),
}

// The greatest sequence that is loaded.
const MAX_LOADED: u64 = 1 << 61;

// Bytes of a slot.
const SLOT: u64 = 512;

// The gate of an open slot.
const OPEN: u8 = 0xA5;

/// A body of 48 bytes in a file of a disk. Each set puts another in its place, at once: a crash at
/// any moment leaves the last that was set, or the one that was attempted since.
#[derive(Clone, Copy, Debug, PartialEq, Eq)]
pub struct Mark {
    file: u32,
    sequence: u64,
    body: [u8; 48],
    current: Slot,
    rest: Rest,
}

impl Slot {
    ghost use Rattle.gate_mark.specs.MarkFile.{base_of, other_of};

    /// Where the slot begins, in bytes.
    pub(crate) fn base(self) -> u64
        ensures { result ≡ base_of self }
    {
        match self {
            Slot::First => 0,
            Slot::Second => SLOT,
        }
    }

    /// The slot beside it.
    pub(crate) fn other(self) -> Slot
        ensures { result ≡ other_of self }
    {
        match self {
            Slot::First => Slot::Second,
            Slot::Second => Slot::First,
        }
    }
}

impl Mark {
    ghost use Rattle.gate_mark.specs.declared.mark.MarkFault.TheVariants.{Failed};
    ghost use Rattle.gate_mark.specs.declared.mark.Rest.{Rest};
    ghost use Rattle.gate_mark.specs.declared.mark.Rest.TheVariants.{Closed, Stale, Attempted};
    ghost use Rattle.gate_mark.specs.MarkFile.{other_of, mark_of, new_mark, Shows};
    ghost use Rattle.gate_mark.specs.Mark.{file_of, sequence_in, body_in, Fits, MarkFits, IsKept, IsFilled, MayHold, IsSettled, ShowsEither, MarkShows, Attempts, IsSet, IsSameBut, LoadGives};

    /// Makes the file a mark with this body and sequence 1: cuts it to nothing, writes both slots
    /// closed, and opens the first, with a sync after each of the three.
    pub fn format<D: Disk>(disk: &mut D, file: u32, body: &[u8; 48]) -> Result<Mark, DiskFailed>
        ensures mark { IfOk result (λ m. (file_of m ≡ file) × (sequence_in m ≡ 1) × (body_in m ≡ body.now)) }
        ensures bodies { IfOk result (λ m. (b : List ℕ) → MayHold m b → b ≡ body.now) }
        ensures kept { IfOk result (IsKept (D.state disk.new)) }
        ensures now { OnOk result ((c : List ℕ) → (D.state disk.new).may_leave file c → Shows 1 body.now c) }
        // Nothing is left of what the file held before.
        ensures left { OnOk result (Only (new_mark body.now) ((D.state disk.new).may_leave file)) }
        ensures seen { OnOk result (IsTrue D.tells → (D.state disk.new).seen file ≡ new_mark body.now) }
        ensures any_moment { FileRun file (D.state disk.old) (D.state disk.new) (λ c. Unit {0}) }
        ensures cause { Charges D.faults disk.old disk.new (IsErr result) }
    {
        clear(disk, file)?;
        write_through(disk, file, 0, &closed_slots(body))?;
        write_through(disk, file, 0, &[OPEN])?;
        Ok(Mark {
            file,
            sequence: 1,
            body: *body,
            current: Slot::First,
            rest: Rest::Closed,
        })
    }

    /// Reads the mark of a file, after a sync of it.
    pub fn load<D: Disk>(disk: &mut D, file: u32) -> Result<Mark, MarkFault>
        ensures gives { IsTrue D.tells → LoadGives ((D.state disk.old).seen file) result }
        ensures mark { IfOk result (λ m. (file_of m ≡ file) × (sequence_in m ≤ 2 ^ 61)) }
        ensures bodies { IfOk result (λ m. (b : List ℕ) → MayHold m b → b ≡ body_in m) }
        ensures kept { IfOk result (IsKept (D.state disk.new)) }
        ensures quiet { Quiet (D.state disk.old) (D.state disk.new) }
        ensures cause { Charges D.faults disk.old disk.new (IsErrOf result Failed) }
    {
        let mut slots = [0; 1024];
        match read_both(disk, file, &mut slots) {
            Ok(is_long) => {
                if is_long {
                    Mark::read(file, &slots)
                } else {
                    Err(MarkFault::NoMark)
                }
            }
            Err(_) => Err(MarkFault::Failed),
        }
    }

    // The mark that both slots hold.
    fn read(file: u32, slots: &[u8; 1024]) -> Result<Mark, MarkFault>
        ensures gives { LoadGives slots.now result }
        ensures fits { IfOk result (λ m. MarkFits m slots.now) }
        ensures file { IfOk result (λ m. m.file ≡ file) }
        ensures bodies { IfOk result (λ m. (b : List ℕ) → m.rest ≡ Attempted b → ⊥) }
        ensures failed { IsErrOf result Failed → ⊥ }
    {
        match Mark::counted(file, slots) {
            None => Err(MarkFault::NoMark),
            Some(mark) if mark.sequence > MAX_LOADED => Err(MarkFault::Worn(mark.sequence)),
            Some(mark) => Ok(mark),
        }
    }

    // The mark of the slot that counts.
    fn counted(file: u32, slots: &[u8; 1024]) -> Option<Mark>
        ensures none { IfNone result (mark_of slots.now ≡ None) }
        ensures shows { IfSome result (λ m. Shows m.sequence m.body slots.now) }
        ensures fits { IfSome result (λ m. MarkFits m slots.now) }
        ensures file { IfSome result (λ m. m.file ≡ file) }
        ensures bodies { IfSome result (λ m. (b : List ℕ) → m.rest ≡ Attempted b → ⊥) }
    {
        let first = read_slot(slots, Slot::First);
        let second = read_slot(slots, Slot::Second);
        let is_second = second.is_open && (!first.is_open || first.sequence < second.sequence);
        let (counting, current) = if is_second {
            (second, Slot::Second)
        } else {
            (first, Slot::First)
        };
        if !counting.is_open {
            return None;
        }
        let rest = if first.is_open && second.is_open {
            Rest::Stale
        } else {
            Rest::Closed
        };
        let body = counting.body;
        Some(Mark {
            file,
            sequence: counting.sequence,
            body,
            current,
            rest,
        })
    }

    /// The body of the last load, format or set that succeeded.
    pub fn get(&self) -> [u8; 48]
        ensures { result ≡ body_in self.now }
    {
        self.body
    }

    /// Its sequence, which each set that succeeds raises by one.
    pub fn sequence(&self) -> u64
        ensures { result ≡ sequence_in self.now }
    {
        self.sequence
    }

    /// Whether a crash leaves the body of the last load, format or set that succeeded, and no other
    /// that was attempted since.
    pub fn is_settled(&self) -> bool
        ensures { IsTrue result ↔ IsSettled self.now }
    {
        match self.rest {
            Rest::Attempted(body) => body == self.body,
            _ => true,
        }
    }

    /// Puts another body in the place of the one that counts. After a failure the old one counts,
    /// and a crash leaves the old one or the one that was attempted. A later set heals it.
    pub fn set<D: Disk>(&mut self, disk: &mut D, body: &[u8; 48]) -> Result<(), DiskFailed>
        requires sequence { sequence_in self.old < 2 ^ 63 }
        requires kept { IsKept (D.state disk.old) self.old }
        ensures ok { OnOk result (IsSet self.old body.now self.new) }
        ensures err { OnErr result (IsSameBut self.old self.new × Attempts body.now self.old.rest self.new.rest) }
        ensures ok_bodies { OnOk result ((b : List ℕ) → MayHold self.new b → b ≡ body.now) }
        ensures err_bodies { OnErr result ((b : List ℕ) → MayHold self.new b → MayHold self.old b ⊎ (b ≡ body.now)) }
        // At each moment a crash leaves the old body, or the one body that was attempted by then.
        ensures any_moment { FileRunBy (file_of self.old) (D.state disk.old) (D.state disk.new)
            (λ (attempt : Rest) c. Attempts body.now self.old.rest attempt × ShowsEither self.old attempt c) }
        // What it leaves from now on.
        ensures kept { IsKept (D.state disk.new) self.new }
        ensures now { (c : List ℕ) → (D.state disk.new).may_leave (file_of self.old) c → MarkShows self.new c }
        ensures cause { Charges D.faults disk.old disk.new (IsErr result) }
    {
        self.close(disk)?;
        self.fill(disk, body)?;
        self.open(disk, body)?;
        Ok(())
    }

    // Closes the other slot. A gate that is known closed is not written again, since the write may
    // be torn, and what stands under it may be unsynced.
    fn close<D: Disk>(&mut self, disk: &mut D) -> Result<(), DiskFailed>
        requires kept { IsKept (D.state disk.old) self.old }
        ensures ok { OnOk result (self.new ≡ record self.old { rest = Closed }) }
        ensures err { OnErr result (self.new ≡ self.old) }
        ensures run { FileRun self.old.file (D.state disk.old) (D.state disk.new) (MarkFits self.old) }
        ensures kept { IsKept (D.state disk.new) self.new }
        ensures cause { Charges D.faults disk.old disk.new (IsErr result) }
    {
        match self.rest {
            Rest::Closed => Ok(()),
            _ => {
                self.shut(disk)?;
                Ok(())
            }
        }
    }

    // Writes the other slot's gate closed.
    fn shut<D: Disk>(&mut self, disk: &mut D) -> Result<(), DiskFailed>
        requires kept { IsKept (D.state disk.old) self.old }
        requires rest { self.old.rest ≡ Closed → ⊥ }
        ensures ok { OnOk result (self.new ≡ record self.old { rest = Closed }) }
        ensures err { OnErr result (self.new ≡ self.old) }
        ensures run { FileRun self.old.file (D.state disk.old) (D.state disk.new) (MarkFits self.old) }
        ensures kept { IsKept (D.state disk.new) self.new }
        ensures cause { Charges D.faults disk.old disk.new (IsErr result) }
    {
        write_through(disk, self.file, self.current.other().base(), &[0])?;
        self.rest = Rest::Closed;
        Ok(())
    }

    // Writes the next sequence and the body under the closed gate.
    fn fill<D: Disk>(&self, disk: &mut D, body: &[u8; 48]) -> Result<(), DiskFailed>
        requires sequence { self.now.sequence < 2 ^ 63 }
        requires kept { IsKept (D.state disk.old) self.now }
        requires rest { self.now.rest ≡ Closed }
        ensures filled { OnOk result (IsFilled (D.state disk.new) self.now body.now) }
        ensures run { FileRun self.now.file (D.state disk.old) (D.state disk.new) (MarkFits self.now) }
        ensures kept { IsKept (D.state disk.new) self.now }
        ensures cause { Charges D.faults disk.old disk.new (IsErr result) }
    {
        let bytes = attempt_bytes(self.sequence + 1, body);
        write_through(disk, self.file, self.current.other().base() + 8, &bytes)?;
        Ok(())
    }

    // Opens the other slot, which counts from then on.
    fn open<D: Disk>(&mut self, disk: &mut D, body: &[u8; 48]) -> Result<(), DiskFailed>
        requires sequence { self.old.sequence < 2 ^ 63 }
        requires kept { IsKept (D.state disk.old) self.old }
        requires filled { IsFilled (D.state disk.old) self.old body.now }
        ensures ok { OnOk result (IsSet self.old body.now self.new) }
        ensures err { OnErr result (self.new ≡ record self.old { rest = Attempted body.now }) }
        ensures run { FileRun self.old.file (D.state disk.old) (D.state disk.new)
            (Fits self.old.current self.old.sequence self.old.body (Attempted body.now)) }
        ensures kept { IsKept (D.state disk.new) self.new }
        ensures cause { Charges D.faults disk.old disk.new (IsErr result) }
    {
        // From here on a crash may leave the new body.
        self.rest = Rest::Attempted(*body);
        let other = self.current.other();
        write_through(disk, self.file, other.base(), &[OPEN])?;
        self.sequence += 1;
        self.body = *body;
        self.current = other;
        self.rest = Rest::Stale;
        Ok(())
    }
}

// Cuts a file to nothing, on the disk.
fn clear<D: Disk>(disk: &mut D, file: u32) -> Result<(), DiskFailed>
    ensures empty { OnOk result ((c : List ℕ) → (D.state disk.new).may_leave file c → c ≡ []) }
    ensures run { FileRun file (D.state disk.old) (D.state disk.new) (λ c. Unit {0}) }
    ensures cause { Charges D.faults disk.old disk.new (IsErr result) }
{
    disk.cut(file, 0)?;
    disk.sync(file)?;
    Ok(())
}
