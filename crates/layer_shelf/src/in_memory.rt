//! A shelf in memory, whose calls fail where they were named to.
ghost use Rattle.std.specs.Prelude.{◌≡◌, ℕ, ◌+◌, ◌-◌, ◌^◌, ◌<◌, ◌≤◌, ◌↔◌, ◌⊎◌, Some, length, take, drop, min, is_err, if◌then◌else◌, IsNone, IsErr, OnOk, IfOk, IfSome, Contains};
ghost use Rattle.layer_shelf.specs.Shelves.{file_at};

use crate::shelves::{Shelf, ShelfFailed};
use sector_extent::{CallList, CallPlan, FaultCount, FileTexts};
use std::marker::Model;

/// The greatest length of a file in bytes.
pub const MAX_LENGTH: u64 = 1 << 50;

/// A shelf of given files. It tells them.
#[derive(Drop)]
pub struct MemShelf {
    files: FileTexts,
    plan: CallPlan,
    faults: FaultCount,
}

impl Model for MemShelf {
    ghost use Rattle.std.specs.Prelude.{◌^◌, ◌<◌, length};
    ghost use Rattle.layer_shelf.specs.Shelves.{ShelfState};

    ghost Value = { ShelfState };

    ghost view = { λ s. record {
      files = s.files;
      failing = s.plan.failing;
      calls = s.plan.calls;
      faults = s.faults.count;
    } };

    ghost invariant = { λ s. length s.files < 2 ^ 32 };
}

impl MemShelf {
    /// The calls of `length` and `read`, numbered together from 0, whose numbers are in `failing` fail.
    pub fn new(files: FileTexts, failing: CallList) -> MemShelf
        requires { length files < 2 ^ 32 }
        ensures { result ≡ record { files = files; failing = failing; calls = 0; faults = 0 } }
    {
        MemShelf {
            files,
            plan: CallPlan::new(failing),
            faults: FaultCount::new(),
        }
    }

    pub fn into_files(self) -> FileTexts
        ensures { result ≡ self.files }
    {
        self.files
    }
}

impl Shelf for MemShelf {
    ghost files = { λ s. Some s.files };

    ghost count = { λ s. length s.files };

    ghost faults = { λ s. s.faults };

    ghost use Rattle.std.specs.Prelude.{refl};

    ghost counted = { λ _. refl };

    fn count(&self) -> u32
        ensures { result ≡ length self.now.files }
    {
        self.files.as_slice().len() as u32
    }

    /// Fails exactly where the call was named to, and at a file of over 2^50 bytes.
    fn length(&mut self, k: u32) -> Result<u64, ShelfFailed>
        requires { k < length self.old.files }
        ensures failed { IsErr result
            ↔ (Contains self.old.failing self.old.calls ⊎ (2 ^ 50 < length (file_at self.old.files k))) }
        ensures length { IfOk result (λ n. n ≡ length (file_at self.old.files k)) }
        ensures after { self.new ≡ record self.old {
          calls = min (self.old.calls + 1) (2 ^ 64 - 1);
          faults = (if is_err result then self.old.faults + 1 else self.old.faults);
        } }
    {
        if self.plan.next_fails() {
            self.faults.raise();
            return Err(ShelfFailed);
        }
        let length = file_of(&self.files, k).len() as u64;
        if length > MAX_LENGTH {
            self.faults.raise();
            return Err(ShelfFailed);
        }
        Ok(length)
    }

    /// Fails exactly where the call was named to, and at a range that is not empty and goes past the
    /// end.
    fn read(&mut self, k: u32, at: u64, out: &mut [u8]) -> Result<(), ShelfFailed>
        requires file { k < length self.old.files }
        requires range { at + length out.old ≤ 2 ^ 50 }
        ensures failed { IsErr result
            ↔ (Contains self.old.failing self.old.calls
            ⊎ ((0 < length out.old) × (length (file_at self.old.files k) < at + length out.old))) }
        ensures bytes { OnOk result (out.new ≡ take (length out.old) (drop at (file_at self.old.files k))) }
        ensures after { self.new ≡ record self.old {
          calls = min (self.old.calls + 1) (2 ^ 64 - 1);
          faults = (if is_err result then self.old.faults + 1 else self.old.faults);
        } }
    {
        if self.plan.next_fails() {
            self.faults.raise();
            return Err(ShelfFailed);
        }
        match piece(file_of(&self.files, k), at, out.len()) {
            Some(bytes) => {
                out.copy_from_slice(bytes);
                Ok(())
            }
            None => {
                self.faults.raise();
                Err(ShelfFailed)
            }
        }
    }
}

fn file_of(files: &FileTexts, k: u32) -> &[u8]
    requires { k < length files.now }
    ensures { result.now ≡ file_at files.now k }
{
    files.as_slice()[k as usize].as_slice()
}

// The bytes of a range, unless it is not empty and goes past the end.
fn piece(file: &[u8], at: u64, count: usize) -> Option<&[u8]>
    requires { at + count ≤ 2 ^ 50 }
    ensures none { IsNone result ↔ ((0 < count) × (length file.now < at + count)) }
    ensures bytes { IfSome result (λ bytes. bytes.now ≡ take count (drop at file.now)) }
    ensures count { IfSome result (λ bytes. length bytes.now ≡ count) }
{
    if count == 0 {
        return Some(&file[..0]);
    }
    let from = at as usize;
    if from + count > file.len() {
        return None;
    }
    Some(&file[from..from + count])
}
