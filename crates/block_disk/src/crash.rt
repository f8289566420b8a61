//! A crash of a disk in memory, by going through the record of its calls.
ghost use Rattle.std.specs.Prelude.{◌≡◌, ℕ, ◌%◌, ◌==◌, List, ◌∷◌, OnOk, IfOk};
ghost use Rattle.block_disk.specs.FileMap.{bytes_in};
ghost use Rattle.block_disk.specs.History.{marked};
ghost use Rattle.block_disk.specs.Replay.{Replays};
ghost use Rattle.block_disk.specs.declared.history.DiskCall.{DiskCall};

use crate::files::{FileMap, bytes_of, copy_of, cut_in, set_in, write_in};
use crate::history::{DiskCall, History};
use crate::mem_disk::MemDisk;
use sector_extent::Memory;
use std::alloc::Global;

/// What a crash leaves of each file of a disk in memory.
#[derive(Clone, Copy, Debug, PartialEq, Eq)]
pub enum CrashChoice {
    /// What the last sync that succeeded fixed.
    Old,
    /// What a read gives.
    New,
    /// What a read gives, with each byte written since the last sync that succeeded, at an odd
    /// place, made 0xA5.
    Torn,
}

// The bytes, with those at odd places made 0xA5.
fn marked_bytes(alloc: Global, at: u64, bytes: &[u8]) -> Result<Vec<u8>, Memory>
    ensures { IfOk result (λ v. v.items ≡ marked (at % 2 == 1) bytes.now) }
{
    let mut out = Vec::with_capacity(alloc, bytes.len())?;
    let mut is_odd = at % 2 == 1;
    for byte in bytes {
        out.push(if is_odd { 0xA5 } else { *byte })?;
        is_odd = !is_odd;
    }
    Ok(out)
}

// Goes on by one call.
fn replay(
    alloc: Global,
    choice: CrashChoice,
    seen: &mut FileMap,
    left: &mut FileMap,
    call: &DiskCall,
) -> Result<(), Memory>
    ensures { OnOk result ((start : ℕ → List ℕ) (past : List DiskCall) → Replays choice start past seen.old left.old
        → Replays choice start (call.now ∷ past) seen.new left.new) }
{
    match call {
        DiskCall::Wrote { file, at, bytes } => {
            let bytes = bytes.as_slice();
            write_in(alloc, seen, *file, *at as usize, bytes)?;
            match choice {
                CrashChoice::Old => {}
                CrashChoice::New => write_in(alloc, left, *file, *at as usize, bytes)?,
                CrashChoice::Torn => {
                    let marked = marked_bytes(alloc, *at, bytes)?;
                    write_in(alloc, left, *file, *at as usize, marked.as_slice())?;
                }
            }
        }
        DiskCall::CutOff { file, size } => {
            cut_in(seen, *file, *size as usize);
            if choice != CrashChoice::Old {
                cut_in(left, *file, *size as usize);
            }
        }
        DiskCall::Synced { file } => set_in(alloc, left, *file, bytes_of(seen, *file))?,
    }
    Ok(())
}

impl History {
    ghost use Rattle.block_disk.specs.History.{left_by};
    ghost use Rattle.block_disk.specs.HistoryState.{past_of, start_of};

    // What the choice leaves of each file.
    pub(crate) fn left(&self, alloc: Global, choice: CrashChoice) -> Result<FileMap, Memory>
        ensures { IfOk result (λ left.
            (f : ℕ) → bytes_in left f ≡ left_by choice (start_of self.now) (past_of self.now) f) }
    {
        let mut seen = copy_of(&self.start)?;
        let mut left = copy_of(&self.start)?;
        for call in self.calls.iter() {
            replay(alloc, choice, &mut seen, &mut left, call)?;
        }
        Ok(left)
    }
}

impl MemDisk {
    ghost use Rattle.block_disk.specs.DiskState.{Leaves};
    ghost use Rattle.block_disk.specs.History.{left_by};
    ghost use Rattle.block_disk.specs.MemDisk.{mem_state, start_files, recorded, IsFresh};

    /// The disk after a crash at this moment. It is a new disk, with no call named to fail.
    pub fn crash(self, choice: CrashChoice) -> Result<MemDisk, Memory>
        ensures left { IfOk result (λ disk.
            (f : ℕ) → (mem_state disk).seen f ≡ left_by choice (start_files self) (recorded self) f) }
        ensures image { IfOk result (λ disk. Leaves (mem_state self) (mem_state disk).seen) }
        ensures fresh { IfOk result IsFresh }
    {
        let left = self.history.left(self.alloc, choice)?;
        let history = History::over(self.alloc, left)?;
        Ok(MemDisk::with(self.alloc, history))
    }
}
