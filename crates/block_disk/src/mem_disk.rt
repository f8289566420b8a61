ghost use Rattle.std.specs.Prelude.{◌≡◌, ℕ, ◌+◌, ◌-◌, ◌/◌, ◌^◌, ◌<◌, ◌≤◌, min, List, [], ◌∷◌, length, take, reverse, refl, true, IsTrue, OnOk, OnErr, IfOk, MatchResult, IsErr};
ghost use Rattle.sector_extent.specs.Causes.{Charges};
ghost use Rattle.block_disk.specs.Changes.{piece, put, Torn, Cut, Same, Only, WroteInPart, CutInPart};
ghost use Rattle.block_disk.specs.DiskState.{Steps, MayLeave};
ghost use Rattle.block_disk.specs.FileMap.{bytes_in, listed};

use crate::disk::{Disk, DiskFailed, MAX_FILE};
use crate::files::FileMap;
use crate::history::History;
use crate::plan::Plan;
use sector_extent::{Bytes, CallList, CallPlan, FaultCount, ListOf, Memory};
use std::alloc::Global;
use std::collections::BTreeMap;

/// Files with their numbers.
pub type FileList = ListOf<(u32, Bytes)>;

/// A disk in memory. It keeps a record of its calls, so that a crash can be tried at any moment.
#[derive(Drop)]
pub struct MemDisk {
    pub(crate) alloc: Global,
    pub(crate) history: History,
    plan: Plan,
    wants: u64,
    faults: FaultCount,
    ghost counted: { wants ≤ faults.count },
}

fn file_map(alloc: Global, files: FileList) -> Result<FileMap, Memory>
    ensures { IfOk result (λ map. (f : ℕ) → bytes_in map f ≡ listed (reverse files) f) }
{
    let mut map = BTreeMap::new(alloc);
    for (number, bytes) in files.into_vec() {
        map.insert(number, bytes.into_vec())?;
    }
    Ok(map)
}

// Counts a call that found no memory.
fn count_want(wants: &mut u64, faults: &mut FaultCount)
    ensures wants { wants.new ≡ min (wants.old + 1) (2 ^ 64 - 1) }
    ensures faults { faults.new.count ≡ faults.old.count + 1 }
{
    *wants = wants.saturating_add(1);
    faults.raise();
}

impl MemDisk {
    ghost use Rattle.block_disk.specs.MemDisk.{mem_state, plan_of, wants_of, IsFresh, OnlyPlan};
    ghost use Rattle.block_disk.specs.HistoryState.{start_of, past_of};

    /// A disk on which each file is empty.
    pub fn new(alloc: Global) -> MemDisk
        ensures empty { (f : ℕ) → (mem_state result).seen f ≡ [] }
        ensures fresh { IsFresh result }
    {
        let history = History {
            start: BTreeMap::new(alloc),
            contents: BTreeMap::new(alloc),
            calls: Vec::new(alloc),
        };
        MemDisk::with(alloc, history)
    }

    /// A disk that holds these files. Of two with one number the later counts.
    pub fn of(alloc: Global, files: FileList) -> Result<MemDisk, Memory>
        ensures files { IfOk result (λ disk. (f : ℕ) → (mem_state disk).seen f ≡ listed (reverse files) f) }
        ensures fresh { IfOk result IsFresh }
    {
        let start = file_map(alloc, files)?;
        Ok(MemDisk::with(alloc, History::over(alloc, start)?))
    }

    pub(crate) fn with(alloc: Global, history: History) -> MemDisk
        ensures history { result.history ≡ history }
        ensures plan { plan_of result ≡ record { named = record { failing = []; calls = 0 }; stop = None } }
        ensures wants { wants_of result ≡ 0 }
        ensures faults { result.faults.count ≡ 0 }
    {
        MemDisk {
            alloc,
            history,
            plan: Plan {
                named: CallPlan::new(CallList::from_vec(Vec::new(alloc))),
                stop: None,
            },
            wants: 0,
            faults: FaultCount::new(),
        }
    }

    /// From now on the calls with these numbers fail, where the next call is number 0. Calls that
    /// were named before are forgotten.
    pub fn fail(&mut self, calls: CallList)
        ensures plan { plan_of self.new ≡ record (plan_of self.old) { named = record { failing = calls; calls = 0 } } }
        ensures same { OnlyPlan self.old self.new }
    {
        self.plan.named = CallPlan::new(calls);
    }

    /// The disk stops at the call of that number, where the next call is number 0: that call and
    /// every later one fail.
    pub fn stop(&mut self, call: u64)
        ensures plan { plan_of self.new ≡ record (plan_of self.old) { stop = Some call } }
        ensures same { OnlyPlan self.old self.new }
    {
        self.plan.stop = Some(call);
    }

    /// How many calls have failed for want of memory. The count stands still at 2^64 - 1.
    pub fn wants(&self) -> u64
        ensures wants { result ≡ wants_of self.now }
        ensures counted { result ≤ self.now.faults.count }
    {
        self.wants
    }
}

impl Disk for MemDisk {
    ghost use Rattle.block_disk.specs.declared.history.DiskCall.TheVariants.{Wrote, CutOff, Synced};
    ghost use Rattle.block_disk.specs.MemDisk.{mem_state, Answers, Records};
    ghost use Rattle.block_disk.specs.HistoryLaws.{seen_stays, now_is_at, at_is_now};
    ghost use Rattle.block_disk.specs.HistoryState.{start_of, past_of};

    ghost tells = { true };

    ghost state = { mem_state };

    ghost faults = { λ d. d.faults.count };

    ghost told = { λ d f c left. refl };

    ghost seen_may_stay = { λ d f told. seen_stays (start_of d.history) (past_of d.history) f };

    ghost now_at = { λ d files left. now_is_at (start_of d.history) (past_of d.history) files left };

    ghost at_now = { λ d files left. at_is_now (start_of d.history) (past_of d.history) files left };

    fn size(&mut self, file: u32) -> Result<u64, DiskFailed>
        ensures size { IfOk result (λ n. n ≡ length ((mem_state self.old).seen file)) }
        ensures limit { IfOk result (λ n. n ≤ 2 ^ 50) }
        ensures steps { Steps file Same (mem_state self.old) (mem_state self.new) }
        ensures may_leave { MayLeave file Same (mem_state self.old) (mem_state self.new) }
        ensures cause { Charges (λ disk. disk.faults.count) self.old self.new (IsErr result) }
        ensures answers { Answers (2 ^ 50 < length ((mem_state self.old).seen file)) self.old self.new result }
    {
        let is_named = self.plan.next_fails();
        let size = self.history.bytes(file).len() as u64;
        if is_named || size > MAX_FILE {
            self.faults.raise();
            return Err(DiskFailed);
        }
        Ok(size)
    }

    fn read_at(&mut self, file: u32, at: u64, out: &mut [u8]) -> Result<(), DiskFailed>
        requires { at + length out.old ≤ 2 ^ 50 }
        ensures within { OnOk result (at + length out.new ≤ length ((mem_state self.old).seen file)) }
        ensures bytes { OnOk result (out.new ≡ piece at (length out.new) ((mem_state self.old).seen file)) }
        ensures steps { Steps file Same (mem_state self.old) (mem_state self.new) }
        ensures may_leave { MayLeave file Same (mem_state self.old) (mem_state self.new) }
        ensures cause { Charges (λ disk. disk.faults.count) self.old self.new (IsErr result) }
        ensures answers { Answers
            (length ((mem_state self.old).seen file) < at + length out.new) self.old self.new result }
    {
        let is_named = self.plan.next_fails();
        let bytes = self.history.bytes(file);
        let from = at as usize;
        if is_named || bytes.len() < from + out.len() {
            self.faults.raise();
            return Err(DiskFailed);
        }
        out.copy_from_slice(&bytes[from..from + out.len()]);
        Ok(())
    }

    fn write_at(&mut self, file: u32, at: u64, bytes: &[u8]) -> Result<(), DiskFailed>
        requires { at + length bytes.now ≤ 2 ^ 50 }
        ensures written { OnOk result
            ((mem_state self.new).seen file ≡ put ((mem_state self.old).seen file) at bytes.now) }
        ensures in_part { OnErr result
            (WroteInPart at bytes.now ((mem_state self.old).seen file) ((mem_state self.new).seen file)) }
        ensures steps { Steps file (Torn at (length bytes.now)) (mem_state self.old) (mem_state self.new) }
        ensures may_leave { MatchResult result
            (λ _. MayLeave file (Torn at (length bytes.now)) (mem_state self.old) (mem_state self.new))
            (λ _. MayLeave file Same (mem_state self.old) (mem_state self.new)) }
        ensures cause { Charges (λ disk. disk.faults.count) self.old self.new (IsErr result) }
        ensures records { Records (Wrote file at bytes.now)
            (Wrote file at (take (length bytes.now / 2) bytes.now) ∷ []) self.old self.new result }
    {
        if self.plan.next_fails() {
            // It has written its first half, where there was memory for it.
            let _ = self
                .history
                .write(self.alloc, file, at, &bytes[..bytes.len() / 2]);
            self.faults.raise();
            return Err(DiskFailed);
        }
        match self.history.write(self.alloc, file, at, bytes) {
            Ok(()) => Ok(()),
            Err(_) => {
                count_want(&mut self.wants, &mut self.faults);
                Err(DiskFailed)
            }
        }
    }

    fn cut(&mut self, file: u32, length: u64) -> Result<(), DiskFailed>
        ensures cut { OnOk result ((mem_state self.new).seen file ≡ take length ((mem_state self.old).seen file)) }
        ensures in_part { OnErr result (CutInPart ((mem_state self.old).seen file) ((mem_state self.new).seen file)) }
        ensures steps { Steps file (Cut length) (mem_state self.old) (mem_state self.new) }
        ensures may_leave { MatchResult result
            (λ _. MayLeave file (Cut length) (mem_state self.old) (mem_state self.new))
            (λ _. MayLeave file Same (mem_state self.old) (mem_state self.new)) }
        ensures cause { Charges (λ disk. disk.faults.count) self.old self.new (IsErr result) }
        ensures records { Records (CutOff file length) [] self.old self.new result }
    {
        if self.plan.next_fails() {
            self.faults.raise();
            return Err(DiskFailed);
        }
        match self.history.cut(file, length) {
            Ok(()) => Ok(()),
            Err(_) => {
                count_want(&mut self.wants, &mut self.faults);
                Err(DiskFailed)
            }
        }
    }

    fn sync(&mut self, file: u32) -> Result<(), DiskFailed>
        ensures durable { OnOk result (Only ((mem_state self.new).seen file) ((mem_state self.new).may_leave file)) }
        ensures steps { Steps file Same (mem_state self.old) (mem_state self.new) }
        ensures others { (f : ℕ) (c : List ℕ) → ¬ (f ≡ file) → (mem_state self.old).may_leave f c
            → (mem_state self.new).may_leave f c }
        ensures cause { Charges (λ disk. disk.faults.count) self.old self.new (IsErr result) }
        ensures records { Records (Synced file) [] self.old self.new result }
    {
        if self.plan.next_fails() {
            self.faults.raise();
            return Err(DiskFailed);
        }
        match self.history.sync(file) {
            Ok(()) => Ok(()),
            Err(_) => {
                count_want(&mut self.wants, &mut self.faults);
                Err(DiskFailed)
            }
        }
    }
}
