//! A port of one thread over an image in memory, for tests.
ghost use Rattle.std.specs.Prelude.{◌≡◌, ℕ, ◌+◌, ◌*◌, ◌/◌, ◌^◌, ◌<◌, ◌≤◌, ◌↔◌, Bool, false, true, [], ◌∷◌, ◌++◌, length, replicate, IsTrue, MatchResult, IfOk, IfErr, IsErrOf, Contains};
ghost use Rattle.flat_image.specs.Sectors.{put_at};
ghost use Rattle.flat_image.specs.Entries.{entry};
ghost use Rattle.flat_image.specs.History.{HasRoom, IsOver, IsWithin};
ghost use Rattle.flat_image.specs.Ports.{IsWorn, ChargesPort, Reads, ReadFails, Makes, ChangeFails, Flushes, FlushFails};
ghost use Rattle.flat_image.specs.PlainPorts.{PlainState, port_of, IsPlain, counted, Counts, NoteFails};

use crate::act::{Act, Asked};
use crate::image_port::ImagePort;
use crate::limits::{HISTORY_ENTRIES, TOP_ROWS, TOP_SECTORS};
use crate::port_fault::PortFault;
use crate::stands::Entry;
use sector_extent::{Bytes, CallList, CallPlan, FaultCount, Memory, SECTOR, rows_needed};
use std::alloc::Global;
use std::marker::Model;

/// Counts a call, and answers whether it was named to fail. No call comes after the last entry.
fn begin(plan: &mut CallPlan, entries: &Vec<Entry<Act>>) -> Result<bool, PortFault>
    ensures counted { plan.new ≡ counted plan.old }
    ensures open { IfOk result (λ fails. (length entries.now.items < 2 ^ 62)
        × (IsTrue fails ↔ Contains plan.old.failing plan.old.calls)) }
    ensures worn { IfErr result (λ fault. (fault ≡ PortFault.Worn) × (2 ^ 62 ≤ length entries.now.items)) }
{
    let fails = plan.next_fails();
    if entries.len() as u64 >= HISTORY_ENTRIES {
        return Err(PortFault::Worn);
    }
    Ok(fails)
}

/// Adds an entry of number 0.
fn push_act(entries: &mut Vec<Entry<Act>>, act: Act) -> Result<(), Memory>
    ensures pushed { MatchResult result
        (λ _. entries.new.items ≡ entries.old.items ++ entry 0 act ∷ [])
        (λ _. entries.new.items ≡ entries.old.items) }
{
    entries.push(Entry { number: 0, act })?;
    Ok(())
}

/// Adds the act, or a fault where the call is to fail.
fn note(
    entries: &mut Vec<Entry<Act>>,
    faults: &mut FaultCount,
    fails: bool,
    act: Act,
) -> Result<(), PortFault>
    ensures noted { MatchResult result
        (λ _. (fails ≡ false) × (entries.new.items ≡ entries.old.items ++ entry 0 act ∷ [])
        × (faults.new.count ≡ faults.old.count))
        (NoteFails fails entries.old.items entries.new.items faults.old.count faults.new.count) }
{
    if fails {
        push_act(entries, Act::Fault(Asked::Nothing))?;
        faults.raise();
        return Err(PortFault::Failed);
    }
    push_act(entries, act)?;
    Ok(())
}

/// Whether a top with these rows and sectors has room for so many more.
fn test_room(rows: u64, filled: u64, more_rows: u64, more_filled: u64) -> Result<(), PortFault>
    requires used { HasRoom rows filled }
    requires small { (more_rows ≤ 2 ^ 32) × (more_filled ≤ 2 ^ 32) }
    ensures room { MatchResult result
        (λ _. HasRoom (rows + more_rows) (filled + more_filled))
        (λ fault. (fault ≡ PortFault.Full rows filled) × IsOver (rows + more_rows) (filled + more_filled)) }
{
    if rows + more_rows > TOP_ROWS || filled + more_filled > TOP_SECTORS {
        return Err(PortFault::Full {
            rows,
            sectors: filled,
        });
    }
    Ok(())
}

/// Copies the bytes to sector `at`.
#[tactic(auto, unfolding(crate::specs::Sectors::put_at))]
fn put(image: &mut [u8], at: u64, bytes: &[u8])
    requires { 512 * at + length bytes.now ≤ length image.old }
    ensures { image.new ≡ put_at (512 * at) bytes.now image.old }
{
    let place = SECTOR * at as usize;
    image[place..place + bytes.len()].copy_from_slice(bytes);
}

/// Makes `count` sectors from `at` on zero.
#[tactic(auto, unfolding(crate::specs::Sectors::put_at))]
fn wipe(image: &mut [u8], at: u64, count: u64)
    requires { 512 * (at + count) ≤ length image.old }
    ensures { image.new ≡ put_at (512 * at) (replicate (512 * count) 0) image.old }
{
    let place = SECTOR * at as usize;
    image[place..place + SECTOR * count as usize].fill(0);
}

/// The image, its entries, what its top has used, and which calls fail.
#[derive(Drop)]
struct PlainParts {
    alloc: Global,
    sectors: u64,
    image: Vec<u8>,
    entries: Vec<Entry<Act>>,
    rows: u64,
    filled: u64,
    plan: CallPlan,
    faults: FaultCount,
}

impl PlainParts {
    ghost use Rattle.flat_image.specs.PlainParts.{view_of, port_in, IsPlainView, Answers};

    fn read(&mut self, at: u64, out: &mut [u8]) -> Result<(), PortFault>
        requires plain { IsPlainView (view_of self.old) }
        requires within { IsWithin self.old.sectors at out.old }
        ensures { Answers (view_of self.old) (view_of self.new) result
            (Reads (port_in (view_of self.old)) (port_in (view_of self.new)) at (length out.new / 512) out.new)
            (ReadFails (port_in (view_of self.old)) (port_in (view_of self.new)) at (length out.new / 512)) }
    {
        let fails = begin(&mut self.plan, &self.entries)?;
        let count = (out.len() / SECTOR) as u64;
        note(
            &mut self.entries,
            &mut self.faults,
            fails,
            Act::Read(at, count),
        )?;
        let place = SECTOR * at as usize;
        out.copy_from_slice(&self.image.as_slice()[place..place + out.len()]);
        Ok(())
    }

    fn write(&mut self, at: u64, bytes: &[u8]) -> Result<(), PortFault>
        requires plain { IsPlainView (view_of self.old) }
        requires within { IsWithin self.old.sectors at bytes.now }
        ensures { Answers (view_of self.old) (view_of self.new) result
            (Makes (port_in (view_of self.old)) (port_in (view_of self.new)) (Act.Write at bytes.now))
            (ChangeFails (port_in (view_of self.old)) (port_in (view_of self.new)) (Act.Write at bytes.now)) }
    {
        let fails = begin(&mut self.plan, &self.entries)?;
        let count = (bytes.len() / SECTOR) as u64;
        let rows = rows_needed(count);
        test_room(self.rows, self.filled, rows, count)?;
        let copy = Bytes::from_vec(Vec::from_slice(self.alloc, bytes)?);
        note(
            &mut self.entries,
            &mut self.faults,
            fails,
            Act::Write(at, copy),
        )?;
        put(self.image.as_mut_slice(), at, bytes);
        self.rows += rows;
        self.filled += count;
        Ok(())
    }

    fn zero(&mut self, at: u64, count: u64) -> Result<(), PortFault>
        requires plain { IsPlainView (view_of self.old) }
        requires within { at + count ≤ self.old.sectors }
        ensures { Answers (view_of self.old) (view_of self.new) result
            (Makes (port_in (view_of self.old)) (port_in (view_of self.new)) (Act.Zero at count))
            (ChangeFails (port_in (view_of self.old)) (port_in (view_of self.new)) (Act.Zero at count)) }
    {
        let fails = begin(&mut self.plan, &self.entries)?;
        let rows = rows_needed(count);
        test_room(self.rows, self.filled, rows, 0)?;
        note(
            &mut self.entries,
            &mut self.faults,
            fails,
            Act::Zero(at, count),
        )?;
        wipe(self.image.as_mut_slice(), at, count);
        self.rows += rows;
        Ok(())
    }

    fn flush(&mut self) -> Result<(), PortFault>
        requires plain { IsPlainView (view_of self.old) }
        ensures { Answers (view_of self.old) (view_of self.new) result
            (Flushes (port_in (view_of self.old)) (port_in (view_of self.new)))
            (FlushFails true (port_in (view_of self.old)) (port_in (view_of self.new))) }
    {
        let fails = begin(&mut self.plan, &self.entries)?;
        note(&mut self.entries, &mut self.faults, fails, Act::Flush)
    }
}

/// A port of one thread over an image in memory, for tests. Its number and its first number are 0,
/// and it is alone in its history. It counts rows and sectors as a top does, and keeps its entries,
/// so each call may want memory.
#[derive(Drop)]
pub struct PlainPort {
    parts: PlainParts,
}

impl Model for PlainPort {
    ghost use Rattle.flat_image.specs.PlainPorts.{PlainState};

    ghost Value = { PlainState };

    ghost use Rattle.flat_image.specs.PlainParts.{view_of, state_of, IsPlainView};

    ghost view = { λ p. state_of (view_of p.parts) };

    ghost invariant = { λ p. IsPlainView (view_of p.parts) };
}

impl PlainPort {
    ghost use Rattle.flat_image.specs.PlainPorts.{IsFresh};

    /// An image of so many sectors of zeros. The calls of read, write, zero and flush whose numbers,
    /// from 0, are in `failing` fail, where they are not refused for another cause.
    pub fn new(alloc: Global, sectors: u64, failing: CallList) -> Result<PlainPort, Memory>
        requires { (1 ≤ sectors) × (sectors ≤ 2 ^ 31) }
        ensures { IfOk result (IsFresh sectors failing) }
    {
        let image = vec![in alloc; 0; SECTOR * sectors as usize]?;
        let parts = PlainParts {
            alloc,
            sectors,
            image,
            entries: Vec::new(alloc),
            rows: 0,
            filled: 0,
            plan: CallPlan::new(failing),
            faults: FaultCount::new(),
        };
        Ok(PlainPort { parts })
    }
}

impl ImagePort for PlainPort {
    ghost state = { port_of };

    ghost flush_takes_memory = { true };

    fn sectors(&self) -> u64 {
        self.parts.sectors
    }

    fn read(&mut self, at: u64, out: &mut [u8]) -> Result<(), PortFault>
        requires { IsWithin self.old.sectors at out.old }
        ensures read { MatchResult result
            (λ _. Reads (port_of self.old) (port_of self.new) at (length out.new / 512) out.new)
            (ReadFails (port_of self.old) (port_of self.new) at (length out.new / 512)) }
        ensures cause { ChargesPort (port_of self.old) (port_of self.new) result }
        ensures worn { IsWorn (port_of self.old) → IsErrOf result PortFault.Worn }
        ensures counts { Counts self.old self.new result }
    {
        self.parts.read(at, out)
    }

    fn write(&mut self, at: u64, bytes: &[u8]) -> Result<(), PortFault>
        requires { IsWithin self.old.sectors at bytes.now }
        ensures write { MatchResult result
            (λ _. Makes (port_of self.old) (port_of self.new) (Act.Write at bytes.now))
            (ChangeFails (port_of self.old) (port_of self.new) (Act.Write at bytes.now)) }
        ensures cause { ChargesPort (port_of self.old) (port_of self.new) result }
        ensures worn { IsWorn (port_of self.old) → IsErrOf result PortFault.Worn }
        ensures counts { Counts self.old self.new result }
    {
        self.parts.write(at, bytes)
    }

    fn zero(&mut self, at: u64, count: u64) -> Result<(), PortFault>
        requires { at + count ≤ self.old.sectors }
        ensures zero { MatchResult result
            (λ _. Makes (port_of self.old) (port_of self.new) (Act.Zero at count))
            (ChangeFails (port_of self.old) (port_of self.new) (Act.Zero at count)) }
        ensures cause { ChargesPort (port_of self.old) (port_of self.new) result }
        ensures worn { IsWorn (port_of self.old) → IsErrOf result PortFault.Worn }
        ensures counts { Counts self.old self.new result }
    {
        self.parts.zero(at, count)
    }

    fn flush(&mut self) -> Result<(), PortFault>
        ensures flush { MatchResult result
            (λ _. Flushes (port_of self.old) (port_of self.new))
            (FlushFails true (port_of self.old) (port_of self.new)) }
        ensures cause { ChargesPort (port_of self.old) (port_of self.new) result }
        ensures worn { IsWorn (port_of self.old) → IsErrOf result PortFault.Worn }
        ensures counts { Counts self.old self.new result }
    {
        self.parts.flush()
    }
}
