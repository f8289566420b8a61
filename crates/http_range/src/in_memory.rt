//! A link in memory, whose calls fail where they were named to.
ghost use Rattle.std.specs.Prelude.{◌≡◌, ℕ, ◌+◌, ◌-◌, ◌^◌, ◌≤◌, ◌<◌, ◌↔◌, ◌⊎◌, Some, None, [], ◌∷◌, ◌++◌, Bool, ◌||◌, true, false, length, take, drop, min, reverse, is_err, if◌then◌else◌, IsOk, IsErr, OnOk, OnErr, IfOk, Contains};
ghost use Rattle.sector_extent.specs.Causes.{Charges};
ghost use Rattle.http_range.specs.InMemory.{MemDialState, MemLinkState, mem_state, faults_on, first_text, later_texts};
ghost use Rattle.http_range.specs.Links.{Sends, Receives, Redials, is_end};

use crate::links::{Link, LinkFailed};
use sector_extent::{Bytes, CallList, CallPlan, FaultCount, FileTexts, Memory};
use std::alloc::Global;
use std::marker::Model;
use std::mem::replace;

// One dial: what the server sends, and what was sent to it.
#[derive(Drop)]
struct MemDial {
    text: Bytes,
    at: usize,
    sent: Vec<u8>,
    ended: bool,
    faults: FaultCount,
}

impl Model for MemDial {
    ghost use Rattle.std.specs.Prelude.{◌≤◌, take, drop, length};
    ghost use Rattle.http_range.specs.InMemory.{MemDialState};

    ghost Value = { MemDialState };

    ghost view = { λ d. record {
      left = drop d.at d.text;
      sent = d.sent.items;
      received = take d.at d.text;
      ended = d.ended;
      faults = d.faults.count;
    } };

    ghost invariant = { λ d. d.at ≤ length d.text };
}

impl MemDial {
    fn new(alloc: Global, text: Bytes) -> MemDial
        ensures { result ≡ record { left = text; sent = []; received = []; ended = false; faults = 0 } }
    {
        MemDial {
            text,
            at: 0,
            sent: Vec::new(alloc),
            ended: false,
            faults: FaultCount::new(),
        }
    }

    fn send(&mut self, bytes: &[u8]) -> Result<(), Memory>
        ensures ok { OnOk result (self.new ≡ record self.old { sent = self.old.sent ++ bytes.now }) }
        ensures err { OnErr result (self.new ≡ self.old) }
    {
        self.sent.extend_from_slice(bytes)?;
        Ok(())
    }

    fn receive(&mut self, out: &mut [u8]) -> usize
        ensures count { result ≡ min (length out.old) (length self.old.left) }
        ensures left { self.old.left ≡ take result out.new ++ self.new.left }
        ensures received { self.new.received ≡ self.old.received ++ take result out.new }
        ensures same { self.new ≡ record self.old { left = self.new.left; received = self.new.received } }
    {
        let rest = &self.text.as_slice()[self.at..];
        let count = rest.len().min(out.len());
        out[..count].copy_from_slice(&rest[..count]);
        self.at += count;
        count
    }

    fn raise(&mut self)
        ensures { self.new ≡ record self.old { faults = self.old.faults + 1 } }
    {
        self.faults.raise();
    }
}

/// A link over given bytes, a list for each dial. It tells its dials, and no files.
#[derive(Drop)]
pub struct MemLink {
    alloc: Global,
    dial: MemDial,
    past: Vec<MemDial>,
    coming: Vec<Bytes>,
    plan: CallPlan,
    wants: u64,
}

impl Model for MemLink {
    ghost use Rattle.std.specs.Prelude.{reverse};
    ghost use Rattle.http_range.specs.InMemory.{MemLinkState};

    ghost Value = { MemLinkState };

    ghost view = { λ m. record {
      dial = m.dial;
      past = reverse m.past.items;
      coming = reverse m.coming.items;
      failing = m.plan.failing;
      calls = m.plan.calls;
      wants = m.wants;
    } };
}

// The last of them, or no bytes.
fn next_text(alloc: Global, coming: &mut Vec<Bytes>) -> Bytes
    ensures text { result ≡ first_text (reverse coming.old.items) }
    ensures rest { reverse coming.new.items ≡ later_texts (reverse coming.old.items) }
{
    match coming.pop() {
        Some(text) => text,
        None => Bytes::from_vec(Vec::new(alloc)),
    }
}

impl MemLink {
    /// The first dial receives the first of `dials`, and each redial goes on to the next. A dial past
    /// the last one receives the end. The calls, numbered together from 0, whose numbers are in
    /// `failing` fail.
    pub fn new(alloc: Global, dials: FileTexts, failing: CallList) -> MemLink
        ensures { result ≡ record {
          dial = record { left = first_text dials; sent = []; received = []; ended = false; faults = 0 };
          past = [];
          coming = later_texts dials;
          failing = failing;
          calls = 0;
          wants = 0;
        } }
    {
        let mut coming = dials.into_vec();
        coming.reverse();
        let text = next_text(alloc, &mut coming);
        MemLink {
            alloc,
            dial: MemDial::new(alloc, text),
            past: Vec::new(alloc),
            coming,
            plan: CallPlan::new(failing),
            wants: 0,
        }
    }

    /// How many calls found no memory. They are among the faults.
    pub fn wants(&self) -> u64
        ensures { result ≡ self.now.wants }
    {
        self.wants
    }

    /// The bytes sent on the present dial.
    pub fn sent(&self) -> &[u8]
        ensures { result.now ≡ self.now.dial.sent }
    {
        self.dial.sent.as_slice()
    }

    fn want(&mut self) -> LinkFailed
        ensures { self.new ≡ record self.old {
          dial = record self.old.dial { faults = self.old.dial.faults + 1 };
          wants = min (self.old.wants + 1) (2 ^ 64 - 1);
        } }
    {
        self.wants = self.wants.saturating_add(1);
        self.dial.raise();
        LinkFailed
    }
}

impl Link for MemLink {
    ghost use Rattle.http_range.specs.InMemory.{mem_state};

    ghost state = { mem_state };

    ghost serves = { λ _. tt };

    /// A call that was not named to fail fails only where it finds no memory, which `wants` counts.
    fn send(&mut self, bytes: &[u8]) -> Result<(), LinkFailed>
        ensures ok { OnOk result (self.new ≡ record self.old {
          dial = record self.old.dial { sent = self.old.dial.sent ++ bytes.now };
          calls = min (self.old.calls + 1) (2 ^ 64 - 1);
        }) }
        ensures named { Contains self.old.failing self.old.calls → IsErr result × (self.new.wants ≡ self.old.wants) }
        ensures wanted { ¬ Contains self.old.failing self.old.calls
            → OnErr result (self.new.wants ≡ min (self.old.wants + 1) (2 ^ 64 - 1)) }
        ensures err { OnErr result (self.new ≡ record self.old {
          dial = record self.old.dial { faults = self.old.dial.faults + 1 };
          calls = min (self.old.calls + 1) (2 ^ 64 - 1);
          wants = self.new.wants;
        }) }
    {
        if self.plan.next_fails() {
            self.dial.raise();
            return Err(LinkFailed);
        }
        match self.dial.send(bytes) {
            Ok(()) => Ok(()),
            Err(_) => Err(self.want()),
        }
    }

    /// Fails exactly where the call was named to.
    fn receive(&mut self, out: &mut [u8]) -> Result<usize, LinkFailed>
        ensures bytes { Receives (mem_state self.old) (mem_state self.new) out.new result }
        ensures named { IsErr result ↔ Contains self.old.failing self.old.calls }
        ensures count { IfOk result (λ n. n ≡ min (length out.old) (length self.old.dial.left)) }
        ensures ok { IfOk result (λ n. (self.old.dial.left ≡ take n out.new ++ self.new.dial.left)
            × (self.new.dial.received ≡ self.old.dial.received ++ take n out.new)
            × (self.new.dial.ended ≡ (self.old.dial.ended || is_end n out.new))) }
        ensures after { OnOk result (self.new ≡ record self.old {
          dial = record self.old.dial {
            left = self.new.dial.left;
            received = self.new.dial.received;
            ended = self.new.dial.ended;
          };
          calls = min (self.old.calls + 1) (2 ^ 64 - 1);
        }) }
        ensures err { OnErr result (self.new ≡ record self.old {
          dial = record self.old.dial { faults = self.old.dial.faults + 1 };
          calls = min (self.old.calls + 1) (2 ^ 64 - 1);
        }) }
    {
        if self.plan.next_fails() {
            self.dial.raise();
            return Err(LinkFailed);
        }
        let count = self.dial.receive(out);
        if count == 0 && !out.is_empty() {
            self.dial.ended = true;
        }
        Ok(count)
    }

    /// A call that was not named to fail fails only where it finds no memory, which `wants` counts. A
    /// call that fails has left the present dial as it is.
    fn redial(&mut self) -> Result<(), LinkFailed>
        ensures ok { OnOk result (self.new ≡ record self.old {
          dial = record { left = first_text self.old.coming; sent = []; received = []; ended = false; faults = 0 };
          past = self.old.dial ∷ self.old.past;
          coming = later_texts self.old.coming;
          calls = min (self.old.calls + 1) (2 ^ 64 - 1);
        }) }
        ensures named { Contains self.old.failing self.old.calls → IsErr result × (self.new.wants ≡ self.old.wants) }
        ensures wanted { ¬ Contains self.old.failing self.old.calls
            → OnErr result (self.new.wants ≡ min (self.old.wants + 1) (2 ^ 64 - 1)) }
        ensures err { OnErr result (self.new ≡ record self.old {
          dial = record self.old.dial { faults = self.old.dial.faults + 1 };
          calls = min (self.old.calls + 1) (2 ^ 64 - 1);
          wants = self.new.wants;
        }) }
    {
        if self.plan.next_fails() {
            self.dial.raise();
            return Err(LinkFailed);
        }
        if self.past.reserve(1).is_err() {
            return Err(self.want());
        }
        let text = next_text(self.alloc, &mut self.coming);
        let before = replace(&mut self.dial, MemDial::new(self.alloc, text));
        self.past.push_reserved(before);
        Ok(())
    }
}
