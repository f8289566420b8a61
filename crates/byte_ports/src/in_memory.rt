//! A source and a sink in memory, whose calls fail where they were named to.
ghost use Rattle.std.specs.Prelude.{◌≡◌, ℕ, ◌+◌, ◌-◌, ◌^◌, ◌≤◌, ◌↔◌, ◌⊎◌, Some, [], length, take, drop, min, is_err, if◌then◌else◌, IsOk, IsErr, OnErr, IfOk, Contains};
ghost use Rattle.std.specs.Io.{ReadsAtMost};
ghost use Rattle.std.specs.Io.KnownBytes.{ReadConsumes};
ghost use Rattle.sector_extent.specs.Causes.{Charges};
ghost use Rattle.byte_ports.specs.Ports.{WritesAll};

use crate::ports::{PortFailed, Sink, Source};
use sector_extent::{Bytes, CallList, CallPlan, FaultCount};
use std::alloc::Global;
use std::marker::Model;

/// A source of given bytes. It tells them.
#[derive(Drop)]
pub struct MemSource {
    bytes: Bytes,
    at: usize,
    plan: CallPlan,
    faults: FaultCount,
}

impl Model for MemSource {
    ghost use Rattle.std.specs.Prelude.{◌≤◌, drop, length};
    ghost use Rattle.byte_ports.specs.InMemory.{SourceState};

    ghost Value = { SourceState };

    ghost view = { λ s. record {
      left = drop s.at s.bytes;
      failing = s.plan.failing;
      calls = s.plan.calls;
      faults = s.faults.count;
    } };

    ghost invariant = { λ s. s.at ≤ length s.bytes };
}

impl MemSource {
    /// The calls of `read` whose numbers, from 0, are in `failing` fail.
    pub fn new(bytes: Bytes, failing: CallList) -> MemSource
        ensures { result ≡ record { left = bytes; failing = failing; calls = 0; faults = 0 } }
    {
        MemSource {
            bytes,
            at: 0,
            plan: CallPlan::new(failing),
            faults: FaultCount::new(),
        }
    }
}

impl Source for MemSource {
    ghost left = { λ s. Some s.left };

    ghost faults = { λ s. s.faults };

    /// Takes as many bytes as there are and fit. The number of calls stands still at 2^64 - 1.
    fn read(&mut self, out: &mut [u8]) -> Result<usize, PortFailed>
        ensures bound { ReadsAtMost result out.new }
        ensures bytes { ReadConsumes (Some self.old.left) (Some self.new.left) result out.new }
        ensures cause { Charges (λ port. port.faults) self.old self.new (IsErr result) }
        ensures named { IsErr result ↔ Contains self.old.failing self.old.calls }
        ensures count { IfOk result (λ n. n ≡ min (length out.old) (length self.old.left)) }
        ensures raised { self.new.faults ≡ (if is_err result then self.old.faults + 1 else self.old.faults) }
        ensures counted { self.new.calls ≡ min (self.old.calls + 1) (2 ^ 64 - 1) }
        ensures same { self.new.failing ≡ self.old.failing }
    {
        if self.plan.next_fails() {
            self.faults.raise();
            return Err(PortFailed);
        }
        let rest = &self.bytes.as_slice()[self.at..];
        let count = rest.len().min(out.len());
        out[..count].copy_from_slice(&rest[..count]);
        self.at += count;
        Ok(count)
    }
}

/// A sink that keeps what is written. It tells it.
#[derive(Drop)]
pub struct MemSink {
    bytes: Vec<u8>,
    plan: CallPlan,
    wants: u64,
    faults: FaultCount,
}

impl Model for MemSink {
    ghost use Rattle.std.specs.Prelude.{◌≤◌};
    ghost use Rattle.byte_ports.specs.InMemory.{SinkState};

    ghost Value = { SinkState };

    ghost view = { λ s. record {
      bytes = s.bytes.items;
      failing = s.plan.failing;
      calls = s.plan.calls;
      wants = s.wants;
      faults = s.faults.count;
    } };

    ghost invariant = { λ s. s.wants ≤ s.faults.count };
}

impl MemSink {
    /// The calls of `write_all` whose numbers, from 0, are in `failing` fail.
    pub fn new(alloc: Global, failing: CallList) -> MemSink
        ensures { result ≡ record { bytes = []; failing = failing; calls = 0; wants = 0; faults = 0 } }
    {
        MemSink {
            bytes: Vec::new(alloc),
            plan: CallPlan::new(failing),
            wants: 0,
            faults: FaultCount::new(),
        }
    }

    pub fn into_bytes(self) -> Bytes
        ensures { result ≡ self.bytes }
    {
        Bytes::from_vec(self.bytes)
    }

    /// How many writes found no memory. They are among the faults.
    pub fn wants(&self) -> u64
        ensures wants { result ≡ self.now.wants }
        ensures part { self.now.wants ≤ self.now.faults }
    {
        self.wants
    }
}

impl Sink for MemSink {
    ghost written = { λ s. Some s.bytes };

    ghost faults = { λ s. s.faults };

    /// A call that was not named to fail fails only where it finds no memory, which `wants` counts.
    /// A call that fails has written nothing. The numbers of calls and of wants stand still at
    /// 2^64 - 1.
    fn write_all(&mut self, bytes: &[u8]) -> Result<(), PortFailed>
        ensures bytes { WritesAll (Some self.old.bytes) (Some self.new.bytes) result bytes.now }
        ensures cause { Charges (λ port. port.faults) self.old self.new (IsErr result) }
        ensures nothing { OnErr result (self.new.bytes ≡ self.old.bytes) }
        ensures raised { self.new.faults ≡ (if is_err result then self.old.faults + 1 else self.old.faults) }

        ensures named { Contains self.old.failing self.old.calls → IsErr result }
        ensures wanted { ¬ Contains self.old.failing self.old.calls
            → OnErr result (self.new.wants ≡ min (self.old.wants + 1) (2 ^ 64 - 1)) }
        ensures no_want { Contains self.old.failing self.old.calls ⊎ IsOk result
            → self.new.wants ≡ self.old.wants }
        ensures counted { self.new.calls ≡ min (self.old.calls + 1) (2 ^ 64 - 1) }
        ensures same { self.new.failing ≡ self.old.failing }
    {
        if self.plan.next_fails() {
            self.faults.raise();
            return Err(PortFailed);
        }
        match self.bytes.extend_from_slice(bytes) {
            Ok(()) => Ok(()),
            Err(_) => {
                self.wants = self.wants.saturating_add(1);
                self.faults.raise();
                Err(PortFailed)
            }
        }
    }
}
