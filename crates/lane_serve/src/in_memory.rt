//! A listener in memory, for tests.
ghost use Rattle.std.specs.Prelude.{◌≡◌, ◌+◌, ◌-◌, ◌^◌, ◌<◌, ◌≤◌, [], ◌∷◌, ◌++◌, min, length, vec_capacity, true, Contains, Some, IfOk, IsErr, OnErr, MatchOption};
ghost use Rattle.sector_extent.specs.Causes.{Charges};
ghost use Rattle.lane_serve.specs.InMemory.{source_of, sink_of, new_listener, told_by};
ghost use Rattle.lane_serve.specs.Listeners.{Accepts, MayFinish, Finishes};

use crate::listener::{ListenFailed, Listener};
use byte_ports::{MemSink, MemSource};
use sector_extent::{Bytes, CallList, CallPlan, FaultCount, FileTexts, ListOf};
use std::alloc::{AllocError, Global};
use std::marker::Model;

/// A connection that was taken back, with its end.
#[derive(Drop)]
pub struct TakenBack<E> {
    pub source: MemSource,
    pub sink: MemSink,
    pub end: E,
}

/// Connections that were taken back, in order.
pub type TakenList<E> = ListOf<TakenBack<E>>;

/// Gives each connection once, in order, as a source of its bytes and an empty sink, and then no more.
/// It tells them. It takes the room for a connection that comes back when it gives it.
#[derive(Drop)]
pub struct MemListener<E> {
    alloc: Global,
    connections: FileTexts,
    given: usize,
    ended: bool,
    taken: Vec<TakenBack<E>>,
    plan: CallPlan,
    wants: u64,
    faults: FaultCount,
}

impl<E> Model for MemListener<E> {
    ghost use Rattle.std.specs.Prelude.{◌≤◌, length, vec_capacity};
    ghost use Rattle.lane_serve.specs.InMemory.{ListenerState};

    ghost Value = { ListenerState E };

    ghost view = { λ s. record {
      connections = s.connections;
      failing = s.plan.failing;
      calls = s.plan.calls;
      count = s.given;
      ended = s.ended;
      back = s.taken.items;
      wants = s.wants;
      faults = s.faults.count;
    } };

    ghost invariant = { λ s. (s.given ≤ length s.connections) × (length s.taken.items ≤ s.given)
        × (s.given ≤ vec_capacity s.taken) × (s.wants ≤ s.faults.count) };
}

impl<E> MemListener<E> {
    /// The calls of `accept` whose numbers, from 0, are in `failing` fail.
    pub fn new(alloc: Global, connections: FileTexts, failing: CallList) -> MemListener<E>
        ensures { result ≡ new_listener connections failing }
    {
        MemListener {
            alloc,
            connections,
            given: 0,
            ended: false,
            taken: Vec::new(alloc),
            plan: CallPlan::new(failing),
            wants: 0,
            faults: FaultCount::new(),
        }
    }

    pub fn into_taken(self) -> TakenList<E>
        ensures { result ≡ self.back }
    {
        ListOf::from_vec(self.taken)
    }

    /// How many calls of `accept` found no memory. They are among the faults.
    pub fn wants(&self) -> u64
        ensures wants { result ≡ self.now.wants }
        ensures part { self.now.wants ≤ self.now.faults }
    {
        self.wants
    }

    fn want(&mut self) -> ListenFailed
        ensures { self.new ≡ record self.old {
          wants = min (self.old.wants + 1) (2 ^ 64 - 1);
          faults = self.old.faults + 1;
        } }
    {
        self.wants = self.wants.saturating_add(1);
        self.faults.raise();
        ListenFailed
    }
}

// A source of these bytes, and an empty sink. No call of them is named to fail.
fn connection(alloc: Global, bytes: &[u8]) -> Result<(MemSource, MemSink), AllocError>
    ensures { IfOk result (λ made. (made.0 ≡ source_of bytes.now) × (made.1 ≡ sink_of)) }
{
    let bytes = Bytes::from_vec(Vec::from_slice(alloc, bytes)?);
    let source = MemSource::new(bytes, CallList::from_vec(Vec::new(alloc)));
    let sink = MemSink::new(alloc, CallList::from_vec(Vec::new(alloc)));
    Ok((source, sink))
}

// Makes room for one connection more than were given to come back.
fn make_room<E>(taken: &mut Vec<TakenBack<E>>, given: usize) -> Result<(), AllocError>
    requires back { length taken.old.items ≤ given }
    requires few { given + 1 < 2 ^ 64 }
    ensures items { taken.new.items ≡ taken.old.items }
    ensures more { vec_capacity taken.old ≤ vec_capacity taken.new }
    ensures room { IfOk result (λ _. given + 1 ≤ vec_capacity taken.new) }
{
    let wanted = given - taken.len() + 1;
    taken.reserve(wanted)?;
    Ok(())
}

impl<E> Listener for MemListener<E> {
    type A = MemSource;

    type B = MemSink;

    type E = E;

    ghost use Rattle.std.specs.Prelude.{Some};
    ghost use Rattle.lane_serve.specs.InMemory.{told_by};

    ghost faults = { λ s. s.faults };

    ghost told = { λ s. Some (told_by s) };

    /// A call that was not named to fail fails only where it finds no memory, which `wants` counts. The
    /// numbers of calls and of wants stand still at 2^64 - 1.
    fn accept(&mut self) -> Result<Option<(MemSource, MemSink)>, ListenFailed>
        ensures told { Accepts (Some (told_by self.old)) (Some (told_by self.new)) result }
        ensures cause { Charges (λ listener. listener.faults) self.old self.new (IsErr result) }
        ensures ok { IfOk result (λ given. MatchOption given
            ((self.old.count ≡ length self.old.connections) × (self.new ≡ record self.old {
              ended = true;
              calls = min (self.old.calls + 1) (2 ^ 64 - 1);
            }))
            (λ _. self.new ≡ record self.old {
              count = self.old.count + 1;
              calls = min (self.old.calls + 1) (2 ^ 64 - 1);
            })) }
        ensures named { Contains self.old.failing self.old.calls → IsErr result × (self.new.wants ≡ self.old.wants) }
        ensures wanted { ¬ Contains self.old.failing self.old.calls
            → OnErr result (self.new.wants ≡ min (self.old.wants + 1) (2 ^ 64 - 1)) }
        ensures err { OnErr result (self.new ≡ record self.old {
          faults = self.old.faults + 1;
          calls = min (self.old.calls + 1) (2 ^ 64 - 1);
          wants = self.new.wants;
        }) }
    {
        if self.plan.next_fails() {
            self.faults.raise();
            return Err(ListenFailed);
        }
        if self.given == self.connections.as_slice().len() {
            self.ended = true;
            return Ok(None);
        }
        if make_room(&mut self.taken, self.given).is_err() {
            return Err(self.want());
        }
        let bytes = self.connections.as_slice()[self.given].as_slice();
        match connection(self.alloc, bytes) {
            Ok(made) => {
                self.given += 1;
                Ok(Some(made))
            }
            Err(_) => Err(self.want()),
        }
    }

    fn finish(&mut self, source: MemSource, sink: MemSink, end: E)
        requires { MayFinish (Some (told_by self.old)) }
        ensures told { Finishes (Some (told_by self.old)) (Some (told_by self.new)) source sink end }
        ensures calm { self.new.faults ≡ self.old.faults }
        ensures back { self.new ≡ record self.old { back = self.new.back } }
    {
        self.taken.push_reserved(TakenBack { source, sink, end });
    }
}
