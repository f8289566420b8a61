//! The lock's table, and the atomic steps on it.
ghost use Rattle.std.specs.Prelude.{◌≡◌, ◌≢◌, ◌+◌, ◌-◌, ◌%◌, ◌^◌, ◌<◌, ◌≤◌, ◌++◌, ◌∷◌, [], ℕ, List, true, false, None, Some, length, IfOk, IfErr};
ghost use Rattle.flat_image.specs.Entries.{entry, StartsWith};
ghost use Rattle.flat_image.specs.declared.stands.Entry.{Entry};
ghost use Rattle.turn_lock.specs.Locks.{IsLater, place};
ghost use Rattle.turn_lock.specs.Passes.{place_of, IsSeat, HasTurn, IsWord, Has, Ends};
ghost use Rattle.turn_lock.specs.Ruled.{opener};
ghost use Rattle.turn_lock.specs.Plays.{Looked, Claimed, joined, newcomer};

use crate::kinds::{Give, Keep, Make, Name, Note, Tell};
use crate::rule::{Key, Law, View};
use crate::worn::Worn;
use atomic_table::{Refused, Seat, Table};
use flat_image::{Named, Stands};
use sector_extent::Memory;
use std::alloc::{AllocFailed, Global};
use std::hint::spin_loop;
use std::marker::Brand;
use std::sync::Wait;
use std::sync::atomic::{AtomicU64, Ordering};

/// The word once the history has as many entries as it may have.
pub(crate) const END: u64 = 1 << 63;

// How often a thread looks before it sleeps.
const LOOKS: u32 = 64;

/// A seat of the table.
pub(crate) type Pass<V> = Seat<Option<V>, View<<V as Stands>::Act>>;

#[derive(Drop)]
pub(crate) struct Desk<V: Stands> {
    pub(crate) table: Table<Option<V>, View<V::Act>, Key<V::Base>, Law, Global>,
    // How many threads wait.
    waiting: AtomicU64,
    ghost words: { table.shared.table_id.words ≡ 1 },
    ghost slots: { table.shared.table_id.slots ≡ 1 },
}

// The value in a list of one slot.
fn slot_of<V>(mut slots: Vec<Option<V>>) -> V
    requires { (value : V) × (slots.items ≡ Some value ∷ []) }
    ensures { slots.items ≡ Some result ∷ [] }
{
    let last = slots.pop();
    slots.destroy_empty();
    match last {
        Some(Some(value)) => value,
        _ => unreachable!(),
    }
}

// A list of one slot, with the value in it.
fn one_slot<V>(alloc: Global, value: V) -> Result<Vec<Option<V>>, V>
    ensures ok { IfOk result (λ slots. slots.items ≡ Some value ∷ []) }
    ensures err { IfErr result (λ back. back ≡ value) }
{
    let mut slots = Vec::new(alloc);
    match slots.push(Some(value)) {
        Ok(()) => Ok(slots),
        Err(AllocFailed { value }) => {
            slots.destroy_empty();
            match value {
                Some(value) => Err(value),
                None => unreachable!(),
            }
        }
    }
}

impl<V: Stands> Desk<V> {
    /// A table with the value in its slot, and the pass that makes all others.
    pub(crate) fn open(
        alloc: Global,
        value: V,
        about: &Key<V::Base>,
    ) -> Result<(Desk<V>, Pass<V>), (V, Memory)>
        requires first { about.now.first ≤ 2 ^ 62 }
        requires stands { V.stands value about.now.base.value about.now.first [] }
        ensures ok { IfOk result (λ made. (made.0.table.shared.key ≡ about.now)
            × (made.1.table_id ≡ made.0.table.shared.table_id) × (made.1.me ≡ (opener, []))) }
        ensures err { IfErr result (λ back. back.0 ≡ value) }
    {
        let slots = match one_slot(alloc, value) {
            Ok(slots) => slots,
            Err(value) => return Err((value, Memory)),
        };
        match Table::new(alloc, &[2 * about.first], slots, about) {
            Ok((table, pass)) => Ok((
                Desk {
                    table,
                    waiting: AtomicU64::new(0),
                },
                pass,
            )),
            Err(Refused { slots }) => Err((slot_of(slots), Memory)),
        }
    }

    /// Makes the seat with the next number.
    pub(crate) fn next_seat(&self, maker: &mut Pass<V>) -> Pass<V>
        requires lock { maker.old.table_id ≡ self.now.table.shared.table_id }
        requires next { (0 < maker.old.me.0.next) × (maker.old.me.0.next ≤ self.now.table.shared.key.seats) }
        ensures lock { (maker.new.table_id ≡ maker.old.table_id) × (result.table_id ≡ maker.old.table_id) }
        ensures next { maker.new.me.0.next ≡ maker.old.me.0.next + 1 }
        ensures seat { result.me ≡ (newcomer maker.old.me.0, []) }
    {
        self.table.shared.split_seat::<Make>(maker)
    }

    /// Joins a pass into another, which keeps what it had seen.
    pub(crate) fn join(&self, pass: &mut Pass<V>, other: Pass<V>)
        requires lock { (pass.old.table_id ≡ self.now.table.shared.table_id)
            × (other.table_id ≡ self.now.table.shared.table_id) }
        requires idle { (other.me.0.holds ≡ 0) × (other.me.1 ≡ []) }
        ensures lock { pass.new.table_id ≡ pass.old.table_id }
        ensures joined { pass.new.me ≡ (joined pass.old.me.0 other.me.0, pass.old.me.1) }
    {
        self.table.shared.join_seat::<Keep>(pass, other);
    }

    /// Lets `to` see what `from` has seen.
    pub(crate) fn meet(&self, from: &mut Pass<V>, to: &mut Pass<V>)
        requires lock { (from.old.table_id ≡ self.now.table.shared.table_id)
            × (to.old.table_id ≡ self.now.table.shared.table_id) }
        requires seat { IsSeat from.old.me × IsSeat to.old.me }
        ensures from { (from.new.table_id ≡ from.old.table_id) × (from.new.me ≡ from.old.me) }
        ensures seat { IsSeat to.new.me }
        ensures later { IsLater (place_of to.old.table_id to.old.me) (place_of to.new.table_id to.new.me) }
        ensures turn { to.new.me.0.holds ≡ to.old.me.0.holds }
        ensures seen { StartsWith to.new.me.0.seen from.old.me.0.seen }
        ensures room { self.now.table.shared.key.first + length to.new.me.0.seen ≤ 2 ^ 62 }
    {
        let note = self.table.shared.split_seat::<Tell>(from);
        self.join(to, note);
        self.look(to);
    }

    // Reads the word. The pass has then seen all of the history.
    fn look(&self, pass: &mut Pass<V>) -> u64
        requires { pass.old.table_id ≡ self.now.table.shared.table_id }
        ensures same { pass.new.table_id ≡ pass.old.table_id }
        ensures looked { Looked self.now.table.shared.key.first pass.old.me result pass.new.me }
    {
        self.table.shared.load::<Brand>(pass, 0)
    }

    // Takes the turn if the word is as it was found, and reads the word in any case.
    fn claim(&self, pass: &mut Pass<V>, found: u64) -> u64
        requires lock { pass.old.table_id ≡ self.now.table.shared.table_id }
        requires free { (found < 2 ^ 63) × (found % 2 ≡ 0) }
        requires numbered { 0 < pass.old.me.0.tag }
        ensures same { pass.new.table_id ≡ pass.old.table_id }
        ensures claimed { let key = self.now.table.shared.key in
            Claimed V.stands key.base.value key.first found pass.old.me result pass.new.me }
    {
        self.table
            .shared
            .compare_exchange::<Brand>(pass, 0, found, found + 1)
    }

    // The value, out of the slot.
    fn take(&self, pass: &mut Pass<V>) -> V
        requires lock { pass.old.table_id ≡ self.now.table.shared.table_id }
        requires full { (value : V) × (pass.old.me.1 ≡ (0, Some value) ∷ []) }
        ensures same { pass.new.table_id ≡ pass.old.table_id }
        ensures taken { (pass.old.me.1 ≡ (0, Some result) ∷ []) × (pass.new.me ≡ (pass.old.me.0, (0, None) ∷ [])) }
    {
        match self.table.shared.exchange(pass, 0, None) {
            Some(value) => value,
            None => unreachable!(),
        }
    }

    // The value, back into the slot.
    fn put(&self, pass: &mut Pass<V>, value: V)
        requires lock { pass.old.table_id ≡ self.now.table.shared.table_id }
        requires empty { pass.old.me.1 ≡ (0, None) ∷ [] }
        ensures same { pass.new.table_id ≡ pass.old.table_id }
        ensures put { pass.new.me ≡ (pass.old.me.0, (0, Some value) ∷ []) }
    {
        let before = self.table.shared.exchange(pass, 0, Some(value));
        let None = before else { unreachable!() };
    }

    // One try to take the turn. `found` is the word as it was found, and so is an `Err`.
    fn attempt<R: Wait>(&self, rt: &R, pass: &mut Pass<V>, found: u64) -> Result<V, u64>
        requires lock { pass.old.table_id ≡ self.now.table.shared.table_id }
        requires seat { IsSeat pass.old.me × (pass.old.me.0.holds ≡ 0) }
        requires below { found < 2 ^ 63 }
        ensures lock { pass.new.table_id ≡ pass.old.table_id }
        ensures seat { IsSeat pass.new.me }
        ensures later { IsLater (place_of pass.old.table_id pass.old.me) (place_of pass.new.table_id pass.new.me) }
        ensures ok { let key = self.now.table.shared.key in
            IfOk result (λ value. HasTurn V.stands key.base.value key.first value pass.new.me) }
        ensures err { IfErr result (λ word. (pass.new.me.0.holds ≡ 0)
            × IsWord self.now.table.shared.key.first pass.new.me.0.seen word) }
    {
        if found % 2 == 1 {
            self.wait(rt, found);
            return Err(self.look(pass));
        }
        let now = self.claim(pass, found);
        if now == found {
            Ok(self.take(pass))
        } else {
            Err(now)
        }
    }

    /// Waits for the turn, and takes the value.
    pub(crate) fn hold<R: Wait>(&self, rt: &R, pass: &mut Pass<V>) -> Result<V, Worn>
        requires lock { pass.old.table_id ≡ self.now.table.shared.table_id }
        requires seat { IsSeat pass.old.me × (pass.old.me.0.holds ≡ 0) }
        ensures lock { pass.new.table_id ≡ pass.old.table_id }
        ensures seat { IsSeat pass.new.me }
        ensures later { IsLater (place_of pass.old.table_id pass.old.me) (place_of pass.new.table_id pass.new.me) }
        ensures ok { let key = self.now.table.shared.key in
            IfOk result (λ value. HasTurn V.stands key.base.value key.first value pass.new.me) }
        ensures err { IfErr result (λ _. (pass.new.me.0.holds ≡ 0)
            × (self.now.table.shared.key.first + length pass.new.me.0.seen ≡ 2 ^ 62)) }
    {
        let mut found = self.look(pass);
        for _ in rt.forever() {
            if found == END {
                self.wake();
                return Err(Worn);
            }
            match self.attempt(rt, pass, found) {
                Ok(value) => return Ok(value),
                Err(now) => found = now,
            }
        }
        unreachable!()
    }

    /// Gives the turn back with an entry.
    pub(crate) fn note<N: Named<V::Act>>(&self, pass: &mut Pass<V>, value: V)
        requires lock { pass.old.table_id ≡ self.now.table.shared.table_id }
        requires seat { IsSeat pass.old.me × (pass.old.me.0.holds ≡ 1) }
        requires stands { let key = self.now.table.shared.key in
            V.stands value key.base.value key.first
            (pass.old.me.0.seen ++ entry (pass.old.me.0.tag - 1) N.it ∷ []) }
        ensures seat { IsSeat pass.new.me }
        ensures noted { let number = pass.old.me.0.tag - 1 in place_of pass.new.table_id pass.new.me
            ≡ place pass.old.table_id number (pass.old.me.0.seen ++ entry number N.it ∷ []) false }
    {
        self.table.shared.load::<Name<N>>(pass, 0);
        self.put(pass, value);
        self.table.shared.fetch_add::<Note>(pass, 0, 1);
        self.wake();
    }

    /// Gives the turn back without an entry.
    pub(crate) fn give(&self, pass: &mut Pass<V>, value: V)
        requires lock { pass.old.table_id ≡ self.now.table.shared.table_id }
        requires seat { IsSeat pass.old.me × (pass.old.me.0.holds ≡ 1) }
        requires stands { let key = self.now.table.shared.key in
            V.stands value key.base.value key.first pass.old.me.0.seen }
        ensures seat { IsSeat pass.new.me }
        ensures given { place_of pass.new.table_id pass.new.me
            ≡ place pass.old.table_id (pass.old.me.0.tag - 1) pass.old.me.0.seen false }
    {
        self.put(pass, value);
        self.table.shared.fetch_sub::<Give>(pass, 0, 1);
        self.wake();
    }

    // Waits until the word is no more as it was found, or for nothing.
    fn wait<R: Wait>(&self, rt: &R, found: u64) {
        for _ in 0..LOOKS {
            if self.table.shared.peek(0) != found {
                return;
            }
            spin_loop();
        }
        self.waiting.fetch_add(1, Ordering::SeqCst);
        self.table.shared.park(rt, 0, (found % (1 << 32)) as u32);
        self.waiting.fetch_sub(1, Ordering::SeqCst);
    }

    // Wakes a thread that waits.
    fn wake(&self) {
        if self.waiting.load(Ordering::SeqCst) > 0 {
            self.table.shared.wake_one(0);
        }
    }

    /// Takes the value out of the table, by the pass that has what all seats had seen.
    pub(crate) fn shut(self, pass: Pass<V>) -> V
        requires lock { pass.table_id ≡ self.table.shared.table_id }
        requires idle { pass.me.0.holds ≡ 0 }
        requires all { (k : ℕ) → k < self.table.shared.key.seats
            → (seen : List (Entry V.Act)) × Has pass.me.0 k seen }
        ensures { let key = self.table.shared.key in
            Ends V.stands key.base.value key.first key.seats result pass.me.0 }
    {
        let Desk { table, waiting } = self;
        waiting.into_inner();
        let mut closed = table.close_with(pass);
        let slot = closed.take(0);
        closed.free();
        match slot {
            Some(value) => value,
            None => unreachable!(),
        }
    }
}
