//! The lock and its seats as contracts see them.
ghost use Rattle.std.specs.Prelude.{◌≡◌, ◌+◌, ◌^◌, ◌<◌, ◌≤◌, ◌++◌, ◌∷◌, [], List, true, false, All, Ok, length, vec_capacity, IfOk, IfErr};
ghost use Rattle.flat_image.specs.declared.stands.Entry.{Entry};
ghost use Rattle.flat_image.specs.Entries.{entry, StartsWith};
ghost use Rattle.turn_lock.specs.Locks.{place, IsLater, AreSeats, IsHistory};
ghost use Rattle.turn_lock.specs.Ruled.{opener};
ghost use Rattle.turn_lock.specs.Passes.{AreNew, Gathers};

use crate::desk::{Desk, Pass};
use crate::rule::Key;
use crate::said::Said;
use crate::seat::{Held, Seat, SeatList};
use crate::worn::Worn;
use flat_image::{Named, Stands};
use sector_extent::{ListOf, Memory};
use std::alloc::Global;
use std::marker::Model;
use std::sync::Wait;

/// A lock on a value that stands for a base and a history of acts. Its entries are numbered from
/// `first` on, and it has a fixed number of seats, numbered from 0.
#[derive(Drop)]
pub struct Turn<V: Stands> {
    desk: Desk<V>,
}

impl<V: Stands> Model for Turn<V> {
    ghost use Rattle.std.specs.Prelude.{ℕ, ◌<◌};
    ghost use Rattle.turn_lock.specs.Locks.{Lock};

    ghost Value = { Lock V.Base };

    ghost view = { λ t. let shared = t.desk.table.shared in record {
      id = shared.table_id;
      base = shared.key.base.value;
      first = shared.key.first;
      seats = shared.key.seats;
    } };

    ghost invariant = { λ t. 0 < t.desk.table.shared.key.seats };
}

impl<V: Stands> Turn<V> {
    /// A lock with so many seats on a value that stands for the base that `N` names, where the
    /// first entry will have the number `first`.
    pub fn start<N: Named<V::Base>>(
        alloc: Global,
        value: V,
        seats: u32,
        first: u64,
    ) -> Result<(Turn<V>, SeatList<V>), (V, Memory)>
        requires seats { 0 < seats }
        requires first { first ≤ 2 ^ 62 }
        requires stands { V.stands value N.it first [] }
        ensures lock { IfOk result (λ made. (made.0.base ≡ N.it) × (made.0.first ≡ first)
            × (made.0.seats ≡ seats)) }
        ensures seats { IfOk result (λ made. AreSeats made.0.id seats made.1 × All (λ s. s.seen ≡ []) made.1) }
        ensures err { IfErr result (λ back. back.0 ≡ value) }
    {
        let mut list = match Vec::with_capacity(alloc, seats as usize) {
            Ok(list) => list,
            Err(error) => return Err((value, error.into())),
        };
        let about = Key {
            base: Said::of::<N>(),
            first,
            seats: u64::from(seats),
        };
        let (desk, maker) = Desk::open(alloc, value, &about)?;
        deal(&desk, maker, seats, &mut list);
        Ok((Turn { desk }, ListOf::from_vec(list)))
    }

    /// Waits for the turn. The seat has then seen all of the history, and the value stands for it.
    pub fn hold<R: Wait>(&self, rt: &R, seat: &mut Seat<V>) -> Result<Held<V>, Worn>
        requires lock { seat.old.lock ≡ self.now.id }
        requires idle { seat.old.holds ≡ false }
        ensures later { IsLater seat.old seat.new }
        ensures ok { IfOk result (λ held. (seat.new.holds ≡ true)
            × V.stands held.value self.now.base self.now.first seat.new.seen
            × (self.now.first + length seat.new.seen < 2 ^ 62)) }
        ensures worn { IfErr result (λ _. (seat.new.holds ≡ false)
            × (self.now.first + length seat.new.seen ≡ 2 ^ 62)) }
    {
        let value = self.desk.hold(rt, &mut seat.pass)?;
        Ok(Held { value })
    }

    /// Gives the turn back with one entry, the act that `N` names under the seat's number.
    pub fn note<N: Named<V::Act>>(&self, seat: &mut Seat<V>, held: Held<V>)
        requires lock { seat.old.lock ≡ self.now.id }
        requires turn { seat.old.holds ≡ true }
        requires stands { let history = seat.old.seen ++ entry seat.old.number N.it ∷ [] in
            V.stands held.value self.now.base self.now.first history }
        ensures { let history = seat.old.seen ++ entry seat.old.number N.it ∷ [] in
            seat.new ≡ place seat.old.lock seat.old.number history false }
    {
        let Held { value } = held;
        self.desk.note::<N>(&mut seat.pass, value);
    }

    /// Gives the turn back without an entry.
    pub fn give(&self, seat: &mut Seat<V>, held: Held<V>)
        requires lock { seat.old.lock ≡ self.now.id }
        requires turn { seat.old.holds ≡ true }
        requires stands { V.stands held.value self.now.base self.now.first seat.old.seen }
        ensures { seat.new ≡ place seat.old.lock seat.old.number seat.old.seen false }
    {
        let Held { value } = held;
        self.desk.give(&mut seat.pass, value);
    }

    /// Lets `to` see what `from` has seen. It waits for nobody and takes no memory.
    pub fn meet(&self, from: &mut Seat<V>, to: &mut Seat<V>) -> Result<(), Memory>
        requires lock { (from.old.lock ≡ self.now.id) × (to.old.lock ≡ self.now.id) }
        ensures from { from.new ≡ from.old }
        ensures later { IsLater to.old to.new }
        ensures turn { to.new.holds ≡ to.old.holds }
        ensures seen { StartsWith to.new.seen from.old.seen }
        ensures room { self.now.first + length to.new.seen ≤ 2 ^ 62 }
        ensures ok { result ≡ Ok tt }
    {
        self.desk.meet(&mut from.pass, &mut to.pass);
        Ok(())
    }

    /// The value, once all seats are given back and none has the turn.
    pub fn close(self, seats: SeatList<V>) -> V
        requires { AreSeats self.id self.seats seats }
        ensures { (history : List (Entry V.Act)) × V.stands result self.base self.first history
            × IsHistory seats history }
    {
        let pass = gather(&self.desk, seats.into_vec());
        let Turn { desk } = self;
        desk.shut(pass)
    }
}

// Makes the seats, by number.
fn deal<V: Stands>(desk: &Desk<V>, mut maker: Pass<V>, seats: u32, list: &mut Vec<Seat<V>>)
    requires room { (list.old.items ≡ []) × (vec_capacity list.old ≡ seats) }
    requires lock { maker.table_id ≡ desk.now.table.shared.table_id }
    requires count { seats ≡ desk.now.table.shared.key.seats }
    requires maker { maker.me ≡ (opener, []) }
    ensures { AreNew maker.table_id seats list.new.items }
{
    for _ in 0..seats {
        let pass = desk.next_seat(&mut maker);
        list.push_reserved(Seat::of(pass));
    }
}

// One pass that has what each of the seats had seen.
fn gather<V: Stands>(desk: &Desk<V>, mut seats: Vec<Seat<V>>) -> Pass<V>
    requires seats { AreSeats desk.now.table.shared.table_id desk.now.table.shared.key.seats seats.items }
    requires some { 0 < desk.now.table.shared.key.seats }
    ensures lock { result.table_id ≡ desk.now.table.shared.table_id }
    ensures idle { result.me.0.holds ≡ 0 }
    ensures all { Gathers seats.items result.me.0 }
{
    let Some(last) = seats.pop() else {
        unreachable!()
    };
    let mut pass = last.into_pass();
    while let Some(seat) = seats.pop() {
        desk.join(&mut pass, seat.into_pass());
    }
    pass
}
