//! A seat of a lock, and the turn.
ghost use Rattle.std.specs.Prelude.{◌≡◌};
ghost use Rattle.turn_lock.specs.Passes.{place_of, IsSeat};

use crate::desk::Pass;
use flat_image::Stands;
use sector_extent::ListOf;
use std::marker::Model;

/// A seat of a lock, with which one thread takes turns. It has no bytes.
#[derive(Drop)]
pub struct Seat<V: Stands> {
    pub(crate) pass: Pass<V>,
}

impl<V: Stands> Model for Seat<V> {
    ghost use Rattle.turn_lock.specs.Locks.{Place};

    ghost Value = { Place V.Act };

    ghost use Rattle.turn_lock.specs.Passes.{place_of, IsSeat};

    ghost view = { λ s. place_of s.pass.table_id s.pass.me };

    ghost invariant = { λ s. IsSeat s.pass.me };
}

/// The turn, with the value. It must be given back, by `note` or `give`.
pub struct Held<V> {
    pub value: V,
}

/// The seats of a lock, by number.
pub type SeatList<V> = ListOf<Seat<V>>;

impl<V: Stands> Seat<V> {
    pub(crate) fn of(pass: Pass<V>) -> Seat<V>
        requires { IsSeat pass.me }
        ensures { result ≡ place_of pass.table_id pass.me }
    {
        Seat { pass }
    }

    pub(crate) fn into_pass(self) -> Pass<V>
        ensures seat { IsSeat result.me }
        ensures same { self ≡ place_of result.table_id result.me }
    {
        self.pass
    }
}
