//! What the lock's word, its slot and the views of all seats have to do with one history.
use crate::said::Said;
use atomic_table::TableRule;
use flat_image::{Entry, Stands};
use std::collections::LinkedList;

/// What a seat that was joined into another had seen.
pub struct Kept<A> {
    /// 0, or the seat's number and 1.
    pub tag: u64,
    pub seen: LinkedList<Entry<A>>,
}

/// What a seat knows. Views stand in proofs alone, and none is made.
pub struct View<A> {
    /// The beginning of the history that the seat has seen.
    pub seen: LinkedList<Entry<A>>,
    /// 0 for a view that has no number, else the number and 1.
    pub tag: u64,
    /// 0, or the number of the next seat and 1, in the one view that makes seats.
    pub next: u64,
    /// 1 while the seat has the turn, else 0.
    pub holds: u64,
    /// The act of the entry that is to come, once it is named.
    pub named: Option<A>,
    /// The beginnings that joined seats had seen.
    pub kept: LinkedList<Kept<A>>,
}

/// What is fixed when a lock is made.
#[derive(Drop)]
pub struct Key<B> {
    pub base: Said<B>,
    /// The number of the first entry, and how many seats there are.
    pub first: u64,
    pub seats: u64,
}

pub struct Law;

impl<V: Stands> TableRule<Option<V>, View<V::Act>, Key<V::Base>> for Law {
    ghost use Rattle.turn_lock.specs.Ruled.{Ruled, opener};

    ghost holds = { λ key. Ruled V.stands key.base.value key.first key.seats };

    ghost first = { λ _. opener };
}
