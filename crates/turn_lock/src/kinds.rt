//! The kinds of atomic step, each by what it tells the seat that makes it. `Brand` stands for the
//! two that speak of the base and the first number, a look and a claim: the call picks what it tells.
use crate::rule::View;
use atomic_table::{Join, Play, Split};
use flat_image::Named;
use std::marker::{Brand, PhantomData};

impl<V, A> Play<Option<V>, View<A>> for Brand {
    ghost then = { λ _ _ _ _. Unit {0} };
}

/// Names the act of the entry that is to come.
pub struct Name<N> {
    of: PhantomData<N>,
}

impl<V, A, N: Named<A>> Play<Option<V>, View<A>> for Name<N> {
    ghost use Rattle.std.specs.Prelude.{Some};
    ghost use Rattle.turn_lock.specs.Plays.{named_as};

    ghost then = { λ _ before _ after. named_as (Some N.it) before after };
}

/// Gives the turn back with the named entry.
pub struct Note;

impl<V, A> Play<Option<V>, View<A>> for Note {
    ghost use Rattle.turn_lock.specs.Plays.{noted};

    ghost then = { λ _ before _ after. noted before after };
}

/// Gives the turn back without an entry.
pub struct Give;

impl<V, A> Play<Option<V>, View<A>> for Give {
    ghost use Rattle.turn_lock.specs.Plays.{given};

    ghost then = { λ _ before _ after. given before after };
}

/// Makes the seat with the next number.
pub struct Make;

impl<A> Split<View<A>> for Make {
    ghost use Rattle.turn_lock.specs.Plays.{made_one, newcomer};

    ghost left = { made_one };

    ghost right = { newcomer };
}

/// Makes a note of what was seen.
pub struct Tell;

impl<A> Split<View<A>> for Tell {
    ghost use Rattle.turn_lock.specs.Plays.{note_of};

    ghost left = { λ v. v };

    ghost right = { note_of };
}

/// Keeps what the other had seen and kept.
pub struct Keep;

impl<A> Join<View<A>> for Keep {
    ghost use Rattle.turn_lock.specs.Plays.{joined, spent_view};

    ghost both = { joined };

    ghost spent = { spent_view };
}
