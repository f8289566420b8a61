//! A value that contracts name and no program makes.
ghost use Rattle.std.specs.Prelude.{◌≡◌};
ghost use Rattle.std.specs.Borrow.{ftrue};

use flat_image::Named;
use std::marker::{Model, PhantomData};

/// What a value of type `X` says of one of type `A`, which only contracts read.
pub trait Property<X, A> {
    ghost holds: { X → A → Type 0 };
}

/// Stands for a value of type `A`, which only contracts read. It has no bytes.
pub struct Said<A> {
    marker: PhantomData<A>,
    pub ghost value: { A },
}

impl<A> Model for Said<A> {
    ghost also_owns = { λ _. ftrue };
}

// It has no bytes, so there is nothing that a thread could share.
unsafe impl<A> Send for Said<A> {}

impl<A> Said<A> {
    /// The value that `N` names.
    pub fn of<N: Named<A>>() -> Said<A>
        ensures { result.value ≡ N.it }
    {
        Said {
            marker: PhantomData,
        }
    }

    /// A value that has the property, where there is one.
    pub fn such<X, P: Property<X, A>>(x: &X) -> Said<A>
        requires { (a : A) × P.holds x.now a }
        ensures { P.holds x.now result.value }
    {
        let _ = x;
        Said {
            marker: PhantomData,
        }
    }
}

impl<A> Drop for Said<A> {
    fn drop(self) {
        let Self { marker: _ } = self;
    }
}
