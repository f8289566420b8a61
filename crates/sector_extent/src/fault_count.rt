//! A count of faults that only contracts see.
ghost use Rattle.std.specs.Prelude.{◌≡◌, ℕ, ◌+◌};
ghost use Rattle.std.specs.Borrow.{ftrue};

use std::marker::{Model, PhantomData};

/// The number of faults that an object of the outside has met. It has no bytes and no end: it
/// stands in contracts alone, where a call that answers its fault raises it.
#[derive(Drop)]
pub struct FaultCount {
    marker: PhantomData<u8>,
    pub ghost count: { ℕ },
}

impl Model for FaultCount {
    ghost also_owns = { λ _. ftrue };
}

impl FaultCount {
    pub fn new() -> FaultCount
        ensures { result.count ≡ 0 }
    {
        FaultCount {
            marker: PhantomData,
        }
    }

    /// Adds one.
    pub fn raise(&mut self)
        ensures { self.new.count ≡ self.old.count + 1 }
    {}
}

unsafe impl Send for FaultCount {}
