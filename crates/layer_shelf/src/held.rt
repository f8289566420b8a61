//! A shelf whose reads wait at a gate, for tests of threads.
ghost use Rattle.std.specs.Prelude.{◌≡◌, ◌+◌, ◌^◌, ◌<◌, ◌≤◌, List, Option};

use crate::shelves::{Shelf, ShelfFailed};
use sector_extent::FaultCount;

/// Something that a test opens. It answers at once whether a call at that point may go on.
pub trait Gate {
    fn pass(&self, point: u32) -> bool;
}

/// Before each read of file `k` it asks the gate at point `k` until it answers true. Where the gate
/// does not open in 2^32 asks, the read fails, which is a fault of this shelf.
#[derive(Drop)]
pub struct HeldShelf<S, G> {
    shelf: S,
    gate: G,
    given_up: FaultCount,
}

impl<S: Shelf, G: Gate> HeldShelf<S, G> {
    pub fn new(shelf: S, gate: G) -> HeldShelf<S, G>
        ensures files { ⟦<HeldShelf<S, G> as Shelf>⟧.files result ≡ S.files shelf }
        ensures count { ⟦<HeldShelf<S, G> as Shelf>⟧.count result ≡ S.count shelf }
        ensures faults { ⟦<HeldShelf<S, G> as Shelf>⟧.faults result ≡ S.faults shelf }
    {
        HeldShelf {
            shelf,
            gate,
            given_up: FaultCount::new(),
        }
    }
}

// Asks until the gate opens, and answers whether it did.
fn is_open<G: Gate>(gate: &G, point: u32) -> bool {
    for _ in 0..1u64 << 32 {
        if gate.pass(point) {
            return true;
        }
    }
    false
}

impl<S: Shelf, G: Gate> Shelf for HeldShelf<S, G> {
    ghost use Rattle.std.specs.Prelude.{◌+◌};

    ghost files = { λ s. S.files s.shelf };

    ghost count = { λ s. S.count s.shelf };

    ghost faults = { λ s. S.faults s.shelf + s.given_up.count };

    ghost counted = { λ s. S.counted s.shelf };

    fn count(&self) -> u32 {
        self.shelf.count()
    }

    fn length(&mut self, k: u32) -> Result<u64, ShelfFailed> {
        self.shelf.length(k)
    }

    fn read(&mut self, k: u32, at: u64, out: &mut [u8]) -> Result<(), ShelfFailed> {
        if !is_open(&self.gate, k) {
            self.given_up.raise();
            return Err(ShelfFailed);
        }
        self.shelf.read(k, at, out)
    }
}
