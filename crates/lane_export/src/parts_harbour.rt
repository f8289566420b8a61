//! A harbour of parts that were handed to it.
ghost use Rattle.std.specs.Prelude.{◌≡◌, Some};

use crate::harbour::Harbour;
use crate::parts::{Parts, Settings};
use block_disk::Disk;
use byte_ports::{Sink, Source};
use control_session::ControlEnd;
use lane_serve::Listener;
use layer_shelf::Shelf;
use nbd_session::{Export, Served};

/// Hands out the parts of one export, and keeps what comes back.
#[derive(Drop)]
pub struct PartsHarbour<D, S, L, A, B> {
    pub settings: Settings,
    pub export: Export,
    /// The parts, while they are at home.
    pub at_home: Option<Parts<D, S, L, A, B>>,
    /// How the control's stream ended that came back last, where it was served.
    pub end: Option<ControlEnd>,
}

impl<
    D: Disk + Send + Drop,
    S: Shelf + Send + Drop,
    L: Listener<E = Served> + Send + Drop,
    A: Source + Send + Drop,
    B: Sink + Send + Drop,
> Harbour for PartsHarbour<D, S, L, A, B> {
    type D = D;

    type S = S;

    type L = L;

    type A = A;

    type B = B;

    ghost set_to = { λ h. h.settings };

    ghost exported = { λ h. h.export };

    ghost home = { λ h. h.at_home };

    ghost end = { λ h. h.end };

    fn settings(&self) -> Settings {
        self.settings
    }

    fn export(&self) -> &Export {
        &self.export
    }

    fn take(&mut self) -> Parts<D, S, L, A, B> {
        match self.at_home.take() {
            Some(parts) => parts,
            None => unreachable!(),
        }
    }

    fn give_back(&mut self, parts: Parts<D, S, L, A, B>, control: Option<ControlEnd>)
        ensures home { self.new.at_home ≡ Some parts }
        ensures same { (self.new.settings ≡ self.old.settings) × (self.new.export ≡ self.old.export) }
        ensures end { self.new.end ≡ control }
    {
        self.at_home = Some(parts);
        self.end = control;
    }
}
