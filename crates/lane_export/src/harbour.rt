//! Where the parts of an export come from, and where they go back to.
ghost use Rattle.std.specs.Prelude.{◌≡◌, Some, IsSome};
ghost use Rattle.std.specs.declared.option.Option.{Option};
ghost use Rattle.nbd_session.specs.declared.export.Export.{Export};
ghost use Rattle.control_session.specs.declared.control_end.ControlEnd.{ControlEnd};
ghost use Rattle.lane_export.specs.declared.parts.Settings.{Settings};
ghost use Rattle.lane_export.specs.declared.parts.Parts.{Parts};

use crate::parts::{Parts, Settings};
use block_disk::Disk;
use byte_ports::{Sink, Source};
use control_session::ControlEnd;
use lane_serve::Listener;
use layer_shelf::Shelf;
use nbd_session::{Export, Served};

/// Gives the parts of an export, and takes them back.
pub trait Harbour {
    type D: Disk + Send + Drop;

    type S: Shelf + Send + Drop;

    type L: Listener<E = Served> + Send + Drop;

    type A: Source + Send + Drop;

    type B: Sink + Send + Drop;

    // The settings and the export, which never change.
    ghost set_to: { Self → Settings };

    ghost exported: { Self → Export };

    // The parts, while they are at home.
    ghost home: { Self → Option (Parts Self.D Self.S Self.L Self.A Self.B) };

    // How the control's stream ended that came back last, where it was served.
    ghost end: { Self → Option ControlEnd };

    fn settings(&self) -> Settings
        ensures { result ≡ set_to self.now };

    fn export(&self) -> &Export
        ensures { result.now ≡ exported self.now };

    /// Takes the parts, which are at home.
    fn take(&mut self) -> Parts<Self::D, Self::S, Self::L, Self::A, Self::B>
        requires { IsSome (home self.old) }
        ensures home { home self.old ≡ Some result }
        ensures same { (set_to self.new ≡ set_to self.old) × (exported self.new ≡ exported self.old) }
        ensures end { end self.new ≡ end self.old };

    /// Gives parts back. None stands for a control's stream that was not served.
    fn give_back(
        &mut self,
        parts: Parts<Self::D, Self::S, Self::L, Self::A, Self::B>,
        control: Option<ControlEnd>,
    )
        ensures home { home self.new ≡ Some parts }
        ensures same { (set_to self.new ≡ set_to self.old) × (exported self.new ≡ exported self.old) }
        ensures end { end self.new ≡ control };
}
