//! What a control asks of an image.
ghost use Rattle.std.specs.Prelude.{◌≡◌, ◌≢◌};
ghost use Rattle.sector_extent.specs.Causes.{Charges};
ghost use Rattle.lsmt_header.specs.Blocks.{nil};
ghost use Rattle.flat_image.specs.Ports.{PortState, IsWorn, fault_count};
ghost use Rattle.control_session.specs.ControlTable.{CommitFits, WarmFits, StatusFits};

use crate::answer::{CommitAnswer, StatusAnswer, WarmAnswer};

/// A caller's way to commit an image that others read and change, to warm its lower layers, and to
/// learn how it stands. Its calls note entries in one history, of which the port has seen a
/// beginning.
pub trait ControlPort {
    // What the port has seen. Its base, its number and the number of entries before it never change.
    ghost state: { Self → PortState };

    /// Freezes the top, or goes on where the commit with this uuid is in progress, copies it and
    /// seals it.
    fn commit(&mut self, uuid: [u8; 16]) -> CommitAnswer
        requires { uuid ≢ nil }
        ensures answer { CommitFits (state self.old) (state self.new) uuid result }
        ensures cause { Charges fault_count (state self.old) (state self.new) (result ≡ CommitAnswer.Failed) }
        ensures worn { IsWorn (state self.old) → result ≡ CommitAnswer.Worn };

    /// Looks up each block of a lower layer's file once.
    fn warm(&mut self, layer: u32) -> WarmAnswer
        ensures answer { WarmFits (state self.old) (state self.new) layer result }
        ensures cause { Charges fault_count (state self.old) (state self.new) (result ≡ WarmAnswer.Failed) };

    /// How the image stands.
    fn status(&mut self) -> StatusAnswer
        ensures answer { StatusFits (state self.old) (state self.new) result }
        ensures worn { IsWorn (state self.old) → result ≡ StatusAnswer.Worn };
}
