//! A control port in memory, for tests.
ghost use Rattle.std.specs.Prelude.{◌≡◌, ◌≤◌, ◌^◌, [], map};
ghost use Rattle.control_session.specs.PlainControls.{plain_control};

use crate::answer::{CommitAnswer, StatusAnswer, WarmAnswer};
use crate::control_port::ControlPort;
use arrayvec::ArrayVec;

/// A control port of one thread, to an image over one lower layer. It does every commit at once,
/// and is worn after 255 of them.
#[derive(Drop)]
pub struct PlainControl {
    sectors: u64,
    lower: u64,
    sealed: ArrayVec<[u8; 16], 255>,
}

impl PlainControl {
    /// An image of so many sectors over a layer whose file has `lower` bytes.
    pub fn new(sectors: u64, lower: u64) -> PlainControl
        ensures { ⟦<PlainControl as ControlPort>⟧.state result ≡ plain_control sectors lower [] }
    {
        PlainControl {
            sectors,
            lower,
            sealed: ArrayVec::new(),
        }
    }
}

impl ControlPort for PlainControl {
    ghost use Rattle.control_session.specs.PlainControls.{plain_control};

    ghost state = { λ port. plain_control port.sectors port.lower port.sealed.items };

    fn commit(&mut self, uuid: [u8; 16]) -> CommitAnswer {
        if self.sealed.is_full() {
            return CommitAnswer::Worn;
        }
        self.sealed.push(uuid);
        CommitAnswer::Done
    }

    fn warm(&mut self, layer: u32) -> WarmAnswer {
        if layer > 0 {
            return WarmAnswer::NoLayer;
        }
        WarmAnswer::Done(self.lower.div_ceil(65_536))
    }

    fn status(&mut self) -> StatusAnswer {
        if self.sealed.is_full() {
            return StatusAnswer::Worn;
        }
        let commits = self.sealed.len() as u64;
        StatusAnswer::Now {
            sectors: self.sectors,
            layers: commits as u32 + 1,
            entries: (1 << 62) - 510 + 2 * commits,
            pending: None,
        }
    }
}
