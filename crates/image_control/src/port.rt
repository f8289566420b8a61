//! The port.
ghost use Rattle.std.specs.Prelude.{◌≡◌, ◌+◌, ◌^◌, ◌≤◌, ◌&&◌, false, is_some, length};
ghost use Rattle.std.specs.Option.{ForSome};
ghost use Rattle.shared_image.specs.Turns.{seat_port, IsIdleSeat};
ghost use Rattle.image_control.specs.Seats.{IsSeatOf, HasCounted};

use crate::committing::commit;
use crate::warming::warm;
use block_disk::Disk;
use control_session::{CommitAnswer, ControlPort, StatusAnswer, WarmAnswer};
use layer_shelf::Shelf;
use shared_image::{ImageSeat, SharedImage};
use std::alloc::Global;
use std::sync::Wait;
use turn_lock::Worn;

/// A control's port to a shared image, with a seat and a shelf of its own.
#[derive(Drop)]
pub struct ControlSeat<'a, D: Disk, S: Shelf, R> {
    rt: &'a R,
    alloc: Global,
    image: &'a SharedImage<D>,
    seat: ImageSeat<D>,
    shelf: S,
    ghost seat_is: { IsIdleSeat image.now seat },
    ghost count_is: { S.count shelf ≡ length image.now.base.lowers },
    ghost files_are: { ForSome (S.files shelf) (λ files. files ≡ image.now.base.lowers) },
}

impl<'a, D: Disk, S: Shelf, R: Wait> ControlSeat<'a, D, S, R> {
    /// The shelf has the lower layers of the image.
    pub fn new(
        rt: &'a R,
        alloc: Global,
        image: &'a SharedImage<D>,
        seat: ImageSeat<D>,
        shelf: S,
    ) -> ControlSeat<'a, D, S, R>
        requires seat { IsIdleSeat image.now seat }
        requires count { S.count shelf ≡ length image.now.base.lowers }
        requires told { ForSome (S.files shelf) (λ files. files ≡ image.now.base.lowers) }
        ensures { ⟦<ControlSeat<'a, D, S, R> as ControlPort>⟧.state result
            ≡ seat_port (D.tells && is_some (S.files shelf)) image.now seat (S.faults shelf) }
    {
        ControlSeat {
            rt,
            alloc,
            image,
            seat,
            shelf,
        }
    }

    /// The seat and the shelf.
    pub fn into_parts(self) -> (ImageSeat<D>, S)
        ensures seat { IsSeatOf (⟦<ControlSeat<'a, D, S, R> as ControlPort>⟧.state self.entry) result.0 }
        ensures faults { HasCounted (⟦<ControlSeat<'a, D, S, R> as ControlPort>⟧.state self.entry) result.0
            (S.faults result.1) }
        ensures count { S.count result.1 ≡ length (⟦<ControlSeat<'a, D, S, R> as ControlPort>⟧.state
            self.entry).base.lowers }
        ensures told { ForSome (S.files result.1) (λ files.
            files ≡ (⟦<ControlSeat<'a, D, S, R> as ControlPort>⟧.state self.entry).base.lowers) }
        ensures tells { (⟦<ControlSeat<'a, D, S, R> as ControlPort>⟧.state self.entry).tells
            ≡ (D.tells && is_some (S.files result.1)) }
    {
        let ControlSeat {
            rt: _,
            alloc: _,
            image: _,
            seat,
            shelf,
        } = self;
        (seat, shelf)
    }
}

impl<'a, D: Disk, S: Shelf, R: Wait> ControlPort for ControlSeat<'a, D, S, R> {
    ghost use Rattle.std.specs.Prelude.{◌&&◌, is_some};
    ghost use Rattle.shared_image.specs.Turns.{seat_port};

    ghost state = { λ c. seat_port (D.tells && is_some (S.files c.shelf)) c.image.now c.seat (S.faults c.shelf) };

    fn commit(&mut self, uuid: [u8; 16]) -> CommitAnswer {
        commit(self.rt, self.alloc, self.image, &mut self.seat, uuid)
    }

    fn warm(&mut self, layer: u32) -> WarmAnswer {
        if layer >= self.shelf.count() {
            return WarmAnswer::NoLayer;
        }
        match warm(&mut self.shelf, layer) {
            Ok(blocks) => WarmAnswer::Done(blocks),
            Err(_) => WarmAnswer::Failed,
        }
    }

    fn status(&mut self) -> StatusAnswer {
        match self.image.status(self.rt, &mut self.seat) {
            Ok((status, entries)) => StatusAnswer::Now {
                sectors: status.sectors,
                layers: status.layers,
                entries,
                pending: status.pending,
            },
            Err(Worn) => StatusAnswer::Worn,
        }
    }
}
