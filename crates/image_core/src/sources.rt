//! Where the sectors of layers are read from.
ghost use Rattle.std.specs.Prelude.{◌≡◌, ℕ, ◌+◌, ◌*◌, ◌^◌, ◌<◌, ◌≤◌, List, Option, length, take, drop, OnOk, IfErr, IfSome};
ghost use Rattle.std.proofs.Common.{refl, ◌∙◌, subst};
ghost use Rattle.layer_shelf.specs.Shelves.{SameFiles, file_at};

use crate::stack::sealed_number;
use crate::whole::WholeFault;
use block_disk::{Disk, DiskFailed};
use layer_shelf::{Shelf, ShelfFailed};
use sector_extent::SECTOR;

/// The files of the layers of an image, the lowest first. Places are in sectors. Its files stay: a source
/// over an image that goes on has those that were there when it was made.
pub trait LayerSource {
    /// Why a read failed.
    type Fault;

    // The files, where the source tells them, and how many there are.
    ghost files: { Self → Option (List (List ℕ)) };

    ghost layers: { Self → ℕ };

    // What a read that succeeds does to what is beside the files, and what one does that fails so.
    ghost reads: { Self → Self → Type 0 };

    ghost fails: { Self → Self → Self.Fault → Type 0 };

    /// Fills `out` with the bytes of a layer's file from that sector on.
    fn read_sectors(&mut self, layer: u32, place: u64, out: &mut [u8]) -> Result<(), Self::Fault>
        requires layer { layer < layers self.old }
        requires range { 512 * place + length out.old ≤ 2 ^ 50 }
        ensures bytes { OnOk result (IfSome (files self.old) (λ list.
            out.new ≡ take (length out.old) (drop (512 * place) (file_at list layer)))) }
        ensures same { SameFiles files layers self.old self.new }
        ensures reads { OnOk result (reads self.old self.new) }
        ensures fails { IfErr result (λ fault. fails self.old self.new fault) };

    // No read is one, and so is one behind another; one that fails may stand behind others.
    ghost none: { (source : Self) → reads source source };

    ghost joined: { (old mid new : Self) → reads old mid → reads mid new → reads old new };

    ghost failed: { (old mid new : Self) (fault : Self.Fault) → reads old mid → fails mid new fault
        → fails old new fault };
}

// The files of a shelf. Its count of faults rises just where a read fails.
impl<S: Shelf> LayerSource for S {
    type Fault = ShelfFailed;

    ghost files = { S.files };

    ghost layers = { S.count };

    ghost reads = { λ old new. S.faults new ≡ S.faults old };

    ghost fails = { λ old new fault. S.faults old < S.faults new };

    fn read_sectors(&mut self, layer: u32, place: u64, out: &mut [u8]) -> Result<(), ShelfFailed> {
        self.read(layer, SECTOR as u64 * place, out)
    }

    ghost none = { λ source. refl };

    ghost joined = { λ old mid new first second. second ∙ first };

    ghost failed = { λ old mid new fault first then. subst (λ (k : ℕ). k < S.faults new) first then };
}

// The files of an image: the lower ones on a shelf, and the committed ones on its disk.
#[derive(Drop)]
pub(crate) struct ImageFiles<'a, 'b, S: Shelf, D: Disk> {
    pub(crate) shelf: &'a mut S,
    pub(crate) disk: &'b mut D,
    // how many were committed
    pub(crate) count: u8,
}

impl<'a, 'b, S: Shelf, D: Disk> LayerSource for ImageFiles<'a, 'b, S, D> {
    ghost use Rattle.std.specs.Prelude.{◌≡◌, ℕ, ◌+◌, length};
    ghost use Rattle.layer_shelf.specs.Shelves.{SameFiles};
    ghost use Rattle.image_core.specs.View.{sealed_read};
    ghost use Rattle.image_core.specs.Sources.{files_told, ReadsFiles, FailsFiles};
    ghost use Rattle.image_core.specs.SourceLaws.{reads-none, reads-joined, reads-failed};

    type Fault = WholeFault;

    ghost files = { λ s. files_told D.tells (S.files s.shelf.now) (sealed_read (D.state s.disk.now).seen s.count) };

    ghost layers = { λ s. S.count s.shelf.now + s.count };

    ghost reads = { λ old new. (new.shelf.ghost_name ≡ old.shelf.ghost_name)
        × (new.disk.ghost_name ≡ old.disk.ghost_name)
        × SameFiles S.files S.count old.shelf.now new.shelf.now
        × ReadsFiles (D.state old.disk.now) (D.state new.disk.now) (D.faults old.disk.now) (D.faults new.disk.now)
        (S.faults old.shelf.now) (S.faults new.shelf.now) };

    ghost fails = { λ old new fault. (new.shelf.ghost_name ≡ old.shelf.ghost_name)
        × (new.disk.ghost_name ≡ old.disk.ghost_name)
        × SameFiles S.files S.count old.shelf.now new.shelf.now
        × FailsFiles (D.state old.disk.now) (D.state new.disk.now) (D.faults old.disk.now) (D.faults new.disk.now)
        (S.faults old.shelf.now) (S.faults new.shelf.now) fault };

    fn read_sectors(&mut self, layer: u32, place: u64, out: &mut [u8]) -> Result<(), WholeFault> {
        let lowers = self.shelf.count();
        if layer < lowers {
            return match self.shelf.read(layer, SECTOR as u64 * place, out) {
                Ok(()) => Ok(()),
                Err(ShelfFailed) => Err(WholeFault::ShelfFault),
            };
        }
        match self
            .disk
            .read_at(sealed_number(layer - lowers), SECTOR as u64 * place, out)
        {
            Ok(()) => Ok(()),
            Err(DiskFailed) => Err(WholeFault::DiskFault),
        }
    }

    ghost none = { λ source. (
      refl,
      refl,
      record { files = refl; count = refl },
      reads-none (D.state source.disk.now) (D.faults source.disk.now) (S.faults source.shelf.now)
          (λ files left. D.now_at source.disk.now files left),
    ) };

    ghost joined = { λ old mid new first second. (
      second.0 ∙ first.0,
      second.1 ∙ first.1,
      record { files = second.2.files ∙ first.2.files; count = second.2.count ∙ first.2.count },
      reads-joined _ _ _ _ _ _ _ _ _ first.3 second.3,
    ) };

    ghost failed = { λ old mid new fault first then. (
      then.0 ∙ first.0,
      then.1 ∙ first.1,
      record { files = then.2.files ∙ first.2.files; count = then.2.count ∙ first.2.count },
      reads-failed _ _ _ _ _ _ _ _ _ fault first.3 then.3,
    ) };
}
