//! Lets an image have more sectors.
ghost use Rattle.std.specs.Prelude.{◌≡◌, ◌^◌, ◌<◌, ◌≤◌, [], ◌∷◌, IfErr, OnOk, IsErrOf};
ghost use Rattle.std.specs.Io.KnownBytes.{Appends};
ghost use Rattle.flat_image.specs.declared.act.Act.TheVariants.{Grow};
ghost use Rattle.image_core.specs.Seen.{seen, view, faults_in, IsImage};
ghost use Rattle.sector_extent.specs.Causes.{Charges};
ghost use Rattle.image_commands.specs.Images.{entries};
ghost use Rattle.image_commands.specs.ImageReports.{grown_line};
ghost use Rattle.image_commands.specs.ImageSteps.{Adds, GrowCause, GrowTold, grow_refused_as};

use crate::image_reports::grown_report;
use block_disk::Disk;
use byte_ports::Sink;
use image_core::{GrowFault, Image};
use layer_commands::{Refusal, write_text};
use std::alloc::Global;

// What the fault of a grow is refused as.
fn grow_refusal(fault: GrowFault) -> Refusal
    ensures { result ≡ grow_refused_as fault }
{
    match fault {
        GrowFault::Busy(uuid) => Refusal::Busy(uuid),
        GrowFault::NotLarger(sectors) => Refusal::NotLarger(sectors),
        GrowFault::Failed => Refusal::DiskFault,
    }
}

/// Lets the image have so many sectors.
pub fn grow_kept<D: Disk>(image: &mut Image<D>, sectors: u64) -> Result<(), Refusal>
    requires standing { IsImage (seen D.Disk image.old) }
    requires few { sectors ≤ 2 ^ 31 }
    requires steps { (view image.old).steps < 2 ^ 61 }
    ensures adds { OnOk result (Adds (entries (Grow sectors ∷ [])) (seen D.Disk image.old) (seen D.Disk image.new)) }
    ensures refused { IfErr result (GrowCause sectors (seen D.Disk image.old) (seen D.Disk image.new)) }
    ensures cause { Charges (faults_in D.Disk) image.old image.new (IsErrOf result Refusal.DiskFault) }
{
    match image.grow(sectors) {
        Ok(()) => Ok(()),
        Err(fault) => Err(grow_refusal(fault)),
    }
}

/// Lets the image have so many sectors, and tells of it. The line is made first, so that want of memory
/// changes nothing.
pub fn grow_told<B: Sink, D: Disk>(
    alloc: Global,
    image: &mut Image<D>,
    sectors: u64,
    out: &mut B,
) -> Result<(), Refusal>
    requires standing { IsImage (seen D.Disk image.old) }
    requires few { sectors ≤ 2 ^ 31 }
    requires steps { (view image.old).steps < 2 ^ 61 }
    ensures adds { OnOk result (Adds (entries (Grow sectors ∷ [])) (seen D.Disk image.old) (seen D.Disk image.new)) }
    ensures told { OnOk result (Appends (B.written out.old) (B.written out.new) (grown_line sectors)) }
    ensures refused { IfErr result (GrowTold sectors (grown_line sectors)
        (seen D.Disk image.old) (seen D.Disk image.new)
        (B.faults out.old) (B.faults out.new) (B.written out.old) (B.written out.new)) }
    ensures cause { Charges (faults_in D.Disk) image.old image.new (IsErrOf result Refusal.DiskFault) }
    ensures sink_cause { Charges B.faults out.old out.new (IsErrOf result Refusal.SinkFault) }
{
    let line = grown_report(alloc, sectors)?;
    grow_kept(image, sectors)?;
    write_text(line.as_bytes(), out)
}
