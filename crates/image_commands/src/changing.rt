//! Changes sectors of an image, and flushes it.
ghost use Rattle.std.specs.Prelude.{◌≡◌, ℕ, ◌+◌, ◌*◌, ◌^◌, ◌<◌, ◌≤◌, length, IfErr, OnOk, IsErrOf};
ghost use Rattle.flat_image.specs.declared.act.Act.TheVariants.{Write, Zero};
ghost use Rattle.image_core.specs.Seen.{seen, view, faults_in, IsImage};
ghost use Rattle.sector_extent.specs.Causes.{Charges};
ghost use Rattle.image_commands.specs.Images.{entries, kept_change};
ghost use Rattle.std.specs.Io.KnownBytes.{Appends};
ghost use Rattle.image_commands.specs.ImageReports.{wrote_line, zeroed_line};
ghost use Rattle.image_commands.specs.ImageSteps.{Adds, ChangeCause, TellCause, change_refused_as};

use crate::image_reports::{wrote_report, zeroed_report};
use block_disk::Disk;
use byte_ports::Sink;
use image_core::Image;
use layer_commands::{Refusal, write_text};
use sector_extent::Extent;
use std::alloc::Global;
use top_writer::WriteFault;

/// What the fault of a change is refused as.
fn change_refusal(fault: WriteFault) -> Refusal
    ensures { result ≡ change_refused_as fault }
{
    match fault {
        WriteFault::Full { rows, sectors } => Refusal::Full { rows, sectors },
        WriteFault::Memory => Refusal::Memory,
        WriteFault::Failed => Refusal::DiskFault,
    }
}

/// Writes the sectors of an extent within the image, and flushes it.
pub fn write_kept<D: Disk>(
    image: &mut Image<D>,
    extent: Extent,
    bytes: &[u8],
) -> Result<(), Refusal>
    requires standing { IsImage (seen D.Disk image.old) }
    requires size { length bytes.now ≡ 512 * extent.count }
    requires within { extent.at + extent.count ≤ (view image.old).sectors }
    requires steps { (view image.old).steps < 2 ^ 61 }
    ensures adds { OnOk result (Adds (entries (kept_change (Write extent.at bytes.now)))
        (seen D.Disk image.old) (seen D.Disk image.new)) }
    ensures refused { IfErr result (ChangeCause (Write extent.at bytes.now)
        (seen D.Disk image.old) (seen D.Disk image.new)) }
    ensures cause { Charges (faults_in D.Disk) image.old image.new (IsErrOf result Refusal.DiskFault) }
{
    match image.write(extent, bytes) {
        Ok(()) => {}
        Err(fault) => return Err(change_refusal(fault)),
    }
    match image.flush() {
        Ok(()) => Ok(()),
        Err(_) => Err(Refusal::DiskFault),
    }
}

/// Makes the sectors of an extent within the image zeros, and flushes it.
pub fn zero_kept<D: Disk>(image: &mut Image<D>, extent: Extent) -> Result<(), Refusal>
    requires standing { IsImage (seen D.Disk image.old) }
    requires within { extent.at + extent.count ≤ (view image.old).sectors }
    requires steps { (view image.old).steps < 2 ^ 61 }
    ensures adds { OnOk result (Adds (entries (kept_change (Zero extent.at extent.count)))
        (seen D.Disk image.old) (seen D.Disk image.new)) }
    ensures refused { IfErr result (ChangeCause (Zero extent.at extent.count)
        (seen D.Disk image.old) (seen D.Disk image.new)) }
    ensures cause { Charges (faults_in D.Disk) image.old image.new (IsErrOf result Refusal.DiskFault) }
{
    match image.zero(extent) {
        Ok(()) => {}
        Err(fault) => return Err(change_refusal(fault)),
    }
    match image.flush() {
        Ok(()) => Ok(()),
        Err(_) => Err(Refusal::DiskFault),
    }
}

/// Writes the sectors of an extent within the image, flushes it and tells of it. The line is made
/// first, so that want of memory changes nothing.
pub fn write_told<B: Sink, D: Disk>(
    alloc: Global,
    image: &mut Image<D>,
    extent: Extent,
    bytes: &[u8],
    out: &mut B,
) -> Result<(), Refusal>
    requires standing { IsImage (seen D.Disk image.old) }
    requires size { length bytes.now ≡ 512 * extent.count }
    requires within { extent.at + extent.count ≤ (view image.old).sectors }
    requires steps { (view image.old).steps < 2 ^ 61 }
    ensures adds { OnOk result (Adds (entries (kept_change (Write extent.at bytes.now)))
        (seen D.Disk image.old) (seen D.Disk image.new)) }
    ensures told { OnOk result (Appends (B.written out.old) (B.written out.new) (wrote_line extent.at extent.count)) }
    ensures refused { IfErr result (TellCause (Write extent.at bytes.now) (wrote_line extent.at extent.count)
        (seen D.Disk image.old) (seen D.Disk image.new)
        (B.faults out.old) (B.faults out.new) (B.written out.old) (B.written out.new)) }
    ensures cause { Charges (faults_in D.Disk) image.old image.new (IsErrOf result Refusal.DiskFault) }
    ensures sink_cause { Charges B.faults out.old out.new (IsErrOf result Refusal.SinkFault) }
{
    let line = wrote_report(alloc, extent.at, extent.count as u64)?;
    write_kept(image, extent, bytes)?;
    write_text(line.as_bytes(), out)
}

/// Makes the sectors of an extent within the image zeros, flushes it and tells of it. The line is made
/// first, so that want of memory changes nothing.
pub fn zero_told<B: Sink, D: Disk>(
    alloc: Global,
    image: &mut Image<D>,
    extent: Extent,
    out: &mut B,
) -> Result<(), Refusal>
    requires standing { IsImage (seen D.Disk image.old) }
    requires within { extent.at + extent.count ≤ (view image.old).sectors }
    requires steps { (view image.old).steps < 2 ^ 61 }
    ensures adds { OnOk result (Adds (entries (kept_change (Zero extent.at extent.count)))
        (seen D.Disk image.old) (seen D.Disk image.new)) }
    ensures told { OnOk result (Appends (B.written out.old) (B.written out.new) (zeroed_line extent.at extent.count)) }
    ensures refused { IfErr result (TellCause (Zero extent.at extent.count) (zeroed_line extent.at extent.count)
        (seen D.Disk image.old) (seen D.Disk image.new)
        (B.faults out.old) (B.faults out.new) (B.written out.old) (B.written out.new)) }
    ensures cause { Charges (faults_in D.Disk) image.old image.new (IsErrOf result Refusal.DiskFault) }
    ensures sink_cause { Charges B.faults out.old out.new (IsErrOf result Refusal.SinkFault) }
{
    let line = zeroed_report(alloc, extent.at, extent.count as u64)?;
    zero_kept(image, extent)?;
    write_text(line.as_bytes(), out)
}
