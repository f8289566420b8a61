//! Empties the files of tops that became layers of an image.
ghost use Rattle.std.specs.Prelude.{◌≡◌, ◌^◌, ◌<◌, [], length, IsTrue, IfErr, IfOk, OnErr, OnOk, IsErrOf};
ghost use Rattle.std.specs.Io.KnownBytes.{Appends};
ghost use Rattle.sector_extent.specs.Causes.{Charges};
ghost use Rattle.image_core.specs.Seen.{seen, view, faults_in, IsImage};
ghost use Rattle.image_core.specs.Sweeping.{AreEmptied};
ghost use Rattle.image_commands.specs.ImageReports.{swept_line};
ghost use Rattle.image_commands.specs.ImageSteps.{Adds, SweepTold, fault};

use crate::image_reports::push_swept;
use block_disk::{Disk, DiskFailed};
use byte_ports::Sink;
use image_core::Image;
use layer_commands::{Line, Refusal, write_text};

/// Empties the files of each top that became a layer, and answers how many these are.
pub fn sweep_kept<D: Disk>(image: &mut Image<D>) -> Result<u32, Refusal>
    requires standing { IsImage (seen D.Disk image.old) }
    requires steps { (view image.old).steps < 2 ^ 61 }
    ensures adds { OnOk result (Adds [] (seen D.Disk image.old) (seen D.Disk image.new)) }
    ensures count { IfOk result (λ count. count ≡ length (view image.old).committed) }
    ensures emptied { OnOk result (IsTrue D.tells
        → AreEmptied (seen D.Disk image.new).state.seen (length (view image.old).committed)) }
    ensures failed { OnErr result (Adds fault (seen D.Disk image.old) (seen D.Disk image.new)) }
    ensures refused { IfErr result (λ refusal. refusal ≡ Refusal.DiskFault) }
    ensures cause { Charges (faults_in D.Disk) image.old image.new (IsErrOf result Refusal.DiskFault) }
{
    match image.sweep() {
        Ok(count) => Ok(count),
        Err(DiskFailed) => Err(Refusal::DiskFault),
    }
}

/// Empties the files of each top that became a layer, and tells of it. The line takes no memory.
pub fn sweep_told<B: Sink, D: Disk>(image: &mut Image<D>, out: &mut B) -> Result<(), Refusal>
    requires standing { IsImage (seen D.Disk image.old) }
    requires steps { (view image.old).steps < 2 ^ 61 }
    ensures adds { OnOk result (Adds [] (seen D.Disk image.old) (seen D.Disk image.new)) }
    ensures emptied { OnOk result (IsTrue D.tells
        → AreEmptied (seen D.Disk image.new).state.seen (length (view image.old).committed)) }
    ensures told { OnOk result (Appends (B.written out.old) (B.written out.new)
        (swept_line (length (view image.old).committed))) }
    ensures refused { IfErr result (SweepTold (seen D.Disk image.old) (seen D.Disk image.new)
        (B.faults out.old) (B.faults out.new) (B.written out.old) (B.written out.new)) }
    ensures cause { Charges (faults_in D.Disk) image.old image.new (IsErrOf result Refusal.DiskFault) }
    ensures sink_cause { Charges B.faults out.old out.new (IsErrOf result Refusal.SinkFault) }
{
    let count = sweep_kept(image)?;
    let mut line = Line::new();
    push_swept(&mut line, count);
    write_text(line.as_str().as_bytes(), out)
}
