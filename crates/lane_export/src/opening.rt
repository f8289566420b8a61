//! The image on a disk, opened and served.
ghost use Rattle.std.specs.Prelude.{◌≡◌, ◌≤◌, false, length, All};
ghost use Rattle.image_core.specs.Seen.{seen, disk_of};
ghost use Rattle.image_commands.specs.Images.{disk_port};
ghost use Rattle.image_commands.specs.ImageSteps.{IsBaseOf, IsOpened};
ghost use Rattle.lane_serve.specs.Listeners.{IsFresh};
ghost use Rattle.lane_export.specs.Lanes.{ways_of};
ghost use Rattle.lane_export.specs.Exporting.{HaveSameFiles, HasExported, IsComplete, end_code, moment};

use crate::cached_lanes::export_cached;
use crate::export_end::ExportEnd;
use crate::parts::{Control, Settings};
use block_disk::Disk;
use byte_ports::{Sink, Source};
use control_session::ControlEnd;
use flat_image::Base;
use image_commands::open_image;
use image_core::Image;
use lane_serve::Listener;
use layer_shelf::Shelf;
use nbd_session::{Export, Served};
use std::alloc::Global;
use std::sync::Wait;
use std::thread::Threads;
use turn_lock::{Property, Said};

// An image that was opened, and the shelf over which it lies.
#[derive(Drop)]
struct Mounted<D: Disk, S> {
    image: Image<D>,
    shelf: S,
}

// The base over which it was opened.
struct Opened;

impl<D: Disk, S: Shelf> Property<Mounted<D, S>, Base> for Opened {
    ghost use Rattle.image_core.specs.Seen.{seen, disk_of};
    ghost use Rattle.image_commands.specs.Images.{disk_port};
    ghost use Rattle.image_commands.specs.ImageSteps.{IsBaseOf};

    ghost holds = { λ m base. IsBaseOf (S.files m.shelf) (S.count m.shelf) (disk_port D.Disk (disk_of m.image))
        (seen D.Disk m.image) base };
}

// That base, which only contracts read.
fn base_of<D: Disk, S: Shelf>(mounted: &Mounted<D, S>) -> Said<Base>
    requires { IsOpened (S.files mounted.now.shelf) (S.count mounted.now.shelf)
        (disk_port D.Disk (disk_of mounted.now.image)) (seen D.Disk mounted.now.image) }
    ensures { IsBaseOf (S.files mounted.now.shelf) (S.count mounted.now.shelf)
        (disk_port D.Disk (disk_of mounted.now.image)) (seen D.Disk mounted.now.image) result.value }
{
    Said::such::<Mounted<D, S>, Opened>(mounted)
}

// The status of an export that ended so.
fn code_of(end: ExportEnd) -> u8
    ensures { result ≡ end_code end }
{
    match end {
        ExportEnd::Flushed => 0,
        ExportEnd::ListenerFailed | ExportEnd::FlushFailed => 4,
        ExportEnd::Memory => 5,
        ExportEnd::Worn => 6,
    }
}

/// Opens the image on the disk over the layers of the control's shelf, serves its lanes and its control, and
/// answers the status. Disk, lanes and control come back, and how the control ended where it was served.
pub(crate) fn export_disk<
    D: Disk + Send + Drop,
    S: Shelf + Send + Drop,
    L: Listener<E = Served> + Send + Drop,
    A: Source + Send + Drop,
    B: Sink + Send + Drop,
    R: Threads + Wait + Sync,
>(
    rt: &R,
    alloc: Global,
    export: &Export,
    settings: Settings,
    connections: u64,
    disk: D,
    pairs: Vec<(S, L)>,
    control: Control<S, A, B>,
) -> (D, Vec<(S, L)>, Control<S, A, B>, u8, Option<ControlEnd>)
    requires some { 1 ≤ length pairs.items }
    requires few { length pairs.items ≤ 16 }
    requires same { HaveSameFiles S.files S.count control.shelf pairs.items }
    requires fresh { All (λ pair. IsFresh (L.told pair.1)) pairs.items }
    ensures count { length result.1.items ≡ length pairs.items }
    ensures exports { HasExported
        (ways_of L.A.Source L.B.Sink export.entry.now)
        D.Disk S.Shelf L.told L.faults
        (moment A.Source B.Sink disk control.shelf pairs.items control.source control.sink)
        (moment A.Source B.Sink result.0 result.2.shelf result.1.items result.2.source result.2.sink)
        connections result.4 result.3 }
    ensures complete { IsComplete
        (ways_of L.A.Source L.B.Sink export.entry.now)
        D.Disk S.Shelf L.told L.faults
        (moment A.Source B.Sink disk control.shelf pairs.items control.source control.sink)
        (moment A.Source B.Sink result.0 result.2.shelf result.1.items result.2.source result.2.sink)
        connections result.4 result.3 }
{
    let Control {
        shelf,
        source,
        sink,
    } = control;
    let mut shelf = shelf;
    let image = match open_image(alloc, &mut shelf, disk) {
        Ok(image) => image,
        Err((disk, refusal)) => {
            let control = Control {
                shelf,
                source,
                sink,
            };
            return (disk, pairs, control, refusal.code(), None);
        }
    };
    let mounted = Mounted { image, shelf };
    let base = base_of(&mounted);
    let Mounted { image, shelf } = mounted;
    let control = Control {
        shelf,
        source,
        sink,
    };
    let (image, pairs, end, control, control_end) = export_cached(
        rt,
        alloc,
        export,
        settings.cache_blocks,
        connections,
        base,
        image,
        pairs,
        control,
    );
    (image.into_disk(), pairs, control, code_of(end), control_end)
}
