//! Exports the image of a configuration.
ghost use Rattle.std.specs.Prelude.{◌≡◌, ◌≤◌, [], None, Some, length, All, IfOk};
ghost use Rattle.lane_serve.specs.Listeners.{IsFresh};
ghost use Rattle.range_shelf.specs.RangeShelves.{files_told};
ghost use Rattle.lane_export.specs.Exporting.{HaveSameFiles};

use crate::lanes::{Lane, lane_of, listen};
use crate::setup::{SetupFault, copy, copy_all, targets_of};
use block_disk::{FolderDisk, MemDisk};
use byte_ports::{MemSink, MemSource};
use http_range::{HostText, TcpLink};
use lane_export::{LaneList, Parts, PartsHarbour, Settings, run_export};
use lane_serve::{Listener, MemListener};
use layer_shelf::{FolderShelf, MemShelf, Shelf};
use nbd_session::{Export, NameBytes, Served};
use range_shelf::RangeShelf;
use sector_extent::{Bytes, CallList, FileTexts};
use std::alloc::Global;
use std::net::TcpListener;
use std::sync::Wait;
use std::thread::Threads;
use tcp_ports::control_ends;
use tool_setup::{Config, Lowers, TextList, WordList};

type Folder = FolderShelf<HostRuntime>;

type Far = RangeShelf<TcpLink<HostRuntime>>;

// A shelf over lower layers in files.
fn folder_shelf(rt: HostRuntime, paths: &TextList) -> Result<Folder, SetupFault>
    requires { length paths.now ≤ 255 }
    ensures { IfOk result (λ s. (⟦<Folder as Shelf>⟧.count s ≡ length paths.now)
        × (⟦<Folder as Shelf>⟧.files s ≡ None)) }
{
    let paths = copy_all(rt.alloc(), paths)?;
    Ok(FolderShelf::new(rt, paths))
}

// A shelf over lower layers that a host serves.
#[tactic(auto, unfolding(range_shelf::specs::RangeShelves::files_told))]
fn far_shelf(rt: HostRuntime, host: &HostText, paths: &TextList) -> Result<Far, SetupFault>
    requires { length paths.now ≤ 255 }
    ensures { IfOk result (λ s. (⟦<Far as Shelf>⟧.count s ≡ length paths.now) × (⟦<Far as Shelf>⟧.files s ≡ None)) }
{
    let alloc = rt.alloc();
    let targets = targets_of(alloc, host, paths)?;
    let link = TcpLink::new(rt, copy(alloc, host)?);
    match RangeShelf::new(alloc, link, targets) {
        Ok(shelf) => Ok(shelf),
        Err(_) => Err(SetupFault::Memory),
    }
}

// So many lanes over lower layers in files.
fn folder_lanes<'a>(
    rt: &'a HostRuntime,
    listener: &TcpListener,
    paths: &TextList,
    count: u32,
) -> Result<Vec<(Folder, Lane<'a>)>, SetupFault>
    requires { length paths.now ≤ 255 }
    ensures many { IfOk result (λ lanes. length lanes.items ≡ count) }
    ensures same { IfOk result (λ lanes. All (λ pair. (⟦<Folder as Shelf>⟧.count pair.0 ≡ length paths.now)
        × (⟦<Folder as Shelf>⟧.files pair.0 ≡ None)) lanes.items) }
{
    let mut lanes = Vec::new(rt.alloc());
    for number in 0..count {
        let _ = number;
        lanes.push((folder_shelf(*rt, paths)?, lane_of(rt, listener)?))?;
    }
    Ok(lanes)
}

// So many lanes over lower layers that a host serves.
fn far_lanes<'a>(
    rt: &'a HostRuntime,
    listener: &TcpListener,
    host: &HostText,
    paths: &TextList,
    count: u32,
) -> Result<Vec<(Far, Lane<'a>)>, SetupFault>
    requires { length paths.now ≤ 255 }
    ensures many { IfOk result (λ lanes. length lanes.items ≡ count) }
    ensures same { IfOk result (λ lanes. All (λ pair. (⟦<Far as Shelf>⟧.count pair.0 ≡ length paths.now)
        × (⟦<Far as Shelf>⟧.files pair.0 ≡ None)) lanes.items) }
{
    let mut lanes = Vec::new(rt.alloc());
    for number in 0..count {
        let _ = number;
        lanes.push((far_shelf(*rt, host, paths)?, lane_of(rt, listener)?))?;
    }
    Ok(lanes)
}

// What a configuration says of an export but for its lower layers.
#[derive(Drop)]
struct Setup {
    disk: Bytes,
    name: NameBytes,
    read_only: bool,
    cache_blocks: u32,
    lanes: u32,
    listen: Bytes,
    control: Bytes,
    ghost blocks: { (1 ≤ cache_blocks) × (cache_blocks ≤ 16384) },
    ghost some: { (1 ≤ lanes) × (lanes ≤ 16) },
}

// Serves the image until all lanes have ended, and answers the status.
fn export_over<'a, S: Shelf + Send + Drop, R: Threads + Wait + Sync>(
    rt: &'a HostRuntime,
    threads: &R,
    words: &WordList,
    setup: Setup,
    shelf: S,
    lanes: Vec<(S, Lane<'a>)>,
) -> Result<u8, SetupFault>
    requires some { (1 ≤ length lanes.items) × (length lanes.items ≤ 16) }
    requires same { HaveSameFiles S.files S.count shelf lanes.items }
{
    let alloc = rt.alloc();
    let Setup {
        disk,
        name,
        read_only,
        cache_blocks,
        control,
        ..
    } = setup;
    let (control_source, control_sink) = control_ends(rt, alloc, listen(rt, &control)?)?;
    let parts = Parts {
        disk: FolderDisk::new(*rt, disk),
        lanes: LaneList::from_vec(lanes),
        control_shelf: shelf,
        control_source,
        control_sink,
    };
    let mut harbour = PartsHarbour {
        settings: Settings { cache_blocks },
        export: Export { name, read_only },
        at_home: Some(parts),
        end: None,
    };
    Ok(run_export(threads, alloc, words, &mut harbour).code)
}

// No bytes, or no calls.
fn no_files(alloc: Global) -> FileTexts
    ensures { result ≡ [] }
{
    FileTexts::from_vec(Vec::new(alloc))
}

fn no_calls(alloc: Global) -> CallList
    ensures { result ≡ [] }
{
    CallList::from_vec(Vec::new(alloc))
}

// One lane without layers, to which nobody connects.
fn idle_lanes(alloc: Global) -> Result<Vec<(MemShelf, MemListener<Served>)>, SetupFault>
    ensures one { IfOk result (λ lanes. length lanes.items ≡ 1) }
    ensures same { IfOk result (λ lanes. All (λ pair. (⟦<MemShelf as Shelf>⟧.count pair.0 ≡ 0)
        × (⟦<MemShelf as Shelf>⟧.files pair.0 ≡ Some [])) lanes.items) }
    ensures fresh { IfOk result (λ lanes. All (λ pair.
        IsFresh (⟦<MemListener<Served> as Listener>⟧.told pair.1)) lanes.items) }
{
    let shelf = MemShelf::new(no_files(alloc), no_calls(alloc));
    let listener = MemListener::new(alloc, no_files(alloc), no_calls(alloc));
    let mut lanes = Vec::new(alloc);
    lanes.push((shelf, listener))?;
    Ok(lanes)
}

/// Serves an empty disk in memory to nobody, with an empty control, and answers the status.
pub fn export_empty<R: Threads + Wait + Sync>(
    alloc: Global,
    threads: &R,
    words: &WordList,
) -> Result<u8, SetupFault> {
    let parts = Parts {
        disk: MemDisk::new(alloc),
        lanes: LaneList::from_vec(idle_lanes(alloc)?),
        control_shelf: MemShelf::new(no_files(alloc), no_calls(alloc)),
        control_source: MemSource::new(Bytes::from_vec(Vec::new(alloc)), no_calls(alloc)),
        control_sink: MemSink::new(alloc, no_calls(alloc)),
    };
    let Some(name) = NameBytes::from_vec(Vec::new(alloc)) else {
        return Err(SetupFault::Config);
    };
    let mut harbour = PartsHarbour {
        settings: Settings { cache_blocks: 1 },
        export: Export {
            name,
            read_only: false,
        },
        at_home: Some(parts),
        end: None,
    };
    Ok(run_export(threads, alloc, words, &mut harbour).code)
}

/// Serves the image of a configuration, and answers the status.
pub fn export_configured<R: Threads + Wait + Sync>(
    rt: HostRuntime,
    threads: &R,
    config: Config,
    words: &WordList,
) -> Result<u8, SetupFault> {
    let Config {
        disk,
        lowers,
        export,
        read_only,
        cache_blocks,
        lanes,
        listen: address,
        control,
    } = config;
    // A configuration has a name of at most 4,096 bytes, 1 to 16,384 blocks, 1 to 16 lanes and at most
    // 255 layers.
    let Some(name) = NameBytes::from_vec(export.into_vec()) else {
        return Err(SetupFault::Config);
    };
    if cache_blocks < 1 || cache_blocks > 16_384 || lanes < 1 || lanes > 16 {
        return Err(SetupFault::Config);
    }
    let setup = Setup {
        disk,
        name,
        read_only,
        cache_blocks,
        lanes,
        listen: address,
        control,
    };
    match lowers {
        Lowers::Files(paths) => {
            if paths.as_slice().len() > 255 {
                return Err(SetupFault::Config);
            }
            let listener = listen(&rt, &setup.listen)?;
            let shelf = folder_shelf(rt, &paths)?;
            let lanes = folder_lanes(&rt, &listener, &paths, setup.lanes)?;
            export_over(&rt, threads, words, setup, shelf, lanes)
        }
        Lowers::Remote { host, paths } => {
            if paths.as_slice().len() > 255 {
                return Err(SetupFault::Config);
            }
            let listener = listen(&rt, &setup.listen)?;
            let shelf = far_shelf(rt, &host, &paths)?;
            let lanes = far_lanes(&rt, &listener, &host, &paths, setup.lanes)?;
            export_over(&rt, threads, words, setup, shelf, lanes)
        }
    }
}
