//! Layers of block images, and images over them: writes the flat image of one layer that is read from
//! standard input, or of a stack of layers, prints what layers say of themselves, and makes, reads,
//! writes, zeros and grows the image of a disk over a stack of layers, or serves it over NBD. A
//! configuration names disk, layers and addresses.
#![tactic(auto)]

mod exporting;
mod lanes;
mod setup;
mod words;

use crate::exporting::{export_configured, export_empty};
use crate::setup::{SetupFault, read_configuration, targets_of};
use crate::words::{Parts, part_words, words_behind};
use block_disk::{Disk, FolderDisk, MemDisk};
use byte_ports::{Sink, StdSink, StdSource};
use http_range::TcpLink;
use layer_shelf::{FolderShelf, MemShelf, Shelf};
use range_shelf::RangeShelf;
use sector_extent::{CallList, FileTexts};
use std::env;
use std::io::ErrorKind;
use std::process::ExitCode;
use std::sync::Wait;
use std::thread::Threads;
use tool_run::run_tool;
use tool_setup::{Config, Lowers, WordList};

fn main(rt: HostRuntime) -> ExitCode {
    let answer = match read_parts(&rt) {
        Ok(parts) => run_parts(rt, &rt, parts),
        Err(fault) => Err(fault),
    };
    match answer {
        Ok(code) => ExitCode::from(code),
        Err(fault) => {
            let _ = StdSink::new(rt.stderr()).write_all(fault.line().as_bytes());
            ExitCode::from(fault.code())
        }
    }
}

// What the arguments name. A word that is no text is a faulty command line.
fn read_parts(rt: &HostRuntime) -> Result<Parts, SetupFault> {
    match env::args(rt) {
        Ok(args) => {
            let all: Vec<String> = args.collect(rt.alloc())?;
            match part_words(words_behind(all)) {
                Some(parts) => Ok(parts),
                None => Err(SetupFault::Usage),
            }
        }
        Err(error) => Err(if error.kind() == ErrorKind::OutOfMemory {
            SetupFault::Memory
        } else {
            SetupFault::Usage
        }),
    }
}

// Runs a command over what a configuration names, or over an empty disk in memory without layers.
fn run_parts<R: Threads + Wait + Sync>(
    rt: HostRuntime,
    threads: &R,
    parts: Parts,
) -> Result<u8, SetupFault> {
    let Parts { config, words } = parts;
    match config {
        Some(path) => {
            let config = read_configuration(&rt, path.as_str())?;
            if is_export(&words) {
                export_configured(rt, threads, config, &words)
            } else {
                run_configured(rt, config, &words)
            }
        }
        None => {
            if is_export(&words) {
                return export_empty(rt.alloc(), threads, &words);
            }
            let files = FileTexts::from_vec(Vec::new(rt.alloc()));
            let mut shelf = MemShelf::new(files, CallList::from_vec(Vec::new(rt.alloc())));
            Ok(run(rt, &words, MemDisk::new(rt.alloc()), &mut shelf))
        }
    }
}

fn run_configured(rt: HostRuntime, config: Config, words: &WordList) -> Result<u8, SetupFault> {
    let Config { disk, lowers, .. } = config;
    let disk = FolderDisk::new(rt, disk);
    match lowers {
        Lowers::Files(paths) => {
            // A configuration names at most 255.
            if paths.as_slice().len() > 255 {
                return Err(SetupFault::Config);
            }
            let mut shelf = FolderShelf::new(rt, paths);
            Ok(run(rt, words, disk, &mut shelf))
        }
        Lowers::Remote { host, paths } => {
            // A configuration names at most 255.
            if paths.as_slice().len() > 255 {
                return Err(SetupFault::Config);
            }
            let targets = targets_of(rt.alloc(), &host, &paths)?;
            match RangeShelf::new(rt.alloc(), TcpLink::new(rt, host), targets) {
                Ok(shelf) => {
                    let mut shelf = shelf;
                    Ok(run(rt, words, disk, &mut shelf))
                }
                Err(_) => Err(SetupFault::Memory),
            }
        }
    }
}

// The command serves the image.
fn is_export(words: &WordList) -> bool {
    match words.as_slice().first() {
        Some(first) => first.as_str() == "export",
        None => false,
    }
}

// Runs a command between standard input and standard output.
fn run<D: Disk + Drop, S: Shelf>(rt: HostRuntime, words: &WordList, disk: D, shelf: &mut S) -> u8 {
    let mut source = StdSource::new(rt.stdin());
    let mut out = StdSink::new(rt.stdout());
    let mut notes = StdSink::new(rt.stderr());
    let (status, _disk) = run_tool(
        rt.alloc(),
        words,
        &mut source,
        &mut out,
        &mut notes,
        disk,
        shelf,
    );
    status.code
}
