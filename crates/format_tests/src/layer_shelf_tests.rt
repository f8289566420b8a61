use crate::expecting::{holds, holds_at};
use layer_shelf::*;
use sector_extent::{Bytes, CallList, FileTexts};
use std::alloc::{AllocError, Global};
use std::fs;
use std::test::Fail;

// A file, and what its length is said to be.
type Length = (u32, Result<u64, ShelfFailed>);

// A file, a place, how many bytes are read from there, at most two, and these, or none for a fault.
type Reading = (u32, u64, usize, Option<[u8; 2]>);

fn is_send<T: Send + Drop>(_value: T) {}

fn are_lengths<S: Shelf>(shelf: &mut S, lengths: &[Length]) -> bool {
    for (file, length) in lengths {
        if *file >= shelf.count() || shelf.length(*file) != *length {
            return false;
        }
    }
    true
}

// Whether the reads of a shelf go so, one after another.
fn are_read<S: Shelf>(shelf: &mut S, readings: &[Reading]) -> bool {
    for (file, at, count, bytes) in readings {
        let mut all = [0; 2];
        if *file >= shelf.count() || *at > 1_000 {
            return false;
        }
        let (out, _) = all.split_at_mut((*count).min(2));
        let found = shelf.read(*file, *at, out).ok().map(|_| all);
        if found != *bytes {
            return false;
        }
    }
    true
}

// Two files, the second of them empty. Calls 1 and 4 fail.
fn in_memory(alloc: Global) -> Result<MemShelf, AllocError> {
    let mut files = Vec::new(alloc);
    files.push(Bytes::from_vec(Vec::from_slice(alloc, &[1, 2, 3, 4])?))?;
    files.push(Bytes::from_vec(Vec::new(alloc)))?;
    let failing = CallList::from_vec(Vec::from_slice(alloc, &[1, 4])?);
    Ok(MemShelf::new(FileTexts::from_vec(files), failing))
}

const HELD_LENGTHS: [Length; 2] = [(0, Ok(4)), (0, Err(ShelfFailed))];

const HELD: [Reading; 6] = [
    (0, 1, 2, Some([2, 3])),
    (0, 3, 2, None),
    (0, 2, 2, None),
    (0, 2, 2, Some([3, 4])),
    (1, 9, 0, Some([0, 0])),
    (1, 0, 2, None),
];

#[test]
fn a_shelf_in_memory(rt: HostRuntime) -> Result<(), Fail> {
    let mut shelf = in_memory(rt.alloc())?;
    holds(&rt, shelf.count() == 2, "two files");
    holds(&rt, are_lengths(&mut shelf, &HELD_LENGTHS), "lengths");
    holds(&rt, are_read(&mut shelf, &HELD), "reads");
    let files = shelf.into_files();
    holds(&rt, files.as_slice().len() == 2, "the files");
    Ok(())
}

// That path, and 256 at which there is no file.
fn paths(alloc: Global, first: &str) -> Result<PathList, AllocError> {
    let mut paths = Vec::new(alloc);
    paths.push(PathText::from_vec(first.as_bytes().to_vec(alloc)?))?;
    for _ in 0..256 {
        paths.push(PathText::from_vec(b"/tmp/no such file".to_vec(alloc)?))?;
    }
    Ok(PathList::from_vec(paths))
}

const REAL_LENGTHS: [Length; 3] = [(0, Ok(3)), (1, Err(ShelfFailed)), (256, Err(ShelfFailed))];

const REAL: [Reading; 3] = [(0, 1, 2, Some([6, 7])), (0, 2, 2, None), (1, 0, 2, None)];

#[test]
fn a_shelf_over_real_files(rt: HostRuntime) -> Result<(), Fail> {
    let folder = format!(in rt.alloc(); "/tmp/shelf-{}", std::process::id(rt.process()))?;
    fs::create_dir(&rt, folder.as_str())?;
    let path = format!(in rt.alloc(); "{folder}/layer")?;
    fs::write(&rt, path.as_str(), [5, 6, 7].as_slice())?;
    let paths = paths(rt.alloc(), path.as_str())?;
    if paths.as_slice().len() != 257 {
        return Err(Fail::from("other paths"));
    }
    let mut shelf = FolderShelf::new(rt, paths);
    holds(&rt, shelf.count() == 257, "the files");
    holds(&rt, are_lengths(&mut shelf, &REAL_LENGTHS), "lengths");
    holds(&rt, are_read(&mut shelf, &REAL), "reads");
    is_send(shelf);
    fs::remove_dir_all(&rt, folder.as_str())?;
    Ok(())
}
