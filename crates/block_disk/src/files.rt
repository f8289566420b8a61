//! Files in memory, by their numbers. A file that is not in the map is empty.
ghost use Rattle.std.specs.Prelude.{◌≡◌, ℕ, ◌+◌, ◌^◌, ◌<◌, ◌≤◌, length, take, OnOk, OnErr, IfOk, if◌then◌else◌, ◌==◌};
ghost use Rattle.block_disk.specs.Changes.{put};
ghost use Rattle.block_disk.specs.FileMap.{bytes_in};

use sector_extent::Memory;
use std::alloc::Global;
use std::collections::BTreeMap;

pub(crate) type FileMap = BTreeMap<u32, Vec<u8>>;

pub(crate) fn bytes_of(files: &FileMap, file: u32) -> &[u8]
    ensures { result.now ≡ bytes_in files.now file }
{
    match files.get(&file) {
        Some(bytes) => bytes.as_slice(),
        None => &[],
    }
}

fn paste(out: &mut [u8], at: usize, bytes: &[u8])
    requires { at + length bytes.now ≤ length out.old }
    ensures { out.new ≡ put out.old at bytes.now }
{
    out[at..at + bytes.len()].copy_from_slice(bytes);
}

// Writes the bytes from `at` on; a gap before becomes zeros. No memory reaches past 2^64.
fn overlay(file: &mut Vec<u8>, at: usize, bytes: &[u8]) -> Result<(), Memory>
    ensures ok { OnOk result (file.new.items ≡ put file.old.items at bytes.now) }
    ensures err { OnErr result (file.new.items ≡ file.old.items) }
{
    let end = at.checked_add(bytes.len()).ok_or(Memory)?;
    if end > file.len() {
        file.resize(end, 0)?;
    }
    paste(file.as_mut_slice(), at, bytes);
    Ok(())
}

pub(crate) fn write_in(
    alloc: Global,
    files: &mut FileMap,
    file: u32,
    at: usize,
    bytes: &[u8],
) -> Result<(), Memory>
    ensures ok { OnOk result ((f : ℕ) → bytes_in files.new f ≡
        (if file == f then put (bytes_in files.old f) at bytes.now else bytes_in files.old f)) }
    ensures err { OnErr result ((f : ℕ) → bytes_in files.new f ≡ bytes_in files.old f) }
{
    if let Some(old) = files.get_mut(&file) {
        return overlay(old, at, bytes);
    }
    let mut new = Vec::new(alloc);
    overlay(&mut new, at, bytes)?;
    files.insert(file, new)?;
    Ok(())
}

pub(crate) fn cut_in(files: &mut FileMap, file: u32, length: usize)
    ensures { (f : ℕ) → bytes_in files.new f ≡
        (if file == f then take length (bytes_in files.old f) else bytes_in files.old f) }
{
    if let Some(old) = files.get_mut(&file) {
        old.truncate(length);
    }
}

// Makes the file hold these bytes.
pub(crate) fn set_in(
    alloc: Global,
    files: &mut FileMap,
    file: u32,
    bytes: &[u8],
) -> Result<(), Memory>
    ensures ok { OnOk result ((f : ℕ) → bytes_in files.new f ≡
        (if file == f then bytes.now else bytes_in files.old f)) }
{
    let copy = Vec::from_slice(alloc, bytes)?;
    files.insert(file, copy)?;
    Ok(())
}

pub(crate) fn copy_of(files: &FileMap) -> Result<FileMap, Memory>
    ensures { IfOk result (λ copy. (f : ℕ) → bytes_in copy f ≡ bytes_in files.now f) }
{
    Ok(files.clone()?)
}
