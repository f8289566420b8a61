//! The files of a folder: which of them are open, and what is still to be synced.
ghost use Rattle.std.specs.Prelude.{◌<◌, ◌↔◌, IsTrue, IsErr};

use crate::folder_calls::FolderCalls;
use arrayvec::ArrayString;
use sector_extent::ListOf;
use std::fmt::Write;
use std::fs::{File, OpenOptions};
use std::io::ErrorKind;
use std::{array, io};

/// A path, as bytes of UTF-8.
pub type PathText = ListOf<u8>;

// How many files are kept open.
const MOST_OPEN: usize = 256;

#[derive(Drop)]
struct OpenFile {
    number: u32,
    file: File,
    // It was written or cut since its last sync.
    is_dirty: bool,
}

// The files of a folder.
#[derive(Drop)]
pub(crate) struct Folder<C: FolderCalls> {
    calls: C,
    path: PathText,
    // The folder itself, once it is locked.
    locked: Option<File>,
    // The files that are open, the one that was used last in front.
    open: [Option<OpenFile>; MOST_OPEN],
    // Each name of the folder is on the disk.
    has_synced_names: bool,
    // A sync has failed.
    has_failed: bool,
}

fn too_long() -> io::Error {
    ErrorKind::InvalidInput.into()
}

fn folder_text(path: &PathText) -> io::Result<&str> {
    match std::str::from_utf8(path.as_slice()) {
        Ok("") => Ok("."),
        Ok(text) => Ok(text),
        Err(_) => Err(ErrorKind::InvalidInput.into()),
    }
}

// Appends the name of a file.
fn push_name(path: &mut ArrayString<4096>, number: u32) -> io::Result<()> {
    if number == 0 {
        return write!(path, "manifest").map_err(|_| too_long());
    }
    let epoch = (number - 1) / 4;
    let kind = match (number - 1) % 4 {
        0 => "data",
        1 => "index",
        2 => "mark",
        _ => "sealed",
    };
    write!(path, "{kind}-{epoch}").map_err(|_| too_long())
}

// Puts a file or the folder onto the disk. Once a sync has failed none is tried again: the system may
// have dropped what it could not write, and would answer the next one as if all were well.
fn sync_file<C: FolderCalls>(calls: &C, file: &File, has_failed: &mut bool) -> io::Result<()>
    ensures refused { IsTrue has_failed.old → IsErr result }
    ensures noted { IsErr result ↔ IsTrue has_failed.new }
{
    if *has_failed {
        return Err(ErrorKind::Other.into());
    }
    let result = calls.sync(file);
    *has_failed = result.is_err();
    result
}

// Puts a file in front of those that are open. False where it is not among them.
fn bring_to_front(open: &mut [Option<OpenFile>], number: u32) -> bool {
    for at in 0..open.len() {
        if let Some(file) = &open[at] {
            if file.number == number {
                open[..at + 1].rotate_right(1);
                return true;
            }
        }
    }
    false
}

impl<C: FolderCalls> Folder<C> {
    pub(crate) fn new(calls: C, path: PathText) -> Folder<C> {
        Folder {
            calls,
            path,
            locked: None,
            open: array::from_fn(|_| None),
            has_synced_names: false,
            has_failed: false,
        }
    }

    // Opens the folder and locks it, at the first call.
    fn lock(&mut self) -> io::Result<()>
        ensures stays { IsTrue self.old.has_failed → IsTrue self.new.has_failed }
    {
        if self.locked.is_none() {
            let path = folder_text(&self.path)?;
            let folder = self.calls.open(OpenOptions::new().read(true), path)?;
            self.calls.lock(&folder)?;
            self.locked = Some(folder);
        }
        Ok(())
    }

    // Puts the names of the folder onto the disk, where one was made since that was done last.
    fn sync_names(&mut self) -> io::Result<()>
        ensures stays { IsTrue self.old.has_failed → IsTrue self.new.has_failed }
    {
        if !self.has_synced_names {
            let Some(folder) = &self.locked else {
                return Err(ErrorKind::NotFound.into());
            };
            sync_file(&self.calls, folder, &mut self.has_failed)?;
            self.has_synced_names = true;
        }
        Ok(())
    }

    // The place that is given to the next file: one that is free, or that of the file that was used
    // longest ago. Files that have to be synced first are passed over while there are others.
    fn place(&self) -> usize
        ensures { result < 256 }
    {
        for at in (0..MOST_OPEN).rev() {
            match &self.open[at] {
                Some(open) if open.is_dirty => {}
                _ => return at,
            }
        }
        MOST_OPEN - 1
    }

    // Puts a file that was just opened in front, and closes another one where too many are open. A
    // write that fails late must not be missed, so a file is synced before it is closed.
    fn keep_open(&mut self, number: u32, file: File) -> io::Result<()>
        ensures stays { IsTrue self.old.has_failed → IsTrue self.new.has_failed }
    {
        let at = self.place();
        if let Some(open) = &self.open[at] {
            if open.is_dirty {
                sync_file(&self.calls, &open.file, &mut self.has_failed)?;
            }
        }
        self.open[..at + 1].rotate_right(1);
        self.open[0] = Some(OpenFile {
            number,
            file,
            is_dirty: false,
        });
        Ok(())
    }

    // Opens a file, or makes it. None for one that is not there and is not to be made.
    fn open_file(&mut self, number: u32, makes: bool) -> io::Result<Option<File>>
        ensures stays { IsTrue self.old.has_failed → IsTrue self.new.has_failed }
    {
        let folder = folder_text(&self.path)?;
        let mut path = ArrayString::<4096>::new();
        write!(path, "{folder}/").map_err(|_| too_long())?;
        push_name(&mut path, number)?;
        let mut how = OpenOptions::new();
        how.read(true).write(true);
        match self.calls.open(&how, path.as_str()) {
            Ok(file) => return Ok(Some(file)),
            Err(error) if error.kind() != ErrorKind::NotFound => return Err(error),
            Err(_) => {}
        }
        if !makes {
            // A folder that is missing is a fault, and no empty file.
            self.calls.look_up(folder)?;
            return Ok(None);
        }
        self.has_synced_names = false;
        how.create(true);
        Ok(Some(self.calls.open(&how, path.as_str())?))
    }

    // Opens a file where it is not open, and puts it in front. False for one that is not there and is
    // not to be made.
    fn use_file(&mut self, number: u32, makes: bool) -> io::Result<bool>
        ensures stays { IsTrue self.old.has_failed → IsTrue self.new.has_failed }
    {
        self.lock()?;
        if bring_to_front(&mut self.open, number) {
            return Ok(true);
        }
        match self.open_file(number, makes)? {
            Some(file) => {
                self.keep_open(number, file)?;
                Ok(true)
            }
            None => Ok(false),
        }
    }

    pub(crate) fn size(&mut self, number: u32) -> io::Result<u64>
        ensures stays { IsTrue self.old.has_failed → IsTrue self.new.has_failed }
    {
        if !self.use_file(number, false)? {
            return Ok(0);
        }
        match &self.open[0] {
            Some(open) => self.calls.length(&open.file),
            None => Err(ErrorKind::NotFound.into()),
        }
    }

    pub(crate) fn read(&mut self, number: u32, at: u64, out: &mut [u8]) -> io::Result<()>
        ensures stays { IsTrue self.old.has_failed → IsTrue self.new.has_failed }
    {
        if out.is_empty() {
            return if at <= self.size(number)? {
                Ok(())
            } else {
                Err(ErrorKind::UnexpectedEof.into())
            };
        }
        if !self.use_file(number, false)? {
            return Err(ErrorKind::UnexpectedEof.into());
        }
        match &self.open[0] {
            Some(open) => self.calls.read(&open.file, at, out),
            None => Err(ErrorKind::NotFound.into()),
        }
    }

    pub(crate) fn write(&mut self, number: u32, at: u64, bytes: &[u8]) -> io::Result<()>
        ensures refused { IsTrue self.old.has_failed → IsErr result }
        ensures stays { IsTrue self.old.has_failed → IsTrue self.new.has_failed }
    {
        if self.has_failed || !self.use_file(number, true)? {
            return Err(ErrorKind::Other.into());
        }
        let Some(open) = &mut self.open[0] else {
            return Err(ErrorKind::NotFound.into());
        };
        open.is_dirty = true;
        if bytes.is_empty() {
            // A gap before an empty write becomes zeros too.
            if self.calls.length(&open.file)? < at {
                self.calls.set_length(&open.file, at)?;
            }
            return Ok(());
        }
        self.calls.write(&open.file, at, bytes)
    }

    pub(crate) fn cut(&mut self, number: u32, length: u64) -> io::Result<()>
        ensures refused { IsTrue self.old.has_failed → IsErr result }
        ensures stays { IsTrue self.old.has_failed → IsTrue self.new.has_failed }
    {
        if self.has_failed {
            return Err(ErrorKind::Other.into());
        }
        if !self.use_file(number, false)? {
            return Ok(());
        }
        let Some(open) = &mut self.open[0] else {
            return Err(ErrorKind::NotFound.into());
        };
        if length < self.calls.length(&open.file)? {
            open.is_dirty = true;
            self.calls.set_length(&open.file, length)?;
        }
        Ok(())
    }

    pub(crate) fn sync(&mut self, number: u32) -> io::Result<()>
        ensures refused { IsTrue self.old.has_failed → IsErr result }
        ensures stays { IsTrue self.old.has_failed → IsTrue self.new.has_failed }
    {
        if self.has_failed {
            return Err(ErrorKind::Other.into());
        }
        if !self.use_file(number, false)? {
            return Ok(());
        }
        let Some(open) = &mut self.open[0] else {
            return Err(ErrorKind::NotFound.into());
        };
        sync_file(&self.calls, &open.file, &mut self.has_failed)?;
        open.is_dirty = false;
        self.sync_names()
    }
}
