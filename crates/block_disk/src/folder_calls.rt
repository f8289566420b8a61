use std::fs::{File, OpenOptions};
use std::os::unix::fs::FileExt;
use std::rt::Files;
use std::{fs, io};

/// The system calls of a disk over a folder. Each runtime with real files has them.
pub trait FolderCalls {
    /// Opens a file or the folder.
    fn open(&self, how: &OpenOptions, path: &str) -> io::Result<File>;

    /// Fails where nothing has that path.
    fn look_up(&self, path: &str) -> io::Result<()>;

    /// Takes the advisory lock of the folder, which ends where the folder is closed. It fails where
    /// another one has it.
    fn lock(&self, folder: &File) -> io::Result<()> {
        folder.try_lock()?;
        Ok(())
    }

    /// The length in bytes.
    fn length(&self, file: &File) -> io::Result<u64> {
        Ok(file.metadata()?.len())
    }

    /// Cuts the file off after so many bytes, or fills it up with zeros.
    fn set_length(&self, file: &File, length: u64) -> io::Result<()> {
        file.set_len(length)
    }

    fn read(&self, file: &File, at: u64, out: &mut [u8]) -> io::Result<()> {
        file.read_exact_at(out, at)
    }

    fn write(&self, file: &File, at: u64, bytes: &[u8]) -> io::Result<()> {
        file.write_all_at(bytes, at)
    }

    /// Puts a file, or the names of the folder, onto the disk.
    fn sync(&self, file: &File) -> io::Result<()> {
        file.sync_all()
    }
}

impl<R: Files<File = File>> FolderCalls for R {
    fn open(&self, how: &OpenOptions, path: &str) -> io::Result<File> {
        how.open(self, path)
    }

    fn look_up(&self, path: &str) -> io::Result<()> {
        fs::metadata(self, path)?;
        Ok(())
    }
}
