//! A disk of numbered files, with what a crash at any moment may leave of them.
#![tactic(auto)]

mod crash;
mod disk;
mod files;
mod folder_calls;
mod folder_disk;
mod history;
mod mem_disk;
mod open_files;
mod plan;

pub use crash::CrashChoice;
pub use disk::{Disk, DiskFailed};
pub use folder_calls::FolderCalls;
pub use folder_disk::FolderDisk;
pub use history::DiskCall;
pub use mem_disk::{FileList, MemDisk};
pub use open_files::PathText;
