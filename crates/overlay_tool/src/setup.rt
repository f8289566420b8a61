//! What main does before a command runs: it reads the configuration and finds the lower layers.
ghost use Rattle.std.specs.Prelude.{◌≡◌, length, IfOk};

use http_range::{HostText, Target};
use range_shelf::TargetList;
use sector_extent::Bytes;
use std::alloc::{AllocError, AllocFailed, Global};
use std::fs;
use std::io::ErrorKind;
use tool_setup::{Config, ConfigFault, TextList, read_config};

/// Why main refuses by itself.
#[derive(Clone, Copy, Debug, PartialEq, Eq)]
pub enum SetupFault {
    /// The words are no command line.
    Usage,
    /// The file of the configuration cannot be read.
    ConfigFile,
    /// The text of the file is no configuration.
    Config,
    /// An address cannot be listened at.
    Listen,
    /// Memory was wanting.
    Memory,
}

impl From<AllocError> for SetupFault {
    fn from(_error: AllocError) -> SetupFault {
        SetupFault::Memory
    }
}

impl<T: Drop> From<AllocFailed<T>> for SetupFault {
    fn from(_error: AllocFailed<T>) -> SetupFault {
        SetupFault::Memory
    }
}

impl SetupFault {
    /// The line of the refusal.
    pub fn line(&self) -> &'static str {
        match self {
            SetupFault::Usage => "refused: usage\n",
            SetupFault::ConfigFile => "refused: config file\n",
            SetupFault::Config => "refused: config\n",
            SetupFault::Listen => "refused: listen\n",
            SetupFault::Memory => "refused: memory\n",
        }
    }

    /// The status of the program.
    pub fn code(&self) -> u8 {
        match self {
            SetupFault::Usage | SetupFault::ConfigFile | SetupFault::Config => 2,
            SetupFault::Listen => 4,
            SetupFault::Memory => 5,
        }
    }
}

/// The configuration in the file at that path.
pub fn read_configuration(rt: &HostRuntime, path: &str) -> Result<Config, SetupFault> {
    match fs::read(rt, path) {
        Ok(text) => match read_config(rt.alloc(), text.as_slice()) {
            Ok(config) => Ok(config),
            Err(ConfigFault::Memory) => Err(SetupFault::Memory),
            Err(_) => Err(SetupFault::Config),
        },
        Err(error) => Err(if error.kind() == ErrorKind::OutOfMemory {
            SetupFault::Memory
        } else {
            SetupFault::ConfigFile
        }),
    }
}

/// A text of its own.
pub fn copy(alloc: Global, text: &Bytes) -> Result<Bytes, AllocError> {
    Ok(Bytes::from_vec(Vec::from_slice(alloc, text.as_slice())?))
}

/// The same texts, of their own.
pub fn copy_all(alloc: Global, texts: &TextList) -> Result<TextList, AllocError>
    ensures { IfOk result (λ copies. length copies ≡ length texts.now) }
{
    let mut copies = Vec::new(alloc);
    for text in texts.as_slice() {
        copies.push(copy(alloc, text)?)?;
    }
    Ok(TextList::from_vec(copies))
}

/// Where the files of a host stand.
pub fn targets_of(
    alloc: Global,
    host: &HostText,
    paths: &TextList,
) -> Result<TargetList, SetupFault>
    ensures { IfOk result (λ targets. length targets ≡ length paths.now) }
{
    let mut targets = Vec::new(alloc);
    for path in paths.as_slice() {
        match Target::new(copy(alloc, host)?, copy(alloc, path)?) {
            Some(target) => targets.push(target)?,
            None => return Err(SetupFault::Config),
        }
    }
    Ok(TargetList::from_vec(targets))
}
