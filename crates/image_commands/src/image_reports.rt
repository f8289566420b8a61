//! The lines that commands on an image print.
ghost use Rattle.std.specs.Prelude.{◌≡◌, ◌+◌, ◌≤◌, ◌++◌, string_bytes, IfOk};
ghost use Rattle.arrayvec.specs.ArrayString.{array_string_len};
ghost use Rattle.image_commands.specs.ImageReports.{committed_line, created_line, grown_line, swept_line, wrote_line, zeroed_line};

use layer_commands::{Line, push_named, push_numbered, push_parted};
use std::alloc::{AllocError, Global};

/// A layer that was committed: its epoch, and the bytes of its file.
#[derive(Clone, Copy, Debug, PartialEq, Eq)]
pub struct Committed {
    pub epoch: u32,
    pub size: u64,
}

/// The line of `create`: the image's sectors, and the layers below it.
pub fn created_report(alloc: Global, sectors: u64, layers: u64) -> Result<String, AllocError>
    ensures { IfOk result (λ text. string_bytes text ≡ created_line sectors layers) }
{
    format!(in alloc; "created sectors {sectors} layers {layers}\n")
}

/// The line of `write` on so many sectors from that one on.
pub fn wrote_report(alloc: Global, at: u64, count: u64) -> Result<String, AllocError>
    ensures { IfOk result (λ text. string_bytes text ≡ wrote_line at count) }
{
    format!(in alloc; "wrote {at} {count}\n")
}

/// The line of `zero` on so many sectors from that one on.
pub fn zeroed_report(alloc: Global, at: u64, count: u64) -> Result<String, AllocError>
    ensures { IfOk result (λ text. string_bytes text ≡ zeroed_line at count) }
{
    format!(in alloc; "zeroed {at} {count}\n")
}

/// The line of `grow` on an image that has so many sectors now.
pub fn grown_report(alloc: Global, sectors: u64) -> Result<String, AllocError>
    ensures { IfOk result (λ text. string_bytes text ≡ grown_line sectors) }
{
    format!(in alloc; "grown {sectors}\n")
}

/// Puts the line of `commit` behind the line's bytes, at most 101 bytes.
pub fn push_committed(line: &mut Line, uuid: [u8; 16], layer: Committed)
    requires { array_string_len line.old + 101 ≤ 128 }
    ensures text { line.new.bytes ≡ line.old.bytes ++ committed_line uuid layer.epoch layer.size }
{
    push_named(line, "committed ", uuid);
    push_numbered(line, " layer ", layer.epoch as u64);
    push_parted(line, " bytes ", layer.size, "\n");
}

/// Puts the line of `sweep` over so many epochs behind the line's bytes, at most 27 bytes.
pub fn push_swept(line: &mut Line, count: u32)
    requires { array_string_len line.old + 27 ≤ 128 }
    ensures text { line.new.bytes ≡ line.old.bytes ++ swept_line count }
{
    push_parted(line, "swept ", count as u64, "\n");
}
