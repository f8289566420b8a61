//! What the faults of layer files and of stacks, and the refusals of commands, print.
ghost use Rattle.std.specs.Prelude.{◌≡◌, ◌+◌, ◌≤◌, ◌++◌, length};
ghost use Rattle.arrayvec.specs.ArrayString.{array_string_len};
ghost use Rattle.layer_commands.specs.Texts.{head_text, layer_text, stack_text, text_of};

use crate::line::{Line, push_named, push_numbered, push_pair, push_parted};
use crate::refusal::Refusal;
use layer_stack::StackFault;
use lsmt_header::HeadFault;
use sealed_layer::LayerFault;

/// Puts the text of a head's fault behind the line's bytes, at most 32 bytes.
pub fn push_head(line: &mut Line, fault: HeadFault)
    requires { array_string_len line.old + 32 ≤ 128 }
    ensures text { line.new.bytes ≡ line.old.bytes ++ head_text fault }
    ensures room { array_string_len line.new ≤ array_string_len line.old + 32 }
{
    match fault {
        HeadFault::BadMagic => line.push_str("bad magic"),
        HeadFault::BadVersion(version) => push_numbered(line, "bad version ", version as u64),
        HeadFault::Compressed => line.push_str("compressed"),
        HeadFault::BadFlags(flags) => push_numbered(line, "bad flags ", flags as u64),
        HeadFault::BadSize(sectors) => push_numbered(line, "bad size ", sectors),
        HeadFault::NilUuid => line.push_str("nil uuid"),
        HeadFault::BadTag => line.push_str("bad tag"),
        HeadFault::Unclean(place) => push_numbered(line, "unclean ", place as u64),
    }
}

/// Puts the text of a layer file's fault behind the line's bytes, at most 34 bytes.
pub fn push_layer(line: &mut Line, fault: LayerFault)
    requires { array_string_len line.old + 34 ≤ 128 }
    ensures text { line.new.bytes ≡ line.old.bytes ++ layer_text fault }
    ensures room { array_string_len line.new ≤ array_string_len line.old + 34 }
{
    match fault {
        LayerFault::Short => line.push_str("short"),
        LayerFault::Head(fault) => push_head(line, fault),
        LayerFault::TrailerDiffers => line.push_str("trailer differs"),
        LayerFault::TooManyRows(rows) => push_numbered(line, "too many rows ", rows),
        LayerFault::BadIndexPlace => line.push_str("bad index place"),
        LayerFault::Row { number, .. } => push_parted(line, "row ", number, " empty"),
        LayerFault::RowOrder(number) => push_parted(line, "row ", number, " order"),
        LayerFault::RowRange(number) => push_parted(line, "row ", number, " range"),
        LayerFault::RowPlace(number) => push_parted(line, "row ", number, " place"),
        LayerFault::Failed => line.push_str("shelf fault"),
        LayerFault::Memory => line.push_str("memory"),
    }
}

/// Puts the text of a stack's fault behind the line's bytes, at most 52 bytes.
pub fn push_stack(line: &mut Line, fault: StackFault)
    requires { array_string_len line.old + 52 ≤ 128 }
    ensures text { line.new.bytes ≡ line.old.bytes ++ stack_text fault }
    ensures room { array_string_len line.new ≤ array_string_len line.old + 52 }
{
    match fault {
        StackFault::Empty => line.push_str("stack empty"),
        StackFault::TooMany(count) => push_numbered(line, "stack too many ", count as u64),
        StackFault::SizeDiffers(number) => push_parted(line, "layer ", number as u64, " size"),
        StackFault::ParentDiffers(number) => push_parted(line, "layer ", number as u64, " parent"),
        StackFault::UuidTwice(first, second) => {
            push_pair(line, "uuid twice ", first as u64, " ", second as u64);
        }
    }
}

/// Puts the text of a refusal behind the line's bytes, at most 62 bytes.
pub fn push_refusal(line: &mut Line, refusal: Refusal)
    requires { array_string_len line.old + 62 ≤ 128 }
    ensures text { line.new.bytes ≡ line.old.bytes ++ text_of refusal }
    ensures room { array_string_len line.new ≤ array_string_len line.old + 62 }
{
    match refusal {
        Refusal::Usage => line.push_str("usage"),
        Refusal::SourceFault => line.push_str("source fault"),
        Refusal::SinkFault => line.push_str("sink fault"),
        Refusal::ShelfFault => line.push_str("shelf fault"),
        Refusal::DiskFault => line.push_str("disk fault"),
        Refusal::Memory => line.push_str("memory"),
        Refusal::TooLong => line.push_str("too long"),
        Refusal::NotWholeSectors => line.push_str("not whole sectors"),
        Refusal::NoLayer => line.push_str("no layer"),
        Refusal::Layer(number, fault) => {
            push_parted(line, "layer ", number as u64, ": ");
            push_layer(line, fault);
        }
        Refusal::Stack(fault) => push_stack(line, fault),
        Refusal::NoSize => line.push_str("no size"),
        Refusal::OtherSize => line.push_str("other size"),
        Refusal::ImageExists => line.push_str("image exists"),
        Refusal::OutOfRange => line.push_str("out of range"),
        Refusal::Full { rows, sectors } => push_pair(line, "full ", rows, " ", sectors),
        Refusal::Busy(uuid) => push_named(line, "busy ", uuid),
        Refusal::NotLarger(sectors) => push_numbered(line, "not larger ", sectors),
        Refusal::TooManyLayers => line.push_str("too many layers"),
        Refusal::UuidTwice => line.push_str("uuid twice"),
    }
}
