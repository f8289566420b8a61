//! What the faults of an image, and the refusals of commands on it, print.
ghost use Rattle.std.specs.Prelude.{◌≡◌, ◌+◌, ◌≤◌, ◌++◌, length};
ghost use Rattle.arrayvec.specs.ArrayString.{array_string_len};
ghost use Rattle.image_commands.specs.ImageTexts.{image_text, load_text, top_text};

use crate::refusal::ImageRefusal;
use image_core::LoadFault;
use layer_commands::{
    Line, push_head, push_layer, push_numbered, push_parted, push_refusal, push_stack,
};
use top_writer::TopReason;

// Puts the text of why the files of a top are none behind the line's bytes, at most 40 bytes.
fn push_top(line: &mut Line, reason: TopReason)
    requires { array_string_len line.old + 40 ≤ 128 }
    ensures text { line.new.bytes ≡ line.old.bytes ++ top_text reason }
    ensures room { array_string_len line.new ≤ array_string_len line.old + 40 }
{
    match reason {
        TopReason::HeadShort => line.push_str("head short"),
        TopReason::Bytes(fault) => {
            line.push_str("data ");
            push_head(line, fault);
        }
        TopReason::Rows(fault) => {
            line.push_str("index ");
            push_head(line, fault);
        }
        TopReason::HeadSize(sectors) => push_numbered(line, "head size ", sectors),
        TopReason::ParentDiffers => line.push_str("parent differs"),
        TopReason::NoMark => line.push_str("no mark"),
        TopReason::MarkWorn(sequence) => push_numbered(line, "mark worn ", sequence),
        TopReason::MarkBad { .. } => line.push_str("mark bad"),
        TopReason::ShortRows => line.push_str("short rows"),
        TopReason::ShortBytes => line.push_str("short data"),
        TopReason::Row { number, .. } => push_parted(line, "row ", number, " empty"),
        TopReason::RowRange(number) => push_parted(line, "row ", number, " range"),
        TopReason::RowPlace(number) => push_parted(line, "row ", number, " place"),
    }
}

// Puts the text of why no image was loaded behind the line's bytes, at most 70 bytes.
fn push_load(line: &mut Line, fault: LoadFault)
    requires { array_string_len line.old + 70 ≤ 128 }
    ensures text { line.new.bytes ≡ line.old.bytes ++ load_text fault }
    ensures room { array_string_len line.new ≤ array_string_len line.old + 70 }
{
    match fault {
        LoadFault::NoImage => line.push_str("no image"),
        LoadFault::ManifestWorn(sequence) => push_numbered(line, "manifest worn ", sequence),
        LoadFault::ManifestBad => line.push_str("manifest bad"),
        LoadFault::SizeDiffers => line.push_str("size differs"),
        LoadFault::Sealed { epoch, fault } => {
            push_parted(line, "sealed ", epoch as u64, ": ");
            push_layer(line, fault);
        }
        LoadFault::Stack(fault) => push_stack(line, fault),
        LoadFault::NoTop { epoch, reason } => {
            push_parted(line, "top ", epoch as u64, ": ");
            push_top(line, reason);
        }
        LoadFault::Failed => line.push_str("disk fault"),
        LoadFault::Memory => line.push_str("memory"),
    }
}

/// Puts the text of a refusal behind the line's bytes, at most 70 bytes.
pub fn push_image_refusal(line: &mut Line, refusal: ImageRefusal)
    requires { array_string_len line.old + 70 ≤ 128 }
    ensures text { line.new.bytes ≡ line.old.bytes ++ image_text refusal }
    ensures room { array_string_len line.new ≤ array_string_len line.old + 70 }
{
    match refusal {
        ImageRefusal::Load(fault) => push_load(line, fault),
        ImageRefusal::Other(refusal) => push_refusal(line, refusal),
    }
}
