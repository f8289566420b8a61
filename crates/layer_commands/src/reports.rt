//! The lines that commands print.
ghost use Rattle.std.specs.Prelude.{◌≡◌, ◌^◌, ◌<◌, Some, length, string_bytes, IfOk, map};
ghost use Rattle.layer_commands.specs.Reports.{info_lines, named_lines, parent_text, sized_lines, stack_line, stack_lines, tag_text};

use lsmt_header::Head;
use sealed_layer::Layer;
use std::alloc::{AllocError, Global};
use std::fmt;
use uuid::Uuid;

/// The seven lines of `info` on the layer of that number.
pub fn info_report(alloc: Global, number: u32, head: &Head) -> Result<String, AllocError>
    ensures { IfOk result (λ text. string_bytes text ≡ info_lines number head.now) }
{
    let mut text = named_report(alloc, number, head)?;
    let tag = tag_report(alloc, head.tag.as_bytes())?;
    let rest = sized_report(alloc, head, tag.as_str())?;
    text.push_str(rest.as_str())?;
    Ok(text)
}

fn named_report(alloc: Global, number: u32, head: &Head) -> Result<String, AllocError>
    ensures { IfOk result (λ text. string_bytes text ≡ named_lines number head.now) }
{
    let uuid = Uuid::from_bytes(head.uuid).hyphenated();
    let parent = ParentText(head.parent);
    format!(in alloc; "layer {number}\nuuid {uuid}\nparent {parent}\n")
}

fn sized_report(alloc: Global, head: &Head, tag: &str) -> Result<String, AllocError>
    ensures { IfOk result (λ text. string_bytes text ≡ sized_lines head.now tag.now) }
{
    let sectors = head.sectors;
    let rows = head.rows;
    let index = head.index_at;
    format!(in alloc; "sectors {sectors}\nrows {rows}\nindex {index}\ntag {tag}\n")
}

fn tag_report(alloc: Global, tag: &[u8]) -> Result<String, AllocError>
    ensures { IfOk result (λ text. string_bytes text ≡ tag_text tag.now) }
{
    if tag.is_empty() {
        return String::from_str(alloc, "-");
    }
    hex::encode(alloc, tag)
}

/// Prints the uuid of a parent, or that there is none.
#[derive(Clone, Copy)]
struct ParentText([u8; 16]);

impl fmt::Display for ParentText {
    ghost output = { λ text. Some (parent_text text.0) };

    fn fmt<W: fmt::Write>(&self, f: &mut fmt::Formatter<W>) -> fmt::Result {
        if self.0 == [0; 16] {
            return f.write_str("none");
        }
        let uuid = Uuid::from_bytes(self.0).hyphenated();
        write!(f, "{uuid}")
    }
}

/// The line of `stack` on the layer of that number.
fn stack_report_line(alloc: Global, number: u32, head: &Head) -> Result<String, AllocError>
    ensures { IfOk result (λ text. string_bytes text ≡ stack_line number head.now) }
{
    let uuid = Uuid::from_bytes(head.uuid).hyphenated();
    let sectors = head.sectors;
    let rows = head.rows;
    format!(in alloc; "{number} {uuid} sectors {sectors} rows {rows}\n")
}

/// The lines of `stack` on layers from number 0 on.
pub fn stack_report(alloc: Global, layers: &[Layer]) -> Result<String, AllocError>
    requires { length layers.now < 2 ^ 32 }
    ensures { IfOk result (λ text. string_bytes text ≡ stack_lines 0 (map (λ layer. layer.head) layers.now)) }
{
    let mut text = String::new(alloc);
    for (number, layer) in layers.iter().enumerate() {
        let line = stack_report_line(alloc, number as u32, layer.head())?;
        text.push_str(line.as_str())?;
    }
    Ok(text)
}
