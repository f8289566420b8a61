ghost use Rattle.std.specs.Prelude.{◌≡◌, ◌↔◌, ℕ, List, [], IsNone, IfSome, IfNone};
ghost use Rattle.lsmt_header.specs.Tags.{IsTagText, padded};

use crate::zeros::{all_zero, text_len};
use byte_fields::FieldWriter;
use std::marker::Model;
use std::str::from_utf8;

/// A short text that the maker of a layer gave it: at most 256 bytes of UTF-8 with no zero byte.
/// Contracts see its bytes.
#[derive(Clone, Copy, Debug, PartialEq, Eq)]
pub struct Tag {
    field: [u8; 256],
    len: usize,
}

impl Model for Tag {
    ghost use Rattle.std.specs.Prelude.{ℕ, List, take, length};
    ghost use Rattle.std.proofs.Common.{sym};
    ghost use Rattle.lsmt_header.specs.Tags.{IsTag, padded};

    ghost Value = { List ℕ };

    ghost view = { λ t. take t.len t.field };

    ghost invariant = { λ t. IsTag t.field t.len };

    ghost inverse = { λ text. record { field = padded text; len = length text } };

    ghost inverse_ok = { λ a h. (λ i. record { field = sym h.whole i; len = h.long i }) };
}

impl Tag {
    /// The tag without a text.
    pub fn empty() -> Tag
        ensures { result ≡ [] }
    {
        Tag {
            field: [0; 256],
            len: 0,
        }
    }

    /// The tag with this text. None where it is over 256 bytes, has a zero byte or is not UTF-8.
    pub fn new(text: &[u8]) -> Option<Tag>
        ensures some { IfSome result (λ tag. (tag ≡ text.now) × IsTagText text.now) }
        ensures none { IsNone result ↔ (IsTagText text.now → ⊥) }
    {
        if text.len() > 256 || text.contains(&0) || from_utf8(text).is_err() {
            return None;
        }
        let mut field = FieldWriter::new();
        field.put_bytes(text);
        Some(Tag {
            field: field.finish(),
            len: text.len(),
        })
    }

    /// The text, with no zeros behind it.
    pub fn as_bytes(&self) -> &[u8]
        ensures text { result.now ≡ self.now }
        ensures kept { IsTagText result.now }
    {
        &self.field[..self.len]
    }

    /// The 256 bytes that a block has for it: the text, and zeros behind it.
    pub fn as_field(&self) -> &[u8; 256]
        ensures padded { result.now ≡ padded self.now }
        ensures kept { IsTagText self.now }
    {
        &self.field
    }

    // The tag of a block's 256 bytes.
    pub(crate) fn of_field(field: &[u8; 256]) -> Option<Tag>
        ensures some { IfSome result (λ tag. IsTagText tag × (field.now ≡ padded tag)) }
        ensures none { IfNone result ((text : List ℕ) → IsTagText text → field.now ≡ padded text → ⊥) }
    {
        let len = text_len(field);
        let (text, zeros) = field.split_at(len);
        if !all_zero(zeros) {
            return None;
        }
        match from_utf8(text) {
            Ok(_) => Some(Tag { field: *field, len }),
            Err(_) => None,
        }
    }
}
