ghost use Rattle.std.specs.Prelude.{◌≡◌, ◌↔◌, ℕ, length, replicate, IsTrue, IfSome, IfNone, IsUtf8};
ghost use Rattle.lsmt_header.specs.Tags.{IsTextEnd};
ghost use Rattle.lsmt_header.specs.Faults.{IsFirstSet};

/// Where the first byte stands that is not zero.
pub fn first_set(bytes: &[u8]) -> Option<usize>
    ensures some { IfSome result (IsFirstSet bytes.now) }
    ensures none { IfNone result (bytes.now ≡ replicate (length bytes.now) 0) }
{
    bytes.iter().position(|byte| *byte != 0)
}

/// How many bytes stand before the first zero.
pub fn text_len(bytes: &[u8]) -> usize
    ensures { IsTextEnd bytes.now result }
{
    bytes
        .iter()
        .position(|byte| *byte == 0)
        .unwrap_or(bytes.len())
}

/// Each byte is zero.
pub fn all_zero(bytes: &[u8]) -> bool
    ensures { IsTrue result ↔ (bytes.now ≡ replicate (length bytes.now) 0) }
{
    first_set(bytes).is_none()
}
