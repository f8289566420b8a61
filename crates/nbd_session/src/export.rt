ghost use Rattle.std.specs.Prelude.{◌≡◌, ◌<◌, ◌≤◌, length, MatchOption};

use std::marker::Model;

/// What a server offers: a name, and whether its image may be written.
#[derive(Drop)]
pub struct Export {
    pub name: NameBytes,
    pub read_only: bool,
}

/// The name of an export, of at most 4,096 bytes.
#[derive(Drop)]
pub struct NameBytes {
    bytes: Vec<u8>,
}

impl Model for NameBytes {
    ghost use Rattle.std.specs.Prelude.{ℕ, ◌≤◌, List, length};

    ghost Value = { List ℕ };

    ghost view = { λ name. name.bytes.items };

    ghost invariant = { λ name. length name.bytes.items ≤ 4096 };
}

impl NameBytes {
    /// None where the name is too long.
    pub fn from_vec(bytes: Vec<u8>) -> Option<NameBytes>
        ensures { MatchOption result
            (4096 < length bytes.items)
            (λ name. (name ≡ bytes.items) × (length bytes.items ≤ 4096)) }
    {
        if bytes.len() > 4096 {
            return None;
        }
        Some(NameBytes { bytes })
    }

    pub fn into_vec(self) -> Vec<u8>
        ensures { result.items ≡ self }
    {
        self.bytes
    }

    pub fn as_slice(&self) -> &[u8]
        ensures bytes { result.now ≡ self.now }
        ensures short { length self.now ≤ 4096 }
    {
        self.bytes.as_slice()
    }
}
