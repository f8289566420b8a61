ghost use Rattle.std.specs.Prelude.{◌≡◌, ℕ, ◌+◌, ◌-◌, ◌≤◌, List, [], ◌∷◌, ◌++◌, length, take, drop, replicate};
ghost use Rattle.std.specs.Int.{w32, w64, to_le_bytes};
ghost use Rattle.byte_fields.specs.Filled.{IsFilledTo};

use std::marker::Model;

/// Puts fields into a block of `N` bytes, one after the other. A contract sees the bytes that were
/// put. Who puts a field has made sure that it has room. What is never put stays zero.
#[derive(Drop)]
pub struct FieldWriter<const N: usize> {
    block: [u8; N],
    at: usize,
}

impl<const N: usize> Model for FieldWriter<N> {
    ghost Value = { List ℕ };

    ghost view = { λ w. take w.at w.block };

    ghost invariant = { λ w. IsFilledTo w.block w.at N };
}

// Writes the bytes at this place.
fn put_at(block: &mut [u8], at: usize, bytes: &[u8])
    requires { at + length bytes.now ≤ length block.old }
    ensures { block.new ≡ take at block.old ++ bytes.now ++ drop (at + length bytes.now) block.old }
{
    block[at..at + bytes.len()].copy_from_slice(bytes);
}

impl<const N: usize> FieldWriter<N> {
    /// A block of zeros with nothing put.
    pub fn new() -> FieldWriter<N>
        ensures { result ≡ [] }
    {
        FieldWriter {
            block: [0; N],
            at: 0,
        }
    }

    /// Puts these bytes.
    pub fn put_bytes(&mut self, bytes: &[u8])
        requires { length self.old + length bytes.now ≤ N }
        ensures { self.new ≡ self.old ++ bytes.now }
    {
        put_at(&mut self.block, self.at, bytes);
        self.at += bytes.len();
    }

    /// Puts a number in four bytes, the lowest byte first.
    pub fn put_u32_le(&mut self, number: u32)
        requires { length self.old + 4 ≤ N }
        ensures { self.new ≡ self.old ++ to_le_bytes w32 number }
    {
        self.put_bytes(&number.to_le_bytes());
    }

    /// Puts a number in eight bytes, the lowest byte first.
    pub fn put_u64_le(&mut self, number: u64)
        requires { length self.old + 8 ≤ N }
        ensures { self.new ≡ self.old ++ to_le_bytes w64 number }
    {
        self.put_bytes(&number.to_le_bytes());
    }

    /// The block: what was put, and zeros behind it.
    pub fn finish(self) -> [u8; N]
        ensures { result ≡ self.entry ++ replicate (N - length self.entry) 0 }
    {
        self.block
    }
}
