ghost use Rattle.std.specs.Prelude.{◌≡◌, ℕ, ◌+◌, ◌<◌, ◌≤◌, ◌^◌, List, ◌++◌, length};
ghost use Rattle.std.specs.Int.{w16, w32, w64, to_le_bytes, to_be_bytes};
ghost use Rattle.byte_fields.specs.Bytes.{IsBytes};

use std::marker::Model;

/// Takes fields from the front of bytes, one after the other. A contract sees the bytes that are
/// left. Who takes a field has made sure that as many bytes are left.
#[derive(Drop)]
pub struct FieldReader<'a> {
    rest: &'a [u8],
}

impl<'a> Model for FieldReader<'a> {
    ghost Value = { List ℕ };

    ghost view = { λ r. r.rest.now };

    ghost invariant = { λ r. IsBytes r.rest.now };
}

impl<'a> FieldReader<'a> {
    /// A reader of these bytes.
    pub fn new(bytes: &'a [u8]) -> FieldReader<'a>
        ensures { result ≡ bytes.now }
    {
        FieldReader { rest: bytes }
    }

    /// What is left.
    pub fn rest(&self) -> &'a [u8]
        ensures left { result.now ≡ self.now }
        ensures bytes { IsBytes result.now }
    {
        self.rest
    }

    /// The next `N` bytes.
    pub fn take_bytes<const N: usize>(&mut self) -> &'a [u8; N]
        requires { N ≤ length self.old }
        ensures front { self.old ≡ result.now ++ self.new }
        ensures left { length self.new + N ≡ length self.old }
        ensures size { length result.now ≡ N }
        ensures bytes { IsBytes result.now }
    {
        match self.rest.split_first_chunk() {
            Some((front, rest)) => {
                self.rest = rest;
                front
            }
            None => unreachable!(),
        }
    }

    /// The next `count` bytes.
    pub fn take_slice(&mut self, count: usize) -> &'a [u8]
        requires { count ≤ length self.old }
        ensures front { self.old ≡ result.now ++ self.new }
        ensures left { length self.new + count ≡ length self.old }
        ensures size { length result.now ≡ count }
    {
        let (front, behind) = self.rest.split_at(count);
        self.rest = behind;
        front
    }

    /// The next four bytes as a number, the lowest byte first.
    pub fn take_u32_le(&mut self) -> u32
        requires { 4 ≤ length self.old }
        ensures front { self.old ≡ to_le_bytes w32 result ++ self.new }
        ensures left { length self.new + 4 ≡ length self.old }
        ensures below { result < 2 ^ 32 }
    {
        u32::from_le_bytes(*self.take_bytes())
    }

    /// The next eight bytes as a number, the lowest byte first.
    pub fn take_u64_le(&mut self) -> u64
        requires { 8 ≤ length self.old }
        ensures front { self.old ≡ to_le_bytes w64 result ++ self.new }
        ensures left { length self.new + 8 ≡ length self.old }
        ensures below { result < 2 ^ 64 }
    {
        u64::from_le_bytes(*self.take_bytes())
    }

    /// The next two bytes as a number, the highest byte first.
    pub fn take_u16_be(&mut self) -> u16
        requires { 2 ≤ length self.old }
        ensures front { self.old ≡ to_be_bytes w16 result ++ self.new }
        ensures left { length self.new + 2 ≡ length self.old }
        ensures below { result < 2 ^ 16 }
    {
        u16::from_be_bytes(*self.take_bytes())
    }

    /// The next four bytes as a number, the highest byte first.
    pub fn take_u32_be(&mut self) -> u32
        requires { 4 ≤ length self.old }
        ensures front { self.old ≡ to_be_bytes w32 result ++ self.new }
        ensures left { length self.new + 4 ≡ length self.old }
        ensures below { result < 2 ^ 32 }
    {
        u32::from_be_bytes(*self.take_bytes())
    }

    /// The next eight bytes as a number, the highest byte first.
    pub fn take_u64_be(&mut self) -> u64
        requires { 8 ≤ length self.old }
        ensures front { self.old ≡ to_be_bytes w64 result ++ self.new }
        ensures left { length self.new + 8 ≡ length self.old }
        ensures below { result < 2 ^ 64 }
    {
        u64::from_be_bytes(*self.take_bytes())
    }
}
