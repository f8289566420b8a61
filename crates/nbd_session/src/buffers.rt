//! The memory of a connection.
ghost use Rattle.std.specs.Prelude.{◌≡◌, ◌+◌, ◌^◌, ◌<◌, ◌≤◌, length, vec_len, IfOk};

use crate::port_calls::HEAD;
use std::alloc::{AllocError, Global};

// The bytes of the small buffer.
const SMALL: usize = 8192;

// The least bytes of data that the large buffer has room for, once it is made.
const LEAST: usize = 65_536;

// The most bytes of data that it has room for between two requests.
const MOST_KEPT: usize = 1_048_576;

// A small buffer, for the data of options, and a large one, for the data of a READ or a WRITE with
// the head of a reply before them. The large one is made when it is wanted.
#[derive(Drop)]
pub(crate) struct Buffers {
    alloc: Global,
    pub(crate) small: Vec<u8>,
    pub(crate) large: Vec<u8>,
    ghost size: { length small.items ≡ 8192 },
}

impl Buffers {
    pub(crate) fn new(alloc: Global) -> Result<Buffers, AllocError> {
        let small = vec![in alloc; 0; SMALL]?;
        Ok(Buffers {
            alloc,
            small,
            large: Vec::new(alloc),
        })
    }

    // Makes room in the large buffer for a head and so many bytes of data. A buffer that is too
    // small is given up first. The new one has room for a power of two of bytes.
    pub(crate) fn make_room(&mut self, size: usize) -> Result<(), AllocError>
        requires { size < 2 ^ 32 }
        ensures { IfOk result (λ _. 16 + size ≤ vec_len self.new.large) }
    {
        if self.large.len() < HEAD + size {
            self.large = Vec::new(self.alloc);
            let room = size.max(LEAST).next_power_of_two();
            self.large = vec![in self.alloc; 0; HEAD + room]?;
        }
        Ok(())
    }

    // Gives up a large buffer that has room for over 1 MiB of data.
    pub(crate) fn give_up_large(&mut self)
        ensures { vec_len self.new.large ≤ 16 + 1_048_576 }
    {
        if self.large.len() > HEAD + MOST_KEPT {
            self.large = Vec::new(self.alloc);
        }
    }
}
