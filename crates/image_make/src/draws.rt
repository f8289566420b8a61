//! The acts that are drawn of a seed.
ghost use Rattle.std.specs.Prelude.{◌≡◌, ◌+◌, ◌^◌, ◌<◌, ◌≤◌};
ghost use Rattle.image_make.specs.Draws.{act_of_kind, drawn_from, next, uuid_of};

/// An act that was drawn. Places and counts are in sectors.
#[derive(Clone, Copy, Debug, PartialEq, Eq)]
pub enum Drawn {
    /// Puts all that was written onto the disk.
    Flush,
    /// Makes so many sectors zeros.
    Zero { at: u64, count: u64 },
    /// Writes so many sectors, each byte of which is this one.
    Write { at: u64, count: u64, byte: u8 },
    /// Makes what was written a layer with this uuid.
    Commit { uuid: [u8; 16] },
}

// The state behind a draw from that state.
fn next_state(state: u64) -> u64
    requires { state < 2 ^ 31 }
    ensures is { result ≡ next state }
    ensures below { result < 2 ^ 31 }
{
    (1_103_515_245 * state + 12_345) % (1 << 31)
}

// The uuid of the commit that is the act of that number.
fn uuid_for(number: u32) -> [u8; 16]
    requires { number < 2 ^ 31 }
    ensures { result ≡ uuid_of number }
{
    let [a, b, c, d] = (number + 1).to_be_bytes();
    [0, 0, 0, 0, 0, 0, 0, 0, 0, 0, 0, 0, a, b, c, d]
}

// The act of that kind, with these draws of its place, its sectors and its byte.
fn of_kind(kind: u64, at: u64, count: u64, byte: u8, uuid: [u8; 16]) -> Drawn
    ensures { result ≡ act_of_kind kind at count byte uuid }
{
    match kind {
        0 => Drawn::Flush,
        1 | 2 => Drawn::Zero { at, count },
        15 => Drawn::Commit { uuid },
        _ => Drawn::Write { at, count, byte },
    }
}

/// The act of that number, which is drawn of the state behind the acts before it, and the state behind it.
pub fn draw_act(state: u64, number: u32) -> (Drawn, u64)
    requires state { state < 2 ^ 31 }
    requires number { number < 2 ^ 31 }
    ensures act { result.0 ≡ drawn_from number state }
    ensures state { result.1 ≡ next (next (next state)) }
    ensures below { result.1 < 2 ^ 31 }
{
    let first = next_state(state);
    let second = next_state(first);
    let third = next_state(second);
    let at = first / 256 % 4096;
    let count = (1 + second / 256 % 8).min(4096 - at);
    let byte = (1 + third / 65_536 % 255) as u8;
    let act = of_kind(third / 256 % 16, at, count, byte, uuid_for(number));
    (act, third)
}
