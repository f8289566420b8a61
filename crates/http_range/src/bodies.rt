//! The body of a reply: what is there of it, and what is still to come.
ghost use Rattle.std.specs.Prelude.{◌≡◌, ◌+◌, ◌-◌, ◌<◌, ◌≤◌, ◌++◌, length, take, drop, IfOk, IfErr};
ghost use Rattle.http_range.specs.Fetching.{TakesBody, LacksBody};

use crate::links::Link;
use crate::receiving::{BodyStop, Found, receive_body};

/// Fills `out` with the body behind the head that was found, and answers how many bytes are held
/// behind it, at the front of the buffer.
pub fn take_body<L: Link>(
    link: &mut L,
    buffer: &mut [u8],
    found: &Found,
    out: &mut [u8],
) -> Result<usize, BodyStop>
    requires body { found.now.body ≤ found.now.len }
    requires len { found.now.len ≤ length buffer.old }
    ensures ok { IfOk result (λ held. (held ≤ found.now.len)
        × TakesBody (drop found.now.body (take found.now.len buffer.old))
        (L.state link.old) (L.state link.new) out.new (take held buffer.new)) }
    ensures err { IfErr result (λ stop. LacksBody (drop found.now.body (take found.now.len buffer.old)) (length out.old)
        (L.state link.old) (L.state link.new) stop) }
{
    let there = found.len - found.body;
    let size = out.len();
    if size <= there {
        take_all(buffer, found.body, found.len, out);
        return Ok(there - size);
    }
    take_part(buffer, found.body, found.len, out);
    receive_body(link, out, there)?;
    Ok(0)
}

// Moves a whole body out of the buffer, and what stands behind it to the front.
fn take_all(buffer: &mut [u8], body: usize, len: usize, out: &mut [u8])
    requires len { len ≤ length buffer.old }
    requires all { body + length out.old ≤ len }
    ensures body { out.new ++ take (len - (body + length out.old)) buffer.new ≡ drop body (take len buffer.old) }
{
    let size = out.len();
    out.copy_from_slice(&buffer[body..body + size]);
    if body + size < len {
        buffer[..len].rotate_left(body + size);
    }
}

// Moves the beginning of a body out of the buffer.
fn take_part(buffer: &[u8], body: usize, len: usize, out: &mut [u8])
    requires body { body ≤ len }
    requires len { len ≤ length buffer.now }
    requires part { len - body ≤ length out.old }
    ensures { take (len - body) out.new ≡ drop body (take len buffer.now) }
{
    out[..len - body].copy_from_slice(&buffer[body..len]);
}
