//! Sends a request over a link.
ghost use Rattle.std.specs.Prelude.{◌++◌};
ghost use Rattle.http_range.specs.Fetching.{SendsAll};
ghost use Rattle.http_range.specs.Requests.{request_text};

use crate::links::{Link, LinkFailed};
use crate::request::{BEFORE_HOST, BEFORE_PATH, RangeLine};
use crate::target::Target;

/// Sends the text of a request in five pieces, cut before and after the path and the host.
pub fn send_request<L: Link>(
    link: &mut L,
    target: &Target,
    first: u64,
    last: u64,
) -> Result<(), LinkFailed>
    ensures { SendsAll (request_text target.now first last) (L.state link.old) (L.state link.new) result }
{
    let line = RangeLine::new(first, last);
    let line = line.as_slice();
    send_pieces(
        link,
        BEFORE_PATH,
        target.path(),
        BEFORE_HOST,
        target.host(),
        line,
    )
}

fn send_pieces<L: Link>(
    link: &mut L,
    front: &[u8],
    path: &[u8],
    middle: &[u8],
    host: &[u8],
    line: &[u8],
) -> Result<(), LinkFailed>
    ensures { SendsAll (front.now ++ path.now ++ middle.now ++ host.now ++ line.now)
        (L.state link.old) (L.state link.new) result }
{
    send_front(link, front, path, middle, host)?;
    send_one(link, line)
}

fn send_front<L: Link>(
    link: &mut L,
    front: &[u8],
    path: &[u8],
    middle: &[u8],
    host: &[u8],
) -> Result<(), LinkFailed>
    ensures { SendsAll (front.now ++ path.now ++ middle.now ++ host.now) (L.state link.old) (L.state link.new) result }
{
    send_start(link, front, path, middle)?;
    send_one(link, host)
}

fn send_start<L: Link>(
    link: &mut L,
    front: &[u8],
    path: &[u8],
    middle: &[u8],
) -> Result<(), LinkFailed>
    ensures { SendsAll (front.now ++ path.now ++ middle.now) (L.state link.old) (L.state link.new) result }
{
    send_two(link, front, path)?;
    send_one(link, middle)
}

fn send_two<L: Link>(link: &mut L, front: &[u8], path: &[u8]) -> Result<(), LinkFailed>
    ensures { SendsAll (front.now ++ path.now) (L.state link.old) (L.state link.new) result }
{
    send_one(link, front)?;
    send_one(link, path)
}

fn send_one<L: Link>(link: &mut L, bytes: &[u8]) -> Result<(), LinkFailed>
    ensures { SendsAll bytes.now (L.state link.old) (L.state link.new) result }
{
    link.send(bytes)
}
