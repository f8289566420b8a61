//! The checks of a request, and what it asks of the port.
ghost use Rattle.std.specs.Prelude.{◌≡◌, ℕ, ◌+◌, ◌*◌, ◌^◌, ◌<◌, ◌≤◌, ◌==◌, ◌⊎◌, true, false, IfOk};
ghost use Rattle.nbd_wire.specs.Requests.{data_length};
ghost use Rattle.nbd_session.specs.Jobs.{is_known, flags_limit, is_whole, is_past, has_fua, is_change, the_job, job_of, IsInside};

use crate::errno::Errno;
use crate::export::Export;
use nbd_wire::Request;

/// What a request asks of the port. Places and counts are in sectors. A change may ask for a flush
/// behind it.
#[derive(Clone, Copy, Debug, PartialEq, Eq)]
pub enum Job {
    Read { at: u64, count: u64 },
    Write { at: u64, count: u64, fua: bool },
    Zero { at: u64, count: u64, fua: bool },
    Flush,
}

const READ: u16 = 0;

const WRITE: u16 = 1;

pub(crate) const DISC: u16 = 2;

const FLUSH: u16 = 3;

const TRIM: u16 = 4;

const WRITE_ZEROES: u16 = 6;

// The most bytes that a READ or a WRITE may have.
pub(crate) const MOST_BYTES: u32 = 33_554_432;

// How many bytes of data follow a request.
pub(crate) fn data_length(request: &Request) -> u32
    ensures { result ≡ data_length request.now }
{
    if request.command == WRITE {
        request.length
    } else {
        0
    }
}

fn is_known(command: u16) -> bool
    ensures { result ≡ is_known command }
{
    command == READ
        || command == WRITE
        || command == FLUSH
        || command == TRIM
        || command == WRITE_ZEROES
}

fn is_change(command: u16) -> bool
    ensures { result ≡ is_change command }
{
    command == WRITE || command == TRIM || command == WRITE_ZEROES
}

fn flags_limit(command: u16) -> u16
    ensures { result ≡ flags_limit command }
{
    if command == WRITE_ZEROES { 4 } else { 2 }
}

fn is_whole(request: &Request) -> bool
    ensures { result ≡ is_whole request.now }
{
    request.offset % 512 == 0 && request.length % 512 == 0
}

fn is_past(sectors: u64, request: &Request) -> bool
    requires { sectors ≤ 2 ^ 31 }
    ensures { result ≡ is_past sectors request.now }
{
    request.offset.saturating_add(u64::from(request.length)) > 512 * sectors
}

fn the_job(sectors: u64, request: &Request) -> Job
    requires known { is_known request.now.command ≡ true }
    requires whole { request.now.command ≡ 3 ⊎ (is_whole request.now ≡ true) }
    requires within { request.now.command ≡ 3 ⊎ (is_past sectors request.now ≡ false) }
    ensures job { result ≡ the_job request.now }
    ensures inside { IsInside sectors request.now result }
{
    let at = request.offset / 512;
    let count = u64::from(request.length / 512);
    let fua = request.flags % 2 == 1;
    match request.command {
        READ => Job::Read { at, count },
        WRITE => Job::Write { at, count, fua },
        FLUSH => Job::Flush,
        _ => Job::Zero { at, count, fua },
    }
}

// What a request other than DISC asks of the port of an image of so many sectors, or the error of
// the first check that it meets.
#[tactic(auto, unfolding(crate::specs::Jobs::job_of))]
pub(crate) fn job_of(export: &Export, sectors: u64, request: &Request) -> Result<Job, Errno>
    requires { sectors ≤ 2 ^ 31 }
    ensures table { result ≡ job_of export.now sectors request.now }
    ensures inside { IfOk result (IsInside sectors request.now) }
{
    let command = request.command;
    if !is_known(command) {
        return Err(Errno::Invalid);
    }
    if request.flags >= flags_limit(command) {
        return Err(Errno::Invalid);
    }
    if command != FLUSH && !is_whole(request) {
        return Err(Errno::Invalid);
    }
    if command == READ && request.length > MOST_BYTES {
        return Err(Errno::Invalid);
    }
    let past = is_past(sectors, request);
    if (command == READ || command == TRIM) && past {
        return Err(Errno::Invalid);
    }
    if (command == WRITE || command == WRITE_ZEROES) && past {
        return Err(Errno::Space);
    }
    if is_change(command) && export.read_only {
        return Err(Errno::Permission);
    }
    Ok(the_job(sectors, request))
}
