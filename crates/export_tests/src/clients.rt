//! What a client asks, and what it is to be sent.
use sector_extent::Bytes;
use std::alloc::{AllocError, Global};

/// A request, with what its reply is to be: the place, the length, and the byte of which the data are that
/// go with it.
#[derive(Clone, Copy)]
pub enum Ask {
    Read(u64, u32, u8),
    Write(u64, u32, u8),
    /// A write that is flushed before its reply.
    WriteThrough(u64, u32, u8),
    Trim(u64, u32),
    Flush,
    /// A read that is answered with this error.
    Refused(u64, u32, u8),
}

const HELLO: [u8; 26] = [
    0, 0, 0, 3, 0x49, 0x48, 0x41, 0x56, 0x45, 0x4F, 0x50, 0x54, 0, 0, 0, 7, 0, 0, 0, 6, 0, 0, 0, 0,
    0, 0,
];

const BYE: [u8; 28] = [
    0x25, 0x60, 0x95, 0x13, 0, 0, 0, 2, 0, 0, 0, 0, 0, 0, 0, 2, 0, 0, 0, 0, 0, 0, 0, 0, 0, 0, 0, 0,
];

// How many bytes are sent before the first reply to a request.
const GREETED: usize = 104;

// Its command and its flags, its place and its length.
fn head_of(ask: Ask) -> ([u8; 4], u64, u32) {
    match ask {
        Ask::Read(at, length, _) => ([0, 0, 0, 0], at, length),
        Ask::Write(at, length, _) => ([0, 0, 0, 1], at, length),
        Ask::WriteThrough(at, length, _) => ([0, 1, 0, 1], at, length),
        Ask::Trim(at, length) => ([0, 0, 0, 4], at, length),
        Ask::Flush => ([0, 0, 0, 3], 0, 0),
        Ask::Refused(at, length, _) => ([0, 0, 0, 0], at, length),
    }
}

// How many bytes go with the request, and how many with the reply, and of what byte they are.
fn data_of(ask: Ask) -> (u32, u32, u8) {
    match ask {
        Ask::Read(_, length, byte) => (0, length, byte),
        Ask::Write(_, length, byte) | Ask::WriteThrough(_, length, byte) => (length, 0, byte),
        Ask::Trim(_, _) | Ask::Flush | Ask::Refused(_, _, _) => (0, 0, 0),
    }
}

fn error_of(ask: Ask) -> u8 {
    match ask {
        Ask::Refused(_, _, error) => error,
        _ => 0,
    }
}

const COOKIE: [u8; 8] = [0, 0, 0, 0, 0, 0, 0, 9];

fn push_request(requests: &mut Vec<u8>, ask: Ask) -> Result<(), AllocError> {
    let (head, at, length) = head_of(ask);
    let (count, _, byte) = data_of(ask);
    requests.extend_from_slice(&[0x25, 0x60, 0x95, 0x13])?;
    requests.extend_from_slice(&head)?;
    requests.extend_from_slice(&COOKIE)?;
    requests.extend_from_slice(&at.to_be_bytes())?;
    requests.extend_from_slice(&length.to_be_bytes())?;
    requests.resize(requests.len().saturating_add(count as usize), byte)
}

fn push_reply(replies: &mut Vec<u8>, ask: Ask) -> Result<(), AllocError> {
    let (_, count, byte) = data_of(ask);
    replies.extend_from_slice(&[0x67, 0x44, 0x66, 0x98, 0, 0, 0, error_of(ask)])?;
    replies.extend_from_slice(&COOKIE)?;
    replies.resize(replies.len().saturating_add(count as usize), byte)
}

/// All that a client sends who asks this and then goes.
pub fn requests(alloc: Global, asks: &[Ask]) -> Result<Bytes, AllocError> {
    let mut requests = Vec::from_slice(alloc, &HELLO)?;
    for ask in asks {
        push_request(&mut requests, *ask)?;
    }
    requests.extend_from_slice(&BYE)?;
    Ok(Bytes::from_vec(requests))
}

/// The replies to this.
pub fn replies(alloc: Global, asks: &[Ask]) -> Result<Vec<u8>, AllocError> {
    let mut replies = Vec::new(alloc);
    for ask in asks {
        push_reply(&mut replies, *ask)?;
    }
    Ok(replies)
}

/// How many bytes are sent to a client who asks this.
pub fn sent_length(replies: &[u8]) -> usize {
    replies.len().saturating_add(GREETED)
}

/// Whether these are the bytes that are sent to a client with these replies.
pub fn is_sent(sent: &[u8], replies: &[u8]) -> bool {
    sent.len() == sent_length(replies) && sent.ends_with(replies)
}
