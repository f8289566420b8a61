use crate::expecting::{holds, holds_at};
use nbd_wire::*;

const HELLO: [u8; 18] = *b"NBDMAGICIHAVEOPT\x00\x03";

// The head of an option reply to GO, of that type and with so much data.
const fn go_reply(reply: u8, length: u8) -> [u8; 20] {
    [
        0x00, 0x03, 0xE8, 0x89, 0x04, 0x55, 0x65, 0xA9, 0, 0, 0, 7, 0, 0, 0, reply, 0, 0, 0, length,
    ]
}

// The type of a reply to GO, and the length of its data.
const REPLIES: [(u8, u8); 3] = [(3, 12), (3, 14), (1, 0)];

const EXPORT: [u8; 12] = [0, 0, 0, 0, 0, 0, 0, 0, 8, 0, 1, 0x6D];

const BLOCK_SIZE: [u8; 14] = [0, 3, 0, 0, 2, 0, 0, 0, 0x10, 0, 2, 0, 0, 0];

const NAMED: [u8; 10] = [0, 0, 0, 0, 0, 0, 8, 0, 1, 7];

const SIMPLE: [u8; 16] = [0x67, 0x44, 0x66, 0x98, 0, 0, 0, 0, 0, 0, 0, 0, 0, 0, 0, 1];

#[test]
fn a_server_writes_these_bytes(rt: HostRuntime) {
    holds(&rt, hello_bytes() == HELLO, "hello");
    for (number, (reply, length)) in REPLIES.iter().enumerate() {
        let bytes = option_reply(7, u32::from(*reply), u32::from(*length));
        holds_at(&rt, bytes == go_reply(*reply, *length), "reply", number);
    }
    holds(&rt, info_export(4, 0x016D) == EXPORT, "the export");
    holds(&rt, info_block_size() == BLOCK_SIZE, "the block size");
    holds(&rt, name_reply(4, 0x0107) == NAMED, "the name");
    holds(&rt, simple_reply(0, 1) == SIMPLE, "a reply");
}

// What a client says first, and whether it wants no zeros.
const HELLOS: [([u8; 4], Option<Hello>); 6] = [
    ([0, 0, 0, 3], Some(Hello { no_zeroes: true })),
    ([0, 0, 0, 1], Some(Hello { no_zeroes: false })),
    ([0, 0, 0, 0], None),
    ([0, 0, 0, 2], None),
    ([0, 0, 0, 7], None),
    ([1, 0, 0, 3], None),
];

#[test]
fn a_client_says_hello(rt: HostRuntime) {
    for (number, (bytes, hello)) in HELLOS.iter().enumerate() {
        holds_at(&rt, decode_hello(bytes) == *hello, "hello", number);
    }
}

const OPTIONS: [([u8; 16], Option<OptionHead>); 2] = [
    (
        *b"IHAVEOPT\x00\x00\x00\x07\x00\x00\x00\x06",
        Some(OptionHead {
            option: 7,
            length: 6,
        }),
    ),
    (*b"IHAVEOPS\x00\x00\x00\x07\x00\x00\x00\x06", None),
];

const REQUEST: [u8; 28] = [
    0x25, 0x60, 0x95, 0x13, 0, 1, 0, 4, 1, 2, 3, 4, 5, 6, 7, 8, 0, 0, 0, 0, 0, 1, 0, 0, 0, 0, 2, 0,
];

// The last byte of the magic number, and the request.
const REQUESTS: [(u8, Option<Request>); 2] = [
    (
        0x13,
        Some(Request {
            flags: 1,
            command: 4,
            cookie: 0x0102_0304_0506_0708,
            offset: 0x1_0000,
            length: 512,
        }),
    ),
    (0x14, None),
];

#[test]
fn options_and_requests_are_read(rt: HostRuntime) {
    for (number, (bytes, head)) in OPTIONS.iter().enumerate() {
        holds_at(&rt, decode_option(bytes) == *head, "option", number);
    }
    for (number, (magic, request)) in REQUESTS.iter().enumerate() {
        let mut bytes = REQUEST;
        bytes[3] = *magic;
        holds_at(&rt, decode_request(&bytes) == *request, "request", number);
    }
}

// The data of an option, and the name in it.
const NAMES: [(&[u8], Option<&[u8]>); 7] = [
    (b"\x00\x00\x00\x03img\x00\x01\x00\x03", Some(b"img")),
    (&[0; 6], Some(b"")),
    (b"", None),
    (b"\x00\x00\x00\x00\x00", None),
    (b"\x00\x00\x00\x04img\x00\x00", None),
    (b"\x00\x00\x00\x03img\x00\x02\x00\x03", None),
    (b"\xFF\xFF\xFF\xFFimg\x00\x00", None),
];

#[test]
fn names_are_read(rt: HostRuntime) {
    for (number, (data, name)) in NAMES.iter().enumerate() {
        holds_at(&rt, decode_info(data) == *name, "name", number);
    }
}
