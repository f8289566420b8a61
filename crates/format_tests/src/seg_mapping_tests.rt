use crate::expecting::{holds, holds_at};
use seg_mapping::*;

// A row, and its bytes.
const ROWS: [(Row, [u8; 16]); 5] = [
    (
        Row {
            offset: 5,
            count: 3,
            place: 8,
            zeroed: false,
            tag: 0,
        },
        [5, 0, 0, 0, 0, 0, 0x0c, 0, 8, 0, 0, 0, 0, 0, 0, 0],
    ),
    (
        Row {
            offset: 1,
            count: 2,
            place: 8,
            zeroed: false,
            tag: 0,
        },
        [1, 0, 0, 0, 0, 0, 8, 0, 8, 0, 0, 0, 0, 0, 0, 0],
    ),
    (
        Row {
            offset: 2,
            count: 1,
            place: 0,
            zeroed: true,
            tag: 0,
        },
        [2, 0, 0, 0, 0, 0, 4, 0, 0, 0, 0, 0, 0, 0, 0x80, 0],
    ),
    (
        Row {
            offset: (1 << 50) - 1,
            count: 16_383,
            place: 0,
            zeroed: true,
            tag: 0,
        },
        [
            255, 255, 255, 255, 255, 255, 255, 255, 0, 0, 0, 0, 0, 0, 0x80, 0,
        ],
    ),
    (
        Row {
            offset: 0,
            count: 1,
            place: (1 << 55) - 1,
            zeroed: true,
            tag: 0xfe,
        },
        [
            0, 0, 0, 0, 0, 0, 4, 0, 255, 255, 255, 255, 255, 255, 255, 0xfe,
        ],
    ),
];

// Whether a row has these bytes, and they are read as that row.
fn is_spelled(row: &Row, bytes: &[u8; 16]) -> bool {
    if !row.fits() {
        return false;
    }
    encode(row) == *bytes && decode(bytes) == Ok(*row)
}

#[test]
fn rows_and_their_bytes(rt: HostRuntime) {
    for (number, (row, bytes)) in ROWS.iter().enumerate() {
        holds_at(&rt, is_spelled(row, bytes), "row", number);
    }
    let empty = decode(&[0; 16]) == Err(RowFault::EmptyRow);
    holds(&rt, empty, "no sectors");
}

// Offset, count and place of a row, and whether they fit.
const FITTING: [(u64, u32, u64, bool); 5] = [
    (0, 1, 0, true),
    (1 << 50, 1, 0, false),
    (0, 0, 0, false),
    (0, 16_384, 0, false),
    (0, 1, 1 << 55, false),
];

#[test]
fn rows_that_do_not_fit(rt: HostRuntime) {
    for (number, (offset, count, place, fits)) in FITTING.iter().enumerate() {
        let row = Row {
            offset: *offset,
            count: *count,
            place: *place,
            zeroed: false,
            tag: 255,
        };
        holds_at(&rt, row.fits() == *fits, "row", number);
    }
}
