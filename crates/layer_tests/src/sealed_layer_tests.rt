use crate::expecting::{holds, holds_at};
use layer_shelf::{MemShelf, Shelf, ShelfFailed};
use lsmt_header::{Head, HeadFault, Kind, Tag, encode_block};
use sealed_layer::*;
use sector_extent::{Bytes, CallList, Extent, FileTexts};
use seg_mapping::{Row, RowFault, encode};
use std::alloc::{AllocError, Global};
use std::process::Abort;
use std::test::Fail;

// A row: its offset, its count, its place, and whether it says zeros.
type Parts = (u64, u32, u64, bool);

// The head of a layer of four sectors without a parent, with one row.
fn first_head() -> Head {
    Head {
        version: 1,
        kind: Kind::SealedHead,
        index_at: 5_120,
        rows: 1,
        sectors: 4,
        uuid: [0x11; 16],
        parent: [0; 16],
        tag: Tag::empty(),
    }
}

fn row_of(parts: Parts) -> Row {
    let (offset, count, place, zeroed) = parts;
    Row {
        offset,
        count,
        place,
        zeroed,
        tag: 0,
    }
}

// A sector of each of these bytes.
fn sectors_of(alloc: Global, bytes: &[u8]) -> Result<Vec<u8>, AllocError> {
    let mut sectors = Vec::new(alloc);
    for byte in bytes {
        sectors.extend_from_slice(&[*byte; 512])?;
    }
    Ok(sectors)
}

fn push_block(file: &mut Vec<u8>, head: &Head) -> Result<(), Fail> {
    if !head.is_valid() {
        return Err(Fail::from("no head"));
    }
    file.extend_from_slice(&encode_block(head))?;
    Ok(())
}

fn push_row(file: &mut Vec<u8>, parts: Parts) -> Result<(), Fail> {
    let row = row_of(parts);
    if !row.fits() {
        return Err(Fail::from("no row"));
    }
    file.extend_from_slice(&encode(&row))?;
    Ok(())
}

// The file of this head, a sector of data of each of these bytes, and these rows. Padding ends at
// `padded`.
fn layer_file(
    alloc: Global,
    head: &Head,
    bytes: &[u8],
    rows: &[Parts],
    padded: usize,
) -> Result<Vec<u8>, Fail> {
    let mut file = Vec::new(alloc);
    push_block(&mut file, head)?;
    file.extend_from_slice(sectors_of(alloc, bytes)?.as_slice())?;
    for row in rows {
        push_row(&mut file, *row)?;
    }
    file.resize(padded, 0)?;
    let end = Head {
        kind: Kind::SealedEnd,
        ..*head
    };
    push_block(&mut file, &end)?;
    Ok(file)
}

// The first sector and the last are holes, between them stand bytes 61 and 62.
fn first_layer(alloc: Global) -> Result<Vec<u8>, Fail> {
    layer_file(
        alloc,
        &first_head(),
        &[0x61, 0x62],
        &[(1, 2, 8, false)],
        8_192,
    )
}

fn shelf_of(alloc: Global, file: Vec<u8>, failing: &[u64]) -> Result<MemShelf, AllocError> {
    let mut files = Vec::new(alloc);
    files.push(Bytes::from_vec(file))?;
    Ok(MemShelf::new(
        FileTexts::from_vec(files),
        CallList::from_vec(failing.to_vec(alloc)?),
    ))
}

type Answer = Result<(), LayerFault>;

// The layer of a file, if there is such a file.
fn read_at(alloc: Global, shelf: &mut MemShelf, k: u32) -> Result<Result<Layer, LayerFault>, Fail> {
    if k >= shelf.count() {
        return Err(Fail::from("no file"));
    }
    Ok(read_layer(alloc, shelf, k))
}

// Whether the file is read as a layer, on a shelf where these calls fail.
fn answer_of(alloc: Global, file: Vec<u8>, failing: &[u64]) -> Result<Answer, Fail> {
    let mut shelf = shelf_of(alloc, file, failing)?;
    Ok(match read_at(alloc, &mut shelf, 0)? {
        Ok(_) => Ok(()),
        Err(fault) => Err(fault),
    })
}

// Paints file `k` over sectors of these bytes, from sector `at` of the image on.
fn painted(
    alloc: Global,
    shelf: &mut MemShelf,
    k: u32,
    at: u64,
    old: &[u8],
) -> Result<Vec<u8>, Fail> {
    if k >= shelf.count() {
        return Err(Fail::from("no file"));
    }
    let layer = read_layer(alloc, shelf, k)?;
    let mut out = sectors_of(alloc, old)?;
    if out.len() % 512 != 0 || out.len() > 8_192 || at > 4 {
        return Err(Fail::from("other sectors"));
    }
    paint_part(shelf, k, &layer, at, out.as_mut_slice())?;
    Ok(out)
}

fn is_send<T: Send + Drop>(_value: T) {}

// The first bytes of the layer's file, and its row.
const FRONT: [u8; 24] = [
    0x4f, 0x42, 0x44, 0x4c, 0x41, 0x59, 0x52, 0x31, 1, 0, 0, 0, 7, 0, 0, 0, 0, 0x14, 0, 0, 0, 0, 0,
    0,
];

const ROW: [u8; 16] = [1, 0, 0, 0, 0, 0, 8, 0, 8, 0, 0, 0, 0, 0, 0, 0];

// These bytes stand in the file from a place on.
fn stand_at(file: &[u8], at: usize, bytes: &[u8]) -> bool {
    match file.get(at..) {
        Some(rest) => rest.starts_with(bytes),
        None => false,
    }
}

fn is_first(layer: &Layer) -> bool {
    *layer.head() == first_head() && layer.rows() == [row_of((1, 2, 8, false))].as_slice()
}

#[test]
fn a_layer_is_read(rt: HostRuntime) -> Result<(), Fail> {
    layer_laws();
    let file = first_layer(rt.alloc())?;
    holds(&rt, file.len() == 12_288, "its length");
    holds(&rt, stand_at(&file, 0, &FRONT), "its front");
    holds(&rt, stand_at(&file, 5_120, &ROW), "its row");
    let mut shelf = shelf_of(rt.alloc(), file, &[])?;
    match read_at(rt.alloc(), &mut shelf, 0)? {
        Ok(layer) => {
            holds(&rt, is_first(&layer), "its head and rows");
            is_send(layer);
            Ok(())
        }
        Err(_) => Err(Fail::from("no layer")),
    }
}

// A head's version, the byte of its uuid and of its parent, its sectors and where its index begins; the
// bytes of its sectors of data, its rows, and where its padding ends.
type Form = (
    (u32, u8, u8, u64, u64),
    &'static [u8],
    &'static [Parts],
    usize,
);

// One row of data, no rows over it, one row of zeros over it, three rows, and a layer of six sectors over
// the first with one row at its end.
const FORMS: [Form; 5] = [
    (
        (1, 0x11, 0, 4, 5_120),
        &[0x61, 0x62],
        &[(1, 2, 8, false)],
        8_192,
    ),
    ((1, 0x22, 0x11, 4, 4_096), &[], &[], 4_096),
    ((1, 0x33, 0x11, 4, 4_096), &[], &[(2, 1, 0, true)], 8_192),
    (
        (1, 0x11, 0, 4, 5_632),
        &[0x61, 0x62, 0x63],
        &[(0, 1, 10, false), (1, 1, 0, true), (2, 2, 8, false)],
        8_192,
    ),
    (
        (2, 0x22, 0x11, 6, 4_608),
        &[0x64],
        &[(5, 1, 8, false)],
        8_192,
    ),
];

fn file_of(alloc: Global, form: Form) -> Result<Vec<u8>, Fail> {
    let ((version, uuid, parent, sectors, index_at), data, rows, padded) = form;
    let head = Head {
        version,
        index_at,
        rows: rows.len() as u64,
        sectors,
        uuid: [uuid; 16],
        parent: [parent; 16],
        ..first_head()
    };
    layer_file(alloc, &head, data, rows, padded)
}

fn painting_shelf(alloc: Global) -> Result<MemShelf, Fail> {
    let mut files = Vec::new(alloc);
    for form in FORMS {
        files.push(Bytes::from_vec(file_of(alloc, form)?))?;
    }
    if files.len() != 5 {
        return Err(Fail::from("other files"));
    }
    Ok(MemShelf::new(
        FileTexts::from_vec(files),
        CallList::from_vec(Vec::new(alloc)),
    ))
}

const LENGTHS: [usize; 5] = [12_288, 8_192, 12_288, 12_288, 12_288];

const ZEROS: [u8; 16] = [2, 0, 0, 0, 0, 0, 4, 0, 0, 0, 0, 0, 0, 0, 0x80, 0];

#[test]
fn layers_have_their_lengths(rt: HostRuntime) -> Result<(), Fail> {
    for (number, form) in FORMS.iter().enumerate() {
        let file = file_of(rt.alloc(), *form)?;
        holds_at(&rt, file.len() == LENGTHS[number], "its length", number);
    }
    let zeros = file_of(rt.alloc(), FORMS[2])?;
    holds(&rt, stand_at(&zeros, 4_096, &ZEROS), "a row of zeros");
    Ok(())
}

// A file, the sectors of the image from a number on, and what they are once the file is painted over
// them.
const PAINTED: [(u32, u64, &[u8], &[u8]); 20] = [
    (0, 0, &[0, 0, 0, 0], &[0, 0x61, 0x62, 0]),
    (0, 0, &[1, 2, 3, 4], &[1, 0x61, 0x62, 4]),
    (0, 0, &[1], &[1]),
    (0, 0, &[1, 2], &[1, 0x61]),
    (0, 1, &[2], &[0x61]),
    (0, 1, &[2, 3, 4], &[0x61, 0x62, 4]),
    (0, 2, &[3, 4], &[0x62, 4]),
    (0, 3, &[4], &[4]),
    (0, 4, &[], &[]),
    (1, 0, &[1, 2, 3, 4], &[1, 2, 3, 4]),
    // What the first file gives is hidden where the third says zeros.
    (2, 0, &[0, 0x61, 0x62, 0], &[0, 0x61, 0, 0]),
    (2, 2, &[0x62], &[0]),
    (3, 0, &[1, 2, 3, 4], &[0x63, 0, 0x61, 0x62]),
    (3, 1, &[2, 3], &[0, 0x61]),
    (3, 1, &[2], &[0]),
    (3, 3, &[4], &[0x62]),
    // Sectors past the layer's own are holes.
    (0, 2, &[3, 4, 5, 6], &[0x62, 4, 5, 6]),
    (0, 4, &[5], &[5]),
    (3, 3, &[4, 5], &[0x62, 5]),
    (
        4,
        0,
        &[0, 0x61, 0x62, 0, 0, 0],
        &[0, 0x61, 0x62, 0, 0, 0x64],
    ),
];

#[test]
fn layers_are_painted_on_a_part(rt: HostRuntime) -> Result<(), Fail> {
    let alloc = rt.alloc();
    let mut shelf = painting_shelf(alloc)?;
    for (number, (k, at, old, new)) in PAINTED.iter().enumerate() {
        let out = painted(alloc, &mut shelf, *k, *at, old)?;
        holds_at(&rt, out == sectors_of(alloc, new)?, "painted", number);
    }
    Ok(())
}

// Rows of a layer of four sectors with four sectors of data, at places 8 to 11.
const ROWS: [(&[Parts], Answer); 17] = [
    (&[(0, 2, 8, false), (2, 2, 10, false)], Ok(())),
    (&[(0, 2, 10, false), (2, 2, 8, false)], Ok(())),
    (&[(1, 1, 8, false), (3, 1, 8, false)], Ok(())),
    (&[(0, 4, 8, false)], Ok(())),
    (
        &[(0, 3, 8, false), (2, 2, 8, false)],
        Err(LayerFault::RowOrder(1)),
    ),
    (
        &[(2, 1, 8, false), (0, 1, 8, false)],
        Err(LayerFault::RowOrder(1)),
    ),
    (
        &[(2, 1, 8, false), (2, 1, 8, false)],
        Err(LayerFault::RowOrder(1)),
    ),
    (&[(0, 1, 7, false)], Err(LayerFault::RowPlace(0))),
    (&[(0, 2, 11, false)], Err(LayerFault::RowPlace(0))),
    (
        &[(0, 1, 8, false), (1, 1, 12, false)],
        Err(LayerFault::RowPlace(1)),
    ),
    (&[(0, 5, 8, false)], Err(LayerFault::RowRange(0))),
    (&[(4, 1, 8, false)], Err(LayerFault::RowRange(0))),
    (&[(3, 2, 0, true)], Err(LayerFault::RowRange(0))),
    // As the only row of a layer the greatest row is out of its range.
    (
        &[((1 << 50) - 1, 16_383, 0, true)],
        Err(LayerFault::RowRange(0)),
    ),
    // Two faults of one row, and faults of two rows.
    (&[(3, 9, 7, false)], Err(LayerFault::RowRange(0))),
    (
        &[(1, 1, 0, true), (0, 9, 7, false)],
        Err(LayerFault::RowOrder(1)),
    ),
    (
        &[(0, 1, 7, false), (0, 9, 0, true)],
        Err(LayerFault::RowPlace(0)),
    ),
];

fn answer_of_rows(alloc: Global, rows: &[Parts]) -> Result<Answer, Fail> {
    let head = Head {
        index_at: 6_144,
        rows: rows.len() as u64,
        ..first_head()
    };
    let file = layer_file(alloc, &head, &[0x61, 0x62, 0x63, 0x64], rows, 8_192)?;
    answer_of(alloc, file, &[])
}

#[test]
fn rows_are_read_in_order(rt: HostRuntime) -> Result<(), Fail> {
    for (number, (rows, answer)) in ROWS.iter().enumerate() {
        let found = answer_of_rows(rt.alloc(), rows)?;
        holds_at(&rt, found == *answer, "rows", number);
    }
    Ok(())
}

// The answer to the first layer, cut there.
fn answer_of_cut(alloc: Global, length: usize) -> Result<Answer, Fail> {
    let mut file = first_layer(alloc)?;
    file.truncate(length);
    answer_of(alloc, file, &[])
}

// What a layer gives that is cut at each sector.
const CUTS: [(usize, usize, Answer); 3] = [
    (0, 16, Err(LayerFault::Short)),
    (16, 24, Err(LayerFault::TrailerDiffers)),
    (24, 25, Ok(())),
];

#[test]
fn layers_that_are_cut(rt: HostRuntime) -> Result<(), Fail> {
    for (first, end, answer) in CUTS {
        for sector in first..end {
            let found = answer_of_cut(rt.alloc(), sector.saturating_mul(512))?;
            holds_at(&rt, found == answer, "cut at sector", sector);
        }
    }
    Ok(())
}

const CUTS_WITHIN: [(usize, Answer); 2] = [
    (8_191, Err(LayerFault::Short)),
    (8_193, Err(LayerFault::TrailerDiffers)),
];

#[test]
fn layers_that_are_cut_within_a_sector(rt: HostRuntime) -> Result<(), Fail> {
    for (length, answer) in CUTS_WITHIN {
        let found = answer_of_cut(rt.alloc(), length)?;
        holds_at(&rt, found == answer, "cut at byte", length);
    }
    Ok(())
}

// The answer to the first layer with these bytes, on a shelf where these calls fail.
fn answer_of_changed(
    alloc: Global,
    changes: &[(usize, u8)],
    failing: &[u64],
) -> Result<Answer, Fail> {
    let mut file = first_layer(alloc)?;
    for (at, byte) in changes {
        if *at < file.len() {
            file[*at] = *byte;
        }
    }
    answer_of(alloc, file, failing)
}

// A byte of the trailer that is changed, or one of the header.
const OTHER_BYTES: [(usize, u8, Answer); 12] = [
    (8_300, 1, Err(LayerFault::TrailerDiffers)),
    (8_204, 7, Err(LayerFault::TrailerDiffers)),
    (12_287, 1, Err(LayerFault::TrailerDiffers)),
    (12, 15, Err(LayerFault::Head(HeadFault::Compressed))),
    (12, 6, Err(LayerFault::Head(HeadFault::BadFlags(6)))),
    (72, 0xff, Err(LayerFault::Head(HeadFault::BadTag))),
    (328, 1, Err(LayerFault::Head(HeadFault::Unclean(328)))),
    // Data, padding and the tag of a row may have any bytes.
    (4_096, 0xff, Ok(())),
    (5_119, 0, Ok(())),
    (5_135, 0xff, Ok(())),
    (5_136, 0xff, Ok(())),
    (8_191, 0xff, Ok(())),
];

#[test]
fn layers_with_one_other_byte(rt: HostRuntime) -> Result<(), Fail> {
    for (at, byte, answer) in OTHER_BYTES {
        let found = answer_of_changed(rt.alloc(), &[(at, byte)], &[])?;
        holds_at(&rt, found == answer, "byte", at);
    }
    Ok(())
}

const MAGIC: Answer = Err(LayerFault::Head(HeadFault::BadMagic));

const COMPRESSED: Answer = Err(LayerFault::Head(HeadFault::Compressed));

const DIFFERS: Answer = Err(LayerFault::TrailerDiffers);

const PLACE: Answer = Err(LayerFault::BadIndexPlace);

const EMPTY: Answer = Err(LayerFault::Row {
    number: 1,
    fault: RowFault::EmptyRow,
});

// The places of a header, what a layer gives whose header has the byte there raised by one, and what
// it gives where the trailer has it raised too.
const RAISED: [(usize, usize, Answer, Answer); 8] = [
    (0, 8, MAGIC, MAGIC),
    (8, 9, DIFFERS, Ok(())),
    (12, 13, COMPRESSED, COMPRESSED),
    (16, 24, DIFFERS, PLACE),
    (24, 25, DIFFERS, EMPTY),
    (25, 27, DIFFERS, PLACE),
    (32, 36, DIFFERS, Ok(())),
    (40, 72, DIFFERS, Ok(())),
];

// The same for places whose number is answered, in the order of the header: versions, flags, rows and
// sizes.
const VERSIONS: [(usize, u32); 3] = [(9, 257), (10, 65_537), (11, 16_777_217)];

const FLAGS: [(usize, u32); 3] = [(13, 263), (14, 65_543), (15, 16_777_223)];

const MANY_ROWS: [(usize, u64); 5] = [
    (27, 16_777_217),
    (28, 4_294_967_297),
    (29, 1_099_511_627_777),
    (30, 281_474_976_710_657),
    (31, 72_057_594_037_927_937),
];

const SIZES: [(usize, u64); 4] = [
    (36, 4_294_967_300),
    (37, 1_099_511_627_780),
    (38, 281_474_976_710_660),
    (39, 72_057_594_037_927_940),
];

// The answers to the first layer with the byte raised in its header, and in its trailer too.
fn answers_to_raised(alloc: Global, at: usize) -> Result<(Answer, Answer), Fail> {
    let file = first_layer(alloc)?;
    let byte = match file.get(at) {
        Some(byte) => byte.wrapping_add(1),
        None => return Err(Fail::from("no such byte")),
    };
    let alone = answer_of_changed(alloc, &[(at, byte)], &[])?;
    let both = [(at, byte), (at.saturating_add(8_192), byte)];
    Ok((alone, answer_of_changed(alloc, &both, &[])?))
}

fn is_raised(
    rt: &impl Abort,
    alloc: Global,
    at: usize,
    alone: Answer,
    both: Answer,
) -> Result<(), Fail> {
    let found = answers_to_raised(alloc, at)?;
    holds_at(rt, found == (alone, both), "raised at", at);
    Ok(())
}

fn are_raised(
    rt: &impl Abort,
    alloc: Global,
    cases: &[(usize, usize, Answer, Answer)],
) -> Result<(), Fail> {
    for (first, end, alone, both) in cases {
        for at in *first..*end {
            is_raised(rt, alloc, at, *alone, *both)?;
        }
    }
    Ok(())
}

#[test]
fn headers_with_one_byte_raised(rt: HostRuntime) -> Result<(), Fail> {
    are_raised(&rt, rt.alloc(), &RAISED)
}

#[test]
fn headers_with_one_byte_of_a_number_raised(rt: HostRuntime) -> Result<(), Fail> {
    let alloc = rt.alloc();
    for (at, found) in VERSIONS {
        let answer = Err(LayerFault::Head(HeadFault::BadVersion(found)));
        is_raised(&rt, alloc, at, answer, answer)?;
    }
    for (at, found) in FLAGS {
        let answer = Err(LayerFault::Head(HeadFault::BadFlags(found)));
        is_raised(&rt, alloc, at, answer, answer)?;
    }
    for (at, found) in MANY_ROWS {
        is_raised(&rt, alloc, at, DIFFERS, Err(LayerFault::TooManyRows(found)))?;
    }
    for (at, found) in SIZES {
        let answer = Err(LayerFault::Head(HeadFault::BadSize(found)));
        is_raised(&rt, alloc, at, answer, answer)?;
    }
    Ok(())
}

const FAILED: Answer = Err(LayerFault::Failed);

// A place of a layer with one other byte, the shelf's call that fails, and what comes first. Reading asks
// for the length, the first block, the last one and the rows.
const FAILING: [(usize, u64, Answer); 11] = [
    (4_096, 0, FAILED),
    (4_096, 1, FAILED),
    (4_096, 2, FAILED),
    (4_096, 3, FAILED),
    (4_096, 4, Ok(())),
    (0, 1, FAILED),
    (0, 2, MAGIC),
    (8_192, 2, FAILED),
    (8_192, 3, DIFFERS),
    (5_121, 3, FAILED),
    (5_121, 4, Err(LayerFault::RowRange(0))),
];

#[test]
fn a_shelf_that_fails(rt: HostRuntime) -> Result<(), Fail> {
    for (number, (at, call, answer)) in FAILING.iter().enumerate() {
        let found = answer_of_changed(rt.alloc(), &[(*at, 0xff)], &[*call])?;
        holds_at(&rt, found == *answer, "a failing shelf", number);
    }
    Ok(())
}

// Three parts of a layer of four sectors are painted, the second on a shelf that fails.
fn paint_thrice(
    alloc: Global,
    shelf: &mut MemShelf,
) -> Result<([Result<(), ShelfFailed>; 3], [u8; 512]), Fail> {
    if shelf.count() == 0 {
        return Err(Fail::from("no file"));
    }
    let layer = read_layer(alloc, shelf, 0)?;
    let mut out = [0; 512];
    let answers = [
        paint_part(shelf, 0, &layer, 0, &mut out),
        paint_part(shelf, 0, &layer, 1, &mut out),
        paint_part(shelf, 0, &layer, 1, &mut out),
    ];
    Ok((answers, out))
}

// Painting calls the shelf only for a row of data that meets the sectors.
#[test]
fn painting_on_a_shelf_that_fails(rt: HostRuntime) -> Result<(), Fail> {
    let alloc = rt.alloc();
    let mut shelf = shelf_of(alloc, first_layer(alloc)?, &[4])?;
    let (answers, out) = paint_thrice(alloc, &mut shelf)?;
    holds(
        &rt,
        answers == [Ok(()), Err(ShelfFailed), Ok(())],
        "the parts",
    );
    holds(&rt, out == [0x61; 512], "the sector");
    Ok(())
}

// Where it begins, how many sectors it has, and whether they are zeros.
type Run = (u64, u64, bool);

fn extent_of(run: Run) -> Result<Extent, Fail> {
    match Extent::new(run.0, run.1) {
        Some(extent) => Ok(extent),
        None => Err(Fail::from("no extent")),
    }
}

// The rows of three extents in rising order, from place 8 on.
fn rows_of(alloc: Global, runs: &[Run; 3]) -> Result<Vec<Row>, Fail> {
    let low = extent_of(runs[0])?;
    let middle = extent_of(runs[1])?;
    let high = extent_of(runs[2])?;
    if low.count == 0 || middle.count == 0 || high.count == 0 {
        return Err(Fail::from("an extent without sectors"));
    }
    if low.end() > middle.at || middle.end() > high.at {
        return Err(Fail::from("another order"));
    }
    let mut rows = CanonRows::new(alloc, 8);
    rows.push(low, runs[0].2)?;
    rows.push(middle, runs[1].2)?;
    rows.push(high, runs[2].2)?;
    Ok(rows.finish())
}

// Extents that touch and are of one kind are one run, and a run is cut from its start.
const EXTENTS: [([Run; 3], &[Parts]); 5] = [
    (
        [(1, 2, false), (3, 1, false), (5, 1, false)],
        &[(1, 3, 8, false), (5, 1, 11, false)],
    ),
    (
        [(0, 2, false), (2, 3, true), (5, 4, false)],
        &[(0, 2, 8, false), (2, 3, 0, true), (5, 4, 10, false)],
    ),
    (
        [(7, 1, true), (8, 16_383, true), (20_000, 1, true)],
        &[
            (7, 16_383, 0, true),
            (16_390, 1, 0, true),
            (20_000, 1, 0, true),
        ],
    ),
    (
        [
            (0, 16_383, false),
            (16_383, 16_384, false),
            (40_000, 1, true),
        ],
        &[
            (0, 16_383, 8, false),
            (16_383, 16_383, 16_391, false),
            (32_766, 1, 32_774, false),
            (40_000, 1, 0, true),
        ],
    ),
    (
        [(0, 1, true), (5, 1, false), ((1 << 31) - 1, 1, false)],
        &[
            (0, 1, 0, true),
            (5, 1, 8, false),
            ((1 << 31) - 1, 1, 9, false),
        ],
    ),
];

fn are_rows(rows: &[Row], wanted: &[Parts]) -> bool {
    if rows.len() != wanted.len() {
        return false;
    }
    for (row, parts) in rows.iter().zip(wanted) {
        if *row != row_of(*parts) {
            return false;
        }
    }
    true
}

#[test]
fn extents_become_rows(rt: HostRuntime) -> Result<(), Fail> {
    for (number, (runs, wanted)) in EXTENTS.iter().enumerate() {
        let rows = rows_of(rt.alloc(), runs)?;
        holds_at(&rt, are_rows(rows.as_slice(), wanted), "rows", number);
    }
    Ok(())
}
