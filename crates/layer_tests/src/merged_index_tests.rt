ghost use Rattle.std.specs.Prelude.{◌≡◌, ◌+◌, ◌^◌, ◌<◌, ◌≤◌, length};

use crate::expecting::{holds, holds_at};
use crate::plain::plain_cell;
use layer_shelf::{MemShelf, Shelf};
use lsmt_header::{Head, Kind, Tag, encode_block};
use merged_index::{MergedIndex, Piece, PieceWhat, index_laws, merge};
use sealed_layer::{Layer, paint_part, read_layer};
use sector_extent::{Bytes, CallList, Extent, FileTexts, Found, Steps};
use seg_mapping::{Row, encode};
use std::alloc::{AllocError, Global};
use std::marker::Brand;
use std::process::Abort;
use std::sync::ledger::{Blank, Ledger};
use std::test::Fail;

// The layers of a shelf that is drawn, the most that a stack has of them, how many shelves there are
// and how many stacks are taken of each.
const LAYERS: u64 = 16;

const MOST: usize = 6;

const SHELVES: usize = 100;

const STACKS: u64 = 100;

const NOTHING: Piece = Piece {
    extent: Extent { at: 0, count: 0 },
    what: PieceWhat::Hole,
};

fn row(offset: u64, count: u32, place: u64) -> Row {
    Row {
        offset,
        count,
        place,
        zeroed: false,
        tag: 0,
    }
}

fn push_block(file: &mut Vec<u8>, head: &Head) -> Result<(), Fail> {
    if !head.is_valid() {
        return Err(Fail::from("no head"));
    }
    file.extend_from_slice(&encode_block(head))?;
    Ok(())
}

fn push_row(file: &mut Vec<u8>, row: &Row) -> Result<(), Fail> {
    if !row.fits() {
        return Err(Fail::from("no row"));
    }
    file.extend_from_slice(&encode(row))?;
    Ok(())
}

// The file of a layer of 16 sectors with these rows. It has four sectors of data, from place 8 on:
// the first one of this byte, and the others of the next ones.
fn layer_file(alloc: Global, byte: u8, rows: &[Row]) -> Result<Vec<u8>, Fail> {
    let head = Head {
        version: 1,
        kind: Kind::SealedHead,
        index_at: 6_144,
        rows: rows.len() as u64,
        sectors: 16,
        uuid: [0x11; 16],
        parent: [0; 16],
        tag: Tag::empty(),
    };
    let mut file = Vec::new(alloc);
    push_block(&mut file, &head)?;
    for number in 0..4u8 {
        file.extend_from_slice(&[byte.wrapping_add(number); 512])?;
    }
    for row in rows {
        push_row(&mut file, row)?;
    }
    file.resize(8_192, 0)?;
    let end = Head {
        kind: Kind::SealedEnd,
        ..head
    };
    push_block(&mut file, &end)?;
    Ok(file)
}

fn shelf_of(alloc: Global, files: Vec<Bytes>) -> Result<MemShelf, Fail> {
    if files.len() > LAYERS as usize {
        return Err(Fail::from("too many files"));
    }
    Ok(MemShelf::new(
        FileTexts::from_vec(files),
        CallList::from_vec(Vec::new(alloc)),
    ))
}

// The layer of a file, if there is such a file.
fn read_at(alloc: Global, shelf: &mut MemShelf, k: u32) -> Result<Layer, Fail> {
    if k >= shelf.count() {
        return Err(Fail::from("no file"));
    }
    Ok(read_layer(alloc, shelf, k)?)
}

fn layers_of(alloc: Global, shelf: &mut MemShelf) -> Result<Vec<Layer>, Fail> {
    let mut layers = Vec::new(alloc);
    for k in 0..shelf.count() {
        layers.push(read_at(alloc, shelf, k)?)?;
    }
    Ok(layers)
}

const ZEROS: Row = Row {
    offset: 0,
    count: 1,
    place: 0,
    zeroed: true,
    tag: 0,
};

const FILLED: Row = Row {
    offset: 4,
    count: 1,
    place: 9,
    zeroed: false,
    tag: 0,
};

// Four layers: sectors 1 and 2, zeros over sector 2, zeros over sector 5, and sectors 4, 6 and 7.
const TABLES: [&[Row]; 4] = [
    &[Row {
        offset: 1,
        count: 2,
        place: 8,
        ..FILLED
    }],
    &[Row { offset: 2, ..ZEROS }],
    &[Row { offset: 5, ..ZEROS }],
    &[
        FILLED,
        Row {
            offset: 6,
            count: 2,
            place: 10,
            ..FILLED
        },
    ],
];

fn four_layers(alloc: Global) -> Result<Vec<Layer>, Fail> {
    let mut files = Vec::new(alloc);
    for rows in TABLES {
        files.push(Bytes::from_vec(layer_file(alloc, 0x61, rows)?))?;
    }
    layers_of(alloc, &mut shelf_of(alloc, files)?)
}

// Where there are at most two segments, a search looks at most twice, and once more a piece.
fn find_in_two<L: Ledger>(
    index: &MergedIndex,
    extent: Extent,
    out: &mut [Piece],
    steps: &mut Steps<L>,
) -> Found
    requires two { length index.now.segments ≤ 2 }
    ensures few { steps.new ≤ steps.old + 2 + result.pieces }
{
    index.find(extent, out, steps)
}

// The pieces of the extent, as many as there is room for, how many there are and where they end.
fn first_pieces<L: Ledger>(
    index: &MergedIndex,
    extent: Extent,
    room: usize,
    blank: Blank,
) -> ([Piece; 4], usize, u64)
    requires room { room ≤ 4 }
    requires name { blank.name ≡ L.name }
    requires parts { blank.parts ≡ L.parts }
    requires some { 0 < blank.parts }
{
    let mut steps = Steps::<L>::new(blank);
    let mut out = [NOTHING; 4];
    let found = if index.len() <= 2 {
        find_in_two(index, extent, &mut out[..room], &mut steps)
    } else {
        index.find(extent, &mut out[..room], &mut steps)
    };
    (out, found.pieces, found.until)
}

fn is_shared<T: Send + Sync>(_value: &T) {}

const HOLE: PieceWhat = PieceWhat::Hole;

const ZERO: PieceWhat = PieceWhat::Zero;

// Where a piece begins, how many sectors it has, and what they are.
type Parts = (u64, u32, PieceWhat);

const FIRST: [Parts; 4] = [
    (0, 1, HOLE),
    (1, 1, PieceWhat::Filled { layer: 0, place: 8 }),
    (2, 1, ZERO),
    (3, 1, HOLE),
];

const FRONT: [Parts; 2] = [
    (0, 1, HOLE),
    (1, 1, PieceWhat::Filled { layer: 0, place: 8 }),
];

const SECOND: [Parts; 3] = [
    (4, 1, PieceWhat::Filled { layer: 3, place: 9 }),
    (5, 1, ZERO),
    (
        6,
        2,
        PieceWhat::Filled {
            layer: 3,
            place: 10,
        },
    ),
];

const LAST: [Parts; 1] = [(
    7,
    1,
    PieceWhat::Filled {
        layer: 3,
        place: 11,
    },
)];

// An extent, as its first sector and their number, the room for pieces, the pieces that are found, and
// where they end.
type Search = (u64, u64, usize, &'static [Parts], u64);

// In the index of the first two layers.
const BELOW: [Search; 2] = [(0, 4, 4, &FIRST, 4), (0, 4, 2, &FRONT, 2)];

// And of all four.
const WHOLE: [Search; 4] = [
    (0, 8, 4, &FIRST, 4),
    (4, 4, 4, &SECOND, 8),
    (7, 1, 4, &LAST, 8),
    (8, 0, 4, &[], 8),
];

fn is_piece(piece: &Piece, parts: &Parts) -> bool {
    piece.extent.at == parts.0 && piece.extent.count == parts.1 && piece.what == parts.2
}

// Whether these are the pieces, and behind them was nothing written.
fn are_pieces(out: &[Piece; 4], wanted: &[Parts]) -> bool {
    for (number, piece) in out.iter().enumerate() {
        let is_right = match wanted.get(number) {
            Some(parts) => is_piece(piece, parts),
            None => *piece == NOTHING,
        };
        if !is_right {
            return false;
        }
    }
    true
}

fn search_of(index: &MergedIndex, extent: Extent, room: usize) -> ([Piece; 4], usize, u64)
    requires { room ≤ 4 }
{
    first_pieces::<Brand>(index, extent, room, Blank::new(1))
}

fn is_found(index: &MergedIndex, search: &Search) -> Result<bool, Fail> {
    let (at, count, room, wanted, end) = *search;
    let Some(extent) = Extent::new(at, count) else {
        return Err(Fail::from("no extent"));
    };
    if room > 4 {
        return Err(Fail::from("more room"));
    }
    let (out, pieces, until) = search_of(index, extent, room);
    Ok(pieces == wanted.len() && until == end && are_pieces(&out, wanted))
}

fn are_found(rt: &impl Abort, index: &MergedIndex, searches: &[Search]) -> Result<(), Fail> {
    for (number, search) in searches.iter().enumerate() {
        holds_at(rt, is_found(index, search)?, "search", number);
    }
    Ok(())
}

#[test]
fn zeros_hide_what_is_below(rt: HostRuntime) -> Result<(), Fail> {
    index_laws();
    let layers = four_layers(rt.alloc())?;
    if layers.len() != 4 {
        return Err(Fail::from("other layers"));
    }
    let below = merge(rt.alloc(), &layers[..2])?;
    let third = below.over(rt.alloc(), &layers[2], 2)?;
    let whole = third.over(rt.alloc(), &layers[3], 3)?;
    let segments = [below.len(), third.len(), whole.len()];
    holds(&rt, segments == [2, 3, 5], "segments");
    is_shared(&whole);
    are_found(&rt, &below, &BELOW)?;
    are_found(&rt, &whole, &WHOLE)
}

// The next number of a small generator.
fn draw(state: &mut u64, below: u64) -> u64
    requires { 0 < below }
    ensures { result < below }
{
    *state = state
        .wrapping_mul(6_364_136_223_846_793_005)
        .wrapping_add(1_442_695_040_888_963_407);
    (*state >> 33) % below
}

fn drawn_rows(alloc: Global, state: &mut u64) -> Result<Vec<Row>, AllocError> {
    let mut rows = Vec::new(alloc);
    let mut at = draw(state, 4);
    for _ in 0..8 {
        let skipped = draw(state, 4);
        let count = 1 + draw(state, 4 - skipped);
        if at.saturating_add(count) > 16 {
            break;
        }
        rows.push(Row {
            zeroed: draw(state, 3) == 0,
            ..row(at, count as u32, 8 + skipped)
        })?;
        at = at.saturating_add(count + draw(state, 3));
    }
    Ok(rows)
}

fn drawn_shelf(alloc: Global, state: &mut u64) -> Result<MemShelf, Fail> {
    let mut files = Vec::new(alloc);
    for number in 0..LAYERS as u8 {
        let rows = drawn_rows(alloc, state)?;
        let byte = number.wrapping_mul(0x10);
        let file = layer_file(alloc, byte, rows.as_slice())?;
        files.push(Bytes::from_vec(file))?;
    }
    shelf_of(alloc, files)
}

fn paint(alloc: Global, shelf: &mut MemShelf, k: u32, image: &mut [u8; 8192]) -> Result<(), Fail> {
    if k >= shelf.count() {
        return Err(Fail::from("no file"));
    }
    let layer = read_layer(alloc, shelf, k)?;
    paint_part(shelf, k, &layer, 0, image)?;
    Ok(())
}

// The first byte of each sector, once the first layers are painted.
fn painted_bytes(alloc: Global, shelf: &mut MemShelf) -> Result<[u8; 16], Fail> {
    let mut image = [0; 8192];
    for k in 0..MOST as u32 {
        paint(alloc, shelf, k, &mut image)?;
    }
    let mut bytes = [0; 16];
    for number in 0..16usize {
        bytes[number] = image[512 * number];
    }
    Ok(bytes)
}

// The first byte of a sector as its cell names it.
fn named_byte(shelf: &mut MemShelf, cell: PieceWhat) -> Result<u8, Fail> {
    let PieceWhat::Filled { layer, place } = cell else {
        return Ok(0);
    };
    if layer as u32 >= shelf.count() || place >= 12 {
        return Err(Fail::from("no such sector"));
    }
    let mut byte = [0];
    shelf.read(layer as u32, 512 * place, &mut byte)?;
    Ok(byte[0])
}

fn named_bytes(shelf: &mut MemShelf, cells: &[PieceWhat; 16]) -> Result<[u8; 16], Fail> {
    let mut bytes = [0; 16];
    for number in 0..16usize {
        bytes[number] = named_byte(shelf, cells[number])?;
    }
    Ok(bytes)
}

// What the sector of a piece has that stands so many behind its first one.
fn cell_behind(what: PieceWhat, number: u64) -> PieceWhat {
    match what {
        PieceWhat::Filled { layer, place } => PieceWhat::Filled {
            layer,
            place: place.wrapping_add(number),
        },
        _ => what,
    }
}

// Puts the cells of a piece, which is to begin there, and says where it ends.
fn put_cells(cells: &mut [PieceWhat; 16], piece: &Piece, from: u64) -> Result<u64, Fail> {
    let end = piece.extent.end();
    if piece.extent.at != from || end > 16 {
        return Err(Fail::from("another piece"));
    }
    for at in from..end {
        cells[at as usize] = cell_behind(piece.what, at - from);
    }
    Ok(end)
}

// What the sectors have by the pieces of an index, three at a time.
fn found_cells<L: Ledger>(index: &MergedIndex, blank: Blank) -> Result<[PieceWhat; 16], Fail>
    requires name { blank.name ≡ L.name }
    requires parts { blank.parts ≡ L.parts }
    requires some { 0 < blank.parts }
{
    let mut steps = Steps::<L>::new(blank);
    let mut cells = [PieceWhat::Hole; 16];
    let mut out = [NOTHING; 3];
    let mut from: u64 = 0;
    for _ in 0..16 {
        if from >= 16 {
            break;
        }
        let extent = Extent::new(from, 16 - from).ok_or("extent")?;
        let found = index.find(extent, &mut out, &mut steps);
        for piece in &out[..found.pieces] {
            from = put_cells(&mut cells, piece, from)?;
        }
        if found.until != from {
            return Err(Fail::from("another end"));
        }
    }
    if from != 16 {
        return Err(Fail::from("too few pieces"));
    }
    Ok(cells)
}

fn index_cells(index: &MergedIndex) -> Result<[PieceWhat; 16], Fail> {
    found_cells::<Brand>(index, Blank::new(1))
}

// The index of the first so many layers, with the others put over it one by one.
fn built_up(alloc: Global, layers: &[Layer], cut: usize) -> Result<MergedIndex, Fail>
    requires cut { cut ≤ length layers.now }
    requires few { length layers.now ≤ 255 }
{
    let mut index = merge(alloc, &layers[..cut])?;
    for number in cut..layers.len() {
        index = index.over(alloc, &layers[number], number as u8)?;
    }
    Ok(index)
}

fn plain_cells(layers: &[Layer]) -> [PieceWhat; 16]
    requires few { length layers.now ≤ 255 }
{
    let mut plain = [PieceWhat::Hole; 16];
    for sector in 0..16usize {
        plain[sector] = plain_cell(layers, sector as u64);
    }
    plain
}

// What the sectors have by an index of the layers, made at once and layer by layer, which is what the
// plain form says.
fn compared(alloc: Global, layers: &[Layer], cut: usize) -> Result<[PieceWhat; 16], Fail>
    requires cut { cut ≤ length layers.now }
    requires few { length layers.now ≤ 255 }
{
    let plain = plain_cells(layers);
    let merged = index_cells(&merge(alloc, layers)?)?;
    let built = index_cells(&built_up(alloc, layers, cut)?)?;
    if merged != plain || built != plain {
        return Err(Fail::from("the plain form says something else"));
    }
    Ok(plain)
}

// Whether the layers painted over one another have the bytes that their index names.
fn agrees_with_painting(
    alloc: Global,
    shelf: &mut MemShelf,
    layers: &[Layer],
) -> Result<bool, Fail> {
    if layers.len() != LAYERS as usize {
        return Err(Fail::from("other layers"));
    }
    let cells = compared(alloc, &layers[..MOST], 0)?;
    let named = named_bytes(shelf, &cells)?;
    Ok(named == painted_bytes(alloc, shelf)?)
}

// Compares a stack of some of these layers, two of which change their places before.
fn compare_some(alloc: Global, layers: &mut Vec<Layer>, state: &mut u64) -> Result<(), Fail> {
    if layers.len() != LAYERS as usize {
        return Err(Fail::from("other layers"));
    }
    let (one, other) = (draw(state, LAYERS), draw(state, LAYERS));
    layers.swap(one as usize, other as usize);
    let count = 1 + draw(state, MOST as u64) as usize;
    let from = draw(state, LAYERS - MOST as u64) as usize;
    let cut = draw(state, count as u64) as usize;
    compared(alloc, &layers[from..from + count], cut)?;
    Ok(())
}

#[test]
fn find_agrees_with_the_plain_form_and_with_painting(rt: HostRuntime) -> Result<(), Fail> {
    let alloc = rt.alloc();
    let mut state = 1;
    for number in 0..SHELVES {
        let mut shelf = drawn_shelf(alloc, &mut state)?;
        let mut layers = layers_of(alloc, &mut shelf)?;
        let agrees = agrees_with_painting(alloc, &mut shelf, &layers)?;
        holds_at(&rt, agrees, "painting the layers of shelf", number);
        for _ in 0..STACKS {
            compare_some(alloc, &mut layers, &mut state)?;
        }
    }
    Ok(())
}

// As many layers as there may be, those of a shelf again and again.
#[test]
fn the_most_layers_are_merged(rt: HostRuntime) -> Result<(), Fail> {
    let alloc = rt.alloc();
    let mut shelf = drawn_shelf(alloc, &mut 2)?;
    let mut layers = Vec::new(alloc);
    for number in 0..255u32 {
        layers.push(read_at(alloc, &mut shelf, number % LAYERS as u32)?)?;
    }
    if layers.len() != 255 {
        return Err(Fail::from("other layers"));
    }
    compared(alloc, layers.as_slice(), 200)?;
    Ok(())
}
