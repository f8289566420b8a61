//! Reads of a shelf in memory through a cache.
ghost use Rattle.std.specs.Prelude.{◌≡◌, ◌+◌, ◌^◌, ◌<◌, ◌≤◌, ◌∷◌, [], Some, length, IfOk};
ghost use Rattle.turn_lock.specs.Locks.{AreSeats};

use crate::expecting::holds_at;
use block_cache::{Cache, CacheBase, SharedCache};
use flat_image::Named;
use layer_shelf::{MemShelf, Shelf, ShelfFailed};
use range_shelf::*;
use sector_extent::{Bytes, CallList, FileTexts};
use std::alloc::Global;
use std::marker::Brand;
use std::process::Abort;
use std::sync::Wait;
use std::test::Fail;
use turn_lock::SeatList;

// A cache for so many blocks of the shelf's files, with one seat. Its first entry has that number.
fn started_as<N: Named<CacheBase>>(
    alloc: Global,
    capacity: u32,
    first: u64,
    shelf: &MemShelf,
) -> Result<(SharedCache, SeatList<Cache>), Fail>
    requires capacity { (0 < capacity) × (capacity ≤ 16384) }
    requires first { first ≤ 2 ^ 62 }
    requires base { (N.it.capacity ≡ capacity) × (N.it.files ≡ Some shelf.now.files) }
    ensures files { IfOk result (λ made. made.0.base.files ≡ Some shelf.now.files) }
    ensures seats { IfOk result (λ made. (made.0.seats ≡ 1) × AreSeats made.0.id 1 made.1) }
{
    let _ = shelf;
    let cache = Cache::new(alloc, capacity)?;
    match SharedCache::start::<N>(alloc, cache, 1, first) {
        Ok(made) => Ok(made),
        Err(_) => Err("memory")?,
    }
}

fn started(
    alloc: Global,
    capacity: u32,
    first: u64,
    shelf: &MemShelf,
) -> Result<(SharedCache, SeatList<Cache>), Fail>
    requires capacity { (0 < capacity) × (capacity ≤ 16384) }
    requires first { first ≤ 2 ^ 62 }
    ensures files { IfOk result (λ made. made.0.base.files ≡ Some shelf.now.files) }
    ensures seats { IfOk result (λ made. (made.0.seats ≡ 1) × AreSeats made.0.id 1 made.1) }
{
    started_as::<Brand>(alloc, capacity, first, shelf)
}

// A file of two blocks, whose bytes tell their blocks, and whose call with that number fails.
fn two_blocks(alloc: Global, failing: u64) -> Result<MemShelf, Fail>
    ensures { IfOk result (λ shelf. length shelf.files ≡ 1) }
{
    let mut file = vec![in alloc; 1; 65_536]?;
    let second = vec![in alloc; 2; 65_536]?;
    file.extend_from_slice(second.as_slice())?;
    let mut files = Vec::new(alloc);
    files.push(Bytes::from_vec(file))?;
    let failing = CallList::from_vec(vec![in alloc; failing]?);
    Ok(MemShelf::new(FileTexts::from_vec(files), failing))
}

// Reads of one byte at these places, and of the four bytes where the blocks meet.
fn read_in_turn<S: Shelf>(shelf: &mut S) -> ([Result<(), ShelfFailed>; 5], [u8; 8])
    requires { S.count shelf.old ≡ 1 }
{
    let mut out = [0; 8];
    let whole = &mut out[..];
    let (a, rest) = whole.split_at_mut(1);
    let (b, rest) = rest.split_at_mut(1);
    let (c, rest) = rest.split_at_mut(1);
    let (d, both) = rest.split_at_mut(1);
    let answers = [
        shelf.read(0, 0, a),
        shelf.read(0, 65_536, b),
        shelf.read(0, 0, c),
        shelf.read(0, 65_536, d),
        shelf.read(0, 65_534, both),
    ];
    (answers, out)
}

// The reads through such a cache, where the inner shelf's call with that number fails.
fn cached<R: Wait>(
    rt: &R,
    alloc: Global,
    capacity: u32,
    first: u64,
    failing: u64,
) -> Result<([Result<(), ShelfFailed>; 5], [u8; 8]), Fail> {
    if capacity == 0 || capacity > 16_384 || first > FULL {
        return Err(Fail::from("another cache"));
    }
    let shelf = two_blocks(alloc, failing)?;
    let (cache, seats) = started(alloc, capacity, first, &shelf)?;
    let Some(seat) = seats.into_vec().pop() else {
        return Err("a seat")?;
    };
    match CachedShelf::new(rt, alloc, shelf, &cache, seat) {
        Ok(mut shelf) => {
            let answers = read_in_turn(&mut shelf);
            let _ = shelf.into_parts();
            Ok(answers)
        }
        Err(_) => Err("memory")?,
    }
}

type Answers = [Result<(), ShelfFailed>; 5];

const OK: Result<(), ShelfFailed> = Ok(());

const FAILED: Result<(), ShelfFailed> = Err(ShelfFailed);

// The number of the first entry of a cache that is worn out when it starts.
const FULL: u64 = 4_611_686_018_427_387_904;

// The blocks that the cache has room for, the number of its first entry, the inner shelf's call that
// fails, and the answers. A miss makes two calls of the inner shelf: the length and the read. Once the
// cache is worn out, which the last one is behind its first look, each block is read by one call.
const READS: [(u32, u64, u64, Answers); 10] = [
    (2, 0, 9, [OK, OK, OK, OK, OK]),
    (2, 0, 4, [OK, OK, OK, OK, OK]),
    (2, 0, 2, [OK, FAILED, OK, OK, OK]),
    (1, 0, 4, [OK, OK, FAILED, OK, OK]),
    (1, 0, 6, [OK, OK, OK, FAILED, OK]),
    (1, 0, 7, [OK, OK, OK, FAILED, OK]),
    (2, FULL, 6, [OK, OK, OK, OK, OK]),
    (2, FULL, 2, [OK, OK, FAILED, OK, OK]),
    (2, FULL, 5, [OK, OK, OK, OK, FAILED]),
    (2, FULL - 1, 2, [OK, FAILED, OK, OK, OK]),
];

// What the reads give, one after another: a byte by each of the first four, and four by the last one.
const BYTES: [u8; 8] = [1, 2, 1, 2, 1, 1, 2, 2];

// Whether the reads that are done gave their bytes.
fn are_read(answers: &Answers, out: &[u8; 8]) -> bool {
    for (number, (byte, wanted)) in out.iter().zip(&BYTES).enumerate() {
        if answers[number.min(4)].is_ok() && byte != wanted {
            return false;
        }
    }
    true
}

#[test]
fn blocks_in_turn_hit_where_both_have_room(rt: HostRuntime) -> Result<(), Fail> {
    for (number, (capacity, first, failing, answers)) in READS.iter().enumerate() {
        let (found, out) = cached(&rt, rt.alloc(), *capacity, *first, *failing)?;
        holds_at(&rt, found == *answers, "answers", number);
        holds_at(&rt, are_read(&found, &out), "bytes", number);
    }
    Ok(())
}
