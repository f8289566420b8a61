ghost use Rattle.std.specs.Prelude.{◌≡◌, ℕ, ◌+◌, ◌-◌, ◌<◌, ◌≤◌, [], ◌∷◌, ◌++◌, All, List, insert, slice_index_or, take, drop, length, vec_len, vec_capacity};
ghost use Rattle.seg_table.specs.declared.segment.Segment.{Segment};
ghost use Rattle.seg_table.specs.Pieces.{end_of};
ghost use Rattle.seg_table.specs.Put.{IsPut};
ghost use Rattle.seg_table.specs.Segments.{AreAllBut, AreCleared, AreLeaves, AreSegments, IsBefore, IsBeyond, IsLeaf, IsPutInto, first_of, joined, segments_end};

use crate::joining::join_around;
use crate::leaf::{Leaf, MOST};
use crate::search::{leaves_before, segments_before};
use crate::segment::{Segment, part};
use sector_extent::Steps;
use std::mem;
use std::sync::ledger::{Blank, Ledger};

// Adds what sorted segments have before a sector, where the first `passed` of them end.
fn add_before(segments: &[Segment], passed: usize, end: u64, made: &mut Leaf)
    requires sorted { AreSegments 0 segments.now }
    requires passed { passed ≤ length segments.now }
    requires before { segments_end 0 (take passed segments.now) ≤ end }
    requires behind { (d : Segment) → passed < length segments.now
        → end < end_of (slice_index_or segments.now passed d) }
    requires room { length segments.now ≤ 255 }
    requires made { made.old ≡ [] }
    ensures before { IsBefore end segments.now made.new }
    ensures few { length made.new ≤ passed + 1 }
{
    made.extend(&segments[..passed]);
    if passed < segments.len() {
        let segment = segments[passed];
        if segment.extent.at < end {
            made.push(part(&segment, segment.extent.at, end));
        }
    }
}

// Adds what sorted segments have from a sector on, where the first `passed` of them end before it.
fn add_beyond(segments: &[Segment], passed: usize, from: u64, made: &mut Leaf)
    requires sorted { AreSegments 0 segments.now }
    requires passed { passed ≤ length segments.now }
    requires before { segments_end 0 (take passed segments.now) ≤ from }
    requires behind { (d : Segment) → passed < length segments.now
        → from < end_of (slice_index_or segments.now passed d) }
    requires room { length made.old + length segments.now ≤ 257 + passed }
    ensures beyond { (new : List Segment) × (made.new ≡ made.old ++ new) × IsBeyond from segments.now new }
    ensures few { length made.new + passed ≤ length made.old + length segments.now }
{
    if passed < segments.len() {
        let segment = segments[passed];
        let at = from.max(segment.extent.at);
        made.push(part(&segment, at, segment.extent.end()));
        made.extend(&segments[passed + 1..]);
    }
}

// Makes sorted segments anew with one put into them, and answers its number.
fn put_apart<L: Ledger>(
    segments: &[Segment],
    segment: Segment,
    made: &mut Leaf,
    steps: &mut Steps<L>,
) -> usize
    requires sorted { AreSegments 0 segments.now }
    requires room { length segments.now ≤ 255 }
    requires put { IsPut segment }
    ensures put { IsPutInto segment segments.now made.new }
    ensures some { 0 < length made.new }
{
    let from = segment.extent.at;
    let end = segment.extent.end();
    let before = segments_before(segments, from, steps);
    let passed = segments_before(segments, end, steps);
    made.clear();
    add_before(segments, before, from, made);
    let number = made.len();
    made.push(segment);
    add_beyond(segments, passed, end, made);
    number
}

// The same, and joins it with what goes on before and behind it.
fn put_among<L: Ledger>(
    segments: &[Segment],
    segment: Segment,
    made: &mut Leaf,
    steps: &mut Steps<L>,
)
    requires sorted { AreSegments 0 segments.now }
    requires room { length segments.now ≤ 255 }
    requires put { IsPut segment }
    ensures put { IsPutInto segment segments.now made.new }
    ensures some { 0 < length made.new }
{
    let number = put_apart(segments, segment, made, steps);
    join_around(made, number);
}

// Puts a leaf in the place of that number, and takes the one that stood there.
fn exchange(leaves: &mut Vec<Leaf>, number: usize, leaf: &mut Leaf)
    requires number { number < vec_len leaves.old }
    ensures leaves { leaves.new.items ≡ take number leaves.old.items ++ leaf.old ∷ drop (number + 1) leaves.old.items }
    ensures len { vec_len leaves.new ≡ vec_len leaves.old }
    ensures capacity { vec_capacity leaves.new ≡ vec_capacity leaves.old }
{
    mem::swap(&mut leaves[number], leaf);
}

// Removes the leaves from one number up to another.
fn remove_leaves(leaves: &mut Vec<Leaf>, from: usize, until: usize)
    requires order { from ≤ until }
    requires until { until ≤ vec_len leaves.old }
    ensures leaves { leaves.new.items ≡ take from leaves.old.items ++ drop until leaves.old.items }
    ensures len { vec_len leaves.new ≤ vec_len leaves.old }
    ensures capacity { vec_capacity leaves.new ≡ vec_capacity leaves.old }
{
    if from < until {
        leaves.drain(from..until);
    }
}

// Leaves of the leaves from the one of that number on what they have from `end` on.
fn clear_behind<L: Ledger>(
    leaves: &mut Vec<Leaf>,
    number: usize,
    end: u64,
    made: &mut Leaf,
    steps: &mut Steps<L>,
)
    requires leaves { AreLeaves leaves.old.items }
    requires number { number ≤ vec_len leaves.old }
    requires some { 0 < end }
    ensures leaves { AreCleared number end leaves.old.items leaves.new.items }
    ensures len { vec_len leaves.new ≤ vec_len leaves.old }
    ensures capacity { vec_capacity leaves.new ≡ vec_capacity leaves.old }
{
    let behind = leaves_before(&leaves.as_slice()[number..], end - 1, steps);
    if behind == 0 {
        return;
    }
    let last = number + behind - 1;
    let segments = leaves[last].as_slice();
    let passed = segments_before(segments, end, steps);
    made.clear();
    add_beyond(segments, passed, end, made);
    if made.len() == 0 {
        remove_leaves(leaves, number, last + 1);
        return;
    }
    exchange(leaves, last, made);
    remove_leaves(leaves, number, last);
}

// Puts a leaf before the one of that number. There is room for it.
fn insert_leaf(leaves: &mut Vec<Leaf>, number: usize, leaf: Leaf)
    requires number { number ≤ vec_len leaves.old }
    requires room { vec_len leaves.old < vec_capacity leaves.old }
    ensures leaves { leaves.new.items ≡ insert leaves.old.items number leaf }
    ensures len { vec_len leaves.new ≡ vec_len leaves.old + 1 }
    ensures capacity { vec_capacity leaves.old ≤ vec_capacity leaves.new }
{
    let _ = leaves.insert(number, leaf);
}

// After how many segments a leaf is parted. The last leaf stays full, since a top is often written
// in rising order.
fn cut_of(is_last: bool) -> usize
    ensures some { 0 < result }
    ensures most { result ≤ 255 }
    ensures rest { 2 ≤ result }
{
    if is_last { MOST } else { MOST / 2 }
}

// Parts a leaf that has too many segments in two.
fn split(leaves: &mut Vec<Leaf>, number: usize, mut made: Leaf)
    requires leaves { AreAllBut number leaves.old.items }
    requires many { 255 < length (slice_index_or leaves.old.items number []) }
    requires room { vec_len leaves.old < vec_capacity leaves.old }
    ensures sizes { All IsLeaf leaves.new.items }
    ensures same { joined leaves.new.items ≡ joined leaves.old.items }
    ensures len { vec_len leaves.new ≡ vec_len leaves.old + 1 }
    ensures capacity { vec_capacity leaves.old ≤ vec_capacity leaves.new }
{
    let cut = cut_of(number + 1 == leaves.len());
    made.clear();
    made.extend(&leaves[number].as_slice()[cut..]);
    leaves[number].truncate(cut);
    insert_leaf(leaves, number + 1, made);
}

// Puts a segment into leaves, of which the one of that number is the last that begins at its first
// sector or before, or else the first one.
fn put_at<L: Ledger>(
    leaves: &mut Vec<Leaf>,
    number: usize,
    segment: Segment,
    made: &mut Leaf,
    steps: &mut Steps<L>,
)
    requires leaves { AreLeaves leaves.old.items }
    requires number { number < vec_len leaves.old }
    requires put { IsPut segment }
    requires before { 0 < number → first_of (slice_index_or leaves.old.items number []) ≤ segment.extent.at }
    requires behind { number + 1 < vec_len leaves.old
        → segment.extent.at < first_of (slice_index_or leaves.old.items (number + 1) []) }
    ensures leaves { AreAllBut number leaves.new.items }
    ensures put { IsPutInto segment (joined leaves.old.items) (joined leaves.new.items) }
    ensures len { vec_len leaves.new ≤ vec_len leaves.old }
    ensures capacity { vec_capacity leaves.new ≡ vec_capacity leaves.old }
{
    clear_behind(leaves, number + 1, segment.extent.end(), made, steps);
    put_among(leaves[number].as_slice(), segment, made, steps);
    exchange(leaves, number, made);
}

// Puts a segment into the leaves. One spare leaf at most is used up.
pub(crate) fn put_into<L: Ledger>(
    leaves: &mut Vec<Leaf>,
    spares: &mut Vec<Leaf>,
    segment: Segment,
    steps: &mut Steps<L>,
)
    requires leaves { AreLeaves leaves.old.items }
    requires room { vec_len leaves.old < vec_capacity leaves.old }
    requires spares { 0 < vec_len spares.old }
    requires put { IsPut segment }
    ensures sizes { All IsLeaf leaves.new.items }
    ensures put { IsPutInto segment (joined leaves.old.items) (joined leaves.new.items) }
    ensures room { vec_capacity leaves.old + vec_len leaves.new ≤ vec_capacity leaves.new + vec_len leaves.old + 1 }
    ensures spares { vec_len spares.old ≤ vec_len spares.new + 1 }
{
    let mut made = match spares.pop() {
        None => return,
        Some(made) => made,
    };
    if leaves.is_empty() {
        made.clear();
        made.push(segment);
        leaves.push_reserved(made);
        return;
    }
    let before = leaves_before(leaves.as_slice(), segment.extent.at, steps);
    let number = before.max(1) - 1;
    put_at(leaves, number, segment, &mut made, steps);
    if leaves[number].len() > MOST {
        split(leaves, number, made);
    } else {
        spares.push_reserved(made);
    }
}

// The same, for a caller that counts no steps.
pub(crate) fn put_uncounted<L: Ledger>(
    leaves: &mut Vec<Leaf>,
    spares: &mut Vec<Leaf>,
    segment: Segment,
    blank: Blank,
)
    requires leaves { AreLeaves leaves.old.items }
    requires room { vec_len leaves.old < vec_capacity leaves.old }
    requires spares { 0 < vec_len spares.old }
    requires put { IsPut segment }
    requires name { blank.name ≡ L.name }
    requires parts { blank.parts ≡ L.parts }
    requires blank { 0 < blank.parts }
    ensures sizes { All IsLeaf leaves.new.items }
    ensures put { IsPutInto segment (joined leaves.old.items) (joined leaves.new.items) }
    ensures room { vec_capacity leaves.old + vec_len leaves.new ≤ vec_capacity leaves.new + vec_len leaves.old + 1 }
    ensures spares { vec_len spares.old ≤ vec_len spares.new + 1 }
{
    let mut steps = Steps::<L>::new(blank);
    put_into(leaves, spares, segment, &mut steps);
}
