//! Images with the files of their lower layers.
ghost use Rattle.std.specs.Prelude.{◌≡◌, ◌<◌, ◌≤◌, length, IfOk, OnOk};
ghost use Rattle.flat_image.specs.LayerFiles.{LayerOf};
ghost use Rattle.layer_shelf.specs.Shelves.{file_at};
ghost use Rattle.image_core.specs.View.{AreLayersOf};
ghost use Rattle.image_core.specs.Seen.{seen};
ghost use Rattle.image_core.specs.Creating.{AreLegal};
ghost use Rattle.image_tests.specs.Over.{IsOver};

use crate::steps::{Line, are_said, are_sectors, list_of};
use block_disk::Disk;
use image_core::{CreateFault, Image, LayerList, LoadFault, ReplyList, WholeFault, run_steps};
use layer_shelf::{MemShelf, Shelf};
use layer_stack::check;
use sealed_layer::{Layer, LayerFault, read_layer};
use sector_extent::{CallList, Extent, FileTexts};
use std::alloc::Global;
use std::test::Fail;

/// What is asked of an image.
#[derive(Clone, Copy)]
pub(crate) enum Part<'a> {
    /// The steps of a table, and what they are to reply.
    Steps(&'a [Line<'a>]),
    /// A read of all sectors, which are to be a sector of each of these bytes.
    Read(&'a [u8]),
    /// A read of all sectors, whatever these are.
    Any,
    /// A read of all sectors that the shelf is to fail in.
    Fails,
}

/// What it answered.
#[derive(Drop)]
pub(crate) enum Outcome {
    Said(ReplyList),
    Read(Result<Vec<u8>, WholeFault>),
}

/// What it answered to a part, and its entries then.
#[derive(Drop)]
pub(crate) struct Answer {
    pub(crate) outcome: Outcome,
    pub(crate) steps: u64,
}

/// What came of an image: its disk and its shelf, and what it answered.
#[derive(Drop)]
pub(crate) struct Played<D> {
    pub(crate) disk: D,
    pub(crate) shelf: MemShelf,
    pub(crate) sectors: u64,
    pub(crate) answers: Vec<Answer>,
}

/// A shelf of these files.
pub(crate) fn shelf_of(alloc: Global, files: FileTexts) -> Result<MemShelf, Fail> {
    if files.as_slice().len() > 255 {
        return Err(Fail::from("too many files"));
    }
    Ok(MemShelf::new(files, CallList::from_vec(Vec::new(alloc))))
}

/// The layer of a file.
pub(crate) fn layer_at(alloc: Global, shelf: &mut MemShelf, k: u32) -> Result<Layer, LayerFault>
    requires { k < length shelf.old.files }
    ensures found { IfOk result (λ layer. LayerOf (file_at shelf.old.files k) layer.head layer.rows) }
    ensures files { shelf.new.files ≡ shelf.old.files }
{
    read_layer(alloc, shelf, k)
}

// No layers, for a shelf without files.
fn no_layer(alloc: Global, shelf: &MemShelf, sectors: u64) -> Result<LayerList, Fail>
    ensures told { IfOk result (AreLayersOf shelf.now.files) }
    ensures legal { IfOk result (AreLegal sectors) }
{
    if shelf.count() != 0 || sectors == 0 {
        return Err(Fail::from("there are files"));
    }
    Ok(LayerList::from_vec(Vec::new(alloc)))
}

// The layer of one file.
fn one_layer(alloc: Global, shelf: &mut MemShelf, sectors: u64) -> Result<LayerList, Fail>
    ensures told { IfOk result (AreLayersOf shelf.old.files) }
    ensures legal { IfOk result (AreLegal sectors) }
    ensures files { shelf.new.files ≡ shelf.old.files }
{
    if shelf.count() != 1 {
        return Err(Fail::from("another number of files"));
    }
    let layer = layer_at(alloc, shelf, 0)?;
    if layer.head().sectors > sectors {
        return Err(Fail::from("a layer is larger"));
    }
    check(&[*layer.head()])?;
    let mut layers = Vec::new(alloc);
    layers.push(layer)?;
    Ok(LayerList::from_vec(layers))
}

// The layers of two files.
fn two_layers(alloc: Global, shelf: &mut MemShelf, sectors: u64) -> Result<LayerList, Fail>
    ensures told { IfOk result (AreLayersOf shelf.old.files) }
    ensures legal { IfOk result (AreLegal sectors) }
    ensures files { shelf.new.files ≡ shelf.old.files }
{
    if shelf.count() != 2 {
        return Err(Fail::from("another number of files"));
    }
    let first = layer_at(alloc, shelf, 0)?;
    let second = layer_at(alloc, shelf, 1)?;
    if first.head().sectors > sectors || second.head().sectors > sectors {
        return Err(Fail::from("a layer is larger"));
    }
    check(&[*first.head(), *second.head()])?;
    let mut layers = Vec::new(alloc);
    layers.push(first)?;
    layers.push(second)?;
    Ok(LayerList::from_vec(layers))
}

// The layers of the files, under an image of so many sectors.
fn layers_of(alloc: Global, shelf: &mut MemShelf, sectors: u64) -> Result<LayerList, Fail>
    ensures told { IfOk result (AreLayersOf shelf.old.files) }
    ensures legal { IfOk result (AreLegal sectors) }
    ensures files { shelf.new.files ≡ shelf.old.files }
{
    match shelf.count() {
        0 => no_layer(alloc, shelf, sectors),
        1 => one_layer(alloc, shelf, sectors),
        _ => two_layers(alloc, shelf, sectors),
    }
}

// Makes the steps of a table.
fn run<D: Disk>(
    alloc: Global,
    image: &mut Image<D>,
    shelf: &MemShelf,
    lines: &[Line],
) -> Result<Outcome, Fail>
    requires over { IsOver shelf.now.files (seen D.Disk image.old) }
    ensures over { OnOk result (IsOver shelf.now.files (seen D.Disk image.new)) }
{
    let list = list_of(alloc, image.sectors(), lines)?;
    if shelf.count() > 255 || image.steps() > 1_000_000 || list.as_slice().len() > 1_000_000 {
        return Err(Fail::from("too many steps"));
    }
    let mut replies = ReplyList::from_vec(Vec::new(alloc));
    run_steps(alloc, image, &list, &mut replies)?;
    Ok(Outcome::Said(replies))
}

// All sectors of the image, read through its layers.
fn read<D: Disk>(alloc: Global, image: &mut Image<D>, shelf: &mut MemShelf) -> Result<Outcome, Fail>
    requires over { IsOver shelf.old.files (seen D.Disk image.old) }
    ensures over { OnOk result (IsOver shelf.new.files (seen D.Disk image.new)) }
{
    let count = image.sectors();
    if count > 1_024 || image.steps() > 1_000_000 {
        return Err(Fail::from("it is larger"));
    }
    let extent = Extent {
        at: 0,
        count: count as u32,
    };
    let mut out = vec![in alloc; 1; 512 * count as usize]?;
    let answer = image.read_whole(alloc, shelf, extent, out.as_mut_slice());
    Ok(Outcome::Read(answer.map(|_| out)))
}

// The same shelf, of which these calls fail.
fn failing(alloc: Global, shelf: MemShelf, calls: &[u64]) -> Result<MemShelf, Fail>
    ensures { IfOk result (λ made. made.files ≡ shelf.files) }
{
    let calls = CallList::from_vec(Vec::from_slice(alloc, calls)?);
    Ok(MemShelf::new(shelf.into_files(), calls))
}

fn take_part<D: Disk>(
    alloc: Global,
    image: &mut Image<D>,
    shelf: &mut MemShelf,
    part: &Part,
) -> Result<Outcome, Fail>
    requires over { IsOver shelf.old.files (seen D.Disk image.old) }
    ensures over { OnOk result (IsOver shelf.new.files (seen D.Disk image.new)) }
{
    match part {
        Part::Steps(lines) => run(alloc, image, shelf, lines),
        Part::Read(_) | Part::Any | Part::Fails => read(alloc, image, shelf),
    }
}

// Makes the parts one after another. The calls of the shelf with these numbers fail.
fn play<D: Disk + Drop>(
    alloc: Global,
    image: Image<D>,
    shelf: MemShelf,
    calls: &[u64],
    parts: &[Part],
) -> Result<Played<D>, Fail>
    requires over { IsOver shelf.files (seen D.Disk image) }
{
    let mut image = image;
    let mut shelf = failing(alloc, shelf, calls)?;
    let mut answers = Vec::new(alloc);
    for part in parts {
        let outcome = take_part(alloc, &mut image, &mut shelf, part)?;
        let steps = image.steps();
        answers.push(Answer { outcome, steps })?;
    }
    let sectors = image.sectors();
    Ok(Played {
        disk: image.into_disk(),
        shelf,
        sectors,
        answers,
    })
}

/// Makes a new image over the layers of a shelf, and then the parts.
pub(crate) fn make<D: Disk + Drop>(
    alloc: Global,
    disk: D,
    shelf: MemShelf,
    sectors: u64,
    parts: &[Part],
) -> Result<Result<Played<D>, (D, CreateFault)>, Fail> {
    if sectors == 0 || sectors > 1 << 31 {
        return Err(Fail::from("another size"));
    }
    let mut shelf = shelf;
    let layers = layers_of(alloc, &mut shelf, sectors)?;
    match Image::create(alloc, disk, layers, sectors) {
        Ok(image) => Ok(Ok(play(alloc, image, shelf, &[], parts)?)),
        Err(refused) => Ok(Err(refused)),
    }
}

/// Loads the image on a disk over the layers of a shelf, and makes the parts.
pub(crate) fn load<D: Disk + Drop>(
    alloc: Global,
    disk: D,
    shelf: MemShelf,
    calls: &[u64],
    parts: &[Part],
) -> Result<Result<Played<D>, (D, LoadFault)>, Fail> {
    let mut shelf = shelf;
    let layers = layers_of(alloc, &mut shelf, 1 << 31)?;
    match Image::load(alloc, disk, layers) {
        Ok(image) => Ok(Ok(play(alloc, image, shelf, calls, parts)?)),
        Err(refused) => Ok(Err(refused)),
    }
}

// Whether that is the answer to that part.
fn is_answer(part: &Part, answer: &Answer) -> bool {
    match (part, &answer.outcome) {
        (Part::Steps(lines), Outcome::Said(replies)) => are_said(replies.as_slice(), lines),
        (Part::Read(bytes), Outcome::Read(Ok(sectors))) => are_sectors(sectors.as_slice(), bytes),
        (Part::Any, Outcome::Read(Ok(_))) => true,
        (Part::Fails, Outcome::Read(Err(WholeFault::ShelfFault))) => true,
        _ => false,
    }
}

/// Whether these are the answers.
pub(crate) fn are_answers(parts: &[Part], answers: &[Answer]) -> bool {
    parts.len() == answers.len()
        && parts
            .iter()
            .zip(answers)
            .all(|(part, answer)| is_answer(part, answer))
}

/// The same from the part of that number on.
pub(crate) fn are_answered(parts: &[Part], answers: &[Answer], from: usize) -> bool {
    parts.len() == answers.len()
        && parts
            .iter()
            .zip(answers)
            .skip(from)
            .all(|(part, answer)| is_answer(part, answer))
}
