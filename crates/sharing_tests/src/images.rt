//! Images without layers, shared by seats, and what a test expects.
ghost use Rattle.std.specs.Prelude.{◌≡◌, ◌^◌, ◌<◌, ◌≤◌, [], ◌∷◌, All, IfOk};
ghost use Rattle.lsmt_header.specs.Blocks.{IsSize};
ghost use Rattle.turn_lock.specs.Locks.{AreSeats};
ghost use Rattle.image_core.specs.Creating.{fresh_at};
ghost use Rattle.image_core.specs.Seen.{seen, view, faults_in, StandsFor};

use block_disk::Disk;
use image_core::{Image, LayerList};
use layer_shelf::MemShelf;
use sector_extent::{Bytes, CallList, FileTexts};
use shared_image::SharedImage;
use std::alloc::Global;
use std::marker::Brand;
use std::process::Abort;
use std::test::Fail;
use turn_lock::SeatList;

/// Ends the test with these words, unless it holds.
pub fn holds(rt: &impl Abort, is_so: bool, words: &str) {
    assert!(rt; is_so, "{words}");
}

/// A shelf without files.
pub fn no_files(alloc: Global) -> MemShelf
    ensures { result.files ≡ [] }
{
    MemShelf::new(
        FileTexts::from_vec(Vec::new(alloc)),
        CallList::from_vec(Vec::new(alloc)),
    )
}

/// A shelf of one file.
pub fn shelf_of(alloc: Global, file: Vec<u8>) -> Result<MemShelf, Fail>
    ensures { IfOk result (λ shelf. shelf.files ≡ file.items ∷ []) }
{
    let mut files = Vec::new(alloc);
    files.push(Bytes::from_vec(file))?;
    Ok(MemShelf::new(
        FileTexts::from_vec(files),
        CallList::from_vec(Vec::new(alloc)),
    ))
}

// No lower layers.
fn none(alloc: Global) -> LayerList
    ensures { result ≡ [] }
{
    LayerList::from_vec(Vec::new(alloc))
}

/// An image without layers in which nothing was written.
pub fn new_image<D: Disk + Drop>(alloc: Global, disk: D, sectors: u64) -> Result<Image<D>, Fail>
    requires { IsSize sectors }
    ensures sectors { IfOk result (λ image. (view image).sectors ≡ sectors) }
    ensures steps { IfOk result (λ image. (view image).steps ≡ 0) }
    ensures stands { IfOk result (λ image.
        StandsFor (seen D.Disk image) (fresh_at (view image).sectors [] (faults_in D.Disk image)) []) }
{
    match Image::create(alloc, disk, none(alloc), sectors) {
        Ok(image) => Ok(image),
        Err((disk, _)) => {
            let _disk = disk;
            Err(Fail::from("no image was made"))
        }
    }
}

/// The same, shared by so many seats.
pub fn started<D: Disk + Drop>(
    alloc: Global,
    disk: D,
    sectors: u64,
    seats: u32,
    first: u64,
) -> Result<(SharedImage<D>, SeatList<Image<D>>), Fail>
    requires size { IsSize sectors }
    requires seats { 0 < seats }
    requires first { first ≤ 2 ^ 62 }
    ensures lowers { IfOk result (λ made. made.0.base.lowers ≡ []) }
    ensures sectors { IfOk result (λ made. made.0.base.sectors ≡ sectors) }
    ensures first { IfOk result (λ made. made.0.first ≡ first) }
    ensures seats { IfOk result (λ made. (made.0.seats ≡ seats) × AreSeats made.0.id seats made.1) }
    ensures seen { IfOk result (λ made. All (λ s. s.seen ≡ []) made.1) }
{
    let image = new_image(alloc, disk, sectors)?;
    match SharedImage::start::<Brand>(alloc, image, seats, first) {
        Ok(made) => Ok(made),
        Err((image, _)) => {
            let _image = image;
            Err(Fail::from("it is not shared"))
        }
    }
}
