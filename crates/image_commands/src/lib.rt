//! The commands on the image of a disk over the layers of a shelf: they make it, read its sectors,
//! write and zero them, let it grow, commit what was written and empty the files that this leaves. What
//! a refused command prints.
#![tactic(auto)]

mod changing;
mod committing;
mod copying;
mod growing;
mod image_reports;
mod image_texts;
mod images;
mod making;
mod opening;
mod reading;
mod refusal;
mod sweeping;

pub use committing::commit_whole;
pub use copying::extent_of;
pub use image_texts::push_image_refusal;
pub use images::{
    commit_image, create_image, grow_image, read_image, sweep_image, write_image, zero_image,
};
pub use making::create_refusal;
pub use opening::open_image;
pub use refusal::{ImageRefusal, as_command, load_refusal};
