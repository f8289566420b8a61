//! One index of the layers of an image: which of them has each sector uppermost, and where in its
//! file.
#![tactic(auto)]

mod index;
mod laws;
mod paint;
mod piece;
mod search;
mod segment;
mod segments;

pub use index::{MergedIndex, merge};
pub use laws::index_laws;
pub use piece::{Piece, PieceWhat};
