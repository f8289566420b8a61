//! Sealing: the canonical file of a frozen top, made piece by piece.
#![tactic(auto)]

mod beginning;
mod gathering;
mod laying;
mod parts;
mod sealing;
mod source;

pub use sealing::Sealing;
