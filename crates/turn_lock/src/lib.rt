//! A lock whose value stands for one history of acts. The history is not stored: it stands in
//! contracts alone, and each seat of the lock knows a beginning of it.
#![tactic(auto)]

mod desk;
mod kinds;
mod rule;
mod said;
mod seat;
mod turn;
mod worn;

pub use said::{Property, Said};
pub use seat::{Held, Seat, SeatList};
pub use turn::Turn;
pub use worn::Worn;
