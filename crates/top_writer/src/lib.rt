//! The writable top of a layered image: three files of a disk that take what is written. A crash at
//! any moment leaves files of which all is loaded that stood before the last flush.
#![tactic(auto)]

mod fault;
mod flushing;
mod laws;
mod layout;
mod load_checks;
mod load_fault;
mod load_rows;
mod loading;
mod making;
mod reading;
mod stretch;
mod top;
mod waiting;
mod writing;

pub use fault::{ReadFault, TopFault, TopMakeFault, TopReason, WriteFault};
pub use laws::{call_laws, top_laws};
pub use load_checks::is_size;
pub use top::Top;
