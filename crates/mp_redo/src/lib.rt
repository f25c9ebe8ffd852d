//! The bytes of mini-transactions in a log: how an mtr is written, and read back.
#![tactic(auto)]

mod field_reading;
mod kinds;
mod laws;
mod reading;
mod writing;

pub use laws::{law_mtr_size, law_mtr_spelling, law_small_mtr};
pub use reading::{RedoRefusal, decode};
pub use writing::{encode, size};
