//! The smallest machine over a shared table, to read before one writes another: nodes draw numbers from a counter, and a
//! lock guards a slot.
#![tactic(auto)]

mod desk;
mod system;
mod two;

pub use desk::Desk;
pub use system::{Event, Office, Worker};
pub use two::drawn_by_two;

#[cfg(test)]
mod tests;
