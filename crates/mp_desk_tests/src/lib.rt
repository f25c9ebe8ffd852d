//! Tests of a primary's desk, by its public calls. They stand in a crate of their own, since each is proved. `mp_changes`
//! begins with the same log.
#![tactic(auto)]

mod handover;

pub use handover::{Seen, first_log, hand_over};

#[cfg(test)]
mod tests;
