//! Where the threads of a run may be held before a statement.
#![tactic(auto)]

mod gates;

pub use gates::{Gate, MEETING_TURNS, MeetGate, OpenGate};

#[cfg(test)]
mod tests;
