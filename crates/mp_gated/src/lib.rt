//! Writing a body to a disk so that a crash leaves it behind an open gate whole, or behind a gate that isn't opened.
//! Logs and stores share it. It hides the order of the device's calls.
#![tactic(auto)]

mod writing;

pub use writing::{write_gated, write_safely};
