//! A count of steps, at no cost: it has no bytes, and no code raises it. The calls that take one say what a step is.
#![tactic(auto)]

mod steps;

pub use std::sync::ledger::{Blank, Ledger};
pub use steps::Steps;
