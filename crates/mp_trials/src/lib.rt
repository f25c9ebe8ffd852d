//! Trials of the calls over the shared table, which tests and benches run.
#![tactic(auto)]

mod commits;
mod laws;
mod tables;
mod turn_runs;
mod turns;

pub use commits::{Together, commit_alone, commit_together};
pub use laws::law_turns_examples;
pub use tables::open_and_close;
pub use turn_runs::{turns_alone, turns_together};

#[cfg(test)]
mod tests;
