//! The line that sums up how a generated script was answered. It hides how answers and keys are counted.
#![tactic(auto)]

mod counting;
mod examples;
mod laws;
mod summing;
#[cfg(test)]
mod tests;

pub use examples::law_summary_examples;
pub use laws::law_one_summary;
pub use summing::summarize;
