//! Large scripts, each made from a number, so that a run can be named by it. It hides how their lists are filled.
#![tactic(auto)]

mod examples;
mod laws;
mod making;
#[cfg(test)]
mod tests;

pub use examples::law_generated_examples;
pub use laws::law_generated;
pub use making::{Form, generate};
