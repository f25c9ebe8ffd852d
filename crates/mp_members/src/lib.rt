//! The members of a run: primaries that share a table and a node, on one thread.
#![tactic(auto)]

mod examples;
mod laws;
mod members;

pub use examples::{law_down_examples, law_member_examples, law_running_examples};
pub use laws::law_downs;
pub use members::Members;
