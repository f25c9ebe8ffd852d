//! What holds of every world that can be reached, of the transactions and the pages together.
#![tactic(auto)]

mod examples;
mod laws;

pub use examples::{law_facts_examples, law_mtr_kinds_examples};
pub use laws::{law_commits_stand, law_facts};
