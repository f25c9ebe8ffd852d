//! From supported answers to a legal transcript, as laws: what a read that its primary's part supports shows, in what order
//! transactions wrote a key, and that the answers of a run that has come to its end are a legal transcript.
#![tactic(auto)]

mod examples;
mod laws;
mod legal;
mod numbers;
mod told;
mod values;

pub use examples::law_order_examples;
pub use laws::{law_covers, law_read};
pub use legal::{law_run_legal, law_step_legal};
pub use numbers::{law_numbered, law_run_rules, law_step_rules};
pub use told::{
    law_downs_right, law_first_wins, law_reads_right, law_replies_right, law_run_conflicts,
    law_step_conflicts, law_tells, law_waits_right,
};
pub use values::{law_scans, law_seen};
