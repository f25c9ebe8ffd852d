//! What recovery keeps of a run after a crash, as laws: it is closed for the transcript that the run printed.
#![tactic(auto)]

mod laws;

pub use laws::{law_kept_outcome, law_left_outcome};
