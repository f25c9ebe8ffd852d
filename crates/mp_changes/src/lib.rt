//! A page that is changed in turn, by one primary or by four at a time, for benches: each change is a put through a
//! primary's desk, after which the primary lets all pages go.
#![tactic(auto)]

mod change_runs;
mod changes;
mod laws;
mod stops;

pub use change_runs::{Changed, Rivals, changes_alone, changes_together};
pub use changes::{Turns, change_in_turn};
pub use laws::{law_changes_examples, law_outcomes_examples};
pub use stops::Stop;
