//! In which order the statements of several sessions are tried on one thread.
#![tactic(auto)]

mod examples;
mod laws;
mod schedule;

pub use examples::{law_primary_tries_examples, law_schedule_examples, law_tries_examples};
pub use laws::{law_schedule_counts, law_schedule_sessions};
pub use schedule::{Next, Schedule, Try, TryState};
