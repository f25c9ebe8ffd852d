//! Drives the members of a run through a script, on one thread: it takes turns by the schedule until each statement is answered.
#![tactic(auto)]

mod causes;
mod driving;
mod examples;
mod places;
mod turning;

pub use driving::drive;
pub use examples::{law_driving_examples, law_trying_examples};
