//! Runs the members of a run on threads, one for each primary.
#![tactic(auto)]

mod dealing;
mod examples;
mod gathering;
mod on_thread;
mod pace;
mod runner;
mod running;
mod threads;

pub use examples::{law_alone_examples, law_dealing_examples};
pub use runner::Runner;
pub use threads::run_apart;
