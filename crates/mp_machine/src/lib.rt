//! A table that threads share, under the rule of an abstract machine: what stands in it was reached by events, each
//! allowed when it came. A step is one event, and adding a kind of event touches no step that stands.
#![tactic(auto)]

mod plays;
mod ruled_table;
mod steps;
mod system;

pub use ruled_table::{RuledTable, Seat, View};
pub use system::{NamesEvent, Share, System};
