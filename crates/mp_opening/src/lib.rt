//! Opening nine disks for a run: the store is read and must be clean, the logs are opened and hold nothing above it, and no
//! number of the run goes past its format.
#![tactic(auto)]

mod checks;
mod contents;
mod examples;
mod logs;
mod opening;
mod refusals;

pub use examples::{
    law_above_examples, law_check_examples, law_handed_examples, law_may_begin, law_spent_examples,
    law_step_examples,
};
pub use opening::{Opened, open_nine, put_back};
pub use refusals::{ClusterRefusal, SpentNumber};
