//! How a run of several primaries begins, over nine disks that were opened, and how its answers and its disks are got out.
#![tactic(auto)]

mod begins;
mod downs;
mod examples;
mod lining_up;
mod making;
mod merging;
mod putting_back;
mod stopping;

pub use begins::count_begins;
pub use downs::list_downs;
pub use examples::{law_lining_up_examples, law_listed_examples, law_small_run_examples};
pub use lining_up::line_up;
pub use merging::merge;
pub use stopping::stop;
