//! Histories: lists of mini-transactions, the last made first. What they leave of the pages and of the versions of each
//! key, as definitions and laws over lists for the cores, the reads and the recovery.
#![tactic(auto)]

mod chains;
mod cuts;
mod examples;
mod versions;

pub use chains::{
    law_chains, law_chains_stay, law_contents, law_first_former, law_mtr_on_key, law_noted,
    law_step,
};
pub use cuts::{law_closed, law_cut_state, law_cuts, law_order};
pub use examples::{law_history_examples, law_version_examples};
pub use versions::{law_kept, law_live, law_live_order, law_own_part, law_own_top, law_read};
