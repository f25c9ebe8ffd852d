//! A script of several sessions run by several primaries over nine disks.
#![tactic(auto)]

mod examples;
mod laws;
mod run;
mod running;
mod step;
mod transcripts;

pub use examples::{
    law_left_run_examples, law_legal_run_examples, law_lined_up_examples, law_run_examples,
    law_transcript_examples,
};
pub use laws::{law_apart_is_legal, law_apart_leaves, law_run_is_legal, law_run_leaves};
pub use mp_opening::{ClusterRefusal, SpentNumber};
pub use run::run_all;
pub use step::step_all;
