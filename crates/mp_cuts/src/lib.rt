//! What a crash leaves of a run: valid cuts of what its nodes made, and what recovery finds in them.
#![tactic(auto)]

mod examples;
mod laws;

pub use examples::{law_cut_examples, law_left_examples};
pub use laws::{
    law_acknowledged_kept, law_cut_commits, law_cuts, law_kept_closed, law_kept_image,
    law_left_behind,
};
