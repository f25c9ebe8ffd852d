//! Why an answer is right, by what its primary's part has, and what a primary keeps of its answers.
#![tactic(auto)]

mod examples;
mod laws;

pub use examples::{
    law_agreement_examples, law_entries_examples, law_media_examples, law_steps_examples,
    law_supports_begin_examples, law_supports_commit_examples, law_supports_end_examples,
    law_supports_get_examples, law_supports_put_examples, law_supports_refusal_examples,
    law_supports_scan_examples, law_supports_wait_examples,
};
pub use laws::{
    law_bounds_go_on, law_extends, law_kept, law_sessions_go_on, law_steps_keep,
    law_steps_keep_media, law_steps_leave, law_supports_more,
};
