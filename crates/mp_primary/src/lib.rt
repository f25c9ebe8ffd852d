//! A primary: it takes turns, in each of which it tries a session's next statement at its desk, answers it or tells why it
//! waits, and begins, commits and rolls back the sessions' transactions.
#![tactic(auto)]

mod answering;
mod beginning;
mod closing;
mod ending;
mod going_back;
mod heeding;
mod heeding_examples;
mod holders;
mod laws;
mod outside;
mod primary;
mod reading;
mod reading_examples;
mod standing;
mod trying;
mod turning;
mod writing;
mod writing_examples;

pub use ending::law_commit_end_examples;
pub use heeding_examples::{law_follow_examples, law_load_examples, law_need_examples};
pub use laws::{
    law_answering_examples, law_outside_examples, law_primary_examples, law_task_examples,
    law_turn_examples, law_work_examples,
};
pub use mp_book::{Refusal, Stage};
pub use outside::{CommitEnd, RollRefusal};
pub use primary::{Ended, Primary, Unmade};
pub use reading_examples::{law_read_end_examples, law_stopping_examples};
pub use standing::{law_added, law_answered, law_standing};
pub use writing_examples::law_holder_examples;
