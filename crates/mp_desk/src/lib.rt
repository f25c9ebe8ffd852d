//! What a primary does for its statements, at its desk over the shared pages: it reads, plans writes and makes them, puts
//! rows back, commits, forces its log, and lets all pages go. Only `Desk::new` takes memory, and no call waits.
#![tactic(auto)]

mod desk;
mod desk_examples;
mod ending;
mod ending_examples;
mod ending_turn;
mod halts;
mod laws;
mod making;
mod making_examples;
mod media;
mod pager;
mod planning;
mod reading;
mod reading_examples;
mod rolling;
mod writing;
mod writing_examples;

pub use desk::Desk;
pub use desk_examples::{law_at_desk_examples, law_finding_examples, law_planning_examples};
pub use ending_examples::{law_commit_examples, law_held_media_examples, law_rolling_examples};
pub use halts::{BackHalt, CommitHalt, ReadHalt, WriteHalt};
pub use laws::law_desk_examples;
pub use making_examples::{law_letting_go_examples, law_making_examples};
pub use media::{MTR_ROOM, Media};
pub use reading_examples::{law_finding_rows_examples, law_reading_examples};
pub use writing_examples::{law_former_examples, law_writing_examples};
