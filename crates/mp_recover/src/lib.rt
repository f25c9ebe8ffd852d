//! Recovery: what the logs of a crash leave is merged, redone over the stored pages, rolled back where it wasn't
//! committed, and saved.
#![tactic(auto)]

mod checkpoints;
mod commits;
mod examples;
mod found;
mod freeing;
mod lanes;
mod laws;
mod loading;
mod merge;
mod merging;
mod reading;
mod recovering;
mod redoing;
mod redoing_logs;
mod refusals;
mod rows;
mod settling;
mod versions;

pub use checkpoints::checkpoint;
pub use commits::{CommitId, Ids};
pub use examples::{
    law_clean_is_sound, law_image_examples, law_kept_closed_examples, law_kept_examples,
    law_order_examples, law_settled_examples, law_standing_examples,
};
pub use found::Found;
pub use laws::{law_merge, law_redo, law_rolled_back, law_sound_redone};
pub use loading::Loaded;
pub use merge::{Beside, Fronts, Merge};
pub use reading::read_logs;
pub use recovering::{Recovered, recover};
pub use redoing::redo;
pub use redoing_logs::redo_logs;
pub use refusals::RecoverRefusal;
pub use settling::roll_back_losers;
