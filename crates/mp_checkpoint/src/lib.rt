//! A checkpoint: pages are saved in a store under a new header, and logs are emptied. It hides which pages are written, and
//! in which order the device's calls come.
#![tactic(auto)]

mod comparing;
mod emptying;
mod examples;
mod reading;
mod saving;
mod syncing;

pub use emptying::{LogFailed, reset_logs};
pub use examples::law_saved_examples;
pub use reading::read_pages;
pub use saving::save_pages;
pub use syncing::sync_logs;
