//! The log of one primary: a file of batches of mini-transactions, each behind a gate that is opened once the batch is
//! safe. It hides the gates and the order of the device's calls: a crash leaves whole batches.
#![tactic(auto)]

mod batches;
mod bodies;
mod laws;
mod loaded;
mod log;
mod opening;
mod readers;
mod refusals;
mod resetting;
mod tails;

pub use laws::{law_kept_log, law_log_examples, law_log_mtrs, law_log_read, law_log_text};
pub use log::{Log, Unopened};
pub use readers::Reader;
pub use refusals::LogRefusal;
pub use resetting::{init, reset};
