//! What the plain commands do with the disks of a store and its logs. It hides in which order the files are read, and
//! how their texts are put together.
#![tactic(auto)]

mod dumping;
mod examples;
mod faults;
mod lines;
mod log_printing;
mod making;
mod refusals;

pub use dumping::dump;
pub use examples::law_blamed_disks;
pub use faults::DiskFault;
pub use log_printing::print_logs;
pub use making::init;
pub use refusals::LogsRefusal;
