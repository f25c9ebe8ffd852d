//! The store: a file of 4,096 pages and a header, each with two sides, of which one is in force while the other is
//! written. It hides which side is written, and the order of the device's calls.
#![tactic(auto)]

mod checking;
mod checks;
mod examples;
mod fresh;
mod header_sides;
mod headers;
mod later;
mod opening;
mod page_sides;
mod passes;
mod reading;
mod refusals;
mod sides;
mod store;
mod updates;
mod writing;

pub use examples::{law_clean_stores, law_no_later, law_store_examples};
pub use fresh::init;
pub use headers::Header;
pub use refusals::StoreRefusal;
pub use store::{Store, Unopened};
