//! Whether the pages of a store are clean: a tree without undo pages and writers, where no LLSN is above the base. The
//! test takes no memory and goes over the pages by their numbers.
#![tactic(auto)]

mod clean;
mod examples;
mod fences;
mod kinds;
mod places;
mod reading;
#[cfg(test)]
mod tests;

pub use clean::is_clean;
pub use examples::{law_clean_page_examples, law_fences_examples, law_places_examples};
