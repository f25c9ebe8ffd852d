//! The pure core of pages: what a node knows of page locks, frames and its log, which steps there are, when each may
//! come, and the invariant that every list of allowed steps keeps.
//!
//! It is generic in what a page `P` and a mini-transaction (mtr) `M` are: it asks only for their LLSNs, for the pages
//! that an mtr touches, and for what becomes of a page by one.
#![tactic(auto)]

mod event;
mod laws;
mod lock_words;
mod opening;
mod page_lock;
mod part;

pub use event::PagesEvent;
pub use laws::{law_pages_examples, law_pages_grow, law_pages_inv, law_pages_worked};
pub use lock_words::{exclusive, has_other, has_other_writer, held_by, release_mask, shared_with};
pub use opening::{Brief, MOST_MTRS, PAGES, PagesOpening, Touch};
pub use page_lock::Held;
pub use part::{ContentStep, FrameRow, GaveRow, GivenPage, LockRow, PagesPart, Placed};
