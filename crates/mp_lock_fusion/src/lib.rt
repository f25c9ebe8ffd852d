//! Lock Fusion: the locks of pages, over the shared table. A primary comes to read or to write a page, and lets it go.
//! No call takes memory or waits. `docs/promises.md` has the invariant that callers rely on.
#![tactic(auto)]

mod laws;
mod page_locks;

pub use laws::law_lock_calls_examples;
pub use mp_model::NotYet;
pub use mp_shared::Held;
pub use mp_steps::Steps;
pub use page_locks::{lock_exclusive, lock_shared, release};
