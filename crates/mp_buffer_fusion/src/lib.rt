//! Buffer Fusion: the pages that a primary has in memory. A page comes into a buffer from its frame in the shared table,
//! is changed there, and is put back into its frame. No call but `new` takes memory, and none waits.
#![tactic(auto)]

mod buffer;
mod changing;
mod fetching;
mod laws;
mod pool;
mod visits;

pub use laws::{law_pool_examples, law_recorded};
pub use mp_page::{Change, NotApplicable};
pub use mp_steps::{Blank, Ledger, Steps};
pub use pool::{BUFFERS, Pool};
