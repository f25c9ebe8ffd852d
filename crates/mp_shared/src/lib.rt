//! The table that all nodes share, and their steps on it. Each step call is one event of the joint machine, whatever
//! other threads do meanwhile. `docs/architecture.md` has how it works, `docs/promises.md` what it promises.
#![tactic(auto)]

mod down_steps;
mod frame_steps;
mod frames;
mod held_locks;
mod laws;
mod lock_steps;
mod lock_table;
mod log_steps;
mod node;
mod opening;
mod shared;
mod slot_counts;
mod system;
mod trx_steps;

pub use frames::Frames;
pub use laws::{law_downs_examples, law_holds_examples, law_keeps_examples};
pub use mp_core_pages::Held;
pub use mp_core_trx::Base;
pub use node::Node;
pub use shared::Shared;
