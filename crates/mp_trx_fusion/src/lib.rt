//! Transaction Fusion: timestamps and the slots of transactions, over the shared table. A primary begins, prepares, draws,
//! publishes and frees its transactions, and reads where those of others stand. No call takes memory or waits.
//! `docs/promises.md` has the invariant that callers rely on.
#![tactic(auto)]

mod commit;
mod sight;
mod slot_status;

pub use commit::{draw, free, prepare, publish};
pub use mp_core_trx::Begun;
pub use mp_model::NotYet;
pub use sight::{begin, view};
pub use slot_status::{SlotStatus, status};

#[cfg(test)]
mod tests;
