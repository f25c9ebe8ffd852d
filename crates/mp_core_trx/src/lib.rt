//! The pure core of transactions: what a node knows of the timestamp oracle and of the transaction slots, which steps
//! there are, when each may come, and the invariant that every list of allowed steps keeps.
#![tactic(auto)]

mod event;
mod laws;
mod opening;
mod part;
mod slot;

pub use event::TrxEvent;
pub use laws::{law_trx_examples, law_trx_inv};
pub use opening::{Base, SLOTS, TrxOpening};
pub use part::{Begun, Draw, SlotLoad, SlotRow, TrxPart};
pub use slot::{Shown, SlotTag};
