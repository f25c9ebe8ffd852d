//! The joint core: what all nodes know and do together, as one abstract machine over the words of the shared table. Its
//! components stand side by side: the transactions and the pages are crates of their own, and which primaries are down
//! stands here, with what the conditions of one component ask of another.
#![tactic(auto)]

mod event;
mod laws;
mod opening;
mod part;
mod words;

pub use event::{CoreEvent, DownEvent};
pub use laws::{law_core_examples, law_inv};
pub use opening::CoreOpening;
pub use part::{CorePart, DownLoad, DownPart};
pub use words::{
    DOWN_WORDS, DURABLE_WORDS, FLAG_WORDS, LEAST_WORDS, LLSN_WORDS, LOCK_WORDS, REQUEST_WORDS,
    SLOT_WORDS, TSO_WORD, TURN_WORDS, WORDS,
};
