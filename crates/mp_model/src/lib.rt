//! The words that every layer of the engine shares: keys, values, names of transactions, replies, transcripts and
//! histories of commits, with the lists of them. It hides how a list and a value are kept.
#![tactic(auto)]

mod errors;
mod histories;
mod ids;
mod key_value;
mod list;
mod replies;
mod transcripts;
mod values;
mod waiting;

pub use errors::Memory;
pub use histories::{Commit, Commits, History, Opening, put_writes, rows_at};
pub use ids::{Names, TrxId, TrxName};
pub use key_value::{KeyValue, KeyWrite, Rows, Writes, find_value, place_of, put_write};
pub use list::{Items, Text};
pub use replies::{Answer, Answers, Reply, WriteVerb};
pub use transcripts::{Down, Downs, Mode, Part, Parts, Transcript};
pub use values::Value;
pub use waiting::{Cause, NotYet, Turn, WordKind};
