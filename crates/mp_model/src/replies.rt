//! What a statement is answered.

use crate::ids::{Names, TrxName};
use crate::key_value::Rows;
use crate::list::Items;
use crate::values::Value;

/// Which statement writes: `put`, `del` or `copy`.
#[derive(Clone, Copy, Debug, PartialEq, Eq)]
pub enum WriteVerb {
    Put,
    Del,
    Copy,
}

/// The answer to one statement, as `docs/language.md` describes it.
#[derive(Debug, PartialEq, Drop)]
pub enum Reply {
    /// `begin`: the view of the transaction.
    Began(u64),
    /// `get`: the value, or that there is no row.
    Got(Option<Value>),
    /// `scan`: the rows.
    Scanned(Rows),
    /// A write was done.
    Wrote(WriteVerb),
    /// `commit`: the timestamp of the commit.
    Committed(u64),
    /// `commit` of a transaction without a write.
    CommittedNone,
    /// `commit`: the timestamp, of which nobody knows whether it will be found after a crash.
    Unknown(u64),
    /// `rollback` was done.
    RolledBack,
    /// A write was refused: a transaction committed the key at this timestamp, above the view.
    Conflict(WriteVerb, u64),
    /// A write was refused: an older transaction holds the row.
    Held(WriteVerb, TrxName),
    /// A write was refused: the store has no page left for it.
    Full(WriteVerb),
    /// The transaction was refused before.
    Skipped,
    /// The primary went down with this number.
    Stopped(u8),
}

/// A reply with the statement that it answers, by session and number, and the transactions that the statement waited
/// for in rows, in order.
#[derive(Debug, PartialEq, Drop)]
pub struct Answer {
    pub session: u8,
    pub index: u32,
    pub reply: Reply,
    pub waits: Names,
}

/// A list of answers.
pub type Answers = Items<Answer>;
