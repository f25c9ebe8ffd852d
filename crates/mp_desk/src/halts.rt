//! Why a statement stops before it has its reply.

use mp_model::{NotYet, TrxId};

/// Why a read stops.
#[derive(Clone, Copy, Debug, PartialEq, Eq)]
pub enum ReadHalt {
    /// A page couldn't be had.
    Word(NotYet),
    /// The commit of this transaction, which wrote a version on the way, has begun.
    Prep(TrxId),
}

/// Why a write stops.
#[derive(Clone, Copy, Debug, PartialEq, Eq)]
pub enum WriteHalt {
    /// A page couldn't be had.
    Word(NotYet),
    /// This transaction, which isn't older, holds the key.
    Writer(TrxId),
    /// A transaction committed the key at this timestamp, above the view.
    Conflict(TrxId, u64),
    /// This older transaction holds the key.
    Held(TrxId),
    /// The store has too few pages left.
    Full,
    /// The log's disk failed.
    Failed,
}

/// Why putting rows back stops.
#[derive(Clone, Copy, Debug, PartialEq, Eq)]
pub enum BackHalt {
    /// A page couldn't be had.
    Word(NotYet),
    /// The log's disk failed.
    Failed,
}

/// Why a commit stops.
#[derive(Clone, Copy, Debug, PartialEq, Eq)]
pub enum CommitHalt {
    /// The log's disk failed before the commit began.
    Failed,
    /// The log's disk failed behind the commit record, which may be on it. The timestamp that was drawn.
    Unknown(u64),
}
