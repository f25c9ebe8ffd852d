//! Why a statement isn't answered yet.

use crate::ids::TrxName;

/// What kind of shared word another primary holds.
#[derive(Clone, Copy, Debug, PartialEq, Eq)]
pub enum WordKind {
    /// The lock of a page.
    Lock,
    /// The turn of a page's frame.
    Frame,
    /// The least view of a primary.
    Least,
}

/// A call couldn't be done now: the word that it read, where it stands, and what it showed. `at` is the page for
/// `Lock` and `Frame`, and the number of the word's owner for `Least`.
#[derive(Clone, Copy, Debug, PartialEq, Eq)]
pub struct NotYet {
    pub of: WordKind,
    pub at: u32,
    pub seen: u64,
}

/// What a statement waits for: a shared word, the writer of a row, or a writer whose commit has begun.
#[derive(Clone, Copy, Debug, PartialEq, Eq)]
pub enum Cause {
    Word(NotYet),
    Writer(TrxName),
    Prep(TrxName),
}

/// What one try of a primary came to.
#[derive(Clone, Copy, Debug, PartialEq, Eq)]
pub enum Turn {
    /// A statement was answered, or an unprinted rollback ended.
    Answered,
    /// The statement waits for this.
    Waiting(Cause),
    /// Nothing is left to do.
    Done,
    /// The primary is down, with this number.
    Stopped(u8),
}
