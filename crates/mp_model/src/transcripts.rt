//! What a whole script is answered.

use crate::list::Items;
use crate::replies::Answers;

/// How a script was run: all primaries on one thread by a fixed schedule, or each on a thread of its own.
#[derive(Clone, Copy, Debug, PartialEq, Eq)]
pub enum Mode {
    Step,
    Run,
}

/// The answers of one primary in their order, or in mode Step those of all, under primary 0.
#[derive(Debug, PartialEq, Drop)]
pub struct Part {
    pub primary: u8,
    pub answers: Answers,
}

/// A list of parts.
pub type Parts = Items<Part>;

/// A primary that went down, and the primary whose log failed.
#[derive(Clone, Copy, Debug, PartialEq, Eq)]
pub struct Down {
    pub primary: u8,
    pub by: u8,
}

/// A list of primaries that went down.
pub type Downs = Items<Down>;

/// All that a run printed: the mode, the timestamp at which it began, the answers, the primaries that went down, and
/// the count of commits, those of unknown end included.
#[derive(Debug, PartialEq, Drop)]
pub struct Transcript {
    pub mode: Mode,
    pub base: u64,
    pub parts: Parts,
    pub downs: Downs,
    pub commits: u64,
}
