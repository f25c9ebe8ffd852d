//! What a run begins from.

/// How many transaction slots a primary has.
pub const SLOTS: u16 = 5_032;

/// What the store had reached as the run began. Everything that the run draws or numbers lies above it.
#[derive(Clone, Copy, Debug, PartialEq, Eq)]
pub struct Base {
    /// The greatest timestamp of a commit (below 2^38).
    pub ts: u64,
    /// The greatest LLSN of a page (below 2^62).
    pub llsn: u64,
    /// The greatest version of a writer's id (below 2^24).
    pub version: u32,
}

/// What the transactions of a run begin from. Each node's part carries it, and no step changes it.
#[derive(Clone, Copy, Debug, PartialEq, Eq)]
pub struct TrxOpening {
    pub base: Base,
    /// The nodes are 1 to this number.
    pub primaries: u8,
    /// At most so many transactions are begun; their versions follow on the base version.
    pub begins: u32,
}
