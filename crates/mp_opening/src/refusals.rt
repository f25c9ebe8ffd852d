//! Why nine disks aren't opened for a run.

/// A number that a run could bring past its format.
#[derive(Clone, Copy, Debug, PartialEq, Eq)]
pub enum SpentNumber {
    /// The generations of the store's header, up to 2^64 - 1.
    Generations,
    /// The versions of transactions, below 2^24.
    Versions,
    /// The timestamps of commits, below 2^38.
    Timestamps,
    /// The LLSNs of mtrs, below 2^62.
    Llsn,
}

/// Why a run of several primaries wasn't begun, or, as `LogDisk` and `Memory`, ended without a transcript.
#[derive(Clone, Copy, Debug, PartialEq, Eq)]
pub enum ClusterRefusal {
    /// The store is off its grammar, first at this place.
    Store {
        place: u64,
    },
    /// The disk of the store failed.
    StoreDisk,
    /// The log of this primary (1 to 8) is off its grammar, first at this place.
    Log {
        primary: u8,
        place: u64,
    },
    /// The disk of the log of this primary (1 to 8) failed.
    LogDisk {
        primary: u8,
    },
    /// The log of this primary (1 to 8), the first such one, holds mtrs above the base LLSN, of which this is the least:
    /// `recover` comes first.
    NeedsRecover {
        primary: u8,
        llsn: u64,
    },
    /// The stored pages aren't a clean tree.
    NotClean,
    /// The store has reached `base` of such a number, and with `add` more it would be past its format.
    Spent {
        what: SpentNumber,
        base: u64,
        add: u64,
    },
    /// There was no memory.
    Memory,
}
