//! Why a recovery, or a part of one, was refused.

/// Why a recovery, or a part of one, was refused.
#[derive(Clone, Copy, Debug, PartialEq, Eq)]
pub enum RecoverRefusal {
    /// The store is off its grammar, first at this place.
    Store { place: u64 },
    /// The disk of the store failed.
    StoreDisk,
    /// The log of this primary (1 to 8) is off its grammar, first at this place.
    Log { primary: u8, place: u64 },
    /// The disk of the log of this primary (1 to 8) failed.
    LogDisk { primary: u8 },
    /// The next record of this page (below 4,096) was made on a page with the LLSN `wanted`, but the page has `found`.
    Gap { page: u16, wanted: u64, found: u64 },
    /// The next record of this page (below 4,096), of an mtr with this LLSN, has a change that can't be applied to it.
    NotApplicable { page: u16, llsn: u64 },
    /// The store is of the last generation, this one, so that its header can't be flipped.
    Spent { base: u64 },
    /// There was no memory.
    Memory,
}
