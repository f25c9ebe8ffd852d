//! Why logs weren't printed.

/// Why logs weren't printed.
#[derive(Clone, Copy, Debug, PartialEq, Eq)]
pub enum LogsRefusal {
    /// The log of this primary (1 to 8) is off the grammar, first at this place.
    Log { primary: u8, place: u64 },
    /// The disk of the log of this primary (1 to 8) failed.
    LogDisk { primary: u8 },
    /// There was no memory.
    Memory,
}
