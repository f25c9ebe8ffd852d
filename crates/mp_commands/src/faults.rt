//! Which disk failed.

/// Which of the nine disks failed.
#[derive(Clone, Copy, Debug, PartialEq, Eq)]
pub enum DiskFault {
    /// That of the store.
    Store,
    /// That of a primary's log: its number, 1 to 8.
    Log { primary: u8 },
}
