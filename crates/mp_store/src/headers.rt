//! What a store's header says.

/// The header of a store.
#[derive(Clone, Copy, Debug, PartialEq, Eq)]
pub struct Header {
    /// How often the store was changed as a whole, from 1 on. Pages of a later generation don't count yet.
    pub generation: u64,
    /// The greatest timestamp of a commit that the pages hold, below 2^38.
    pub base: u64,
    /// The greatest LLSN that the pages hold, below 2^62.
    pub llsn: u64,
    /// The greatest version of a transaction slot before it, below 2^24.
    pub version: u32,
}
