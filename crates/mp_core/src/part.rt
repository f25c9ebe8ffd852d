//! What one node knows and has done.

use mp_cells::{Mtr, PageData};
use mp_core_pages::PagesPart;
use mp_core_trx::TrxPart;
use std::collections::LinkedList;

/// The part of a node: one of each component. No value of it is made.
pub struct CorePart {
    pub trx: TrxPart,
    pub pages: PagesPart<PageData, Mtr>,
    pub downs: DownPart,
    /// How many operations on words it has made.
    pub ops: u64,
}

/// What a node knows of primaries that are down. No value of it is made.
pub struct DownPart {
    /// The number that its own word holds: that with which it is down, or 0.
    pub own: u8,
    /// The numbers other than 0 that it loaded, the newest first.
    pub loaded: LinkedList<DownLoad>,
}

/// A number other than 0 that a node loaded from the word of a primary that is down. No value of it is made.
pub struct DownLoad {
    /// The primary whose word it is.
    pub of: u8,
    pub by: u8,
}
