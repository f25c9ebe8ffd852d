//! What a run begins from, and the mtr that shows LLSNs alone.

use std::collections::LinkedList;

/// How many pages there are. They are numbered from 0.
pub const PAGES: u16 = 4_096;
/// How many mtrs a node makes at most.
pub const MOST_MTRS: u32 = 30_000;

/// What the pages of a run begin from. No value of it is made.
pub struct PagesOpening<P> {
    /// The greatest LLSN that the store had reached. Every mtr's LLSN lies above it.
    pub base: u64,
    /// The nodes are 1 to this number.
    pub primaries: u8,
    /// The pages by number.
    pub pages: LinkedList<P>,
}

/// One record of an mtr on a page: the page's number, and the LLSN that the page had before the record.
pub struct Touch {
    pub page: u16,
    pub prev: u64,
}

/// An mtr by its LLSNs alone, over pages that are LLSNs alone. No value of it is made.
pub struct Brief {
    /// The node that made it.
    pub node: u8,
    pub llsn: u64,
    /// Its records in order.
    pub touched: LinkedList<Touch>,
}
