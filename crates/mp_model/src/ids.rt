//! How transactions are named: by their writer's id in pages and logs, and by their `begin` in scripts.

use crate::list::Items;

/// The id that a transaction leaves in the rows that it writes: its primary (1 to 8), the slot that it took in that
/// primary's table of transactions (below 8,192), and a version (1 to 2^24 - 1) that no other transaction of the store
/// has.
#[derive(Clone, Copy, Debug, PartialEq, Eq)]
pub struct TrxId {
    pub node: u8,
    pub slot: u16,
    pub version: u32,
}

/// A transaction of a script, named by its session (1 to 64) and the number, from 1, of its `begin` among that
/// session's statements.
#[derive(Clone, Copy, Debug, PartialEq, Eq)]
pub struct TrxName {
    pub session: u8,
    pub first: u32,
}

/// A list of transactions.
pub type Names = Items<TrxName>;
