//! The steps.

use mp_model::TrxId;

/// A step of the node that it names first, on one word. No value of it is made.
pub enum TrxEvent {
    /// Loads the timestamp oracle.
    LoadTso(u8),
    /// Begins a transaction: its slot shows ACTIVE.
    StoreActive(u8, TrxId),
    /// Begins its commit: its slot shows PREP.
    StorePrep(u8, TrxId),
    /// Draws a timestamp for it.
    DrawTso(u8, TrxId),
    /// Ends it: its slot shows COMMITTED with the timestamp, or FREE.
    StoreEnd(u8, TrxId, Option<u64>),
    /// Loads the word of a slot: whose, and which.
    LoadTit(u8, u8, u16),
}
