//! Why a primary stops before its last turn is over.

use mp_desk::WriteHalt;

/// Why a primary stops before its last turn is over.
#[derive(Clone, Copy)]
pub enum Stop {
    /// Its log couldn't be opened or has mtrs, or there was no memory for the log or the desk.
    Unopened,
    /// A put was refused, or behind it the pages weren't let go since the log's disk failed. A page that couldn't be had stops
    /// it where that went so for 100,000,001 tries.
    Refused(WriteHalt),
}
