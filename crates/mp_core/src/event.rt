//! The steps.

use mp_cells::{Mtr, PageData};
use mp_core_pages::PagesEvent;
use mp_core_trx::TrxEvent;

/// A step of one node on one word, by the component whose word it is. No value of it is made.
pub enum CoreEvent {
    Trx(TrxEvent),
    Pages(PagesEvent<PageData, Mtr>),
    Down(DownEvent),
}

/// A step on the words that tell which primaries are down. No value of it is made.
pub enum DownEvent {
    /// A primary stores, in its own word, the number with which it goes down: its own, or one that it loaded.
    StoreDown(u8, u8),
    /// A primary loads the word of another.
    LoadDown(u8, u8),
}
