//! A page in memory.

use mp_page::Page;

/// A page in memory, by its number.
#[derive(Clone, Copy, Debug)]
pub(crate) struct Buffer {
    pub(crate) number: u16,
    pub(crate) page: Page,
    /// The page stays while a statement reads it.
    pub(crate) pinned: bool,
    /// All records of the primary on the page are in the page's frame.
    pub(crate) clean: bool,
}
