//! What is wrong with bytes that aren't a page.

/// What the first fault of a page's bytes is about.
#[derive(Clone, Copy, Debug, PartialEq, Eq)]
pub enum Fault {
    /// The kind or the format of the page isn't known.
    Kind,
    /// The count isn't one that pages of the kind have.
    Count,
    /// A cell isn't of its grammar.
    Cell,
    /// A cell's key isn't above the key before it.
    Order,
    /// The LLSN or the fences are out of range, or a cell's key is outside the fences.
    Fence,
    /// A byte that must be zero isn't.
    Padding,
}

/// The first fault of a page's bytes, and the place from 0 of the byte or cell that has it.
#[derive(Clone, Copy, Debug, PartialEq, Eq)]
pub struct PageFault {
    pub fault: Fault,
    pub offset: u32,
}
