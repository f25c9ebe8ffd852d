//! The kinds of pages.

/// What a page is for. The number of a kind, from 0, is the first byte of its pages.
#[derive(Clone, Copy, Debug, PartialEq, Eq)]
pub enum Kind {
    /// Not in use.
    Blank,
    /// The bits that say which pages are in use.
    Meta,
    /// Rows, at the bottom of the tree.
    Leaf,
    /// Children, above the leaves of the tree.
    Inner,
    /// Former versions of rows.
    Undo,
}
