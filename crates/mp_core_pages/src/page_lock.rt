//! How a node holds a page's lock.

/// How a node holds a page's lock: not at all, shared with other readers, or alone.
#[derive(Clone, Copy, Debug, PartialEq, Eq)]
pub enum Held {
    No,
    Read,
    Write,
}
