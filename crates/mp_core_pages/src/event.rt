//! The steps.

/// A step of the node that it names first, on one word. No value of it is made.
pub enum PagesEvent<P, M> {
    /// Takes the lock of a page: where its word is the first number, it becomes the second.
    LockWord(u8, u16, u64, u64),
    /// Lets the lock of a page go.
    UnlockWord(u8, u16),
    /// Takes the frame of a page, where it is at home.
    TakeFrame(u8, u16),
    /// Gives the frame of a page back, with this page in it.
    GiveFrame(u8, u16, P),
    /// Makes an mtr.
    StoreLlsn(u8, M),
    /// Says up to which LLSN the node's log is durable.
    StoreDurable(u8, u64),
}
