//! What one node knows and has done. Each list has its newest item first, and only grows.

use crate::page_lock::Held;
use std::collections::LinkedList;

/// The node came to hold a page's lock so. No value of it is made.
pub struct LockRow {
    pub page: u16,
    pub held: Held,
}

/// The node took a page's frame, with the page in it, or gave it back. No value of it is made.
pub struct FrameRow<P> {
    pub page: u16,
    /// `None` where it gave the frame back.
    pub taken: Option<P>,
}

/// The node gave a page's frame back, with a page of this LLSN in it. No value of it is made.
pub struct GaveRow {
    pub page: u16,
    pub llsn: u64,
}

/// What became of the contents that a node has of pages. No value of it is made.
pub enum ContentStep<P, M> {
    /// It has this content of the page with this number.
    Given(u16, P),
    /// It has no content of this page any more.
    Dropped(u16),
    /// It made an mtr, which changes the contents of the pages that it touches.
    Made(M),
}

/// A page as it was given to the node. No value of it is made.
pub struct GivenPage<P> {
    pub number: u16,
    /// The content that the node had of it from then on.
    pub page: P,
    /// The greatest timestamp that the node knew then.
    pub known: u64,
    /// How many mtrs all nodes together had made then.
    pub height: u64,
}

/// An mtr and its place in the history of all mtrs: how many were made before it. No value of it is made.
pub struct Placed<M> {
    pub at: u64,
    pub mtr: M,
}

/// The part of a node. No value of it is made.
pub struct PagesPart<P, M> {
    /// The mtrs that it made.
    pub made: LinkedList<Placed<M>>,
    /// The LLSNs up to which it said that its log is durable.
    pub durables: LinkedList<u64>,
    pub locks: LinkedList<LockRow>,
    pub frames: LinkedList<FrameRow<P>>,
    pub gave: LinkedList<GaveRow>,
    pub contents: LinkedList<ContentStep<P, M>>,
    pub given: LinkedList<GivenPage<P>>,
}
