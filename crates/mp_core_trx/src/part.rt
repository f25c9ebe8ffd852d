//! What one node knows and has done. Each list has its newest item first, and only grows.

use crate::opening::TrxOpening;
use crate::slot::Shown;
use mp_model::TrxId;
use std::collections::LinkedList;

/// A transaction that was begun, and its view: it sees the commits with timestamps up to that.
#[derive(Clone, Copy, Debug, PartialEq, Eq)]
pub struct Begun {
    pub id: TrxId,
    pub view: u64,
}

/// What a node stored in one of its slots. No value of it is made.
pub struct SlotRow {
    pub slot: u16,
    pub shown: Shown,
}

/// A timestamp that a transaction drew. No value of it is made.
pub struct Draw {
    pub id: TrxId,
    pub cts: u64,
}

/// A slot's word that a node loaded. No value of it is made.
pub struct SlotLoad {
    /// The node whose slot it is.
    pub of: u8,
    pub slot: u16,
    pub word: u64,
    /// The greatest timestamp that the loading node knew then.
    pub after: u64,
}

/// The part of a node. No value of it is made.
pub struct TrxPart {
    pub opening: TrxOpening,
    pub begun: LinkedList<Begun>,
    pub rows: LinkedList<SlotRow>,
    pub drew: LinkedList<Draw>,
    /// The values of the timestamp oracle that it loaded, and the timestamps that it drew.
    pub seen: LinkedList<u64>,
    pub loaded: LinkedList<SlotLoad>,
}
