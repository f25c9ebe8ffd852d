//! A page as the parts and the events of a run keep it.

use crate::children::Child;
use crate::kinds::Kind;
use crate::rows::Row;
use std::collections::LinkedList;
use std::marker::Model;

/// A page as data, seen as its view: its kind, its LLSN (below 2^62), its fences (0 to 2^32), and its rows, children or
/// bits. No value of it is made.
pub struct PageData {
    kind: Kind,
    llsn: u64,
    low: u64,
    high: u64,
    rows: LinkedList<Row>,
    children: LinkedList<Child>,
    bits: LinkedList<u8>,
}

impl Model for PageData {
    ghost use Rattle.mp_cells.specs.PageView.{PageView};

    ghost Value = { PageView };

    ghost view = { λ d. record { kind = d.kind; llsn = d.llsn; low = d.low; high = d.high; rows = d.rows; children = d.children; bits = d.bits } };
}
