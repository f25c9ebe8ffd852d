//! Rows, as leaf pages and undo pages keep them.

use crate::in_place::Keyed;
use mp_model::{TrxId, Value};

/// Where an undo record lies: its page (2 to 4,095) and its place in that page (0 to 14).
#[derive(Clone, Copy, Debug, PartialEq, Eq)]
pub struct Link {
    pub page: u16,
    pub index: u8,
}

/// A version of a key's row: its value, or none where the row is gone, and, where a transaction wrote it, the writer and
/// the link to the version before.
#[derive(Clone, Copy, Debug, PartialEq, Eq)]
pub struct Row {
    pub key: u32,
    pub value: Option<Value>,
    pub writer: Option<TrxId>,
    pub link: Option<Link>,
}

impl Row {
    /// What lies behind the last row of a page.
    pub(crate) const NONE: Row = Row {
        key: 0,
        value: None,
        writer: None,
        link: None,
    };
}

impl Keyed for Row {
    ghost key_of = { λ row. row.key };

    fn key(&self) -> u32 {
        self.key
    }
}
