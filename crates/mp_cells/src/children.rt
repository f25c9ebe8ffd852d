//! Children, as inner pages keep them.

use crate::in_place::Keyed;

/// A child of an inner page: the least key that it may hold, and its page (2 to 4,095).
#[derive(Clone, Copy, Debug, PartialEq, Eq)]
pub struct Child {
    pub low: u32,
    pub page: u16,
}

impl Child {
    /// What lies behind the last child of a page.
    pub(crate) const NONE: Child = Child { low: 0, page: 0 };
}

impl Keyed for Child {
    ghost key_of = { λ child. child.low };

    fn key(&self) -> u32 {
        self.low
    }
}
