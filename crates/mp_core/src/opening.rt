//! What a run begins from.

use mp_cells::PageData;
use mp_core_trx::TrxOpening;
use std::collections::LinkedList;

/// What all components of a run begin from. No value of it is made.
pub struct CoreOpening {
    pub trx: TrxOpening,
    /// The pages of the store by number, all 4,096.
    pub pages: LinkedList<PageData>,
}
