//! The frames at the end of a run.
ghost use Rattle.std.specs.Prelude.{◌≡◌, ◌<◌, Some, slice_get};
ghost use Rattle.mp_core_pages.specs.declared.opening.TheConstants.{PAGES};

use atomic_table::Closed;
use mp_page::Page;
use std::alloc::Global;
use std::marker::Model;

/// The frames of all pages, as a table gave them back. Contracts see the pages in them, by number.
pub struct Frames {
    pub(crate) closed: Closed<Page, Global>,
}

impl Model for Frames {
    ghost use Rattle.std.specs.Prelude.{◌≡◌, List};
    ghost use Rattle.std.specs.Mem.Slots.{slots_items, slots_len, IsFull};
    ghost use Rattle.mp_core_pages.specs.declared.opening.TheConstants.{PAGES};
    ghost use Rattle.mp_cells.specs.PageView.{PageView};

    ghost Value = { List PageView };

    ghost view = { λ f. slots_items f.closed.slots };

    ghost invariant = { λ f. (slots_len f.closed.slots ≡ PAGES) × IsFull f.closed.slots };
}

impl Frames {
    /// The page in the frame with this number, below 4,096.
    pub fn get(&self, number: usize) -> &Page
        requires { number < PAGES }
        ensures { slice_get self.now number ≡ Some result.now }
    {
        self.closed.slots.get(number)
    }
}

impl Drop for Frames {
    fn drop(self) {
        let Frames { mut closed } = self;
        for i in 0..closed.slot_count() {
            let _page = closed.take(i);
        }
        closed.free();
    }
}
