//! The list of all pages.

ghost use Rattle.std.specs.Prelude.{◌≡◌, ◌+◌, ◌<◌, ◌≤◌, [], ◌∷◌, ◌++◌, length, slice_get, slice_set, Some, IfOk, IsOk, IsSome, OnOk, OnErr, ◌↔◌};
ghost use Rattle.std.specs.Borrow.{sem};
ghost use Rattle.std.specs.Option.{option_to_list};
ghost use Rattle.mp_page.specs.FreshPages.{AreFreshPages};
ghost use Rattle.mp_page.specs.LendingPages.{LendsPage};

use crate::fresh::{blank_pages, fresh_meta_page, fresh_root_page};
use crate::page::Page;
use mp_model::Memory;
use std::alloc::Global;
use std::marker::Model;

/// A list of pages in the order of their numbers. Contracts see its `items`, and `spare`: while that is above 0, a push
/// takes no memory.
#[derive(Debug, Drop)]
pub struct Pages {
    items: Vec<Page>,
}

impl Model for Pages {
    ghost use Rattle.std.specs.Prelude.{◌-◌, vec_len, vec_capacity};
    ghost use Rattle.mp_model.specs.Listed.{Listed};
    ghost use Rattle.mp_cells.specs.PageView.{PageView};

    ghost Value = { Listed PageView };

    ghost view = { λ l. record { items = l.items.items; spare = vec_capacity l.items - vec_len l.items } };
}

impl Pages {
    /// The empty list. It takes no memory.
    pub fn new(alloc: Global) -> Pages
        ensures { result.items ≡ [] }
    {
        Pages {
            items: Vec::new(alloc),
        }
    }

    /// All 4,096 pages of a fresh store, with LLSN 0: page 0 says that pages 0 and 1 are taken, page 1 is an empty root, and
    /// the others are blank.
    pub fn fresh(alloc: Global) -> Result<Pages, Memory>
        ensures { IfOk result (λ pages. AreFreshPages pages.items) }
    {
        let mut items = blank_pages(alloc, 4_096)?;
        items[0] = fresh_meta_page();
        items[1] = fresh_root_page();
        Ok(Pages { items })
    }

    /// The pages as a `Vec`. It takes no memory.
    pub fn into_items(self) -> Vec<Page>
        ensures { result.items ≡ self.items }
    {
        let Pages { items } = self;
        items
    }

    /// Adds a page at the end. A refusal changes nothing.
    pub fn push(&mut self, item: Page) -> Result<(), Memory>
        ensures ok { OnOk result (self.new.items ≡ self.old.items ++ item ∷ []) }
        ensures err { OnErr result (self.new.items ≡ self.old.items) }
        ensures room { 0 < self.old.spare → IsOk result }
        ensures spare { self.old.spare ≤ self.new.spare + 1 }
    {
        self.items.extend_from_slice(&[item])?;
        Ok(())
    }

    pub fn len(&self) -> usize
        ensures { result ≡ length self.now.items }
    {
        self.items.len()
    }

    /// The i-th page, from 0.
    pub fn get(&self, i: usize) -> &Page
        requires { i < length self.now.items }
        ensures { slice_get self.now.items i ≡ Some result.now }
    {
        &self.items[i]
    }

    /// The i-th page, from 0, to be changed.
    pub fn page_mut(&mut self, i: usize) -> &mut Page
        requires { i < length self.old.items }
        ensures* lends { sem 𝓛 (LendsPage self.entry i result) }
        ensures page { slice_get self.old.items i ≡ Some result.now }
    {
        &mut self.items[i]
    }

    /// Takes the last page out. It takes no memory.
    pub fn pop(&mut self) -> Option<Page>
        ensures items { self.old.items ≡ self.new.items ++ option_to_list result }
        ensures some { IsSome result ↔ (0 < length self.old.items) }
        ensures spare { self.old.spare ≤ self.new.spare }
    {
        self.items.pop()
    }

    /// Makes room for so many pages more. A refusal changes nothing.
    pub fn reserve(&mut self, more: usize) -> Result<(), Memory>
        ensures items { self.new.items ≡ self.old.items }
        ensures ok { OnOk result (more ≤ self.new.spare) }
        ensures spare { self.old.spare ≤ self.new.spare }
    {
        self.items.reserve(more)?;
        Ok(())
    }

    /// Leaves the list empty, with the old pages' places free. It takes no memory.
    pub fn clear(&mut self)
        ensures items { self.new.items ≡ [] }
        ensures spare { self.old.spare + length self.old.items ≤ self.new.spare }
    {
        self.items.clear();
    }
}
