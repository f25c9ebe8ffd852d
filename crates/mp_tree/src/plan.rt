//! Plans.

ghost use Rattle.std.specs.Prelude.{◌≡◌, ℕ, ◌<◌, ◌≤◌, [], ◌∷◌, ◌++◌, length, slice_get, Some, IfOk, IfSome};
ghost use Rattle.mp_cells.specs.declared.changes.Change.{Change};

use mp_model::{Items, Memory};
use mp_page::Change;
use std::alloc::Global;
use std::marker::Model;

/// A list of at most 20 changes, each with the number of its page, in the order in which they are applied. It takes all
/// its memory when it is made.
#[derive(Debug, Drop)]
pub struct Plan {
    items: Items<(u16, Change)>,
}

impl Model for Plan {
    ghost use Rattle.std.specs.Prelude.{ℕ, List, ◌+◌, ◌≤◌, length};
    ghost use Rattle.mp_cells.specs.declared.changes.Change.{Change};

    ghost Value = { List (ℕ × Change) };

    ghost view = { λ p. p.items.items };

    ghost invariant = { λ p. (length p.items.items ≤ 20) × (20 ≤ length p.items.items + p.items.spare) };
}

impl Plan {
    /// An empty plan. It takes room for 20 changes, or answers that there is no memory.
    pub fn new(alloc: Global) -> Result<Plan, Memory>
        ensures { IfOk result (λ plan. plan ≡ []) }
    {
        let mut items = Items::new(alloc);
        items.reserve(20)?;
        Ok(Plan { items })
    }

    /// The count of changes.
    pub fn len(&self) -> usize
        ensures count { result ≡ length self.now }
        ensures most { result ≤ 20 }
    {
        self.items.len()
    }

    /// The page of the i-th change, from 0.
    pub fn page(&self, i: usize) -> u16
        requires { i < length self.now }
        ensures { IfSome (slice_get self.now i) (λ step. step.0 ≡ result) }
    {
        self.items.get(i).0
    }

    /// The i-th change, from 0.
    pub fn change(&self, i: usize) -> &Change
        requires { i < length self.now }
        ensures { IfSome (slice_get self.now i) (λ step. step.1 ≡ result.now) }
    {
        &self.items.get(i).1
    }

    /// Leaves the plan empty, with its room.
    pub(crate) fn clear(&mut self)
        ensures { self.new ≡ [] }
    {
        self.items.clear();
    }

    /// Adds a change at the end, in a free place.
    pub(crate) fn put(&mut self, page: u16, change: Change)
        requires { length self.old < 20 }
        ensures { self.new ≡ self.old ++ (page, change) ∷ [] }
    {
        self.items.put_all(&[(page, change)]);
    }
}
