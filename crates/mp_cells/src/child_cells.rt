//! The children of one page, in place.

ghost use Rattle.std.specs.Prelude.{◌≡◌, ◌+◌, ◌<◌, ◌≤◌, [], ◌∷◌, ◌++◌, ◌||◌, ◌^◌, length, slice_get, Some, IsTrue, nat_lt};
ghost use Rattle.mp_cells.specs.Keys.{rises, holds, with_cell, cells_below};

use crate::children::Child;
use crate::in_place::{cut_at_key, holds, put_at_key, rises};
use std::marker::Model;

/// A list of at most 124 children, in place, seen as their list.
#[derive(Clone, Copy, Debug)]
pub struct ChildCells {
    children: [Child; 124],
    len: u8,
}

impl Model for ChildCells {
    ghost use Rattle.std.specs.Prelude.{List, take, length};
    ghost use Rattle.mp_model.specs.Padded.{IsPadded, padded, cells_again, length_again};
    ghost use Rattle.mp_cells.specs.declared.children.Child.{Child};
    ghost use Rattle.mp_cells.specs.Children.{no_child};

    ghost Value = { List Child };

    ghost view = { λ c. take c.len c.children };

    ghost invariant = { λ c. IsPadded 124 no_child c.len c.children };

    ghost inverse = { λ d. record { children = padded 124 no_child d; len = length d } };

    ghost inverse_ok = { λ c h i. record { children = cells_again h i; len = length_again h i } };
}

impl ChildCells {
    /// No children.
    pub fn new() -> ChildCells
        ensures { result ≡ [] }
    {
        ChildCells {
            children: [Child::NONE; 124],
            len: 0,
        }
    }

    /// The count of children.
    pub fn len(&self) -> usize
        ensures count { result ≡ length self.now }
        ensures most { result ≤ 124 }
    {
        self.len as usize
    }

    /// The i-th child, from 0.
    pub fn get(&self, i: usize) -> Child
        requires { i < length self.now }
        ensures { slice_get self.now i ≡ Some result }
    {
        self.as_slice()[i]
    }

    /// The children as a slice.
    pub fn as_slice(&self) -> &[Child]
        ensures { result.now ≡ self.now }
    {
        &self.children[..self.len as usize]
    }

    /// Adds a child at the end, in a free place.
    pub fn put(&mut self, cell: Child)
        requires { length self.old < 124 }
        ensures { self.new ≡ self.old ++ cell ∷ [] }
    {
        self.children[self.len as usize] = cell;
        self.len += 1;
    }

    /// Whether the keys rise strictly, from `low` on and below `high`.
    pub fn rises(&self, low: u64, high: u64) -> bool
        ensures { result ≡ rises (λ child. child.low) low high self.now }
    {
        rises(self.as_slice(), low, high)
    }

    /// Whether a child has the key. The keys rise.
    pub fn holds(&self, key: u32) -> bool
        requires { IsTrue (rises (λ child. child.low) 0 (2 ^ 32) self.now) }
        ensures { result ≡ holds (λ child. child.low) key self.now }
    {
        holds(self.as_slice(), key)
    }

    /// Puts a child at its key, in order; it takes the place of one that has the key. The keys rise, and there is such
    /// a child or a free place.
    pub fn put_at_key(&mut self, cell: Child)
        requires rises { IsTrue (rises (λ child. child.low) 0 (2 ^ 32) self.old) }
        requires room { IsTrue (holds (λ child. child.low) cell.low self.old || nat_lt (length self.old) 124) }
        ensures { self.new ≡ with_cell (λ child. child.low) cell self.old }
    {
        let cells = &mut self.children[..];
        self.len = put_at_key(cells, self.len as usize, cell) as u8;
    }

    /// Takes out the children whose keys aren't below the bound. The keys rise.
    pub fn cut(&mut self, bound: u32)
        requires { IsTrue (rises (λ child. child.low) 0 (2 ^ 32) self.old) }
        ensures { self.new ≡ cells_below (λ child. child.low) bound self.old }
    {
        let cells = &mut self.children[..];
        self.len = cut_at_key(cells, self.len as usize, bound, Child::NONE) as u8;
    }
}
