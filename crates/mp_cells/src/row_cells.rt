//! The rows of one page, in place.

ghost use Rattle.std.specs.Prelude.{◌≡◌, ◌+◌, ◌<◌, ◌≤◌, [], ◌∷◌, ◌++◌, ◌||◌, ◌^◌, length, slice_get, Some, IsTrue, nat_lt};
ghost use Rattle.mp_cells.specs.Keys.{rises, holds, with_cell, cells_below};

use crate::in_place::{cut_at_key, holds, put_at_key, rises};
use crate::rows::Row;
use std::marker::Model;

/// A list of at most 15 rows, in place, seen as their list.
#[derive(Clone, Copy, Debug)]
pub struct RowCells {
    rows: [Row; 15],
    len: u8,
}

impl Model for RowCells {
    ghost use Rattle.std.specs.Prelude.{List, take, length};
    ghost use Rattle.mp_model.specs.Padded.{IsPadded, padded, cells_again, length_again};
    ghost use Rattle.mp_cells.specs.declared.rows.Row.{Row};
    ghost use Rattle.mp_cells.specs.Rows.{no_row};

    ghost Value = { List Row };

    ghost view = { λ c. take c.len c.rows };

    ghost invariant = { λ c. IsPadded 15 no_row c.len c.rows };

    ghost inverse = { λ d. record { rows = padded 15 no_row d; len = length d } };

    ghost inverse_ok = { λ c h i. record { rows = cells_again h i; len = length_again h i } };
}

impl RowCells {
    /// No rows.
    pub fn new() -> RowCells
        ensures { result ≡ [] }
    {
        RowCells {
            rows: [Row::NONE; 15],
            len: 0,
        }
    }

    /// The count of rows.
    pub fn len(&self) -> usize
        ensures count { result ≡ length self.now }
        ensures most { result ≤ 15 }
    {
        self.len as usize
    }

    /// The i-th row, from 0.
    pub fn get(&self, i: usize) -> Row
        requires { i < length self.now }
        ensures { slice_get self.now i ≡ Some result }
    {
        self.as_slice()[i]
    }

    /// The rows as a slice.
    pub fn as_slice(&self) -> &[Row]
        ensures { result.now ≡ self.now }
    {
        &self.rows[..self.len as usize]
    }

    /// Adds a row at the end, in a free place.
    pub fn put(&mut self, cell: Row)
        requires { length self.old < 15 }
        ensures { self.new ≡ self.old ++ cell ∷ [] }
    {
        self.rows[self.len as usize] = cell;
        self.len += 1;
    }

    /// Whether the keys rise strictly, from `low` on and below `high`.
    pub fn rises(&self, low: u64, high: u64) -> bool
        ensures { result ≡ rises (λ row. row.key) low high self.now }
    {
        rises(self.as_slice(), low, high)
    }

    /// Whether a row has the key. The keys rise.
    pub fn holds(&self, key: u32) -> bool
        requires { IsTrue (rises (λ row. row.key) 0 (2 ^ 32) self.now) }
        ensures { result ≡ holds (λ row. row.key) key self.now }
    {
        holds(self.as_slice(), key)
    }

    /// Puts a row at its key, in order; it takes the place of one that has the key. The keys rise, and there is such
    /// a row or a free place.
    pub fn put_at_key(&mut self, cell: Row)
        requires rises { IsTrue (rises (λ row. row.key) 0 (2 ^ 32) self.old) }
        requires room { IsTrue (holds (λ row. row.key) cell.key self.old || nat_lt (length self.old) 15) }
        ensures { self.new ≡ with_cell (λ row. row.key) cell self.old }
    {
        let cells = &mut self.rows[..];
        self.len = put_at_key(cells, self.len as usize, cell) as u8;
    }

    /// Takes out the rows whose keys aren't below the bound. The keys rise.
    pub fn cut(&mut self, bound: u32)
        requires { IsTrue (rises (λ row. row.key) 0 (2 ^ 32) self.old) }
        ensures { self.new ≡ cells_below (λ row. row.key) bound self.old }
    {
        let cells = &mut self.rows[..];
        self.len = cut_at_key(cells, self.len as usize, bound, Row::NONE) as u8;
    }
}
