//! Cells in the order of their keys, in the front of an array: how they are looked up and edited.

ghost use Rattle.std.specs.Prelude.{◌≡◌, ℕ, ◌+◌, ◌-◌, ◌^◌, ◌<◌, ◌≤◌, ◌∷◌, ◌++◌, ◌||◌, IsTrue, nat_lt, nat_le, length, take, drop, filter, replicate};
ghost use Rattle.std.specs.List.{insert};
ghost use Rattle.mp_cells.specs.Keys.{rises, holds, holds_first, with_cell, cells_below};

/// A cell with a key.
pub(crate) trait Keyed: Copy {
    ghost key_of: { Self → ℕ };

    fn key(&self) -> u32
        ensures { result ≡ key_of self.now };
}

/// Whether the keys rise strictly, from `low` on and below `high`.
pub(crate) fn rises<T: Keyed>(cells: &[T], low: u64, high: u64) -> bool
    ensures { result ≡ rises T.key_of low high cells.now }
{
    let mut least = low;
    for cell in cells {
        let key = u64::from(cell.key());
        if key < least || high <= key {
            return false;
        }
        least = key + 1;
    }
    true
}

/// How many cells have keys below this one, where keys rise.
pub(crate) fn place_of<T: Keyed>(cells: &[T], key: u32) -> usize
    requires { IsTrue (rises T.key_of 0 (2 ^ 32) cells.now) }
    ensures bound { result ≤ length cells.now }
    ensures below { take result cells.now ≡ filter (λ cell. nat_lt (T.key_of cell) key) cells.now }
    ensures above { drop result cells.now ≡ filter (λ cell. nat_le key (T.key_of cell)) cells.now }
{
    match cells.binary_search_by_key(&key, |cell| cell.key()) {
        Ok(i) => i,
        Err(i) => i,
    }
}

/// Whether a cell has the key, where keys rise.
pub(crate) fn holds<T: Keyed>(cells: &[T], key: u32) -> bool
    requires { IsTrue (rises T.key_of 0 (2 ^ 32) cells.now) }
    ensures { result ≡ holds T.key_of key cells.now }
{
    let i = place_of(cells, key);
    holds_at(cells, i, key)
}

// Whether the i-th cell is there and has the key.
fn holds_at<T: Keyed>(cells: &[T], i: usize, key: u32) -> bool
    ensures { result ≡ holds_first T.key_of key (drop i cells.now) }
{
    match cells.get(i) {
        Some(cell) => cell.key() == key,
        None => false,
    }
}

/// Puts a cell before the i-th of the first `len`; those behind it move on by one place, over what stood after them.
pub(crate) fn insert_at<T: Copy>(cells: &mut [T], len: usize, i: usize, cell: T)
    requires within { i ≤ len }
    requires room { len < length cells.old }
    ensures front { take (len + 1) cells.new ≡ insert (take len cells.old) i cell }
    ensures rest { drop (len + 1) cells.new ≡ drop (len + 1) cells.old }
{
    cells[len] = cell;
    let moved = &mut cells[i..len + 1];
    moved.rotate_right(1);
}

/// Puts the blank into each place from the i-th on.
pub(crate) fn blank_from<T: Copy>(cells: &mut [T], i: usize, blank: T)
    requires { i ≤ length cells.old }
    ensures { cells.new ≡ take i cells.old ++ replicate (length cells.old - i) blank }
{
    for cell in &mut cells[i..] {
        *cell = blank;
    }
}

/// Puts a cell at its key among the first `len`, where keys rise: in the place of the one that has the key, or in order.
/// Answers how many there are then.
pub(crate) fn put_at_key<T: Keyed>(cells: &mut [T], len: usize, cell: T) -> usize
    requires within { len ≤ length cells.old }
    requires rises { IsTrue (rises T.key_of 0 (2 ^ 32) (take len cells.old)) }
    requires room { IsTrue (holds T.key_of (T.key_of cell) (take len cells.old) || nat_lt len (length cells.old)) }
    ensures cells { take result cells.new ≡ with_cell T.key_of cell (take len cells.old) }
    ensures rest { drop result cells.new ≡ drop result cells.old }
    ensures least { len ≤ result }
    ensures most { result ≤ length cells.old }
{
    let key = cell.key();
    let i = place_of(&cells[..len], key);
    if holds_at(&cells[..len], i, key) {
        cells[i] = cell;
        return len;
    }
    insert_at(cells, len, i, cell);
    len + 1
}

/// Puts the blank in the place of each of the first `len` cells whose key isn't below the bound, where keys rise.
/// Answers how many are left.
pub(crate) fn cut_at_key<T: Keyed>(cells: &mut [T], len: usize, bound: u32, blank: T) -> usize
    requires within { len ≤ length cells.old }
    requires rises { IsTrue (rises T.key_of 0 (2 ^ 32) (take len cells.old)) }
    ensures cells { take result cells.new ≡ cells_below T.key_of bound (take len cells.old) }
    ensures rest { drop result cells.new ≡ replicate (length cells.old - result) blank }
    ensures most { result ≤ len }
{
    let i = place_of(&cells[..len], bound);
    blank_from(cells, i, blank);
    i
}
