//! Pages written as bytes.

ghost use Rattle.std.specs.Prelude.{◌≡◌, ℕ, ◌+◌, ◌*◌, ◌≤◌, ◌∷◌, ◌++◌, length, take, drop, replicate};
ghost use Rattle.std.specs.List.{flat_map};
ghost use Rattle.byteorder.specs.Endian.{little_bytes};
ghost use Rattle.mp_cells.specs.RowCell.{row_cell};
ghost use Rattle.mp_cells.specs.ChildCell.{child_cell};
ghost use Rattle.mp_cells.specs.PageView.{kind_number};
ghost use Rattle.mp_page.specs.Grammar.{spelling, header_bytes};

use crate::page::Page;
use crate::reading::FORMAT;
use mp_cells::{Child, Kind, Row, u16_bytes, u64_bytes, write_child, write_row};

/// Writes the bytes of a page. It takes no memory.
pub fn write_page(page: &Page, into: &mut [u8; 1024])
    ensures { into.new ≡ spelling page.now }
{
    let into = &mut into[..];
    write(page, into);
}

// Writes the bytes of a page.
fn write(page: &Page, into: &mut [u8])
    requires { length into.old ≡ 1024 }
    ensures { into.new ≡ spelling page.now }
{
    let kind = kind_number(page.kind());
    let head = header(kind, page.count(), page.llsn(), page.low(), page.high());
    let (front, body) = into.split_at_mut(32);
    front.copy_from_slice(&head);
    body.fill(0);
    page.write_cells(body);
}

fn kind_number(kind: Kind) -> u8
    ensures { result ≡ kind_number kind }
{
    kind as u8
}

/// The first 32 bytes of a page.
#[tactic(auto, unfolding(crate::specs::Grammar::header_bytes))]
pub(crate) fn header(kind: u8, count: u16, llsn: u64, low: u64, high: u64) -> [u8; 32]
    ensures { result ≡ header_bytes kind count llsn low high }
{
    let c = u16_bytes(count);
    let n = u64_bytes(llsn);
    let l = u64_bytes(low);
    let h = u64_bytes(high);
    [
        kind, FORMAT, c[0], c[1], 0, 0, 0, 0, n[0], n[1], n[2], n[3], n[4], n[5], n[6], n[7], l[0],
        l[1], l[2], l[3], l[4], l[5], l[6], l[7], h[0], h[1], h[2], h[3], h[4], h[5], h[6], h[7],
    ]
}

/// Writes the cells of rows, one after another.
pub(crate) fn write_rows(rows: &[Row], into: &mut [u8])
    requires { 64 * length rows.now ≤ length into.old }
    ensures { into.new ≡ flat_map row_cell rows.now ++ drop (64 * length rows.now) into.old }
{
    for (i, row) in rows.iter().enumerate() {
        write_row(row, into.split_at_mut(64 * i).1);
    }
}

/// Writes the cells of children, one after another.
pub(crate) fn write_children(children: &[Child], into: &mut [u8])
    requires { 8 * length children.now ≤ length into.old }
    ensures { into.new ≡ flat_map child_cell children.now ++ drop (8 * length children.now) into.old }
{
    for (i, child) in children.iter().enumerate() {
        write_child(child, into.split_at_mut(8 * i).1);
    }
}
