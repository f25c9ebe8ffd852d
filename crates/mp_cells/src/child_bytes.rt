//! The cells of children: 8 bytes each.

ghost use Rattle.std.specs.Prelude.{◌≡◌, ◌≤◌, ◌++◌, ◌&&◌, ◌==◌, length, take, drop, if◌then◌else◌, Some, None, IfSome, slice_index};
ghost use Rattle.mp_cells.specs.declared.children.Child.{Child};
ghost use Rattle.mp_cells.specs.Children.{IsChild, is_child_page};
ghost use Rattle.mp_cells.specs.ChildCell.{child_cell, child_of, is_child_cell};

use crate::children::Child;
use crate::numbers::{u16_at, u16_bytes, u32_at, u32_bytes};

/// The child whose cell the first 8 bytes are. None exactly where they aren't the cell of a child that a page may keep.
pub fn read_child(bytes: &[u8]) -> Option<Child>
    requires { 8 ≤ length bytes.now }
    ensures exact { result ≡ (if is_child_cell bytes.now then Some (child_of bytes.now) else None) }
    ensures found { IfSome result (λ child. IsChild child × (take 8 bytes.now ≡ child_cell child)) }
    ensures only { (child : Child) → IsChild child → take 8 bytes.now ≡ child_cell child → result ≡ Some child }
{
    if is_child_cell(bytes) {
        Some(child_of(bytes))
    } else {
        None
    }
}

/// Writes the cell of a child into the first 8 bytes.
pub fn write_child(child: &Child, into: &mut [u8])
    requires { 8 ≤ length into.old }
    ensures { into.new ≡ child_cell child.now ++ drop 8 into.old }
{
    into[..8].copy_from_slice(&child_cell(child));
}

// Whether the bytes are the cell of the child that they are read as.
#[tactic(auto, unfolding(crate::specs::ChildCell::is_child_cell))]
fn is_child_cell(bytes: &[u8]) -> bool
    requires { 8 ≤ length bytes.now }
    ensures { result ≡ is_child_cell bytes.now }
{
    is_child_page(u16_at(bytes, 4)) && bytes[6] == 0 && bytes[7] == 0
}

fn is_child_page(page: u16) -> bool
    ensures { result ≡ is_child_page page }
{
    2 <= page && page < 4096
}

/// The child that the first 8 bytes are read as, whether or not they are a child's cell.
#[tactic(auto, unfolding(crate::specs::ChildCell::child_of))]
pub fn child_of(bytes: &[u8]) -> Child
    requires { 8 ≤ length bytes.now }
    ensures { result ≡ child_of bytes.now }
{
    Child {
        low: u32_at(bytes, 0),
        page: u16_at(bytes, 4),
    }
}

// The cell of a child.
#[tactic(auto, unfolding(crate::specs::ChildCell::child_cell))]
fn child_cell(child: &Child) -> [u8; 8]
    ensures whole { length result ≡ 8 }
    ensures bytes { result ≡ child_cell child.now }
{
    let l = u32_bytes(child.low);
    let p = u16_bytes(child.page);
    [l[0], l[1], l[2], l[3], p[0], p[1], 0, 0]
}
