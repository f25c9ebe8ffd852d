//! Pages read from bytes.

ghost use Rattle.std.specs.Prelude.{◌≡◌, ◌≢◌, ℕ, ◌+◌, ◌-◌, ◌*◌, ◌^◌, ◌<◌, ◌≤◌, ◌==◌, ◌&&◌, nat_le, nat_lt, length, take, drop, slice_index, Some, None, Ok, IfOk, IfErr, IsTrue};
ghost use Rattle.mp_cells.specs.Numbers.{number_at};
ghost use Rattle.mp_cells.specs.PageView.{PageView, IsPage, bits_set, are_fences, kind_number};
ghost use Rattle.mp_cells.specs.RowCell.{is_row_cell};
ghost use Rattle.mp_cells.specs.ChildCell.{is_child_cell};
ghost use Rattle.mp_page.specs.Shown.{page_shown};
ghost use Rattle.mp_page.specs.Grammar.{spelling, read_as, page_of, page_bytes_fault, header_fault, body_fault, cells_fault, cell_fault, keyed_fault, inner_fault, undo_fault, padding_fault, is_page_count, has_fences, kind_numbered, cells_length, rows_of, children_of};

use crate::body::Body;
use crate::page::Page;
use mp_cells::{
    ChildCells, Fault, Kind, PageFault, RowCells, child_of, read_child, read_row, row_of, u16_at,
    u32_at, u64_at,
};

/// The page that these bytes are. A fault exactly where they are no page's, and it is the first of them, by what is
/// checked in this order: the kind and the format, the count, the zeros behind it, the LLSN, the fences, each cell in
/// turn, and the zeros behind the cells.
pub fn read_page(bytes: &[u8; 1024]) -> Result<Page, PageFault>
    // What is read is a page, and the bytes are its spelling.
    ensures found { IfOk result (λ page. IsPage page × (bytes.now ≡ spelling page)) }
    // The bytes that are a page's spelling are read as that page.
    ensures only { (page : PageView) → IsPage page → bytes.now ≡ spelling page → result ≡ Ok page }
    // Which fault it is.
    ensures fault { IfErr result (λ fault. page_bytes_fault bytes.now ≡ Some fault) }
{
    read(bytes.as_slice())
}

fn read(bytes: &[u8]) -> Result<Page, PageFault>
    requires { length bytes.now ≡ 1024 }
    ensures found { IfOk result (λ page. IsPage page × (bytes.now ≡ spelling page)) }
    ensures only { (page : PageView) → IsPage page → bytes.now ≡ spelling page → result ≡ Ok page }
    ensures fault { IfErr result (λ fault. page_bytes_fault bytes.now ≡ Some fault) }
{
    match page_bytes_fault(bytes) {
        Some(fault) => Err(fault),
        None => Ok(page_of(bytes)),
    }
}

// The page that bytes without a fault are read as.
fn page_of(bytes: &[u8]) -> Page
    requires long { length bytes.now ≡ 1024 }
    requires sound { page_bytes_fault bytes.now ≡ None }
    ensures { result ≡ page_of bytes.now }
{
    let kind = kind_numbered(bytes[0]);
    let (low, high) = (u64_at(bytes, 16), u64_at(bytes, 24));
    let body = body_of(kind, u16_at(bytes, 2), low, high, bytes.split_at(32).1);
    Page::new(u64_at(bytes, 8), body)
}

// The body of a page of this kind, with this count and these fences.
fn body_of(kind: Kind, count: u16, low: u64, high: u64, body: &[u8]) -> Body
    requires long { length body.now ≡ 992 }
    requires count { IsTrue (is_page_count kind count body.now) }
    ensures { (llsn : ℕ) → page_shown llsn result ≡ read_as kind count llsn low high body.now }
{
    let count = usize::from(count);
    match kind {
        Kind::Blank => Body::Blank,
        Kind::Meta => Body::Meta(bits_of(body)),
        Kind::Leaf => Body::Leaf {
            low,
            high,
            rows: rows_of(count, body),
        },
        Kind::Inner => Body::Inner {
            low,
            high,
            children: children_of(count, body),
        },
        Kind::Undo => Body::Undo(rows_of(count, body)),
    }
}

// The first 512 bytes.
fn bits_of(body: &[u8]) -> [u8; 512]
    requires { 512 ≤ length body.now }
    ensures { result ≡ take 512 body.now }
{
    let mut bits = [0; 512];
    bits[..].copy_from_slice(body.split_at(512).0);
    bits
}

/// The format of pages: their second byte.
pub(crate) const FORMAT: u8 = 1;

/// The first fault of the bytes of a page.
#[tactic(auto, unfolding(crate::specs::Grammar::page_bytes_fault))]
fn page_bytes_fault(bytes: &[u8]) -> Option<PageFault>
    requires { length bytes.now ≡ 1024 }
    ensures { result ≡ page_bytes_fault bytes.now }
{
    match header_fault(bytes) {
        Some(fault) => Some(fault),
        None => body_fault(bytes),
    }
}

#[tactic(auto, unfolding(crate::specs::Grammar::header_fault))]
fn header_fault(bytes: &[u8]) -> Option<PageFault>
    requires { length bytes.now ≡ 1024 }
    ensures { result ≡ header_fault bytes.now }
{
    if 4 < bytes[0] {
        return fault(Fault::Kind, 0);
    }
    if bytes[1] != FORMAT {
        return fault(Fault::Kind, 1);
    }
    let kind = kind_numbered(bytes[0]);
    if !is_page_count(kind, u16_at(bytes, 2), bytes.split_at(32).1) {
        return fault(Fault::Count, 2);
    }
    if let Some(fault) = padding_fault(bytes.split_at(4).1.split_at(4).0, 4) {
        return Some(fault);
    }
    if 1 << 62 <= u64_at(bytes, 8) {
        return fault(Fault::Fence, 8);
    }
    if !has_fences(kind, u64_at(bytes, 16), u64_at(bytes, 24)) {
        return fault(Fault::Fence, 16);
    }
    None
}

// A fault at an offset.
fn fault(fault: Fault, offset: u32) -> Option<PageFault>
    ensures { result ≡ Some (record { fault = fault; offset = offset }) }
{
    Some(PageFault { fault, offset })
}

fn kind_numbered(byte: u8) -> Kind
    ensures { result ≡ kind_numbered byte }
{
    match byte {
        0 => Kind::Blank,
        1 => Kind::Meta,
        2 => Kind::Leaf,
        3 => Kind::Inner,
        _ => Kind::Undo,
    }
}

fn is_page_count(kind: Kind, count: u16, body: &[u8]) -> bool
    requires { 512 ≤ length body.now }
    ensures { result ≡ is_page_count kind count body.now }
{
    match kind {
        Kind::Blank => count == 0,
        Kind::Meta => count == bits_set(body.split_at(512).0),
        Kind::Leaf | Kind::Undo => count <= 15,
        Kind::Inner => 1 <= count && count <= 124,
    }
}

// How many bits of the meta page's 512 bytes are set.
pub(crate) fn bits_set(bits: &[u8]) -> u16
    requires { length bits.now ≤ 512 }
    ensures { result ≡ bits_set bits.now }
{
    let mut set = 0;
    for byte in bits {
        set += byte.count_ones() as u16;
    }
    set
}

fn has_fences(kind: Kind, low: u64, high: u64) -> bool
    ensures { result ≡ has_fences kind low high }
{
    match kind {
        Kind::Blank | Kind::Meta | Kind::Undo => low == 0 && high == 0,
        Kind::Leaf | Kind::Inner => are_fences(low, high),
    }
}

pub(crate) fn are_fences(low: u64, high: u64) -> bool
    ensures { result ≡ are_fences low high }
{
    low < high && high <= 1 << 32
}

// The first byte that isn't zero, of bytes that lie from a place on.
fn padding_fault(bytes: &[u8], place: u32) -> Option<PageFault>
    requires { place + length bytes.now ≤ 1024 }
    ensures { result ≡ padding_fault place bytes.now }
{
    let mut offset = place;
    for byte in bytes {
        if *byte != 0 {
            return fault(Fault::Padding, offset);
        }
        offset += 1;
    }
    None
}

#[tactic(auto, unfolding(crate::specs::Grammar::body_fault))]
fn body_fault(bytes: &[u8]) -> Option<PageFault>
    requires long { length bytes.now ≡ 1024 }
    requires count { IsTrue (is_page_count (kind_numbered (slice_index bytes.now 0)) (number_at 2 2 bytes.now) (drop 32 bytes.now)) }
    ensures { result ≡ body_fault bytes.now }
{
    let kind = kind_numbered(bytes[0]);
    let count = u16_at(bytes, 2);
    let body = bytes.split_at(32).1;
    if let Some(fault) = cells_fault(kind, count, u64_at(bytes, 16), u64_at(bytes, 24), body) {
        return Some(fault);
    }
    let end = 32 + cells_length(kind, count);
    padding_fault(bytes.split_at(end).1, end as u32)
}

fn cells_fault(kind: Kind, count: u16, low: u64, high: u64, body: &[u8]) -> Option<PageFault>
    requires long { length body.now ≡ 992 }
    requires count { IsTrue (is_page_count kind count body.now) }
    ensures { result ≡ cells_fault kind count low high body.now }
{
    let count = usize::from(count);
    match kind {
        Kind::Blank | Kind::Meta => None,
        Kind::Leaf => leaf_fault(low, high, count, body),
        Kind::Inner => inner_fault(low, high, count, body),
        Kind::Undo => undo_fault(count, body),
    }
}

fn cells_length(kind: Kind, count: u16) -> usize
    ensures { result ≡ cells_length kind count }
{
    let count = usize::from(count);
    match kind {
        Kind::Blank => 0,
        Kind::Meta => 512,
        Kind::Leaf | Kind::Undo => 64 * count,
        Kind::Inner => 8 * count,
    }
}

fn leaf_fault(low: u64, high: u64, count: usize, cells: &[u8]) -> Option<PageFault>
    requires most { count ≤ 15 }
    requires room { 64 * count ≤ length cells.now }
    ensures { result ≡ keyed_fault is_row_cell 64 low high count 32 0 cells.now }
{
    let mut rest = cells;
    let mut least = 0;
    for i in 0..count {
        let place = 32 + 64 * i as u32;
        let key = u64::from(u32_at(rest, 0));
        if let Some(fault) = cell_fault(low, high, is_row_cell(rest), place, least, key) {
            return Some(fault);
        }
        least = key + 1;
        rest = rest.split_at(64).1;
    }
    None
}

fn children_fault(low: u64, high: u64, count: usize, cells: &[u8]) -> Option<PageFault>
    requires most { count ≤ 124 }
    requires room { 8 * count ≤ length cells.now }
    ensures { result ≡ keyed_fault is_child_cell 8 low high count 32 0 cells.now }
{
    let mut rest = cells;
    let mut least = 0;
    for i in 0..count {
        let place = 32 + 8 * i as u32;
        let key = u64::from(u32_at(rest, 0));
        if let Some(fault) = cell_fault(low, high, is_child_cell(rest), place, least, key) {
            return Some(fault);
        }
        least = key + 1;
        rest = rest.split_at(8).1;
    }
    None
}

fn is_row_cell(cell: &[u8]) -> bool
    requires { 64 ≤ length cell.now }
    ensures { result ≡ is_row_cell cell.now }
{
    read_row(cell).is_some()
}

fn is_child_cell(cell: &[u8]) -> bool
    requires { 8 ≤ length cell.now }
    ensures { result ≡ is_child_cell cell.now }
{
    read_child(cell).is_some()
}

fn cell_fault(
    low: u64,
    high: u64,
    is_cell: bool,
    place: u32,
    least: u64,
    key: u64,
) -> Option<PageFault>
    ensures { result ≡ cell_fault low high is_cell place least key }
{
    if !is_cell {
        return fault(Fault::Cell, place);
    }
    if key < least {
        return fault(Fault::Order, place);
    }
    if key < low || high <= key {
        return fault(Fault::Fence, place);
    }
    None
}

fn inner_fault(low: u64, high: u64, count: usize, cells: &[u8]) -> Option<PageFault>
    requires least { 1 ≤ count }
    requires most { count ≤ 124 }
    requires room { 8 * count ≤ length cells.now }
    ensures { result ≡ inner_fault low high count cells.now }
{
    if !is_child_cell(cells) {
        return fault(Fault::Cell, 32);
    }
    if u64::from(u32_at(cells, 0)) != low {
        return fault(Fault::Fence, 32);
    }
    children_fault(low, high, count, cells)
}

fn undo_fault(count: usize, cells: &[u8]) -> Option<PageFault>
    requires most { count ≤ 15 }
    requires room { 64 * count ≤ length cells.now }
    ensures { result ≡ undo_fault count 32 cells.now }
{
    let mut rest = cells;
    for i in 0..count {
        if !is_row_cell(rest) {
            return fault(Fault::Cell, 32 + 64 * i as u32);
        }
        rest = rest.split_at(64).1;
    }
    None
}

// So many rows, read one after another.
fn rows_of(count: usize, cells: &[u8]) -> RowCells
    requires most { count ≤ 15 }
    requires room { 64 * count ≤ length cells.now }
    ensures { result ≡ rows_of count cells.now }
{
    let mut rows = RowCells::new();
    let mut rest = cells;
    for _ in 0..count {
        rows.put(row_of(rest));
        rest = rest.split_at(64).1;
    }
    rows
}

// So many children, read one after another.
fn children_of(count: usize, cells: &[u8]) -> ChildCells
    requires most { count ≤ 124 }
    requires room { 8 * count ≤ length cells.now }
    ensures { result ≡ children_of count cells.now }
{
    let mut children = ChildCells::new();
    let mut rest = cells;
    for _ in 0..count {
        children.put(child_of(rest));
        rest = rest.split_at(8).1;
    }
    children
}
