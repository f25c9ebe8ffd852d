//! The cells of rows: 64 bytes each.

ghost use Rattle.std.specs.Prelude.{◌≡◌, ◌≤◌, ◌++◌, ◌&&◌, length, take, drop, replicate, if◌then◌else◌, Some, None, IfSome};
ghost use Rattle.std.specs.Str.{bytes_eq};
ghost use Rattle.mp_model.specs.Padded.{padded};
ghost use Rattle.mp_cells.specs.declared.rows.Row.{Row};
ghost use Rattle.mp_cells.specs.Rows.{IsRow, is_origin, is_writer, is_link};
ghost use Rattle.mp_cells.specs.RowCell.{row_cell, row_head, state_bytes, writer_bytes, link_bytes, value_bytes, row_of, value_of, writer_of, link_of, is_row_cell};

use crate::numbers::{u16_at, u16_bytes, u32_at, u32_bytes};
use crate::rows::{Link, Row};
use mp_model::{TrxId, Value};

/// The row whose cell the first 64 bytes are. None exactly where they aren't the cell of a row that a page may keep.
pub fn read_row(bytes: &[u8]) -> Option<Row>
    requires { 64 ≤ length bytes.now }
    ensures exact { result ≡ (if is_row_cell bytes.now then Some (row_of bytes.now) else None) }
    ensures found { IfSome result (λ row. IsRow row × (take 64 bytes.now ≡ row_cell row)) }
    ensures only { (row : Row) → IsRow row → take 64 bytes.now ≡ row_cell row → result ≡ Some row }
{
    let row = row_of(bytes);
    if is_cell_of(bytes, &row) {
        Some(row)
    } else {
        None
    }
}

/// Writes the cell of a row into the first 64 bytes.
pub fn write_row(row: &Row, into: &mut [u8])
    requires { 64 ≤ length into.old }
    ensures { into.new ≡ row_cell row.now ++ drop 64 into.old }
{
    into[..64].copy_from_slice(&row_cell(row));
}

// Whether the bytes are the cell of the row that they are read as.
#[tactic(auto, unfolding(crate::specs::RowCell::is_row_cell, crate::specs::RowCell::row_of))]
fn is_cell_of(bytes: &[u8], row: &Row) -> bool
    requires long { 64 ≤ length bytes.now }
    requires read { row.now ≡ row_of bytes.now }
    ensures { result ≡ is_row_cell bytes.now }
{
    is_origin(row.writer, row.link) && is_front(bytes, &row_cell(row))
}

// Whether the bytes begin with these 64.
fn is_front(bytes: &[u8], cell: &[u8; 64]) -> bool
    requires { 64 ≤ length bytes.now }
    ensures { result ≡ bytes_eq (take 64 bytes.now) cell.now }
{
    bytes.split_at(64).0 == cell.as_slice()
}

/// The row that the first 64 bytes are read as, whether or not they are a row's cell.
#[tactic(auto, unfolding(crate::specs::RowCell::row_of))]
pub fn row_of(bytes: &[u8]) -> Row
    requires { 64 ≤ length bytes.now }
    ensures { result ≡ row_of bytes.now }
{
    Row {
        key: u32_at(bytes, 0),
        value: value_of(bytes),
        writer: writer_of(bytes),
        link: link_of(bytes),
    }
}

fn value_of(bytes: &[u8]) -> Option<Value>
    requires { 64 ≤ length bytes.now }
    ensures { result ≡ value_of bytes.now }
{
    let len = bytes[5] as usize;
    let field = bytes.split_at(24).1.split_at(32).0;
    Value::read(field.split_at(len.min(32)).0)
}

fn writer_of(bytes: &[u8]) -> Option<TrxId>
    requires { 64 ≤ length bytes.now }
    ensures { result ≡ writer_of bytes.now }
{
    if bytes[8] == 0 {
        return None;
    }
    Some(TrxId {
        node: bytes[8],
        slot: u16_at(bytes, 10),
        version: u32_at(bytes, 12),
    })
}

fn link_of(bytes: &[u8]) -> Option<Link>
    requires { 64 ≤ length bytes.now }
    ensures { result ≡ link_of bytes.now }
{
    let word = u32_at(bytes, 16);
    if word == 0 || 65536 <= word {
        return None;
    }
    Some(Link {
        page: (word / 16) as u16,
        index: (word % 16) as u8,
    })
}

fn is_origin(writer: Option<TrxId>, link: Option<Link>) -> bool
    ensures { result ≡ is_origin writer link }
{
    match (writer, link) {
        (None, None) => true,
        (Some(id), Some(link)) => is_writer(id) && is_link(link),
        _ => false,
    }
}

fn is_writer(id: TrxId) -> bool
    ensures { result ≡ is_writer id }
{
    1 <= id.node && id.node <= 8 && id.slot < 8192 && 1 <= id.version && id.version < 1 << 24
}

fn is_link(link: Link) -> bool
    ensures { result ≡ is_link link }
{
    2 <= link.page && link.page < 4096 && link.index < 15
}

// The cell of a row.
#[tactic(auto, unfolding(crate::specs::RowCell::row_cell))]
fn row_cell(row: &Row) -> [u8; 64]
    ensures whole { length result ≡ 64 }
    ensures bytes { result ≡ row_cell row.now }
{
    let mut cell = [0; 64];
    cell[..24].copy_from_slice(&row_head(row));
    cell[24..56].copy_from_slice(&value_bytes(row.value));
    cell
}

#[tactic(auto, unfolding(crate::specs::RowCell::row_head))]
fn row_head(row: &Row) -> [u8; 24]
    ensures whole { length result ≡ 24 }
    ensures bytes { result ≡ row_head row.now }
{
    let k = u32_bytes(row.key);
    let s = state_bytes(row.value);
    let w = writer_bytes(row.writer);
    let l = link_bytes(row.link);
    [
        k[0], k[1], k[2], k[3], s[0], s[1], s[2], s[3], w[0], w[1], w[2], w[3], w[4], w[5], w[6],
        w[7], l[0], l[1], l[2], l[3], 0, 0, 0, 0,
    ]
}

fn state_bytes(value: Option<Value>) -> [u8; 4]
    ensures { result ≡ state_bytes value }
{
    match value {
        None => [0; 4],
        Some(value) => [1, value.len() as u8, 0, 0],
    }
}

fn writer_bytes(writer: Option<TrxId>) -> [u8; 8]
    ensures { result ≡ writer_bytes writer }
{
    match writer {
        None => [0; 8],
        Some(id) => {
            let s = u16_bytes(id.slot);
            let v = u32_bytes(id.version);
            [id.node, 0, s[0], s[1], v[0], v[1], v[2], v[3]]
        }
    }
}

fn link_bytes(link: Option<Link>) -> [u8; 4]
    ensures { result ≡ link_bytes link }
{
    match link {
        None => [0; 4],
        Some(link) => u32_bytes(16 * u32::from(link.page) + u32::from(link.index)),
    }
}

fn value_bytes(value: Option<Value>) -> [u8; 32]
    ensures whole { length result ≡ 32 }
    ensures bytes { result ≡ value_bytes value }
{
    match value {
        None => [0; 32],
        Some(value) => padded(value.as_slice()),
    }
}

// The bytes in the front of 32, with zeros behind them.
fn padded(bytes: &[u8]) -> [u8; 32]
    requires { length bytes.now ≤ 32 }
    ensures whole { length result ≡ 32 }
    ensures bytes { result ≡ padded 32 0 bytes.now }
{
    let mut field = [0; 32];
    field[..bytes.len()].copy_from_slice(bytes);
    field
}
