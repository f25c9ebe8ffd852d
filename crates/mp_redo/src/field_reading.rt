//! Fields of mtrs read from bytes: numbers in their ranges, cells, ids and fences.

ghost use Rattle.std.specs.Prelude.{◌≡◌, ◌+◌, ◌*◌, ◌<◌, ◌≤◌, length, IfOk, IfErr};
ghost use Rattle.mp_cells.specs.Numbers.{number_at};
ghost use Rattle.mp_cells.specs.PageView.{are_fences};
ghost use Rattle.mp_cells.specs.Rows.{is_writer};
ghost use Rattle.mp_redo.specs.Reading.{number, row_at, child_at, id_at, id_of, row_in, child_in, rows_in, children_in, fences_at};

use byteorder::{ByteOrder, LittleEndian};
use mp_cells::{Child, ChildCells, Row, RowCells, read_child, read_row, u16_at, u32_at};
use mp_model::TrxId;

// The number in so many bytes at a place.
#[tactic(auto, unfolding(mp_cells::specs::Numbers::number_at))]
fn number_at(width: usize, bytes: &[u8], at: usize) -> u64
    requires low { 1 ≤ width }
    requires high { width ≤ 8 }
    requires room { at + width ≤ length bytes.now }
    ensures { result ≡ number_at at width bytes.now }
{
    LittleEndian::read_uint(bytes.split_at(at).1, width)
}

/// A number in so many bytes, in a range.
#[tactic(auto, unfolding(crate::specs::Reading::number))]
pub(crate) fn number(
    width: usize,
    least: u64,
    most: u64,
    bytes: &[u8],
    at: usize,
) -> Result<u64, usize>
    requires low { 1 ≤ width }
    requires high { width ≤ 8 }
    requires within { at ≤ length bytes.now }
    ensures exact { result ≡ number width least most bytes.now at }
    ensures inside { IfErr result (λ place. place ≤ length bytes.now) }
    ensures most { IfOk result (λ n. n ≤ most) }
    ensures room { IfOk result (λ n. at + width ≤ length bytes.now) }
{
    if bytes.len() - at < width {
        return Err(at);
    }
    let n = number_at(width, bytes, at);
    if least <= n && n <= most {
        Ok(n)
    } else {
        Err(at)
    }
}

/// A row's cell.
#[tactic(auto, unfolding(crate::specs::Reading::row_at))]
pub(crate) fn row_at(bytes: &[u8], at: usize) -> Result<Row, usize>
    requires { at ≤ length bytes.now }
    ensures exact { result ≡ row_at bytes.now at }
    ensures inside { IfErr result (λ place. place ≤ length bytes.now) }
    ensures room { IfOk result (λ row. at + 64 ≤ length bytes.now) }
{
    if bytes.len() - at < 64 {
        return Err(at);
    }
    match read_row(bytes.split_at(at).1) {
        Some(row) => Ok(row),
        None => Err(at),
    }
}

/// A child's cell.
#[tactic(auto, unfolding(crate::specs::Reading::child_at))]
pub(crate) fn child_at(bytes: &[u8], at: usize) -> Result<Child, usize>
    requires { at ≤ length bytes.now }
    ensures exact { result ≡ child_at bytes.now at }
    ensures inside { IfErr result (λ place. place ≤ length bytes.now) }
    ensures room { IfOk result (λ child. at + 8 ≤ length bytes.now) }
{
    if bytes.len() - at < 8 {
        return Err(at);
    }
    match read_child(bytes.split_at(at).1) {
        Some(child) => Ok(child),
        None => Err(at),
    }
}

/// The id of the transaction that a commit record names.
#[tactic(auto, unfolding(crate::specs::Reading::id_at))]
pub(crate) fn id_at(bytes: &[u8], at: usize) -> Result<TrxId, usize>
    requires { at ≤ length bytes.now }
    ensures exact { result ≡ id_at bytes.now at }
    ensures inside { IfErr result (λ place. place ≤ length bytes.now) }
    ensures room { IfOk result (λ id. at + 8 ≤ length bytes.now) }
{
    if bytes.len() - at < 8 {
        return Err(at);
    }
    let cell = bytes.split_at(at).1;
    let id = id_of(cell);
    if cell[1] == 0 && is_writer(id) {
        Ok(id)
    } else {
        Err(at)
    }
}

fn id_of(bytes: &[u8]) -> TrxId
    requires { 8 ≤ length bytes.now }
    ensures { result ≡ id_of bytes.now }
{
    TrxId {
        node: bytes[0],
        slot: u16_at(bytes, 2),
        version: u32_at(bytes, 4),
    }
}

fn is_writer(id: TrxId) -> bool
    ensures { result ≡ is_writer id }
{
    1 <= id.node && id.node <= 8 && id.slot < 8192 && 1 <= id.version && id.version < 1 << 24
}

/// A row whose key is from `least` on and below `high`.
pub(crate) fn row_in(least: u64, high: u64, bytes: &[u8], at: usize) -> Result<Row, usize>
    requires { at ≤ length bytes.now }
    ensures exact { result ≡ row_in least high bytes.now at }
    ensures inside { IfErr result (λ place. place ≤ length bytes.now) }
    ensures room { IfOk result (λ row. at + 64 ≤ length bytes.now) }
{
    let row = match row_at(bytes, at) {
        Ok(row) => row,
        Err(place) => return Err(place),
    };
    let key = u64::from(row.key);
    if least <= key && key < high {
        Ok(row)
    } else {
        Err(at)
    }
}

/// A child whose low key is from `least` on and below `high`.
pub(crate) fn child_in(least: u64, high: u64, bytes: &[u8], at: usize) -> Result<Child, usize>
    requires { at ≤ length bytes.now }
    ensures exact { result ≡ child_in least high bytes.now at }
    ensures inside { IfErr result (λ place. place ≤ length bytes.now) }
    ensures room { IfOk result (λ child. at + 8 ≤ length bytes.now) }
{
    let child = child_at(bytes, at)?;
    let key = u64::from(child.low);
    if least <= key && key < high {
        Ok(child)
    } else {
        Err(at)
    }
}

/// So many rows, whose keys rise from `low` on and below `high`.
pub(crate) fn rows_in(
    count: usize,
    low: u64,
    high: u64,
    bytes: &[u8],
    at: usize,
) -> Result<RowCells, usize>
    requires most { count ≤ 15 }
    requires within { at ≤ length bytes.now }
    ensures exact { result ≡ rows_in count low high bytes.now at }
    ensures inside { IfErr result (λ place. place ≤ length bytes.now) }
    ensures room { IfOk result (λ rows. at + 64 * count ≤ length bytes.now) }
{
    let mut rows = RowCells::new();
    let mut least = low;
    for i in 0..count {
        let row = match row_in(least, high, bytes, at + 64 * i) {
            Ok(row) => row,
            Err(place) => return Err(place),
        };
        least = u64::from(row.key) + 1;
        rows.put(row);
    }
    Ok(rows)
}

/// So many children, whose low keys rise from `low` on and below `high`.
pub(crate) fn children_in(
    count: usize,
    low: u64,
    high: u64,
    bytes: &[u8],
    at: usize,
) -> Result<ChildCells, usize>
    requires most { count ≤ 124 }
    requires within { at ≤ length bytes.now }
    ensures exact { result ≡ children_in count low high bytes.now at }
    ensures inside { IfErr result (λ place. place ≤ length bytes.now) }
    ensures room { IfOk result (λ children. at + 8 * count ≤ length bytes.now) }
{
    let mut children = ChildCells::new();
    let mut least = low;
    for i in 0..count {
        let child = child_in(least, high, bytes, at + 8 * i)?;
        least = u64::from(child.low) + 1;
        children.put(child);
    }
    Ok(children)
}

/// Two fences; a fault of the two together is at the first.
pub(crate) fn fences_at(bytes: &[u8], at: usize) -> Result<(u64, u64), usize>
    requires { at ≤ length bytes.now }
    ensures exact { result ≡ fences_at bytes.now at }
    ensures inside { IfErr result (λ place. place ≤ length bytes.now) }
    ensures room { IfOk result (λ fences. at + 16 ≤ length bytes.now) }
{
    let low = number(8, 0, u64::MAX, bytes, at)?;
    let high = number(8, 0, u64::MAX, bytes, at + 8)?;
    if are_fences(low, high) {
        Ok((low, high))
    } else {
        Err(at)
    }
}

fn are_fences(low: u64, high: u64) -> bool
    ensures { result ≡ are_fences low high }
{
    low < high && high <= 1 << 32
}
