//! Mtrs read from bytes.

ghost use Rattle.std.specs.Prelude.{◌≡◌, ◌⊎◌, ℕ, ◌+◌, ◌*◌, ◌<◌, ◌≤◌, List, [], ◌++◌, length, take, Some, Ok, Err, IfOk, IfErr};
ghost use Rattle.mp_cells.specs.declared.records.Mtr.{Mtr};
ghost use Rattle.mp_cells.specs.Mtrs.{IsMtr};
ghost use Rattle.mp_redo.specs.declared.reading.RedoRefusal.TheVariants.{Fault, Memory};
ghost use Rattle.mp_redo.specs.Spelling.{mtr_bytes, Spells};
ghost use Rattle.mp_redo.specs.declared.kinds.ChangeKind.TheVariants.{Cut, PutChild, TakePage};
ghost use Rattle.mp_redo.specs.Reading.{and_then, make_leaf_at, make_inner_at, row_change_at, change_of_row, change_at, kind_of, page_record_at, commit_at, most_kind, record_at, records_at, mtr_at, mtr_fault};

use crate::field_reading::{
    child_at, child_in, children_in, fences_at, id_at, number, row_at, rows_in,
};
use crate::kinds::ChangeKind;
use mp_cells::{Change, Mtr, Record, Records, Row};
use std::alloc::Global;

/// Why bytes give no mtr.
#[derive(Clone, Copy, Debug, PartialEq, Eq)]
pub enum RedoRefusal {
    /// The bytes begin with no mtr. The first field that is cut off or not of the grammar lies at this place, from 0.
    Fault { place: u64 },
    /// There was no memory.
    Memory,
}

// The change of a MakeLeaf record, from its fences on, and where it ends.
fn make_leaf_at(bytes: &[u8], at: usize) -> Result<(Change, usize), usize>
    requires { at ≤ length bytes.now }
    ensures exact { result ≡ make_leaf_at bytes.now at }
    ensures inside { IfErr result (λ place. place ≤ length bytes.now) }
    ensures room { IfOk result (λ change. change.1 ≤ length bytes.now) }
{
    let (low, high) = fences_at(bytes, at)?;
    let count = number(1, 0, 15, bytes, at + 16)? as usize;
    let rows = rows_in(count, low, high, bytes, at + 17)?;
    Ok((Change::MakeLeaf { low, high, rows }, at + 17 + 64 * count))
}

// The change of a MakeInner record, from its fences on, and where it ends. The first child has the low fence.
fn make_inner_at(bytes: &[u8], at: usize) -> Result<(Change, usize), usize>
    requires { at ≤ length bytes.now }
    ensures exact { result ≡ make_inner_at bytes.now at }
    ensures inside { IfErr result (λ place. place ≤ length bytes.now) }
    ensures room { IfOk result (λ change. change.1 ≤ length bytes.now) }
{
    let (low, high) = fences_at(bytes, at)?;
    let count = number(1, 1, 124, bytes, at + 16)? as usize;
    let _ = child_in(low, low + 1, bytes, at + 17)?;
    let children = children_in(count, low, high, bytes, at + 17)?;
    Ok((
        Change::MakeInner {
            low,
            high,
            children,
        },
        at + 17 + 8 * count,
    ))
}

// A change of a kind, and where it ends.
fn change_at(kind: ChangeKind, bytes: &[u8], at: usize) -> Result<(Change, usize), usize>
    requires { at ≤ length bytes.now }
    ensures exact { result ≡ change_at kind bytes.now at }
    ensures inside { IfErr result (λ place. place ≤ length bytes.now) }
    ensures room { IfOk result (λ change. change.1 ≤ length bytes.now) }
{
    match kind {
        ChangeKind::MakeLeaf => make_leaf_at(bytes, at),
        ChangeKind::MakeInner => make_inner_at(bytes, at),
        ChangeKind::MakeUndo => Ok((Change::MakeUndo, at)),
        ChangeKind::PutRow | ChangeKind::RestoreRow | ChangeKind::PutUndo => {
            row_change_at(kind, bytes, at)
        }
        ChangeKind::Cut => cut_at(bytes, at),
        ChangeKind::PutChild => put_child_at(bytes, at),
        ChangeKind::TakePage => take_page_at(bytes, at),
    }
}

// A change that has a row alone.
fn row_change_at(kind: ChangeKind, bytes: &[u8], at: usize) -> Result<(Change, usize), usize>
    requires { at ≤ length bytes.now }
    ensures exact { result ≡ row_change_at kind bytes.now at }
    ensures inside { IfErr result (λ place. place ≤ length bytes.now) }
    ensures room { IfOk result (λ change. change.1 ≤ length bytes.now) }
{
    match row_at(bytes, at) {
        Ok(row) => Ok((change_of_row(kind, row), at + 64)),
        Err(place) => Err(place),
    }
}

fn change_of_row(kind: ChangeKind, row: Row) -> Change
    ensures { result ≡ change_of_row kind row }
{
    match kind {
        ChangeKind::RestoreRow => Change::RestoreRow { row },
        ChangeKind::PutUndo => Change::PutUndo { row },
        _ => Change::PutRow { row },
    }
}

fn cut_at(bytes: &[u8], at: usize) -> Result<(Change, usize), usize>
    requires { at ≤ length bytes.now }
    ensures exact { result ≡ change_at Cut bytes.now at }
    ensures inside { IfErr result (λ place. place ≤ length bytes.now) }
    ensures room { IfOk result (λ change. change.1 ≤ length bytes.now) }
{
    let from = number(4, 0, u64::from(u32::MAX), bytes, at)? as u32;
    Ok((Change::Cut { from }, at + 4))
}

fn put_child_at(bytes: &[u8], at: usize) -> Result<(Change, usize), usize>
    requires { at ≤ length bytes.now }
    ensures exact { result ≡ change_at PutChild bytes.now at }
    ensures inside { IfErr result (λ place. place ≤ length bytes.now) }
    ensures room { IfOk result (λ change. change.1 ≤ length bytes.now) }
{
    let child = child_at(bytes, at)?;
    Ok((Change::PutChild { child }, at + 8))
}

fn take_page_at(bytes: &[u8], at: usize) -> Result<(Change, usize), usize>
    requires { at ≤ length bytes.now }
    ensures exact { result ≡ change_at TakePage bytes.now at }
    ensures inside { IfErr result (λ place. place ≤ length bytes.now) }
    ensures room { IfOk result (λ change. change.1 ≤ length bytes.now) }
{
    let page = number(2, 2, 4095, bytes, at)? as u16;
    Ok((Change::TakePage { page }, at + 2))
}

// The kind with a number of 1 to 9.
fn kind_of(number: u64) -> ChangeKind
    ensures { result ≡ kind_of number }
{
    match number {
        1 => ChangeKind::MakeLeaf,
        2 => ChangeKind::MakeInner,
        3 => ChangeKind::MakeUndo,
        4 => ChangeKind::PutRow,
        5 => ChangeKind::RestoreRow,
        6 => ChangeKind::Cut,
        7 => ChangeKind::PutChild,
        8 => ChangeKind::PutUndo,
        _ => ChangeKind::TakePage,
    }
}

// The rest of a record of a change, behind its kind, and where it ends.
fn page_record_at(
    kind: ChangeKind,
    llsn: u64,
    bytes: &[u8],
    at: usize,
) -> Result<(Record, usize), usize>
    requires { at ≤ length bytes.now }
    ensures exact { result ≡ page_record_at kind llsn bytes.now at }
    ensures inside { IfErr result (λ place. place ≤ length bytes.now) }
    ensures room { IfOk result (λ item. item.1 ≤ length bytes.now) }
{
    let page = number(2, 0, 4095, bytes, at)? as u16;
    let prev = number(8, 0, llsn, bytes, at + 2)?;
    match change_at(kind, bytes, at + 10) {
        Ok((change, end)) => Ok((Record::Page { page, prev, change }, end)),
        Err(place) => Err(place),
    }
}

// The rest of a commit record, behind its kind, and where it ends.
fn commit_at(bytes: &[u8], at: usize) -> Result<(Record, usize), usize>
    requires { at ≤ length bytes.now }
    ensures exact { result ≡ commit_at bytes.now at }
    ensures inside { IfErr result (λ place. place ≤ length bytes.now) }
    ensures room { IfOk result (λ item. item.1 ≤ length bytes.now) }
{
    let id = id_at(bytes, at)?;
    let cts = number(8, 1, (1 << 38) - 1, bytes, at + 8)?;
    Ok((Record::Commit { id, cts }, at + 16))
}

/// The first byte of a commit record.
pub(crate) const COMMIT: u64 = 10;

// The greatest kind of a record among so many: a commit record stands alone.
fn most_kind(count: u64) -> u64
    ensures { result ≡ most_kind count }
{
    if count == 1 { COMMIT } else { 9 }
}

// A record of an mtr with this LLSN, and where it ends.
#[tactic(auto, unfolding(crate::specs::Reading::record_at))]
fn record_at(most: u64, llsn: u64, bytes: &[u8], at: usize) -> Result<(Record, usize), usize>
    requires { at ≤ length bytes.now }
    ensures exact { result ≡ record_at most llsn bytes.now at }
    ensures inside { IfErr result (λ place. place ≤ length bytes.now) }
    ensures room { IfOk result (λ item. item.1 ≤ length bytes.now) }
{
    let kind = number(1, 1, most, bytes, at)?;
    if kind == COMMIT {
        commit_at(bytes, at + 1)
    } else {
        page_record_at(kind_of(kind), llsn, bytes, at + 1)
    }
}

// So many records, one after another, into a list without any. Answers where they end.
fn records_at(
    count: u64,
    most: u64,
    llsn: u64,
    bytes: &[u8],
    at: usize,
    into: &mut Records,
) -> Result<usize, usize>
    requires most { count ≤ 20 }
    requires within { at ≤ length bytes.now }
    requires none { into.old ≡ [] }
    ensures exact { and_then result (λ end. Ok (into.new, end)) ≡ records_at count most llsn bytes.now at }
    ensures inside { IfErr result (λ place. place ≤ length bytes.now) }
    ensures room { IfOk result (λ end. end ≤ length bytes.now) }
{
    let mut end = at;
    for _ in 0..count {
        match record_at(most, llsn, bytes, end) {
            Ok((item, next)) => {
                into.put(item);
                end = next;
            }
            Err(place) => return Err(place),
        }
    }
    Ok(end)
}

// The mtr in front of the bytes, and where it ends. Its records go into a list without any.
fn mtr_at(records: Records, bytes: &[u8]) -> Result<(Mtr, usize), usize>
    requires { records ≡ [] }
    ensures exact { result ≡ mtr_at bytes.now }
    ensures inside { IfErr result (λ place. place ≤ length bytes.now) }
{
    let node = number(1, 1, 8, bytes, 0)? as u8;
    let count = number(1, 1, 20, bytes, 1)?;
    let llsn = number(8, 1, (1 << 62) - 1, bytes, 2)?;
    let mut records = records;
    let end = records_at(count, most_kind(count), llsn, bytes, 10, &mut records)?;
    let mtr = Mtr {
        node,
        llsn,
        records,
    };
    Ok((mtr, end))
}

/// The mtr in front of the bytes, and how many bytes it has; any bytes may follow it. It takes memory once, for the mtr's
/// records.
///
/// # Errors
///
/// `Fault` exactly where the bytes begin with no mtr's spelling, with the place of the first field that is cut off or not
/// of the grammar. `Memory`. `docs/formats.md` has the grammar.
pub fn decode(alloc: Global, bytes: &[u8]) -> Result<(Mtr, usize), RedoRefusal>
    // What is read may stand in a log, and the bytes in front are its spelling.
    ensures found { IfOk result (λ found. (found.1 ≤ length bytes.now) × Spells found.0 (take found.1 bytes.now)) }
    // An mtr's spelling is read as that mtr, whatever follows.
    ensures only { (mtr : Mtr) (rest : List ℕ) → IsMtr mtr → bytes.now ≡ mtr_bytes mtr ++ rest → (result ≡ Ok (mtr, length (mtr_bytes mtr))) ⊎ (result ≡ Err Memory) }
    // Which fault it is.
    ensures fault { (place : ℕ) → result ≡ Err (Fault place) → mtr_fault bytes.now ≡ Some place }
    ensures inside { (place : ℕ) → result ≡ Err (Fault place) → place ≤ length bytes.now }
{
    let Ok(records) = Records::with_room(alloc) else {
        return Err(RedoRefusal::Memory);
    };
    match mtr_at(records, bytes) {
        Ok(found) => Ok(found),
        Err(place) => Err(RedoRefusal::Fault {
            place: place as u64,
        }),
    }
}
