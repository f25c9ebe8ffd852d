//! Mtrs written as bytes.

ghost use Rattle.std.specs.Prelude.{◌≡◌, ◌+◌, ◌*◌, ◌≤◌, [], ◌∷◌, ◌++◌, length};
ghost use Rattle.std.specs.List.{flat_map, AllByRecursion};
ghost use Rattle.byteorder.specs.Endian.{little_bytes};
ghost use Rattle.mp_cells.specs.declared.changes.Change.TheVariants.{MakeLeaf, MakeInner};
ghost use Rattle.mp_cells.specs.declared.records.Record.TheVariants.{Page, Commit};
ghost use Rattle.mp_cells.specs.RowCell.{row_cell};
ghost use Rattle.mp_cells.specs.ChildCell.{child_cell};
ghost use Rattle.mp_cells.specs.Changes.{HasCells};
ghost use Rattle.mp_cells.specs.Mtrs.{IsMtr};
ghost use Rattle.mp_redo.specs.Spelling.{kind_number, kind_of_change, change_bytes, record_bytes, mtr_bytes};
ghost use Rattle.mp_redo.specs.Writing.{Puts, RecordHasCells};

use crate::kinds::ChangeKind;
use crate::reading::COMMIT;
use mp_cells::{
    Change, Child, ChildCells, Mtr, Record, Row, RowCells, u16_bytes, u32_bytes, u64_bytes,
    write_child, write_row,
};
use mp_model::{Text, TrxId};

/// How many bytes an mtr has in a log: at most 20,410. Its rows and children are such as a page may keep.
pub fn size(mtr: &Mtr) -> usize
    requires { AllByRecursion RecordHasCells mtr.now.records }
    ensures exact { result ≡ length (mtr_bytes mtr.now) }
    ensures most { result ≤ 20410 }
{
    10 + records_size(mtr.records.as_slice())
}

fn records_size(records: &[Record]) -> usize
    requires most { length records.now ≤ 20 }
    requires cells { AllByRecursion RecordHasCells records.now }
    ensures exact { result ≡ length (flat_map record_bytes records.now) }
    ensures bound { result ≤ 1020 * length records.now }
{
    let mut size = 0;
    for record in records {
        size += record_size(record);
    }
    size
}

fn record_size(record: &Record) -> usize
    requires { RecordHasCells record.now }
    ensures exact { result ≡ length (record_bytes record.now) }
    ensures bound { result ≤ 1020 }
{
    match record {
        Record::Page { change, .. } => 11 + change_size(change),
        Record::Commit { .. } => 17,
    }
}

fn change_size(change: &Change) -> usize
    requires { HasCells change.now }
    ensures exact { result ≡ length (change_bytes change.now) }
    ensures bound { result ≤ 1009 }
{
    match change {
        Change::MakeLeaf { rows, .. } => 17 + 64 * rows.len(),
        Change::MakeInner { children, .. } => 17 + 8 * children.len(),
        Change::MakeUndo => 0,
        Change::PutRow { .. } => 64,
        Change::RestoreRow { .. } => 64,
        Change::Cut { .. } => 4,
        Change::PutChild { .. } => 8,
        Change::PutUndo { .. } => 64,
        Change::TakePage { .. } => 2,
    }
}

/// Adds the bytes of an mtr at the end. It is one that a log may hold, and there is room for its `size`. It takes no
/// memory. `docs/formats.md` has the grammar.
pub fn encode(mtr: &Mtr, into: &mut Text)
    requires sound { IsMtr mtr.now }
    requires room { length (mtr_bytes mtr.now) ≤ into.old.spare }
    ensures items { into.new.items ≡ into.old.items ++ mtr_bytes mtr.now }
    ensures spare { into.old.spare ≤ into.new.spare + length (mtr_bytes mtr.now) }
{
    put_head(mtr.node, mtr.records.len() as u8, mtr.llsn, into);
    put_records(mtr.records.as_slice(), into);
}

// The front of an mtr.
fn put_head(node: u8, count: u8, llsn: u64, into: &mut Text)
    requires { 10 ≤ into.old.spare }
    ensures { Puts (node ∷ count ∷ little_bytes 8 llsn) into.old into.new }
{
    let l = u64_bytes(llsn);
    into.put_all(&[node, count, l[0], l[1], l[2], l[3], l[4], l[5], l[6], l[7]]);
}

fn put_records(records: &[Record], into: &mut Text)
    requires { length (flat_map record_bytes records.now) ≤ into.old.spare }
    ensures { Puts (flat_map record_bytes records.now) into.old into.new }
{
    for record in records {
        put_record(record, into);
    }
}

fn put_record(record: &Record, into: &mut Text)
    requires { length (record_bytes record.now) ≤ into.old.spare }
    ensures { Puts (record_bytes record.now) into.old into.new }
{
    match record {
        Record::Page { page, prev, change } => put_page_record(*page, *prev, change, into),
        Record::Commit { id, cts } => put_commit(*id, *cts, into),
    }
}

fn put_page_record(page: u16, prev: u64, change: &Change, into: &mut Text)
    requires { length (record_bytes (Page page prev change.now)) ≤ into.old.spare }
    ensures { Puts (record_bytes (Page page prev change.now)) into.old into.new }
{
    put_record_head(kind_number(kind_of_change(change)), page, prev, into);
    put_change(change, into);
}

// The front of a record of a change.
fn put_record_head(kind: u8, page: u16, prev: u64, into: &mut Text)
    requires { 11 ≤ into.old.spare }
    ensures { Puts (kind ∷ (little_bytes 2 page ++ little_bytes 8 prev)) into.old into.new }
{
    let p = u16_bytes(page);
    let l = u64_bytes(prev);
    into.put_all(&[
        kind, p[0], p[1], l[0], l[1], l[2], l[3], l[4], l[5], l[6], l[7],
    ]);
}

fn put_commit(id: TrxId, cts: u64, into: &mut Text)
    requires { length (record_bytes (Commit id cts)) ≤ into.old.spare }
    ensures { Puts (record_bytes (Commit id cts)) into.old into.new }
{
    let s = u16_bytes(id.slot);
    let v = u32_bytes(id.version);
    let c = u64_bytes(cts);
    into.put_all(&[
        COMMIT as u8,
        id.node,
        0,
        s[0],
        s[1],
        v[0],
        v[1],
        v[2],
        v[3],
        c[0],
        c[1],
        c[2],
        c[3],
        c[4],
        c[5],
        c[6],
        c[7],
    ]);
}

fn kind_number(kind: ChangeKind) -> u8
    ensures { result ≡ kind_number kind }
{
    kind as u8 + 1
}

fn kind_of_change(change: &Change) -> ChangeKind
    ensures { result ≡ kind_of_change change.now }
{
    match change {
        Change::MakeLeaf { .. } => ChangeKind::MakeLeaf,
        Change::MakeInner { .. } => ChangeKind::MakeInner,
        Change::MakeUndo => ChangeKind::MakeUndo,
        Change::PutRow { .. } => ChangeKind::PutRow,
        Change::RestoreRow { .. } => ChangeKind::RestoreRow,
        Change::Cut { .. } => ChangeKind::Cut,
        Change::PutChild { .. } => ChangeKind::PutChild,
        Change::PutUndo { .. } => ChangeKind::PutUndo,
        Change::TakePage { .. } => ChangeKind::TakePage,
    }
}

fn put_change(change: &Change, into: &mut Text)
    requires { length (change_bytes change.now) ≤ into.old.spare }
    ensures { Puts (change_bytes change.now) into.old into.new }
{
    match change {
        Change::MakeLeaf { low, high, rows } => put_leaf(*low, *high, rows, into),
        Change::MakeInner {
            low,
            high,
            children,
        } => put_inner(*low, *high, children, into),
        Change::MakeUndo => (),
        Change::PutRow { row } => put_row(row, into),
        Change::RestoreRow { row } => put_row(row, into),
        Change::Cut { from } => into.put_all(&u32_bytes(*from)),
        Change::PutChild { child } => put_child(child, into),
        Change::PutUndo { row } => put_row(row, into),
        Change::TakePage { page } => into.put_all(&u16_bytes(*page)),
    }
}

fn put_leaf(low: u64, high: u64, rows: &RowCells, into: &mut Text)
    requires { length (change_bytes (MakeLeaf low high rows.now)) ≤ into.old.spare }
    ensures { Puts (change_bytes (MakeLeaf low high rows.now)) into.old into.new }
{
    put_make(low, high, rows.len() as u8, into);
    put_rows(rows.as_slice(), into);
}

fn put_inner(low: u64, high: u64, children: &ChildCells, into: &mut Text)
    requires { length (change_bytes (MakeInner low high children.now)) ≤ into.old.spare }
    ensures { Puts (change_bytes (MakeInner low high children.now)) into.old into.new }
{
    put_make(low, high, children.len() as u8, into);
    put_children(children.as_slice(), into);
}

// The fences and the count of a Make record.
fn put_make(low: u64, high: u64, count: u8, into: &mut Text)
    requires { 17 ≤ into.old.spare }
    ensures { Puts (little_bytes 8 low ++ (little_bytes 8 high ++ count ∷ [])) into.old into.new }
{
    let l = u64_bytes(low);
    let h = u64_bytes(high);
    into.put_all(&[
        l[0], l[1], l[2], l[3], l[4], l[5], l[6], l[7], h[0], h[1], h[2], h[3], h[4], h[5], h[6],
        h[7], count,
    ]);
}

fn put_rows(rows: &[Row], into: &mut Text)
    requires { length (flat_map row_cell rows.now) ≤ into.old.spare }
    ensures { Puts (flat_map row_cell rows.now) into.old into.new }
{
    for row in rows {
        put_row(row, into);
    }
}

fn put_children(children: &[Child], into: &mut Text)
    requires { length (flat_map child_cell children.now) ≤ into.old.spare }
    ensures { Puts (flat_map child_cell children.now) into.old into.new }
{
    for child in children {
        put_child(child, into);
    }
}

fn put_row(row: &Row, into: &mut Text)
    requires { length (row_cell row.now) ≤ into.old.spare }
    ensures { Puts (row_cell row.now) into.old into.new }
{
    let mut cell = [0; 64];
    write_row(row, &mut cell);
    into.put_all(&cell);
}

fn put_child(child: &Child, into: &mut Text)
    requires { length (child_cell child.now) ≤ into.old.spare }
    ensures { Puts (child_cell child.now) into.old into.new }
{
    let mut cell = [0; 8];
    write_child(child, &mut cell);
    into.put_all(&cell);
}
