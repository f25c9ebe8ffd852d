//! Each kind of record: read and written again, cut off at each byte, and with wrong fields.

use mp_model::Text;
use mp_redo::{RedoRefusal, decode, encode, size};
use std::alloc::Global;
use std::test::*;

// What some bytes are read as: how many the mtr in front of them has, or the place of the fault.
fn read(alloc: Global, bytes: &[u8]) -> Result<usize, u64> {
    match decode(alloc, bytes) {
        Ok((_, size)) => Ok(size),
        Err(RedoRefusal::Fault { place }) => Err(place),
        Err(RedoRefusal::Memory) => Err(u64::MAX),
    }
}

// The place of the field that a byte is part of: the last of these that isn't behind it.
fn field_of(starts: &[u64], place: u64) -> u64 {
    let mut field = 0;
    for start in starts {
        if *start <= place {
            field = *start;
        }
    }
    field
}

// Whether the bytes are read whole, also with more behind them, and each front of them has its fault at the start of the
// field that is cut off.
fn is_read_whole(alloc: Global, bytes: &[u8], starts: &[u64]) -> Result<bool, Fail> {
    let mut more = Vec::from_slice(alloc, bytes)?;
    more.push(1)?;
    if read(alloc, bytes) != Ok(bytes.len()) || read(alloc, &more) != Ok(bytes.len()) {
        return Ok(false);
    }
    for cut in 0..bytes.len() {
        if read(alloc, &bytes[..cut]) != Err(field_of(starts, cut as u64)) {
            return Ok(false);
        }
    }
    Ok(true)
}

// Whether the mtr in front of the bytes is written as these bytes.
fn is_written_again(alloc: Global, bytes: &[u8]) -> bool {
    let Ok((mtr, _)) = decode(alloc, bytes) else {
        return false;
    };
    let mut text = Text::new(alloc);
    if text.reserve(size(&mtr)).is_err() {
        return false;
    }
    encode(&mtr, &mut text);
    text.as_slice() == bytes
}

// Whether each of these bytes, put at its place, gives a fault at the other place.
fn has_faults(alloc: Global, bytes: &[u8], wrong: &[(usize, u8, u64)]) -> Result<bool, Fail> {
    for (place, byte, fault) in wrong {
        let mut changed = Vec::from_slice(alloc, bytes)?;
        if let Some(old) = changed.get_mut(*place) {
            *old = *byte;
        }
        if read(alloc, &changed) != Err(*fault) {
            return Ok(false);
        }
    }
    Ok(true)
}

// The mtr of primary 1 with LLSN 2 and one record of this kind, of page 3 with `prev` 1, and with these fields.
fn page_mtr(alloc: Global, kind: u8, fields: &[&[u8]]) -> Result<Vec<u8>, Fail> {
    let mut bytes = Vec::new(alloc);
    bytes.extend_from_slice(&[1, 1, 2, 0, 0, 0, 0, 0, 0, 0])?;
    bytes.extend_from_slice(&[kind, 3, 0, 1, 0, 0, 0, 0, 0, 0, 0])?;
    for field in fields {
        bytes.extend_from_slice(*field)?;
    }
    Ok(bytes)
}

// The cell of a gone row without a writer.
fn row_cell(key: u8) -> [u8; 64] {
    let mut cell = [0; 64];
    cell[0] = key;
    cell
}

// A wrong value in each field of the head and of a record's front, with the place of the fault.
const WRONG: [(usize, u8, u64); 11] = [
    (0, 0, 0),
    (0, 9, 0),
    (1, 0, 1),
    (1, 21, 1),
    (2, 0, 2),
    (9, 64, 2),
    (10, 0, 10),
    (10, 10, 11),
    (10, 11, 10),
    (12, 16, 11),
    (13, 3, 13),
];

#[test]
fn make_records(rt: HostRuntime) -> Result<(), Fail> {
    let alloc = rt.alloc();
    let low = [5, 0, 0, 0, 0, 0, 0, 0];
    let high = [10, 0, 0, 0, 0, 0, 0, 0];
    let leaf = page_mtr(alloc, 1, &[&low, &high, &[2], &row_cell(7), &row_cell(9)])?;
    let starts = [0, 1, 2, 10, 11, 13, 21, 29, 37, 38, 102];
    assert!(rt; is_read_whole(alloc, &leaf, &starts)?);
    assert!(rt; is_written_again(alloc, &leaf));
    assert!(rt; has_faults(alloc, &leaf, &WRONG)?);
    assert!(rt; has_faults(
        alloc,
        &leaf,
        &[
            // The high fence isn't above the low one, or is above 2^32; sixteen rows.
            (29, 5, 21), (34, 1, 21), (37, 16, 37),
            // A key below the low fence, one that isn't above that before it, one at the high fence; cells.
            (21, 8, 38), (38, 9, 102), (102, 6, 102), (29, 9, 102), (42, 2, 38), (165, 1, 102),
        ],
    )?);
    let first = [5, 0, 0, 0, 3, 0, 0, 0];
    let second = [7, 0, 0, 0, 4, 0, 0, 0];
    let inner = page_mtr(alloc, 2, &[&low, &high, &[2], &first, &second])?;
    let starts = [0, 1, 2, 10, 11, 13, 21, 29, 37, 38, 46];
    assert!(rt; is_read_whole(alloc, &inner, &starts)?);
    assert!(rt; is_written_again(alloc, &inner));
    assert!(rt; has_faults(alloc, &inner, &WRONG)?);
    assert!(rt; has_faults(
        alloc,
        &inner,
        &[
            (29, 5, 21), (34, 1, 21), (37, 0, 37), (37, 125, 37),
            // The first child's low key isn't the low fence; a page below 2; zeros; the second key.
            (38, 6, 38), (21, 4, 38), (42, 1, 38), (45, 1, 38), (46, 5, 46), (46, 10, 46),
        ],
    )?);
    Ok(())
}

#[test]
fn records_of_one_field(rt: HostRuntime) -> Result<(), Fail> {
    let alloc = rt.alloc();
    let make_undo = page_mtr(alloc, 3, &[])?;
    assert!(rt; is_read_whole(alloc, &make_undo, &[0, 1, 2, 10, 11, 13])?);
    assert!(rt; is_written_again(alloc, &make_undo));
    assert!(rt; has_faults(alloc, &make_undo, &WRONG)?);
    let starts = [0, 1, 2, 10, 11, 13, 21];
    // PutRow, RestoreRow and PutUndo.
    for kind in [4, 5, 8] {
        let put = page_mtr(alloc, kind, &[&row_cell(7)])?;
        assert!(rt; is_read_whole(alloc, &put, &starts)?);
        assert!(rt; is_written_again(alloc, &put));
        assert!(rt; has_faults(alloc, &put, &WRONG)?);
        assert!(rt; has_faults(alloc, &put, &[(25, 2, 21), (29, 9, 21), (84, 1, 21)])?);
    }
    let cut = page_mtr(alloc, 6, &[&[7, 0, 0, 0]])?;
    assert!(rt; is_read_whole(alloc, &cut, &starts)?);
    assert!(rt; is_written_again(alloc, &cut));
    assert!(rt; has_faults(alloc, &cut, &WRONG)?);
    let put_child = page_mtr(alloc, 7, &[&[7, 0, 0, 0, 3, 0, 0, 0]])?;
    assert!(rt; is_read_whole(alloc, &put_child, &starts)?);
    assert!(rt; is_written_again(alloc, &put_child));
    assert!(rt; has_faults(alloc, &put_child, &WRONG)?);
    assert!(rt; has_faults(alloc, &put_child, &[(25, 1, 21), (26, 16, 21), (28, 1, 21)])?);
    let take_page = page_mtr(alloc, 9, &[&[5, 0]])?;
    assert!(rt; is_read_whole(alloc, &take_page, &starts)?);
    assert!(rt; is_written_again(alloc, &take_page));
    assert!(rt; has_faults(alloc, &take_page, &WRONG)?);
    assert!(rt; has_faults(alloc, &take_page, &[(21, 1, 21), (22, 16, 21)])?);
    Ok(())
}

#[test]
fn commit_records(rt: HostRuntime) -> Result<(), Fail> {
    let alloc = rt.alloc();
    let commit = [
        1, 1, 2, 0, 0, 0, 0, 0, 0, 0, 10, 1, 0, 0, 0, 1, 0, 0, 0, 1, 0, 0, 0, 0, 0, 0, 0,
    ];
    assert!(rt; is_read_whole(alloc, &commit, &[0, 1, 2, 10, 11, 19])?);
    assert!(rt; is_written_again(alloc, &commit));
    assert!(rt; has_faults(
        alloc,
        &commit,
        &[
            // Two records, of which the commit record is the first.
            (1, 2, 10),
            // The id's node, zero, slot and version; the timestamp.
            (11, 0, 11), (11, 9, 11), (12, 1, 11), (14, 32, 11), (15, 0, 11), (18, 1, 11),
            (19, 0, 19), (23, 64, 19),
        ],
    )?);
    // A commit record behind another record.
    let mut second = page_mtr(alloc, 3, &[])?;
    if let Some(count) = second.get_mut(1) {
        *count = 2;
    }
    second.extend_from_slice(&[10, 1, 0, 0, 0, 1, 0, 0, 0, 1, 0, 0, 0, 0, 0, 0, 0])?;
    assert_eq!(rt; read(alloc, &second), Err(21));
    Ok(())
}
