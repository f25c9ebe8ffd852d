//! The worked cell, and cells with one byte changed.

use mp_cells::{Link, Row, read_row, write_row};
use mp_model::{TrxId, Value};
use std::test::*;

// The cell of key 7 with the value `a`, written by 1.0.1, whose version before is record 0 of page 2.
fn cell() -> [u8; 64] {
    let mut cell = [0; 64];
    cell[0] = 7;
    cell[4] = 1;
    cell[5] = 1;
    cell[8] = 1;
    cell[12] = 1;
    cell[16] = 32;
    cell[24] = b'a';
    cell
}

fn row() -> Option<Row> {
    let Some(value) = Value::read(b"a") else {
        return None;
    };
    let writer = TrxId {
        node: 1,
        slot: 0,
        version: 1,
    };
    let link = Link { page: 2, index: 0 };
    Some(Row {
        key: 7,
        value: Some(value),
        writer: Some(writer),
        link: Some(link),
    })
}

#[test]
fn the_worked_cell(rt: HostRuntime) -> Result<(), Fail> {
    let row = row().ok_or("`a` is a value")?;
    assert_eq!(rt; read_row(&cell()), Some(row));
    let mut written = [9; 64];
    write_row(&row, &mut written);
    assert_eq!(rt; written, cell());
    Ok(())
}

// Whether the worked cell is read with this byte at a place.
fn is_read_with(place: usize, byte: u8) -> bool {
    let mut cell = cell();
    if place < 64 {
        cell[place] = byte;
    }
    read_row(&cell).is_some()
}

#[test]
fn cells_with_one_byte_changed(rt: HostRuntime) {
    let table = [
        // A state, a length, and a value's byte; a node, a slot, a version and an index out of range.
        (4, 2, false),
        (4, 0, false),
        (5, 0, false),
        (5, 33, false),
        (24, 32, false),
        (24, 126, true),
        (8, 9, false),
        (8, 0, false),
        (11, 31, true),
        (11, 32, false),
        (12, 0, false),
        (15, 1, false),
        (16, 46, true),
        (16, 47, false),
        (16, 16, false),
        (18, 1, false),
        // The zeros between the fields.
        (6, 1, false),
        (9, 1, false),
        (23, 1, false),
        (25, 0x80, false),
        (56, 1, false),
        (63, 1, false),
    ];
    for (place, byte, is_read) in table {
        assert_eq!(rt; is_read_with(place, byte), is_read);
    }
}
