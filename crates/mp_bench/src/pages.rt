//! Leaves are filled row by row, written as bytes and read back.

ghost use Rattle.mp_cells.specs.Changes.{HasCells};
ghost use Rattle.mp_cells.specs.Rows.{IsRow};

use mp_cells::{Change, Kind, Link, Row, RowCells};
use mp_model::{TrxId, Value};
use mp_page::{Page, apply, read_page, write_page};

/// For each round fills a leaf by 15 changes, writes it, reads it back, and adds its last key to the sum.
pub fn write_and_read(rounds: u32) -> u64 {
    let mut bytes = [0; 1024];
    let mut sum = 0u64;
    for round in 0..rounds {
        write_page(&full_leaf(round), &mut bytes);
        sum = sum.wrapping_add(last_key(&bytes));
    }
    sum
}

// A leaf of 15 rows whose keys depend on the round.
fn full_leaf(round: u32) -> Page {
    let mut page = fresh_leaf();
    for i in 0..15u32 {
        let _ = apply(&mut page, &put_row(round % 4_096 + 4_096 * i));
    }
    page
}

fn fresh_leaf() -> Page {
    let mut page = Page::blank();
    let made = Change::MakeLeaf {
        low: 0,
        high: 1 << 32,
        rows: RowCells::new(),
    };
    let _ = apply(&mut page, &made);
    page
}

fn put_row(key: u32) -> Change
    ensures { HasCells result }
{
    Change::PutRow {
        row: written_row(key),
    }
}

/// A row with a value of 32 bytes, and with a writer.
pub fn written_row(key: u32) -> Row
    ensures { IsRow result }
{
    Row {
        key,
        value: Value::read(b"a-value-of-thirty-two-bytes,-all"),
        writer: Some(TrxId {
            node: 1,
            slot: 0,
            version: 1,
        }),
        link: Some(Link { page: 2, index: 0 }),
    }
}

// The last key of the leaf that the bytes are; 1 where they are none with a row.
fn last_key(bytes: &[u8; 1024]) -> u64 {
    match read_page(bytes) {
        Ok(page) if page.kind() == Kind::Leaf && page.count() > 0 => {
            u64::from(page.row(page.count() - 1).key)
        }
        _ => 1,
    }
}
