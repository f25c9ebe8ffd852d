//! Mtrs are written as bytes and read back.

ghost use Rattle.std.specs.Prelude.{◌≡◌, IfOk};
ghost use Rattle.mp_cells.specs.declared.records.Record.TheVariants.{Page};
ghost use Rattle.mp_cells.specs.Mtrs.{IsMtr};

use crate::pages::written_row;
use mp_cells::{Change, Mtr, Record, Records, Row};
use mp_model::{Memory, Text};
use mp_redo::{decode, encode, size};
use std::alloc::Global;

/// For each round makes an mtr of four records, writes it, reads it back, and adds its LLSN and its length to the sum.
pub fn write_and_read(alloc: Global, rounds: u32) -> Result<u64, Memory> {
    let mut text = Text::new(alloc);
    let mut sum = 0u64;
    for round in 0..rounds {
        let mtr = first_put(alloc, round)?;
        text.clear();
        text.reserve(size(&mtr))?;
        encode(&mtr, &mut text);
        sum = sum.wrapping_add(sum_of(alloc, text.as_slice()));
    }
    Ok(sum)
}

// The mtr of a primary's first put: it takes an undo page, puts the former version there, and the row.
fn first_put(alloc: Global, round: u32) -> Result<Mtr, Memory>
    ensures { IfOk result (λ mtr. IsMtr mtr) }
{
    let row = written_row(round);
    let former = Row {
        key: round,
        value: None,
        writer: None,
        link: None,
    };
    let mut records = Records::with_room(alloc)?;
    records.put(change_of(0, Change::TakePage { page: 2 }));
    records.put(change_of(2, Change::MakeUndo));
    records.put(change_of(2, Change::PutUndo { row: former }));
    records.put(change_of(1, Change::PutRow { row }));
    Ok(Mtr {
        node: 1,
        llsn: 1 + u64::from(round),
        records,
    })
}

fn change_of(page: u16, change: Change) -> Record
    ensures { result ≡ Page page 0 change }
{
    Record::Page {
        page,
        prev: 0,
        change,
    }
}

// The LLSN and the length of the mtr that the bytes are; 0 where they are none.
fn sum_of(alloc: Global, bytes: &[u8]) -> u64 {
    match decode(alloc, bytes) {
        Ok((mtr, length)) => mtr.llsn.wrapping_add(length as u64),
        Err(_) => 0,
    }
}
