//! The bytes of logs, written record by record. Each number is below 256, each value has one byte, and each batch one
//! mtr.

use mp_model::Memory;
use std::alloc::Global;

/// A version of a row: who wrote it, and, as 16 times the page and its place there, where the version before is.
#[derive(Clone, Copy)]
pub struct Version {
    pub key: u8,
    pub value: u8,
    pub node: u8,
    pub version: u8,
    pub link: u8,
}

fn cell_of(row: &Version) -> [u8; 64] {
    let mut cell = [0; 64];
    cell[0] = row.key;
    cell[4] = 1;
    cell[5] = 1;
    cell[8] = row.node;
    cell[12] = row.version;
    cell[16] = row.link;
    cell[24] = row.value;
    cell
}

// The cell of a gone row without a writer.
fn gone_cell(key: u8) -> [u8; 64] {
    let mut cell = [0; 64];
    cell[0] = key;
    cell
}

/// The records of one mtr.
#[derive(Drop)]
pub struct RecordBytes {
    count: u8,
    bytes: Vec<u8>,
}

impl RecordBytes {
    pub fn new(alloc: Global) -> RecordBytes {
        RecordBytes {
            count: 0,
            bytes: Vec::new(alloc),
        }
    }

    // The head of a record: its kind, its page, and the LLSN that the page had.
    fn head(&mut self, kind: u8, page: u8, prev: u8) -> Result<(), Memory> {
        self.count = self.count.saturating_add(1);
        self.bytes
            .extend_from_slice(&[kind, page, 0, prev, 0, 0, 0, 0, 0, 0, 0])?;
        Ok(())
    }

    pub fn take(&mut self, prev: u8, page: u8) -> Result<(), Memory> {
        self.head(9, 0, prev)?;
        self.bytes.extend_from_slice(&[page, 0])?;
        Ok(())
    }

    pub fn make_undo(&mut self, page: u8) -> Result<(), Memory> {
        self.head(3, page, 0)
    }

    pub fn undo_gone(&mut self, page: u8, prev: u8, key: u8) -> Result<(), Memory> {
        self.head(8, page, prev)?;
        self.bytes.extend_from_slice(&gone_cell(key))?;
        Ok(())
    }

    pub fn put_row(&mut self, page: u8, prev: u8, row: &Version) -> Result<(), Memory> {
        self.head(4, page, prev)?;
        self.bytes.extend_from_slice(&cell_of(row))?;
        Ok(())
    }

    /// A new leaf, of rows with keys from `low` on. Its high fence is below 256, or the end of all keys.
    pub fn make_leaf(
        &mut self,
        page: u8,
        low: u8,
        high: Option<u8>,
        rows: &[Version],
    ) -> Result<(), Memory> {
        self.head(1, page, 0)?;
        self.bytes.extend_from_slice(&[low, 0, 0, 0, 0, 0, 0, 0])?;
        match high {
            Some(high) => self.bytes.extend_from_slice(&[high, 0, 0, 0, 0, 0, 0, 0])?,
            None => self.bytes.extend_from_slice(&[0, 0, 0, 0, 1, 0, 0, 0])?,
        }
        self.bytes.push((rows.len() % 256) as u8)?;
        for row in rows {
            self.bytes.extend_from_slice(&cell_of(row))?;
        }
        Ok(())
    }

    /// The root becomes an inner page of two children, of which the second begins with a key.
    pub fn make_root(&mut self, prev: u8, left: u8, key: u8, right: u8) -> Result<(), Memory> {
        self.head(2, 1, prev)?;
        self.bytes
            .extend_from_slice(&[0, 0, 0, 0, 0, 0, 0, 0, 0, 0, 0, 0, 1, 0, 0, 0, 2])?;
        self.bytes.extend_from_slice(&[0, 0, 0, 0, left, 0, 0, 0])?;
        self.bytes
            .extend_from_slice(&[key, 0, 0, 0, right, 0, 0, 0])?;
        Ok(())
    }
}

/// Adds a batch of one mtr. Its gate is open.
pub fn push_mtr(
    log: &mut Vec<u8>,
    node: u8,
    llsn: u8,
    records: &RecordBytes,
) -> Result<(), Memory> {
    let size = records.bytes.len().saturating_add(10);
    log.extend_from_slice(&[0xa5, (size % 256) as u8, (size / 256 % 256) as u8, 0, 0])?;
    log.extend_from_slice(&[node, records.count, llsn, 0, 0, 0, 0, 0, 0, 0])?;
    log.extend_from_slice(&records.bytes)?;
    Ok(())
}

/// Adds the batch of a commit: who wrote the row has the timestamp.
pub fn push_commit(log: &mut Vec<u8>, llsn: u8, row: &Version, cts: u8) -> Result<(), Memory> {
    log.extend_from_slice(&[0xa5, 27, 0, 0, 0, row.node, 1, llsn, 0, 0, 0, 0, 0, 0, 0])?;
    log.extend_from_slice(&[10, row.node, 0, 0, 0, row.version, 0, 0, 0])?;
    log.extend_from_slice(&[cts, 0, 0, 0, 0, 0, 0, 0])?;
    Ok(())
}
