//! What redoing finds out for the header to come.

ghost use Rattle.std.specs.Prelude.{◌≡◌, ◌++◌, [], OnOk};
ghost use Rattle.mp_cells.specs.Mtrs.{IsMtr};
ghost use Rattle.mp_store.specs.HeaderSides.{IsHeader};
ghost use Rattle.mp_recover.specs.Finding.{larger_of, greatest_of, writer_version, row_versions, change_versions, record_versions, records_versions, FoundFits, NotesMtr};
ghost use Rattle.mp_recover.specs.Redoing.{commit_ids};

use crate::commits::{Ids, note};
use mp_cells::{Change, Mtr, Record, Row};
use mp_model::{Memory, TrxId};
use mp_store::Header;
use std::alloc::Global;

/// The commits among mtrs, in their order; the greatest LLSN, and the greatest version of a writer's id, which aren't
/// below those of the header before.
#[derive(Debug, Drop)]
pub struct Found {
    pub ids: Ids,
    pub llsn: u64,
    pub version: u32,
}

impl Found {
    /// What is known before any mtr, by the header in force.
    pub(crate) fn new(alloc: Global, header: &Header) -> Found
        requires { IsHeader header.now }
        ensures ids { result.ids.items ≡ [] }
        ensures llsn { result.llsn ≡ header.now.llsn }
        ensures version { result.version ≡ header.now.version }
        ensures fits { FoundFits result }
    {
        Found {
            ids: Ids::new(alloc),
            llsn: header.llsn,
            version: header.version,
        }
    }

    /// Notes an mtr.
    pub(crate) fn note(&mut self, mtr: &Mtr) -> Result<(), Memory>
        requires mtr { IsMtr mtr.now }
        requires fits { FoundFits self.old }
        ensures ids { OnOk result (self.new.ids.items ≡ self.old.ids.items ++ commit_ids mtr.now.records) }
        ensures notes { NotesMtr mtr.now.llsn mtr.now.records self.old self.new }
        ensures fits { OnOk result (FoundFits self.new) }
    {
        self.llsn = larger(self.llsn, mtr.llsn);
        self.version = newest_version(self.version, mtr.records.as_slice());
        note(&mut self.ids, mtr.records.as_slice())
    }
}

/// The greater of two numbers.
pub(crate) fn larger(most: u64, other: u64) -> u64
    ensures { result ≡ larger_of most other }
{
    if most < other { other } else { most }
}

fn larger_version(most: u32, version: u32) -> u32
    ensures { result ≡ larger_of most version }
{
    if most < version { version } else { most }
}

// The greatest of a version and those in some records.
fn newest_version(most: u32, items: &[Record]) -> u32
    ensures { result ≡ greatest_of most (records_versions items.now) }
{
    let mut newest = most;
    for item in items {
        newest = version_in_record(newest, item);
    }
    newest
}

fn version_in_record(most: u32, item: &Record) -> u32
    ensures { result ≡ greatest_of most (record_versions item.now) }
{
    match item {
        Record::Page { change, .. } => version_in_change(most, change),
        Record::Commit { id, .. } => larger_version(most, id.version),
    }
}

fn version_in_change(most: u32, change: &Change) -> u32
    ensures { result ≡ greatest_of most (change_versions change.now) }
{
    match change {
        Change::MakeLeaf { rows, .. } => version_in_rows(most, rows.as_slice()),
        Change::PutRow { row } | Change::RestoreRow { row } | Change::PutUndo { row } => {
            version_in_row(most, row)
        }
        Change::MakeInner { .. }
        | Change::MakeUndo
        | Change::Cut { .. }
        | Change::PutChild { .. }
        | Change::TakePage { .. } => most,
    }
}

fn version_in_rows(most: u32, rows: &[Row]) -> u32
    ensures { result ≡ greatest_of most (row_versions rows.now) }
{
    let mut newest = most;
    for row in rows {
        newest = version_in_row(newest, row);
    }
    newest
}

fn version_in_row(most: u32, row: &Row) -> u32
    ensures { result ≡ larger_of most (writer_version row.now.writer) }
{
    larger_version(most, version_of_writer(row.writer))
}

fn version_of_writer(writer: Option<TrxId>) -> u32
    ensures { result ≡ writer_version writer }
{
    match writer {
        None => 0,
        Some(id) => id.version,
    }
}
