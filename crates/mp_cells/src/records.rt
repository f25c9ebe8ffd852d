//! The records of a log.

ghost use Rattle.std.specs.Prelude.{◌≡◌, ◌<◌, ◌≤◌, [], ◌∷◌, ◌++◌, length, slice_get, Some, IfOk};

use crate::changes::Change;
use mp_model::{Items, Memory, TrxId};
use std::alloc::Global;
use std::marker::Model;

/// What a log records: a change of a page (below 4,096), with the page's LLSN before it, or the commit of a transaction,
/// with its timestamp.
#[derive(Clone, Copy, Debug)]
pub enum Record {
    Page {
        page: u16,
        prev: u64,
        change: Change,
    },
    Commit {
        id: TrxId,
        cts: u64,
    },
}

/// A list of at most 20 records, seen as their list. It takes all its memory when it is made.
#[derive(Debug, Drop)]
pub struct Records {
    items: Items<Record>,
}

impl Model for Records {
    ghost use Rattle.std.specs.Prelude.{List, ◌+◌, ◌≤◌, length};
    ghost use Rattle.mp_cells.specs.declared.records.Record.{Record};

    ghost Value = { List Record };

    ghost view = { λ r. r.items.items };

    ghost invariant = { λ r. (length r.items.items ≤ 20) × (20 ≤ length r.items.items + r.items.spare) };
}

/// A mini-transaction of a primary (1 to 8): records that are applied together, under one LLSN.
#[derive(Debug, Drop)]
pub struct Mtr {
    pub node: u8,
    pub llsn: u64,
    pub records: Records,
}

impl Records {
    /// No records, with room for 20.
    pub fn with_room(alloc: Global) -> Result<Records, Memory>
        ensures { IfOk result (λ records. records ≡ []) }
    {
        let mut items = Items::new(alloc);
        items.reserve(20)?;
        Ok(Records { items })
    }

    /// Adds a record at the end, in a free place. It takes no memory.
    pub fn put(&mut self, item: Record)
        requires { length self.old < 20 }
        ensures { self.new ≡ self.old ++ item ∷ [] }
    {
        self.items.put_all(&[item]);
    }

    /// Leaves the list empty, with its room. It takes no memory.
    pub fn clear(&mut self)
        ensures { self.new ≡ [] }
    {
        self.items.clear();
    }

    /// The count of records.
    pub fn len(&self) -> usize
        ensures count { result ≡ length self.now }
        ensures most { result ≤ 20 }
    {
        self.items.len()
    }

    /// The i-th record, from 0.
    pub fn get(&self, i: usize) -> &Record
        requires { i < length self.now }
        ensures { slice_get self.now i ≡ Some result.now }
    {
        self.items.get(i)
    }

    /// The records as a slice.
    pub fn as_slice(&self) -> &[Record]
        ensures value { result.now ≡ self.now }
        ensures most { length result.now ≤ 20 }
    {
        self.items.as_slice()
    }
}
