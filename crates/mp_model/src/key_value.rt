//! Rows and writes, and a write into sorted rows.

ghost use Rattle.std.specs.Prelude.{◌≡◌, ℕ, ◌≤◌, nat_lt, nat_le, length, take, drop, filter, OnOk, OnErr};
ghost use Rattle.mp_model.specs.Folded.{KeysAscend, written, value_at, holds_key};

use crate::errors::Memory;
use crate::list::Items;
use crate::values::Value;

/// A row: a key with its value.
#[derive(Clone, Copy, Debug, PartialEq, Eq)]
pub struct KeyValue {
    pub key: u32,
    pub value: Value,
}

/// A write of a transaction: the key gets the value, or its row is gone.
#[derive(Clone, Copy, Debug, PartialEq, Eq)]
pub struct KeyWrite {
    pub key: u32,
    pub value: Option<Value>,
}

/// A list of rows.
pub type Rows = Items<KeyValue>;

/// A list of writes.
pub type Writes = Items<KeyWrite>;

/// Does a write in rows whose keys ascend: its key gets the value, or its row goes. A refusal changes nothing.
pub fn put_write(rows: &mut Rows, write: KeyWrite) -> Result<(), Memory>
    requires { KeysAscend rows.old.items }
    ensures ok { OnOk result (rows.new.items ≡ written rows.old.items write) }
    ensures err { OnErr result (rows.new.items ≡ rows.old.items) }
    ensures ascend { KeysAscend rows.new.items }
{
    let i = place_of(rows.as_slice(), write.key);
    let found = holds_at(rows.as_slice(), i, write.key);
    match write.value {
        Some(value) => {
            let row = KeyValue {
                key: write.key,
                value,
            };
            if !found {
                return rows.insert(i, row);
            }
            rows.replace(i, row);
        }
        None => {
            if found {
                rows.remove(i);
            }
        }
    }
    Ok(())
}

/// The value at a key, in rows whose keys ascend. None where no row has the key.
pub fn find_value(rows: &Rows, key: u32) -> Option<Value>
    requires { KeysAscend rows.now.items }
    ensures { result ≡ value_at key rows.now.items }
{
    let i = place_of(rows.as_slice(), key);
    if holds_at(rows.as_slice(), i, key) {
        Some(rows.get(i).value)
    } else {
        None
    }
}

/// How many rows have keys below this one, in rows whose keys ascend.
pub fn place_of(rows: &[KeyValue], key: u32) -> usize
    requires { KeysAscend rows.now }
    ensures bound { result ≤ length rows.now }
    ensures below { take result rows.now ≡ filter (λ row. nat_lt row.key key) rows.now }
    ensures above { drop result rows.now ≡ filter (λ row. nat_le key row.key) rows.now }
{
    match rows.binary_search_by_key(&key, |row| row.key) {
        Ok(i) => i,
        Err(i) => i,
    }
}

// Whether the i-th row is there and has the key.
fn holds_at(rows: &[KeyValue], i: usize, key: u32) -> bool
    ensures { result ≡ holds_key key (drop i rows.now) }
{
    match rows.get(i) {
        Some(row) => row.key == key,
        None => false,
    }
}
