//! What a view shows.

ghost use Rattle.std.specs.Prelude.{◌≡◌, IfOk};

use mp_model::{Commit, Commits, History, KeyWrite, Memory, Rows, Value, Writes, rows_at};
use std::alloc::Global;
use std::test::Fail;

fn put(alloc: Global, cts: u64, key: u32, value: &[u8]) -> Result<Commit, Memory>
    ensures { IfOk result (λ commit. commit.cts ≡ cts) }
{
    let mut writes = Writes::new(alloc);
    let value = Value::read(value);
    writes.push(KeyWrite { key, value })?;
    Ok(Commit { cts, writes })
}

// Two commits to one key: the lower view shows the first.
#[test]
fn a_view_shows_what_was_committed_at_or_below_it(rt: HostRuntime) -> Result<(), Fail> {
    let mut commits = Commits::new(rt.alloc());
    commits.push(put(rt.alloc(), 1, 5, b"old")?)?;
    commits.push(put(rt.alloc(), 2, 5, b"new")?)?;
    let history = History {
        opening: Rows::new(rt.alloc()),
        commits,
    };
    let rows = rows_at(rt.alloc(), &history, 1)?;
    let found = rows.as_slice().first().map(|row| (row.key, row.value));
    assert_eq!(rt; rows.len(), 1);
    assert!(rt; found == Value::read(b"old").map(|value| (5, value)));
    Ok(())
}
