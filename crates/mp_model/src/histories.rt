//! Histories of commits.

ghost use Rattle.std.specs.Prelude.{◌≡◌, List, ◌∷◌, IfOk, OnOk};
ghost use Rattle.mp_model.specs.Folded.{KeysAscend, TimestampsAscend, over, before};

use crate::errors::Memory;
use crate::key_value::{KeyWrite, Rows, Writes, put_write};
use crate::list::Items;
use std::alloc::Global;

/// A commit: its timestamp and its writes in order.
#[derive(Debug, PartialEq, Drop)]
pub struct Commit {
    pub cts: u64,
    pub writes: Writes,
}

/// A list of commits.
pub type Commits = Items<Commit>;

/// The rows of a store as it was opened, and the commits since.
#[derive(Debug, PartialEq, Drop)]
pub struct History {
    pub opening: Rows,
    pub commits: Commits,
}

/// What a run starts from: the greatest timestamp that the store has seen, the count of its taken pages, and its rows.
#[derive(Debug, PartialEq, Drop)]
pub struct Opening {
    pub base: u64,
    pub taken: u32,
    pub rows: Rows,
}

/// The rows that a view shows: the opening's, with the commits at or below the view folded in, in ascending timestamp.
pub fn rows_at(alloc: Global, history: &History, view: u64) -> Result<Rows, Memory>
    requires keys { KeysAscend history.now.opening.items }
    requires timestamps { TimestampsAscend history.now.commits.items }
    ensures rows { IfOk result (λ rows. rows.items ≡ before history.now.opening.items history.now.commits.items view) }
    ensures ascend { IfOk result (λ rows. KeysAscend rows.items) }
{
    let mut rows = Items::new(alloc);
    rows.extend(history.opening.as_slice())?;
    for commit in history.commits.as_slice() {
        put_commit(&mut rows, commit, view)?;
    }
    Ok(rows)
}

// Folds a commit in, where it is at or below the view, before any others.
#[tactic(auto, using(crate::proofs::Folds::before_shown))]
fn put_commit(rows: &mut Rows, commit: &Commit, view: u64) -> Result<(), Memory>
    requires { KeysAscend rows.old.items }
    ensures ok { OnOk result ((others : List Commit) → before rows.new.items others view ≡ before rows.old.items (commit.now ∷ others) view) }
    ensures ascend { KeysAscend rows.new.items }
{
    if commit.cts <= view {
        put_writes(rows, commit.writes.as_slice())?;
    }
    Ok(())
}

/// Does writes, one after another, in rows whose keys ascend. After a refusal some of them may be done.
pub fn put_writes(rows: &mut Rows, writes: &[KeyWrite]) -> Result<(), Memory>
    requires { KeysAscend rows.old.items }
    ensures ok { OnOk result (rows.new.items ≡ over rows.old.items writes.now) }
    ensures ascend { KeysAscend rows.new.items }
{
    for write in writes {
        put_write(rows, *write)?;
    }
    Ok(())
}
