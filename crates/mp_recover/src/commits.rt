//! Commits whose records were found in logs.

ghost use Rattle.std.specs.Prelude.{◌≡◌, [], ◌∷◌, ◌++◌, OnOk};
ghost use Rattle.mp_recover.specs.Redoing.{commit_ids};

use mp_cells::Record;
use mp_model::{Items, Memory, TrxId};

/// A transaction that committed, and its commit timestamp.
#[derive(Clone, Copy, Debug)]
pub struct CommitId {
    pub id: TrxId,
    pub cts: u64,
}

/// A list of commits.
pub type Ids = Items<CommitId>;

/// Adds the commits that have a record among these.
pub(crate) fn note(ids: &mut Ids, items: &[Record]) -> Result<(), Memory>
    ensures { OnOk result (ids.new.items ≡ ids.old.items ++ commit_ids items.now) }
{
    for item in items {
        note_one(ids, item)?;
    }
    Ok(())
}

fn note_one(ids: &mut Ids, item: &Record) -> Result<(), Memory>
    ensures { OnOk result (ids.new.items ≡ ids.old.items ++ commit_ids (item.now ∷ [])) }
{
    match item {
        Record::Page { .. } => Ok(()),
        Record::Commit { id, cts } => ids.push(CommitId { id: *id, cts: *cts }),
    }
}
