//! What the primary's own sessions tell of a transaction that a row names.
ghost use Rattle.std.specs.Prelude.{◌≡◌, ◌≢◌, ℕ, ◌+◌, ◌<◌, ◌≤◌, ◌==◌, true, false, length, Some, is_some, IfOk, IfErr, OnOk};
ghost use Rattle.std.specs.List.{list_any};
ghost use Rattle.mp_model.specs.declared.ids.TrxName.{TrxName};
ghost use Rattle.mp_script.specs.BeginNames.{begin_names};
ghost use Rattle.mp_cells.specs.Trees.{row_at};
ghost use Rattle.mp_core.specs.OwnMtrs.{same_id, is_id};
ghost use Rattle.mp_supports.specs.Work.{name_of};
ghost use Rattle.mp_primary.specs.Holders.{id_in_turns, may_hold, fits_book, stranger_wait};

use crate::primary::Primary;
use mp_book::{Session, Stage};
use mp_cells::Row;
use mp_model::{NotYet, TrxId, TrxName, WordKind};
use mp_outside::Disk;

impl<D: Disk> Primary<D> {
    // The name of a transaction that holds the key of a session's statement, where the primary's own sessions can tell of it.
    // They are asked since no part alone tells that the page and the slot's word that were read are of one time, nor that
    // another primary's transaction has a version of its own. Where they can't tell, the statement waits.
    pub(crate) fn holder(&self, number: u8, key: u32, id: TrxId) -> Result<TrxName, NotYet>
        requires names { self.now.names ≡ begin_names self.now.work.lines }
        requires above { self.now.work.base.version < id.version }
        requires within { id.version ≤ self.now.work.base.version + length (begin_names self.now.work.lines) }
        ensures fits { IfOk result (λ name. (name_of self.now.work id ≡ Some name) × (fits_book self.now number id key name ≡ true)) }
        ensures stranger { IfErr result (λ wait. (wait ≡ stranger_wait id) × ((name : TrxName)
            × (name_of self.now.work id ≡ Some name) × (fits_book self.now number id key name ≡ false))) }
    {
        let name = self.name_of(id);
        if self.fits_book(number, id, key, name) {
            Ok(name)
        } else {
            Err(stranger_wait(id))
        }
    }

    // Whether a transaction that committed is of another session than the statement's; else the statement waits.
    pub(crate) fn committer(&self, number: u8, id: TrxId) -> Result<(), NotYet>
        requires names { self.now.names ≡ begin_names self.now.work.lines }
        requires above { self.now.work.base.version < id.version }
        requires within { id.version ≤ self.now.work.base.version + length (begin_names self.now.work.lines) }
        ensures apart { OnOk result ((name : TrxName) × (name_of self.now.work id ≡ Some name) × (name.session ≢ number)) }
        ensures stranger { IfErr result (λ wait. (wait ≡ stranger_wait id) × ((name : TrxName)
            × (name_of self.now.work id ≡ Some name) × (name.session ≡ number))) }
    {
        let name = self.name_of(id);
        if name.session == number {
            Err(stranger_wait(id))
        } else {
            Ok(())
        }
    }

    fn fits_book(&self, number: u8, id: TrxId, key: u32, name: TrxName) -> bool
        ensures { result ≡ fits_book self.now number id key name }
    {
        let place = name.session as usize;
        if name.session == number || place >= self.book.sessions.len() {
            return false;
        }
        may_hold(&self.book.sessions[place], id, key)
    }
}

// The word for which a statement waits that met a transaction which doesn't fit the book.
fn stranger_wait(id: TrxId) -> NotYet
    ensures { result ≡ stranger_wait id }
{
    NotYet {
        of: WordKind::Least,
        at: u32::from(id.node),
        seen: 0,
    }
}

// Whether a session may have named this holder of a key.
fn may_hold(session: &Session, id: TrxId, key: u32) -> bool
    ensures { result ≡ may_hold session.now id key }
{
    session.lines.len() == 0
        || (goes_on_with(session.stage, id) && has_row_of(session.formers.as_slice(), key))
}

// Whether a session's turns go on with a transaction.
fn goes_on_with(stage: Stage, id: TrxId) -> bool
    ensures { result ≡ is_id id (id_in_turns stage) }
{
    match stage {
        Stage::Closed => false,
        Stage::Open(trx) => same_id(trx.id, id),
        Stage::Refused(trx, _) => same_id(trx.id, id),
        Stage::Leaving(trx) => same_id(trx.id, id),
        Stage::Skipping => false,
        Stage::Outside(_) => false,
    }
}

fn same_id(one: TrxId, other: TrxId) -> bool
    ensures { result ≡ same_id one other }
{
    one.node == other.node && one.slot == other.slot && one.version == other.version
}

// Whether one of these rows is the key's.
pub(crate) fn has_row_of(rows: &[Row], key: u32) -> bool
    ensures { result ≡ is_some (row_at key rows.now) }
{
    any_row_of(rows, key)
}

fn any_row_of(rows: &[Row], key: u32) -> bool
    ensures { result ≡ list_any (λ row. row.key == key) rows.now }
{
    rows.iter().any(|row| row.key == key)
}
