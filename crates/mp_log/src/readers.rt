//! Reading a log mtr by mtr.

ghost use Rattle.std.specs.Prelude.{◌≡◌, ◌≤◌, ◌++◌, [], ℕ, List, Option, None, Some, Ok, Err, true, false, IsTrue, IfOk, IfSome, length};
ghost use Rattle.mp_outside.specs.Disks.{Quiet};
ghost use Rattle.mp_cells.specs.declared.records.Mtr.{Mtr};
ghost use Rattle.mp_cells.specs.Mtrs.{IsMtr};
ghost use Rattle.mp_redo.specs.Spelling.{mtr_bytes};
ghost use Rattle.mp_log.specs.declared.readers.State.TheVariants.{Reading, Ended, Refused};
ghost use Rattle.mp_log.specs.declared.refusals.LogRefusal.{LogRefusal};
ghost use Rattle.mp_log.specs.Logs.{batch_bytes, IsLog, IsText};
ghost use Rattle.mp_log.specs.Reading.{next_at, LogCause};
ghost use Rattle.mp_log.specs.Readers.{fresh_reader, LoadsNext, TakesNext, Remains, Fills, Advances, GivesNext};

use crate::batches::{Llsns, LogPlace};
use crate::loaded::Loaded;
use crate::refusals::LogRefusal;
use mp_cells::Mtr;
use mp_model::Memory;
use mp_outside::Disk;
use mp_redo::{RedoRefusal, decode};
use std::alloc::Global;
use std::marker::Model;

/// Whether a reader goes on.
#[derive(Clone, Copy, Debug)]
pub(crate) enum State {
    Reading,
    Ended,
    Refused(LogRefusal),
}

/// Reads the log of a primary from the front, a batch at a time. It holds no disk and at most one batch.
#[derive(Debug, Drop)]
pub struct Reader {
    alloc: Global,
    place: LogPlace,
    batch: Loaded,
    llsns: Llsns,
    state: State,
}

impl Model for Reader {
    ghost use Rattle.std.specs.Prelude.{◌<◌, ◌^◌};
    ghost use Rattle.mp_log.specs.Readers.{ReaderView};

    ghost Value = { ReaderView };

    ghost view = { λ r. record { place = r.place; bytes = r.batch; state = r.state } };

    ghost invariant = { λ r. r.place.gate < 2 ^ 63 };
}

impl Reader {
    /// A reader of a primary's log, before its first mtr.
    pub fn new(alloc: Global, node: u8) -> Result<Reader, Memory>
        ensures { IfOk result (λ reader. reader ≡ fresh_reader node) }
    {
        let batch = Loaded::new(alloc)?;
        let place = LogPlace {
            node,
            gate: 0,
            last: 0,
        };
        Ok(Reader {
            alloc,
            place,
            batch,
            llsns: Llsns::new(alloc),
            state: State::Reading,
        })
    }

    // Reads the next batch. Answers whether there is one.
    fn load<D: Disk>(&mut self, disk: &mut D) -> Result<bool, LogRefusal>
        ensures tells { D.tells disk.new ≡ D.tells disk.old }
        ensures quiet { Quiet (D.seen disk.old) (D.image disk.old) (D.seen disk.new) (D.image disk.new) }
        ensures state { self.new.state ≡ self.old.state }
        ensures exact { IsTrue (D.tells disk.old) → LoadsNext (D.seen disk.old) self.old self.new result }
        ensures node { self.new.place.node ≡ self.old.place.node }
        ensures at_end { IsTrue (D.tells disk.old) → result ≡ Ok false
            → next_at self.old.place.node self.old.place.last (D.seen disk.old) self.old.place.gate ≡ Ok None }
        ensures count { D.faults disk.old ≤ D.faults disk.new }
        ensures cause { LogCause (D.faults disk.old) (D.faults disk.new) result }
    {
        let Ok(size) = disk.length() else {
            return Err(LogRefusal::Disk);
        };
        self.llsns.clear();
        match self
            .batch
            .load(self.alloc, disk, size, self.place, &mut self.llsns)
        {
            Ok(Some((count, end))) => {
                self.place.gate += 5 + count as u64;
                self.place.last = end;
                Ok(true)
            }
            Ok(None) => Ok(false),
            Err(refusal) => Err(refusal),
        }
    }

    // Gives the next mtr of the batch.
    fn take(&mut self) -> Result<Mtr, LogRefusal>
        ensures place { self.new.place ≡ self.old.place }
        ensures state { self.new.state ≡ self.old.state }
        ensures mtr { (mtr : Mtr) (rest : List Mtr) → IsMtr mtr → self.old.bytes ≡ mtr_bytes mtr ++ batch_bytes rest → TakesNext mtr rest self.new result }
        ensures sound { IfOk result (λ mtr. IsMtr mtr) }
        ensures quiet { LogCause 0 0 result }
    {
        match decode(self.alloc, self.batch.bytes()) {
            Ok((mtr, count)) => {
                self.batch.skip(count);
                Ok(mtr)
            }
            // Bytes that were checked have no fault.
            Err(RedoRefusal::Fault { place }) => Err(LogRefusal::Fault { place }),
            Err(RedoRefusal::Memory) => Err(LogRefusal::Memory),
        }
    }

    // Reads the next batch where nothing of this one is left. Answers whether something is.
    fn fill<D: Disk>(&mut self, disk: &mut D) -> Result<bool, LogRefusal>
        ensures tells { D.tells disk.new ≡ D.tells disk.old }
        ensures quiet { Quiet (D.seen disk.old) (D.image disk.old) (D.seen disk.new) (D.image disk.new) }
        ensures state { self.new.state ≡ self.old.state }
        ensures exact { (mtrs : List Mtr) (fault : Option ℕ) → IsTrue (D.tells disk.old) → Remains self.old (D.seen disk.old) mtrs fault → Fills (D.seen disk.old) mtrs fault self.new result }
        ensures node { self.new.place.node ≡ self.old.place.node }
        ensures at_end { IsTrue (D.tells disk.old) → result ≡ Ok false
            → next_at self.old.place.node self.old.place.last (D.seen disk.old) self.old.place.gate ≡ Ok None }
        ensures count { D.faults disk.old ≤ D.faults disk.new }
        ensures cause { LogCause (D.faults disk.old) (D.faults disk.new) result }
    {
        if self.has_left() {
            return Ok(true);
        }
        self.load(disk)
    }

    // Whether something of the batch is left.
    fn has_left(&self) -> bool
        ensures some { result ≡ true → 1 ≤ length self.now.bytes }
        ensures none { result ≡ false → self.now.bytes ≡ [] }
    {
        !self.batch.bytes().is_empty()
    }

    // Gives the next mtr of the log, which may be the first of the next batch.
    fn advance<D: Disk>(&mut self, disk: &mut D) -> Result<Option<Mtr>, LogRefusal>
        ensures tells { D.tells disk.new ≡ D.tells disk.old }
        ensures quiet { Quiet (D.seen disk.old) (D.image disk.old) (D.seen disk.new) (D.image disk.new) }
        ensures state { self.new.state ≡ self.old.state }
        ensures exact { (mtrs : List Mtr) (fault : Option ℕ) → IsTrue (D.tells disk.old) → Remains self.old (D.seen disk.old) mtrs fault → Advances (D.seen disk.old) mtrs fault self.new result }
        ensures sound { IfOk result (λ next. IfSome next (λ mtr. IsMtr mtr)) }
        ensures node { self.new.place.node ≡ self.old.place.node }
        ensures at_end { IsTrue (D.tells disk.old) → result ≡ Ok None
            → next_at self.old.place.node self.old.place.last (D.seen disk.old) self.old.place.gate ≡ Ok None }
        ensures count { D.faults disk.old ≤ D.faults disk.new }
        ensures cause { LogCause (D.faults disk.old) (D.faults disk.new) result }
    {
        match self.fill(disk) {
            Ok(true) => match self.take() {
                Ok(mtr) => Ok(Some(mtr)),
                Err(refusal) => Err(refusal),
            },
            Ok(false) => Ok(None),
            Err(refusal) => Err(refusal),
        }
    }

    /// Gives the next mtr of the log on a disk: those of each batch in order, a batch whole or not at all. None behind
    /// the last, where the next gate is closed, and then again. Each call is given the same disk, whose content doesn't
    /// change between them. A refusal is answered again by the next call: `Fault` where the batch behind the mtrs that
    /// were given is off the grammar, at that place; `Disk` only where the disk's count of faults rose; `Memory`.
    pub fn next<D: Disk>(&mut self, disk: &mut D) -> Result<Option<Mtr>, LogRefusal>
        ensures tells { D.tells disk.new ≡ D.tells disk.old }
        ensures quiet { Quiet (D.seen disk.old) (D.image disk.old) (D.seen disk.new) (D.image disk.new) }
        // What it gives is of the grammar, whatever the disk tells.
        ensures sound { IfOk result (λ next. IfSome next (λ mtr. IsMtr mtr)) }
        // Of what is left it gives the first, or says that nothing is, or names the fault.
        ensures gives { (mtrs : List Mtr) (fault : Option ℕ) → IsTrue (D.tells disk.old) → Remains self.old (D.seen disk.old) mtrs fault → GivesNext (D.seen disk.old) mtrs fault self.new result }
        // Where it comes to the end, the file is the text of batches that the primary's log may hold.
        ensures whole { (mtrs : List Mtr) (fault : Option ℕ) → IsTrue (D.tells disk.old)
            → Remains self.old (D.seen disk.old) mtrs fault → result ≡ Ok None
            → (batches : List (List Mtr)) × IsLog self.old.place.node batches × IsText batches (D.seen disk.old) }
        ensures node { self.new.place.node ≡ self.old.place.node }
        // After an mtr it goes on.
        ensures goes_on { (mtr : Mtr) → result ≡ Ok (Some mtr) → self.new.state ≡ Reading }
        ensures ended { self.old.state ≡ Ended → (result ≡ Ok None) × (self.new ≡ self.old) }
        ensures refused { (refusal : LogRefusal) → self.old.state ≡ Refused refusal → (result ≡ Err refusal) × (self.new ≡ self.old) }
        ensures count { D.faults disk.old ≤ D.faults disk.new }
        ensures cause { self.old.state ≡ Reading → LogCause (D.faults disk.old) (D.faults disk.new) result }
    {
        match self.state {
            State::Ended => Ok(None),
            State::Refused(refusal) => Err(refusal),
            State::Reading => self.go_on(disk),
        }
    }

    // Gives the next mtr, and keeps what comes in its place.
    fn go_on<D: Disk>(&mut self, disk: &mut D) -> Result<Option<Mtr>, LogRefusal>
        ensures tells { D.tells disk.new ≡ D.tells disk.old }
        ensures quiet { Quiet (D.seen disk.old) (D.image disk.old) (D.seen disk.new) (D.image disk.new) }
        ensures goes_on { (mtr : Mtr) → result ≡ Ok (Some mtr) → self.new.state ≡ self.old.state }
        ensures gives { (mtrs : List Mtr) (fault : Option ℕ) → IsTrue (D.tells disk.old) → Remains self.old (D.seen disk.old) mtrs fault → GivesNext (D.seen disk.old) mtrs fault self.new result }
        ensures sound { IfOk result (λ next. IfSome next (λ mtr. IsMtr mtr)) }
        ensures node { self.new.place.node ≡ self.old.place.node }
        ensures at_end { IsTrue (D.tells disk.old) → result ≡ Ok None
            → next_at self.old.place.node self.old.place.last (D.seen disk.old) self.old.place.gate ≡ Ok None }
        ensures count { D.faults disk.old ≤ D.faults disk.new }
        ensures cause { LogCause (D.faults disk.old) (D.faults disk.new) result }
    {
        match self.advance(disk) {
            Ok(Some(mtr)) => Ok(Some(mtr)),
            Ok(None) => {
                self.state = State::Ended;
                Ok(None)
            }
            Err(refusal) => {
                self.state = State::Refused(refusal);
                Err(refusal)
            }
        }
    }
}
