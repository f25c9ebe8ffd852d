//! The log.

ghost use Rattle.std.specs.Prelude.{◌≡◌, ◌≢◌, Some, None, IfOk, IfErr, ◌<◌, ◌≤◌, [], ◌∷◌, ◌++◌, List, ℕ, true, false, length, IsTrue, OnOk, OnErr, IsOk, IsErr};
ghost use Rattle.mp_outside.specs.Faults.{Rose};
ghost use Rattle.mp_outside.specs.Disks.{Counts, Quiet};
ghost use Rattle.mp_gated.specs.Gates.{calls_after, CallsMade};
ghost use Rattle.mp_cells.specs.declared.records.Mtr.{Mtr};
ghost use Rattle.mp_cells.specs.Mtrs.{IsMtr};
ghost use Rattle.mp_redo.specs.Spelling.{mtr_bytes};
ghost use Rattle.mp_log.specs.declared.refusals.LogRefusal.TheVariants.{Fault};
ghost use Rattle.mp_log.specs.declared.refusals.LogRefusal.TheVariants as LogRefusal;
ghost use Rattle.mp_log.specs.Reading.{log_fault};
ghost use Rattle.mp_log.specs.Opening.{IsOpened, first_above};
ghost use Rattle.mp_log.specs.Logs.{IsLog, IsText, with_batch, HoldsOnly, HoldsEither};
ghost use Rattle.mp_log.specs.Tails.{room_of, LogStands};

use crate::batches::Llsns;
use crate::bodies::Body;
use crate::opening::{Opened, open_at_end};
use crate::refusals::LogRefusal;
use crate::tails::Tail;
use mp_cells::Mtr;
use mp_gated::write_gated;
use mp_outside::{Disk, Failed};
use std::alloc::Global;
use std::marker::Model;

/// The log of a primary, open at its end. It owns its disk.
#[derive(Debug, Drop)]
pub struct Log<D: Disk> {
    disk: D,
    tail: Tail,
    body: Body,
    llsns: Llsns,
}

impl<D: Disk> Model for Log<D> {
    ghost use Rattle.mp_log.specs.Tails.{LogView};

    ghost Value = { LogView D };

    ghost view = { λ log. record { disk = log.disk; tail = log.tail; llsns = log.llsns.items } };
}

/// A disk whose log wasn't opened, and why.
#[derive(Debug, Drop)]
pub struct Unopened<D: Disk> {
    pub refusal: LogRefusal,
    pub disk: D,
}

impl<D: Disk> Log<D> {
    /// OpensLog the log of a primary (1 to 8) on its disk, at its end. It takes its memory, syncs the disk, so that what it
    /// reads is what a crash leaves, and reads all open batches. A refusal hands the disk back, which reads as before:
    /// `Fault` exactly where the file is off the grammar of that primary's logs, at the place of the first fault; `Disk`
    /// only where the disk's count of faults rose; `Memory`. `docs/formats.md` has the grammar and the places.
    pub fn open(alloc: Global, disk: D, node: u8) -> Result<Log<D>, Unopened<D>>
        // What is opened holds batches that the primary's log may hold, whose LLSNs are known, and nothing is appended.
        ensures opened { IsTrue (D.tells disk) → IfOk result (λ log. IsOpened node log.tail log.llsns (D.seen log.disk) (D.image log.disk)) }
        // The text of such batches isn't a fault.
        ensures only { (batches : List (List Mtr)) (place : ℕ) → IsTrue (D.tells disk) → IsLog node batches → IsText batches (D.seen disk) → IfErr result (λ unopened. unopened.refusal ≢ Fault place) }
        // Which fault it is.
        ensures fault { (place : ℕ) → IsTrue (D.tells disk) → IfErr result (λ unopened. unopened.refusal ≡ Fault place → log_fault node (D.seen disk) ≡ Some place) }
        ensures live { IfOk result (λ log. log.tail.live ≡ true) }
        ensures node { IfOk result (λ log. log.tail.node ≡ node) }
        ensures nothing { IfOk result (λ log. log.tail.bytes ≡ []) }
        // Where no LLSN that was read is above one, the last isn't.
        ensures last { IfOk result (λ log. (llsn : ℕ) → first_above llsn log.llsns ≡ None → log.tail.last ≤ llsn) }
        ensures tells { IfOk result (λ log. D.tells log.disk ≡ D.tells disk) }
        ensures quiet { IfOk result (λ log. Quiet (D.seen disk) (D.image disk) (D.seen log.disk) (D.image log.disk)) }
        ensures still_tells { IfErr result (λ unopened. D.tells unopened.disk ≡ D.tells disk) }
        ensures still_quiet { IfErr result (λ unopened. Quiet (D.seen disk) (D.image disk) (D.seen unopened.disk) (D.image unopened.disk)) }
        ensures count { IfOk result (λ log. D.faults disk ≤ D.faults log.disk) }
        ensures still_count { IfErr result (λ unopened. D.faults disk ≤ D.faults unopened.disk) }
        ensures cause { IfErr result (λ unopened. unopened.refusal ≡ LogRefusal.Disk → Rose (D.faults disk) (D.faults unopened.disk)) }
    {
        let mut disk = disk;
        match open_at_end(alloc, &mut disk, node) {
            Ok(Opened { tail, body, llsns }) => Ok(Log {
                disk,
                tail,
                body,
                llsns,
            }),
            Err(refusal) => Err(Unopened { refusal, disk }),
        }
    }

    /// The least LLSN above this one that was read when the log was opened.
    pub fn first_above(&self, llsn: u64) -> Option<u64>
        ensures { result ≡ first_above llsn self.now.llsns }
    {
        for other in self.llsns.as_slice() {
            if llsn < *other {
                return Some(*other);
            }
        }
        None
    }

    /// Whether it takes mtrs: until a `force` is refused.
    pub fn is_open(&self) -> bool
        ensures { result ≡ self.now.tail.live }
    {
        self.tail.is_live()
    }

    /// How many bytes of mtrs may still be appended before the next `force`: 65,536, less what was appended since the
    /// last.
    pub fn room(&self) -> usize
        ensures { result ≡ room_of self.now.tail }
    {
        self.tail.room()
    }

    /// The LLSN of the last mtr that was read or appended; 0 where there is none. An mtr that is appended has one above it.
    pub fn last(&self) -> u64
        ensures { result ≡ self.now.tail.last }
    {
        self.tail.last()
    }

    /// The primary whose log it is.
    pub fn node(&self) -> u8
        ensures { result ≡ self.now.tail.node }
    {
        self.tail.node()
    }

    /// Hands the disk back as it is, also where the log is closed. What was appended and not forced is given up.
    pub fn into_disk(self) -> D
        ensures { result ≡ self.disk }
    {
        let Log { disk, .. } = self;
        disk
    }

    /// Adds an mtr to those that the next `force` writes. The log is open, the mtr is its primary's and may stand in a
    /// log, there is room for it, and its LLSN is above all before. It takes no memory and leaves the disk alone.
    pub fn append(&mut self, mtr: &Mtr)
        requires live { self.old.tail.live ≡ true }
        requires sound { IsMtr mtr.now }
        requires node { mtr.now.node ≡ self.old.tail.node }
        requires room { length (mtr_bytes mtr.now) ≤ room_of self.old.tail }
        requires above { self.old.tail.last < mtr.now.llsn }
        ensures disk { self.new.disk ≡ self.old.disk }
        ensures llsns { self.new.llsns ≡ self.old.llsns }
        ensures tail { self.new.tail ≡ record self.old.tail { last = mtr.now.llsn; bytes = self.old.tail.bytes ++ mtr_bytes mtr.now } }
        // What the log holds stays, and the mtr is appended to what was.
        ensures appended { (batches : List (List Mtr)) (pending : List Mtr)
            → LogStands batches pending self.old.tail (D.seen self.old.disk) (D.image self.old.disk)
            → LogStands batches (pending ++ mtr.now ∷ []) self.new.tail (D.seen self.new.disk) (D.image self.new.disk) }
    {
        self.tail.append(mtr);
    }

    /// Makes what was appended safe as one batch. The log is open. With nothing appended it answers Ok and touches
    /// nothing. Otherwise it writes the batch behind its closed gate, syncs, opens the gate, and syncs. It is refused
    /// where one of these calls is, and then the log is closed: open it again from its disk. It takes no memory.
    pub fn force(&mut self) -> Result<(), Failed>
        requires { self.old.tail.live ≡ true }
        ensures tells { D.tells self.new.disk ≡ D.tells self.old.disk }
        // After Ok the log holds one batch more, and each image holds exactly its batches.
        ensures forced { (batches : List (List Mtr)) (pending : List Mtr) → IsTrue (D.tells self.old.disk)
            → LogStands batches pending self.old.tail (D.seen self.old.disk) (D.image self.old.disk)
            → OnOk result (LogStands (with_batch batches pending) [] self.new.tail (D.seen self.new.disk) (D.image self.new.disk)) }
        // After a refusal each image holds the batches before, or these and the whole new one.
        ensures either { (batches : List (List Mtr)) (pending : List Mtr) → IsTrue (D.tells self.old.disk)
            → LogStands batches pending self.old.tail (D.seen self.old.disk) (D.image self.old.disk)
            → HoldsEither batches (with_batch batches pending) (D.image self.new.disk) }
        // Where the gate wasn't written, each image holds the batches before.
        ensures unreached { (batches : List (List Mtr)) (pending : List Mtr) → IsTrue (D.tells self.old.disk)
            → LogStands batches pending self.old.tail (D.seen self.old.disk) (D.image self.old.disk)
            → D.calls self.new.disk < calls_after 3 (D.calls self.old.disk) → HoldsOnly batches (D.image self.new.disk) }
        ensures nothing { self.old.tail.bytes ≡ [] → IsOk result × (self.new ≡ self.old) }
        ensures emptied { OnOk result (self.new.tail.bytes ≡ []) }
        ensures live { OnOk result (self.new.tail.live ≡ true) }
        ensures closed { OnErr result (self.new.tail.live ≡ false) }
        ensures node { self.new.tail.node ≡ self.old.tail.node }
        ensures last { self.new.tail.last ≡ self.old.tail.last }
        ensures llsns { self.new.llsns ≡ self.old.llsns }
        ensures known { D.known self.old.disk ≤ D.known self.new.disk }
        ensures counts { Counts result (D.faults self.old.disk) (D.faults self.new.disk) }
        // Where something was appended it makes at most four calls of the disk, and after Ok it made four.
        ensures calls { 1 ≤ length self.old.tail.bytes → CallsMade 4 (D.calls self.old.disk) (D.calls self.new.disk) }
        ensures all { 1 ≤ length self.old.tail.bytes → OnOk result (D.calls self.new.disk ≡ calls_after 4 (D.calls self.old.disk)) }
    {
        if self.tail.is_empty() {
            return Ok(());
        }
        self.body.fill(self.tail.bytes());
        match write_gated(&mut self.disk, self.tail.place(), self.body.as_slice()) {
            Ok(()) => {
                self.tail.move_on();
                Ok(())
            }
            Err(Failed) => {
                self.tail.close();
                Err(Failed)
            }
        }
    }
}
