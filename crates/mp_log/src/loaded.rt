//! The batch that a reader has read.

ghost use Rattle.std.specs.Prelude.{◌≡◌, ◌+◌, ◌<◌, ◌≤◌, ◌^◌, [], IsTrue, IfOk, IfSome, length, take, drop};
ghost use Rattle.mp_outside.specs.Disks.{Quiet};
ghost use Rattle.mp_log.specs.Reading.{LogCause, Nexts};

use crate::batches::{Llsns, LogPlace, next_batch};
use crate::refusals::LogRefusal;
use mp_model::Memory;
use mp_outside::Disk;
use std::alloc::Global;
use std::marker::Model;

/// A batch's bytes that weren't given yet, seen as their list. It takes all its memory when it is made.
#[derive(Debug, Drop)]
pub(crate) struct Loaded {
    buffer: Vec<u8>,
    at: usize,
    left: usize,
}

impl Model for Loaded {
    ghost use Rattle.std.specs.Prelude.{◌≡◌, ◌≤◌, ◌+◌, ℕ, List, take, drop, length};

    ghost Value = { List ℕ };

    ghost view = { λ l. take l.left (drop l.at l.buffer.items) };

    ghost invariant = { λ l. (length l.buffer.items ≡ 65536) × (l.at + l.left ≤ 65536) };
}

impl Loaded {
    /// No batch.
    pub fn new(alloc: Global) -> Result<Loaded, Memory>
        ensures { IfOk result (λ loaded. loaded ≡ []) }
    {
        let buffer = vec![in alloc; 0u8; 65536]?;
        Ok(Loaded {
            buffer,
            at: 0,
            left: 0,
        })
    }

    /// The bytes that weren't given yet.
    pub fn bytes(&self) -> &[u8]
        ensures bytes { result.now ≡ self.now }
        ensures most { length result.now ≤ 65536 }
    {
        &self.buffer[self.at..self.at + self.left]
    }

    /// Gives so many of them.
    pub fn skip(&mut self, count: usize)
        requires { count ≤ length self.old }
        ensures { self.new ≡ drop count self.old }
    {
        self.at += count;
        self.left -= count;
    }

    /// Reads the next batch behind the gate at a place, as `next_batch` does.
    pub fn load<D: Disk>(
        &mut self,
        alloc: Global,
        disk: &mut D,
        size: u64,
        place: LogPlace,
        llsns: &mut Llsns,
    ) -> Result<Option<(usize, u64)>, LogRefusal>
        requires gate { place.gate < 2 ^ 63 + 2 ^ 62 }
        requires size { size < 2 ^ 63 }
        ensures tells { D.tells disk.new ≡ D.tells disk.old }
        ensures quiet { Quiet (D.seen disk.old) (D.image disk.old) (D.seen disk.new) (D.image disk.new) }
        ensures exact { IsTrue (D.tells disk.old) → size ≡ length (D.seen disk.old) → Nexts place.node place.last (D.seen disk.old) place.gate llsns.old.items llsns.new.items result }
        ensures bytes { IsTrue (D.tells disk.old) → IfOk result (λ found. IfSome found (λ next. self.new ≡ take next.0 (drop (place.gate + 5) (D.seen disk.old)))) }
        ensures within { IfOk result (λ found. IfSome found (λ next. place.gate + (6 + next.0) ≤ size)) }
        ensures known { D.known disk.new ≡ D.known disk.old }
        ensures count { D.faults disk.old ≤ D.faults disk.new }
        ensures cause { size ≤ D.known disk.old → LogCause (D.faults disk.old) (D.faults disk.new) result }
    {
        match next_batch(alloc, disk, size, place, &mut self.buffer, llsns) {
            Ok(Some((count, end))) => {
                self.at = 0;
                self.left = count;
                Ok(Some((count, end)))
            }
            Ok(None) => Ok(None),
            Err(refusal) => Err(refusal),
        }
    }
}
