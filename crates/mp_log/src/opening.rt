//! Logs read from the front.

ghost use Rattle.std.specs.Prelude.{◌≡◌, ◌+◌, ◌<◌, ◌≤◌, ◌^◌, IsTrue, IfOk, OnOk, length, [], true};
ghost use Rattle.mp_outside.specs.Disks.{Quiet, Only, Counts};
ghost use Rattle.mp_log.specs.Reading.{ReadsLog, LogCause};
ghost use Rattle.mp_log.specs.Opening.{OpensLog, IsTied};

use crate::batches::{Llsns, LogPlace, next_batch};
use crate::bodies::Body;
use crate::refusals::LogRefusal;
use crate::tails::Tail;
use mp_model::Memory;
use mp_outside::{Disk, Failed};
use std::alloc::Global;

/// The place of the closed gate of a node's log, in a file of this size, and the LLSN of its last mtr, 0 where it has
/// none. Its LLSNs go to the end of a list; a slice of 65,536 holds a batch at a time.
pub(crate) fn read_batches<D: Disk>(
    alloc: Global,
    disk: &mut D,
    size: u64,
    node: u8,
    into: &mut [u8],
    llsns: &mut Llsns,
) -> Result<(u64, u64), LogRefusal>
    requires size { size < 2 ^ 63 }
    requires room { length into.old ≡ 65536 }
    ensures tells { D.tells disk.new ≡ D.tells disk.old }
    ensures quiet { Quiet (D.seen disk.old) (D.image disk.old) (D.seen disk.new) (D.image disk.new) }
    ensures exact { IsTrue (D.tells disk.old) → size ≡ length (D.seen disk.old) → ReadsLog node (D.seen disk.old) llsns.old.items llsns.new.items result }
    ensures within { IfOk result (λ end. end.0 ≤ size) }
    ensures tied { IsTied 0 llsns.old.items → IfOk result (λ end. IsTied end.1 llsns.new.items) }
    ensures known { D.known disk.new ≡ D.known disk.old }
    ensures count { D.faults disk.old ≤ D.faults disk.new }
    ensures cause { size ≤ D.known disk.old → LogCause (D.faults disk.old) (D.faults disk.new) result }
{
    let mut gate = 0;
    let mut last = 0;
    for _ in 0..size + 1 {
        let place = LogPlace { node, gate, last };
        match next_batch(alloc, disk, size, place, into, llsns) {
            Ok(None) => return Ok((gate, last)),
            Ok(Some((count, end))) => {
                gate += 5 + count as u64;
                last = end;
            }
            Err(refusal) => return Err(refusal),
        }
    }
    Err(LogRefusal::Fault { place: gate })
}

/// What an opened log needs besides its disk.
#[derive(Debug, Drop)]
pub(crate) struct Opened {
    pub tail: Tail,
    pub body: Body,
    pub llsns: Llsns,
}

impl Opened {
    // Of a log of a node without mtrs.
    fn new(alloc: Global, node: u8) -> Result<Opened, Memory>
        ensures tail { IfOk result (λ opened. opened.tail ≡ record { node = node; place = 0; last = 0; live = true; bytes = [] }) }
        ensures llsns { IfOk result (λ opened. opened.llsns.items ≡ []) }
    {
        let tail = Tail::new(alloc, node)?;
        let body = Body::new(alloc)?;
        let llsns = Llsns::new(alloc);
        Ok(Opened { tail, body, llsns })
    }
}

// Makes safe what a disk holds, and answers how many bytes that is.
fn safe_size<D: Disk>(disk: &mut D) -> Result<u64, Failed>
    ensures tells { D.tells disk.new ≡ D.tells disk.old }
    ensures quiet { Quiet (D.seen disk.old) (D.image disk.old) (D.seen disk.new) (D.image disk.new) }
    ensures safe { IsTrue (D.tells disk.old) → OnOk result (Only (D.seen disk.old) (D.image disk.new)) }
    ensures is { IsTrue (D.tells disk.old) → IfOk result (λ size. size ≡ length (D.seen disk.old)) }
    ensures small { IfOk result (λ size. size < 2 ^ 63) }
    ensures known { IfOk result (λ size. D.known disk.new ≡ size) }
    ensures counts { Counts result (D.faults disk.old) (D.faults disk.new) }
{
    disk.sync()?;
    disk.length()
}

/// Takes what a log needs, syncs a disk and reads the log of a node from it.
pub(crate) fn open_at_end<D: Disk>(
    alloc: Global,
    disk: &mut D,
    node: u8,
) -> Result<Opened, LogRefusal>
    ensures tells { D.tells disk.new ≡ D.tells disk.old }
    ensures quiet { Quiet (D.seen disk.old) (D.image disk.old) (D.seen disk.new) (D.image disk.new) }
    ensures exact { IsTrue (D.tells disk.old) → OpensLog node (D.seen disk.old) (D.seen disk.new) (D.image disk.new) result }
    ensures live { IfOk result (λ opened. opened.tail.live ≡ true) }
    ensures node { IfOk result (λ opened. opened.tail.node ≡ node) }
    ensures nothing { IfOk result (λ opened. opened.tail.bytes ≡ []) }
    ensures tied { IfOk result (λ opened. IsTied opened.tail.last opened.llsns.items) }
    ensures count { D.faults disk.old ≤ D.faults disk.new }
    ensures cause { LogCause (D.faults disk.old) (D.faults disk.new) result }
{
    let Ok(mut buffer) = vec![in alloc; 0u8; 65536] else {
        return Err(LogRefusal::Memory);
    };
    let Ok(mut opened) = Opened::new(alloc, node) else {
        return Err(LogRefusal::Memory);
    };
    let Ok(size) = safe_size(disk) else {
        return Err(LogRefusal::Disk);
    };
    match read_batches(alloc, disk, size, node, &mut buffer, &mut opened.llsns) {
        Ok((place, last)) => {
            opened.tail.move_to(place, last);
            Ok(opened)
        }
        Err(refusal) => Err(refusal),
    }
}
