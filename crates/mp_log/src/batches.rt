//! Batches read from a disk.

ghost use Rattle.std.specs.Prelude.{◌≡◌, ◌+◌, ◌<◌, ◌≤◌, ◌^◌, ◌++◌, ◌==◌, ◌&&◌, nat_lt, IsTrue, IfOk, IfSome, OnOk, OnErr, length, take, drop};
ghost use Rattle.byteorder.specs.Endian.{little_bytes};
ghost use Rattle.mp_outside.specs.Faults.{Rose};
ghost use Rattle.mp_outside.specs.Disks.{Quiet};
ghost use Rattle.mp_cells.specs.Mtrs.{IsMtr};
ghost use Rattle.mp_redo.specs.Spelling.{mtr_bytes};
ghost use Rattle.mp_redo.specs.Reading.{mtr_at};
ghost use Rattle.mp_log.specs.Reading.{gate_at, is_batch_count, count_at, open_at, mtrs_at, from_place, Tells, LogCause, Checks, Nexts};
ghost use Rattle.mp_log.specs.Opening.{last_or, IsTied};

use crate::refusals::LogRefusal;
use mp_cells::{Mtr, u32_at};
use mp_model::Items;
use mp_outside::{Disk, Failed, byte_at, read_exactly};
use mp_redo::{RedoRefusal, decode};
use std::alloc::Global;

/// The LLSNs of the mtrs that a log held when it was opened, in their order.
pub type Llsns = Items<u64>;

/// A place in a node's log: a gate, and the LLSN of the last mtr before it.
#[derive(Clone, Copy, Debug)]
pub(crate) struct LogPlace {
    pub node: u8,
    pub gate: u64,
    pub last: u64,
}

/// The byte of an open gate. Any other byte is a closed one.
pub(crate) const OPEN: u8 = 165;

/// The most bytes of mtrs in a batch.
pub(crate) const MOST_BYTES: usize = 65536;

/// Whether the gate at a place is open, in a file of this size.
pub(crate) fn gate_at<D: Disk>(disk: &mut D, size: u64, place: u64) -> Result<bool, LogRefusal>
    requires { place < 2 ^ 63 + 2 ^ 62 }
    ensures tells { D.tells disk.new ≡ D.tells disk.old }
    ensures quiet { Quiet (D.seen disk.old) (D.image disk.old) (D.seen disk.new) (D.image disk.new) }
    ensures exact { IsTrue (D.tells disk.old) → size ≡ length (D.seen disk.old) → Tells (gate_at (D.seen disk.old) place) result }
    ensures within { IfOk result (λ is_open. place < size) }
    ensures known { D.known disk.new ≡ D.known disk.old }
    ensures count { D.faults disk.old ≤ D.faults disk.new }
    ensures cause { size ≤ D.known disk.old → LogCause (D.faults disk.old) (D.faults disk.new) result }
{
    if size <= place {
        return Err(LogRefusal::Fault { place });
    }
    Ok(byte_at(disk, place)? == OPEN)
}

// The count behind the gate at a place.
fn read_count<D: Disk>(disk: &mut D, gate: u64) -> Result<u32, Failed>
    requires { gate < 2 ^ 63 + 2 ^ 62 }
    ensures tells { D.tells disk.new ≡ D.tells disk.old }
    ensures quiet { Quiet (D.seen disk.old) (D.image disk.old) (D.seen disk.new) (D.image disk.new) }
    ensures spelled { IsTrue (D.tells disk.old) → IfOk result (λ count. take 4 (drop (gate + 1) (D.seen disk.old)) ≡ little_bytes 4 count) }
    ensures small { IfOk result (λ count. count < 2 ^ 32) }
    ensures known { D.known disk.new ≡ D.known disk.old }
    ensures count { D.faults disk.old ≤ D.faults disk.new }
    ensures cause { gate + 5 ≤ D.known disk.old → OnErr result (Rose (D.faults disk.old) (D.faults disk.new)) }
{
    let mut bytes = [0; 4];
    read_exactly(disk, gate + 1, &mut bytes)?;
    Ok(number_of(&bytes))
}

fn number_of(bytes: &[u8]) -> u32
    requires { 4 ≤ length bytes.now }
    ensures bytes { little_bytes 4 result ≡ take 4 bytes.now }
    ensures small { result < 2 ^ 32 }
{
    u32_at(bytes, 0)
}

fn is_batch_count(size: u64, gate: u64, count: u32) -> bool
    requires { gate < 2 ^ 63 + 2 ^ 62 }
    ensures { result ≡ is_batch_count size gate count }
{
    1 <= count && count <= MOST_BYTES as u32 && gate + (6 + u64::from(count)) <= size
}

/// How many bytes the batch behind the gate at a place has, in a file of this size.
pub(crate) fn count_at<D: Disk>(disk: &mut D, size: u64, gate: u64) -> Result<usize, LogRefusal>
    requires { gate < 2 ^ 63 + 2 ^ 62 }
    ensures tells { D.tells disk.new ≡ D.tells disk.old }
    ensures quiet { Quiet (D.seen disk.old) (D.image disk.old) (D.seen disk.new) (D.image disk.new) }
    ensures exact { IsTrue (D.tells disk.old) → size ≡ length (D.seen disk.old) → Tells (count_at (D.seen disk.old) gate) result }
    ensures spelled { IsTrue (D.tells disk.old) → IfOk result (λ count. take 4 (drop (gate + 1) (D.seen disk.old)) ≡ little_bytes 4 count) }
    ensures fits { IfOk result (λ count. IsTrue (is_batch_count size gate count)) }
    ensures known { D.known disk.new ≡ D.known disk.old }
    ensures count { D.faults disk.old ≤ D.faults disk.new }
    ensures cause { size ≤ D.known disk.old → LogCause (D.faults disk.old) (D.faults disk.new) result }
{
    if size < gate + 5 {
        return Err(LogRefusal::Fault { place: gate + 1 });
    }
    let count = read_count(disk, gate)?;
    if is_batch_count(size, gate, count) {
        Ok(count as usize)
    } else {
        Err(LogRefusal::Fault { place: gate + 1 })
    }
}

/// How many bytes the batch behind the gate at a place has, in a file of this size; none where the gate is closed.
pub(crate) fn open_at<D: Disk>(
    disk: &mut D,
    size: u64,
    gate: u64,
) -> Result<Option<usize>, LogRefusal>
    requires { gate < 2 ^ 63 + 2 ^ 62 }
    ensures tells { D.tells disk.new ≡ D.tells disk.old }
    ensures quiet { Quiet (D.seen disk.old) (D.image disk.old) (D.seen disk.new) (D.image disk.new) }
    ensures exact { IsTrue (D.tells disk.old) → size ≡ length (D.seen disk.old) → Tells (open_at (D.seen disk.old) gate) result }
    ensures spelled { IsTrue (D.tells disk.old) → IfOk result (λ open_count. IfSome open_count (λ count. take 4 (drop (gate + 1) (D.seen disk.old)) ≡ little_bytes 4 count)) }
    ensures fits { IfOk result (λ open_count. IfSome open_count (λ count. IsTrue (is_batch_count size gate count))) }
    ensures known { D.known disk.new ≡ D.known disk.old }
    ensures count { D.faults disk.old ≤ D.faults disk.new }
    ensures cause { size ≤ D.known disk.old → LogCause (D.faults disk.old) (D.faults disk.new) result }
{
    if !gate_at(disk, size, gate)? {
        return Ok(None);
    }
    Ok(Some(count_at(disk, size, gate)?))
}

/// The bytes of the batch behind the gate at a place, into the front of a slice.
pub(crate) fn read_batch<D: Disk>(
    disk: &mut D,
    gate: u64,
    count: usize,
    into: &mut [u8],
) -> Result<(), Failed>
    requires gate { gate < 2 ^ 63 + 2 ^ 62 }
    requires count { count ≤ length into.old }
    requires most { length into.old ≤ 65536 }
    ensures tells { D.tells disk.new ≡ D.tells disk.old }
    ensures quiet { Quiet (D.seen disk.old) (D.image disk.old) (D.seen disk.new) (D.image disk.new) }
    ensures bytes { IsTrue (D.tells disk.old) → OnOk result (take count into.new ≡ take count (drop (gate + 5) (D.seen disk.old))) }
    ensures whole { length into.new ≡ length into.old }
    ensures known { D.known disk.new ≡ D.known disk.old }
    ensures count { D.faults disk.old ≤ D.faults disk.new }
    ensures cause { gate + (5 + count) ≤ D.known disk.old → OnErr result (Rose (D.faults disk.old) (D.faults disk.new)) }
{
    let part = &mut into[..count];
    read_exactly(disk, gate + 5, part)
}

// The mtr in front of these bytes, which lie from a place of the file on, and how many bytes it has.
fn mtr_at(alloc: Global, bytes: &[u8], place: u64) -> Result<(Mtr, usize), LogRefusal>
    requires { place + length bytes.now < 2 ^ 64 }
    ensures exact { Tells (from_place place (mtr_at bytes.now)) result }
    ensures spelled { IfOk result (λ found. IsMtr found.0 × (bytes.now ≡ mtr_bytes found.0 ++ drop found.1 bytes.now)) }
    ensures size { IfOk result (λ found. found.1 ≡ length (mtr_bytes found.0)) }
    ensures within { IfOk result (λ found. found.1 ≤ length bytes.now) }
    ensures quiet { LogCause 0 0 result }
{
    match decode(alloc, bytes) {
        Ok(found) => Ok(found),
        Err(RedoRefusal::Fault { place: fault }) => Err(LogRefusal::Fault {
            place: place + fault,
        }),
        Err(RedoRefusal::Memory) => Err(LogRefusal::Memory),
    }
}

// Whether an mtr is of the node and has an LLSN above this one.
fn is_next(mtr: &Mtr, node: u8, last: u64) -> bool
    ensures { result ≡ (mtr.now.node == node && nat_lt last mtr.now.llsn) }
{
    mtr.node == node && last < mtr.llsn
}

/// The LLSN of the last mtr of a batch with these bytes, which lie from a place of the file on, where each mtr is of the
/// node and has an LLSN above the one before. It adds all LLSNs to a list.
pub(crate) fn check_batch(
    alloc: Global,
    node: u8,
    last: u64,
    bytes: &[u8],
    place: u64,
    llsns: &mut Llsns,
) -> Result<u64, LogRefusal>
    requires { place + length bytes.now < 2 ^ 64 }
    ensures { Checks (mtrs_at (length bytes.now) node last bytes.now place) bytes.now node last llsns.old.items llsns.new.items result }
{
    let mut rest = bytes;
    let mut last = last;
    let mut start = place;
    for _ in 0..bytes.len() {
        if rest.is_empty() {
            return Ok(last);
        }
        let (mtr, count) = mtr_at(alloc, rest, start)?;
        if !is_next(&mtr, node, last) {
            return Err(LogRefusal::Fault { place: start });
        }
        llsns.push(mtr.llsn)?;
        last = mtr.llsn;
        rest = rest.split_at(count).1;
        start += count as u64;
    }
    if rest.is_empty() {
        Ok(last)
    } else {
        Err(LogRefusal::Fault { place: start })
    }
}

/// The next batch of a log, behind the gate at a place: how many bytes it has, and the LLSN of its last mtr. None where
/// the gate is closed. Its bytes go into the front of a slice of 65,536, and its LLSNs to the end of a list.
pub(crate) fn next_batch<D: Disk>(
    alloc: Global,
    disk: &mut D,
    size: u64,
    place: LogPlace,
    into: &mut [u8],
    llsns: &mut Llsns,
) -> Result<Option<(usize, u64)>, LogRefusal>
    requires gate { place.gate < 2 ^ 63 + 2 ^ 62 }
    requires size { size < 2 ^ 63 }
    requires room { length into.old ≡ 65536 }
    ensures tells { D.tells disk.new ≡ D.tells disk.old }
    ensures quiet { Quiet (D.seen disk.old) (D.image disk.old) (D.seen disk.new) (D.image disk.new) }
    ensures exact { IsTrue (D.tells disk.old) → size ≡ length (D.seen disk.old) → Nexts place.node place.last (D.seen disk.old) place.gate llsns.old.items llsns.new.items result }
    ensures front { IsTrue (D.tells disk.old) → IfOk result (λ found. IfSome found (λ next. take next.0 into.new ≡ take next.0 (drop (place.gate + 5) (D.seen disk.old)))) }
    ensures whole { length into.new ≡ 65536 }
    ensures tied { IsTied place.last llsns.old.items → IfOk result (λ found. IsTied (last_or place.last found) llsns.new.items) }
    ensures most { IfOk result (λ found. IfSome found (λ next. next.0 ≤ 65536)) }
    ensures within { IfOk result (λ found. IfSome found (λ next. place.gate + (6 + next.0) ≤ size)) }
    ensures known { D.known disk.new ≡ D.known disk.old }
    ensures count { D.faults disk.old ≤ D.faults disk.new }
    ensures cause { size ≤ D.known disk.old → LogCause (D.faults disk.old) (D.faults disk.new) result }
{
    let Some(count) = open_at(disk, size, place.gate)? else {
        return Ok(None);
    };
    read_batch(disk, place.gate, count, into)?;
    let bytes = into.split_at(count).0;
    let end = check_batch(alloc, place.node, place.last, bytes, place.gate + 5, llsns)?;
    Ok(Some((count, end)))
}
