//! Reading the logs to their ends.

ghost use Rattle.std.specs.Prelude.{◌≡◌, ◌≢◌, ℕ, ◌+◌, ◌<◌, length, slice_get, IsTrue, IfErr};
ghost use Rattle.mp_log.specs.Reading.{LogCause};
ghost use Rattle.mp_log.specs.Readers.{log_mtrs};
ghost use Rattle.mp_files.specs.Nine.{At, seen_at, EachTells, KeptDisk, KeptLogs};
ghost use Rattle.mp_recover.specs.Merging.{MergeCause};
ghost use Rattle.mp_recover.specs.ReadingLogs.{ReadsToEnd, DidRead, ReadsAll};

use crate::merging::refused_as;
use crate::refusals::RecoverRefusal;
use mp_log::{LogRefusal, Reader};
use mp_outside::Disk;
use std::alloc::Global;

/// Reads eight logs to their ends, from primary 1 on. `Log` comes exactly for the first log that is off its grammar, at
/// its first fault; `LogDisk` only where the count of faults of that log's disk rose, and those before it are of their
/// grammar; `Memory`; and no other refusal. The disks are read, and keep what they hold.
pub fn read_logs<D: Disk>(alloc: Global, logs: &mut Vec<D>) -> Result<(), RecoverRefusal>
    requires { length logs.old.items ≡ 8 }
    ensures kept { KeptLogs D.Disk logs.old.items logs.new.items }
    ensures finds { EachTells D.Disk logs.old.items → ReadsAll (seen_at D.Disk logs.old.items) result }
    ensures cause { IfErr result (MergeCause D.Disk logs.old.items logs.new.items) }
{
    for place in 0..8usize {
        match read_at(alloc, logs, place) {
            Ok(()) => (),
            Err(refusal) => return Err(refused_as(place as u8 + 1, refusal)),
        }
    }
    Ok(())
}

// Reads the log at a place to its end.
fn read_at<D: Disk>(alloc: Global, logs: &mut Vec<D>, place: usize) -> Result<(), LogRefusal>
    requires there { place < length logs.old.items }
    requires eight { place < 8 }
    ensures count { length logs.new.items ≡ length logs.old.items }
    ensures others { (k : ℕ) → k ≢ place → slice_get logs.new.items k ≡ slice_get logs.old.items k }
    ensures did { At (DidRead D.Disk (place + 1) result) logs.old.items logs.new.items place }
{
    read_log(alloc, &mut logs[place], place as u8 + 1)
}

// Reads the log of a primary to its end.
fn read_log<D: Disk>(alloc: Global, disk: &mut D, primary: u8) -> Result<(), LogRefusal>
    ensures kept { KeptDisk D.Disk disk.old disk.new }
    ensures finds { IsTrue (D.tells disk.old) → ReadsToEnd (log_mtrs primary (D.seen disk.old)).1 result }
    ensures cause { LogCause (D.faults disk.old) (D.faults disk.new) result }
{
    let mut reader = Reader::new(alloc, primary)?;
    for _ in 0..u64::MAX {
        match reader.next(disk) {
            Ok(Some(mtr)) => drop(mtr),
            Ok(None) => return Ok(()),
            Err(refusal) => return Err(refusal),
        }
    }
    Err(LogRefusal::Memory)
}
