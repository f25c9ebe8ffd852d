//! Opening the logs, each on its disk, and taking the disks back.

ghost use Rattle.std.specs.Prelude.{◌≡◌, [], ◌∷◌, ◌++◌, ◌+◌, ◌<◌, ◌≤◌, length, map, vec_capacity, IfOk, IfErr, OnOk};
ghost use Rattle.mp_files.specs.Nine.{seen_at, EachTells, KeptLogs};
ghost use Rattle.mp_opening.specs.OpeningLogs.{run_refused_by_log, LogsFind, LogsCause, OpensFirst, RefusesAtFirst, AreOpenedOn, StopsAt};

use crate::refusals::ClusterRefusal;
use mp_log::{Log, LogRefusal, Unopened};
use mp_outside::Disk;
use std::alloc::Global;

/// Opens eight logs, from primary 1 on, each on its disk, which is taken out of the list; the list is left empty, with
/// room for all of them. `Log` comes exactly for the first log that is off its grammar, at its first fault; `LogDisk` only
/// where the count of faults of that log's disk rose; `Memory`; and no other refusal. After a refusal each disk has its
/// place again, and keeps what it holds.
pub(crate) fn open_logs<D: Disk>(
    alloc: Global,
    disks: &mut Vec<D>,
) -> Result<Vec<Log<D>>, ClusterRefusal>
    requires { length disks.old.items ≡ 8 }
    ensures opened { IfOk result (λ logs. AreOpenedOn D.Disk 1 disks.old.items logs.items) }
    ensures count { IfOk result (λ logs. length logs.items ≡ 8) }
    ensures emptied { OnOk result (disks.new.items ≡ []) }
    ensures room { OnOk result (8 ≤ vec_capacity disks.new) }
    ensures kept { IfErr result (λ refusal. KeptLogs D.Disk disks.old.items disks.new.items) }
    ensures finds { EachTells D.Disk disks.old.items → LogsFind (seen_at D.Disk disks.old.items) result }
    ensures cause { IfErr result (LogsCause D.Disk disks.old.items disks.new.items) }
{
    let Ok(mut logs) = Vec::with_capacity(alloc, 8) else {
        return Err(ClusterRefusal::Memory);
    };
    match open_each(alloc, disks, &mut logs) {
        Ok(()) => Ok(logs),
        Err(refusal) => {
            put_before(logs, disks);
            Err(refusal)
        }
    }
}

// Opens the logs from primary 1 on, until one is refused. Each that is opened goes to the end of the logs, with its disk.
fn open_each<D: Disk>(
    alloc: Global,
    disks: &mut Vec<D>,
    logs: &mut Vec<Log<D>>,
) -> Result<(), ClusterRefusal>
    requires eight { length disks.old.items ≡ 8 }
    requires none { logs.old.items ≡ [] }
    requires room { 8 ≤ vec_capacity logs.old }
    ensures opened { OnOk result (AreOpenedOn D.Disk 1 disks.old.items logs.new.items) }
    ensures emptied { OnOk result (disks.new.items ≡ []) }
    ensures stops { IfErr result (λ refusal. StopsAt D.Disk refusal disks.old.items disks.new.items logs.new.items) }
    ensures capacity { vec_capacity disks.old ≤ vec_capacity disks.new }
{
    for place in 0..8u8 {
        match open_first(alloc, place + 1, disks) {
            Ok(log) => logs.push_reserved(log),
            Err(refusal) => return Err(of_log(place + 1, refusal)),
        }
    }
    Ok(())
}

// Opens the log of a primary on the first disk, which is taken out; a refusal puts it back.
fn open_first<D: Disk>(alloc: Global, primary: u8, disks: &mut Vec<D>) -> Result<Log<D>, LogRefusal>
    requires some { 0 < length disks.old.items }
    ensures opened { IfOk result (OpensFirst D.Disk primary disks.old.items disks.new.items) }
    ensures refused { IfErr result (RefusesAtFirst D.Disk primary disks.old.items disks.new.items) }
    ensures capacity { vec_capacity disks.old ≤ vec_capacity disks.new }
{
    let disk = disks.remove(0);
    match Log::open(alloc, disk, primary) {
        Ok(log) => Ok(log),
        Err(Unopened { refusal, disk }) => {
            put_first(disk, disks);
            Err(refusal)
        }
    }
}

/// Puts the disks of logs before those of a list, in their order. There is room for them, and it takes no memory.
pub(crate) fn put_before<D: Disk>(logs: Vec<Log<D>>, disks: &mut Vec<D>)
    requires { length logs.items + length disks.old.items ≤ vec_capacity disks.old }
    ensures { disks.new.items ≡ map (λ log. log.disk) logs.items ++ disks.old.items }
{
    let mut logs = logs;
    for taken in 0..logs.len() {
        move_last(&mut logs, disks);
    }
    logs.destroy_empty();
}

// Takes the last log, and puts its disk before the others.
fn move_last<D: Disk>(logs: &mut Vec<Log<D>>, disks: &mut Vec<D>)
    requires some { 0 < length logs.old.items }
    requires room { length disks.old.items < vec_capacity disks.old }
    ensures all { map (λ log. log.disk) logs.new.items ++ disks.new.items
        ≡ map (λ log. log.disk) logs.old.items ++ disks.old.items }
    ensures logs { length logs.new.items + 1 ≡ length logs.old.items }
    ensures disks { length disks.new.items ≡ length disks.old.items + 1 }
    ensures capacity { vec_capacity disks.old ≤ vec_capacity disks.new }
{
    match logs.pop() {
        Some(log) => put_first(log.into_disk(), disks),
        None => unreachable!(),
    }
}

// Puts a disk before the others, in a free place.
fn put_first<D>(disk: D, disks: &mut Vec<D>)
    requires { length disks.old.items < vec_capacity disks.old }
    ensures items { disks.new.items ≡ disk ∷ disks.old.items }
    ensures capacity { vec_capacity disks.old ≤ vec_capacity disks.new }
{
    match disks.insert(0, disk) {
        Ok(()) => (),
        Err(_) => unreachable!(),
    }
}

// A refusal of a primary's log, as one of a run.
fn of_log(primary: u8, refusal: LogRefusal) -> ClusterRefusal
    ensures { result ≡ run_refused_by_log primary refusal }
{
    match refusal {
        LogRefusal::Fault { place } => ClusterRefusal::Log { primary, place },
        LogRefusal::Disk => ClusterRefusal::LogDisk { primary },
        LogRefusal::Memory => ClusterRefusal::Memory,
    }
}
