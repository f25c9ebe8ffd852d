//! Taking the disks back from primaries and from logs.
ghost use Rattle.std.specs.Prelude.{◌≡◌, ◌+◌, ◌≤◌, ◌++◌, length, map, vec_capacity};

use mp_log::Log;
use mp_model::Answers;
use mp_outside::Disk;
use mp_primary::{Ended, Primary};

/// Puts the disks of logs behind those of a list, in their order. There is room for them, and it takes no memory; what was
/// appended and not forced is given up.
pub(crate) fn put_logs<D: Disk + Drop>(logs: Vec<Log<D>>, disks: &mut Vec<D>)
    requires { length disks.old.items + length logs.items ≤ vec_capacity disks.old }
    ensures { disks.new.items ≡ disks.old.items ++ map (λ log. log.disk) logs.items }
{
    let mut logs = logs;
    for _put in 0..logs.len() {
        let log = logs.remove(0);
        disks.push_reserved(log.into_disk());
    }
}

/// Ends primaries, whose answers are given up, and puts the disks of their logs behind those of a list, in their order.
/// There is room for them, and it takes no memory.
pub(crate) fn put_primaries<D: Disk + Drop>(primaries: Vec<Primary<D>>, disks: &mut Vec<D>)
    requires { length disks.old.items + length primaries.items ≤ vec_capacity disks.old }
    ensures items { disks.new.items ≡ disks.old.items ++ map (λ pr. pr.media.log.disk) primaries.items }
    ensures capacity { vec_capacity disks.new ≡ vec_capacity disks.old }
{
    let mut primaries = primaries;
    for _put in 0..primaries.len() {
        let ended = primaries.remove(0).answers();
        disks.push_reserved(ended.disk);
    }
}

/// Ends primaries, and puts their answers behind those of a list and the disks of their logs behind those of another, in
/// their order. There is room for them, and it takes no memory.
pub(crate) fn end_primaries<D: Disk + Drop>(
    primaries: Vec<Primary<D>>,
    lists: &mut Vec<Answers>,
    disks: &mut Vec<D>,
)
    requires room { length disks.old.items + length primaries.items ≤ vec_capacity disks.old }
    requires lists { length lists.old.items + length primaries.items ≤ vec_capacity lists.old }
    ensures items { disks.new.items ≡ disks.old.items ++ map (λ pr. pr.media.log.disk) primaries.items }
    ensures capacity { vec_capacity disks.new ≡ vec_capacity disks.old }
    ensures answers { map (λ list. list.items) lists.new.items
        ≡ map (λ list. list.items) lists.old.items ++ map (λ pr. pr.book.answers.items) primaries.items }
{
    let mut primaries = primaries;
    for _put in 0..primaries.len() {
        let Ended { answers, disk, .. } = primaries.remove(0).answers();
        lists.push_reserved(answers);
        disks.push_reserved(disk);
    }
}
