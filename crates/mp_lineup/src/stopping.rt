//! How a run ends.
ghost use Rattle.std.specs.Prelude.{◌≡◌, ◌≤◌, [], ◌++◌, ◌+◌, length, map, vec_capacity, IfOk};
ghost use Rattle.mp_members.specs.Running.{logs_of};

use crate::putting_back::{end_primaries, put_logs, put_primaries};
use mp_members::Members;
use mp_model::{Answers, Memory};
use mp_outside::Disk;
use mp_primary::Primary;
use std::alloc::Global;

/// Ends a run: the answers of each primary in their order, that of primary n at place n - 1, and the disks of all logs put
/// back into their list, in their order, which is empty and has room for them. `Memory` only for want of memory; the disks
/// are put back all the same.
pub fn stop<D: Disk + Drop>(
    alloc: Global,
    members: Members<D>,
    disks: &mut Vec<D>,
) -> Result<Vec<Answers>, Memory>
    requires none { disks.old.items ≡ [] }
    requires room { length (logs_of members) ≤ vec_capacity disks.old }
    ensures put_back { disks.new.items ≡ map (λ log. log.disk) (logs_of members) }
    ensures answers { IfOk result (λ lists. map (λ list. list.items) lists.items ≡ map (λ pr. pr.book.answers.items) members.primaries.items) }
{
    let Members {
        primaries,
        idle,
        ..
    } = members;
    let lists = end_all(alloc, primaries, disks);
    put_logs(idle, disks);
    lists
}

// Ends the primaries: the answers of each, and the disks of their logs behind those of the list, also where there was no
// memory for the answers' lists.
fn end_all<D: Disk + Drop>(
    alloc: Global,
    primaries: Vec<Primary<D>>,
    disks: &mut Vec<D>,
) -> Result<Vec<Answers>, Memory>
    requires { length disks.old.items + length primaries.items ≤ vec_capacity disks.old }
    ensures items { disks.new.items ≡ disks.old.items ++ map (λ pr. pr.media.log.disk) primaries.items }
    ensures capacity { vec_capacity disks.new ≡ vec_capacity disks.old }
    ensures answers { IfOk result (λ lists. map (λ list. list.items) lists.items ≡ map (λ pr. pr.book.answers.items) primaries.items) }
{
    let Ok(mut lists) = Vec::with_capacity(alloc, primaries.len()) else {
        put_primaries(primaries, disks);
        return Err(Memory);
    };
    end_primaries(primaries, &mut lists, disks);
    Ok(lists)
}
