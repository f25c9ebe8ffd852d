//! A run on a thread for each primary.
ghost use Rattle.std.specs.Prelude.{◌≡◌, [], OnOk};
ghost use Rattle.mp_script.specs.Spelling.{IsSpelled};
ghost use Rattle.mp_supports.specs.Work.{Work};
ghost use Rattle.mp_members.specs.Running.{RunsApart, AreSameMembers};
ghost use Rattle.mp_threads.specs.Threads.{EndsApart};

use crate::dealing::deal;
use crate::gathering::gather;
use crate::running::run_lists;
use mp_gates::Gate;
use mp_members::Members;
use mp_model::Memory;
use mp_outside::Disk;
use mp_script::Script;
use std::alloc::Global;
use std::sync::Wait;
use std::thread::Threads;

/// Runs the members of a run that have answered nothing through a script: each primary on a thread of its own, with its part of
/// the table alone, and its sessions by a schedule of its own. The gate is called before the first try of each statement. A
/// statement that waits is tried again, each time after a longer pause. Where no thread can be made for a primary, it runs when
/// those before it have ended.
///
/// A primary goes down where its log fails, or where it needs something of one that is down. Then each statement of its sessions
/// is answered `stopped`, and its transactions stay open. The others go on. It ends where each statement is answered and no
/// primary that is up has anything left to do; it isn't promised to. The answers of each primary are then in its order, and each
/// view that it shows is at or above the commits that it showed before; those of different primaries have no order. A primary is
/// down with its own number only where the count of faults of its log's disk rose.
///
/// `Memory` only for want of memory: of the table, before any primary runs, or of one primary, which then tells the others that it
/// is down, so that they end. The members are still there, with their disks.
pub fn run_apart<R: Threads + Wait + Sync, D: Disk + Drop + Send, G: Gate + Sync>(
    rt: &R,
    alloc: Global,
    script: &Script,
    members: &mut Members<D>,
    gate: &G,
) -> Result<(), Memory>
    requires spelled { IsSpelled script.now }
    requires runs { (work : Work) × RunsApart D.Disk work members.old [] }
    ensures ended { OnOk result (EndsApart D.Disk members.old members.new) }
    ensures same { AreSameMembers D.Disk members.old members.new }
{
    let mut runners = deal(alloc, script, members)?;
    run_lists(
        rt,
        &members.shared,
        gate,
        &mut members.primaries,
        &mut runners,
    );
    if gather(&members.shared, &mut members.node, runners) {
        return Err(Memory);
    }
    Ok(())
}
