//! Turns by the schedule.
ghost use Rattle.std.specs.Prelude.{◌≡◌, List, length, slice_get, Some, OnOk};
ghost use Rattle.mp_supports.specs.Work.{Work};
ghost use Rattle.mp_verdict.specs.Orders.{NodeEntry};
ghost use Rattle.mp_schedule.specs.Schedules.{free_try};
ghost use Rattle.mp_members.specs.Running.{Runs, AreSameMembers};
ghost use Rattle.mp_driver.specs.Driving.{AreOnMembers, RunsSomehow, DrivesOn, RunsToItsEnd};

use crate::causes::is_page_wait;
use crate::places::place_of;
use crate::turning::{serve, settle, turn_at};
use mp_members::Members;
use mp_model::{Memory, Turn};
use mp_outside::Disk;
use mp_schedule::{Next, Schedule};
use mp_script::SessionOn;
use mp_steps::{Ledger, Steps};
use std::sync::Wait;

/// Drives the members of a run through what a schedule has left to try, each session on the primary that it is declared
/// on. A try that is answered, or whose unprinted rollback ended, is over, and all marks are forgotten; one that waits for
/// a page is tried again behind a serving turn of each primary; one that waits for another transaction is marked behind
/// such turns. Where no try may be, the marks are forgotten.
///
/// A primary goes down where its log fails, or where it needs a page of which one that is down holds the lock. Then each
/// statement of its sessions is answered `stopped`, and the tries of those that have none left are over; its transactions
/// stay open. The others go on. It ends where each statement is answered and no primary that is up has anything left to do;
/// it isn't promised to. A primary is down with its own number only where the count of faults of its log's disk rose.
/// `Memory` only for want of memory; the members are still there, with their disks.
pub fn drive<R: Wait, D: Disk + Drop, L: Ledger>(
    rt: &R,
    members: &mut Members<D>,
    sessions: &[SessionOn],
    schedule: &mut Schedule,
    steps: &mut Steps<L>,
) -> Result<(), Memory>
    requires runs { (work : Work) × (given : List NodeEntry) × Runs D.Disk work members.old given }
    requires on { AreOnMembers sessions.now (length members.old.primaries.items) schedule.old.tries.items }
    ensures ended { OnOk result (RunsToItsEnd D.Disk members.old members.new) }
    ensures same { AreSameMembers D.Disk members.old members.new }
{
    for _ in rt.forever() {
        match schedule.next() {
            Next::Try { place, session } => {
                attempt(members, sessions, schedule, place, session, steps)?
            }
            Next::Forget => schedule.forget(),
            Next::Over => {
                if settle(members, steps)? {
                    return Ok(());
                }
            }
        }
    }
    unreachable!()
}

// Tries what is at a place of the schedule.
fn attempt<D: Disk, L: Ledger>(
    members: &mut Members<D>,
    sessions: &[SessionOn],
    schedule: &mut Schedule,
    place: usize,
    session: u8,
    steps: &mut Steps<L>,
) -> Result<(), Memory>
    requires runs { RunsSomehow D.Disk members.old }
    requires on { AreOnMembers sessions.now (length members.old.primaries.items) schedule.old.tries.items }
    requires found { slice_get schedule.old.tries.items place ≡ Some (free_try session) }
    ensures drives { OnOk result (DrivesOn D.Disk members.old members.new) }
    ensures on { OnOk result (AreOnMembers sessions.now (length members.old.primaries.items) schedule.new.tries.items) }
    ensures same { AreSameMembers D.Disk members.old members.new }
{
    let member = place_of(sessions, session, members.primaries.len());
    match turn_at(members, member, Some(session), steps)? {
        Turn::Answered => {
            schedule.finish(place);
            schedule.forget();
        }
        Turn::Waiting(cause) => {
            serve(members, steps)?;
            if !is_page_wait(cause) {
                schedule.wait(place);
            }
        }
        Turn::Done | Turn::Stopped(_) => schedule.finish(place),
    }
    Ok(())
}
