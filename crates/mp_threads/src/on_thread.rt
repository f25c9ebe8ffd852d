//! A primary on its thread.
ghost use Rattle.std.specs.Prelude.{◌≡◌, ◌<◌, ◌≤◌, ℕ, true, length, slice_get, None, Some, IfSome, IfOk, OnOk};
ghost use Rattle.mp_schedule.specs.Schedules.{free_try};
ghost use Rattle.mp_members.specs.Running.{IsThrough, IsSameMember};
ghost use Rattle.mp_threads.specs.Threads.{HasOnly, StandsSomehow, GoesAlone, MayRun, RanAlone};
ghost use Rattle.mp_threads.specs.Dealing.{EndsBy, DroveAlone};

use crate::pace::Pace;
use crate::runner::Runner;
use mp_gates::Gate;
use mp_model::{Memory, Turn};
use mp_outside::Disk;
use mp_primary::Primary;
use mp_schedule::Next;
use mp_shared::{Node, Shared};
use mp_steps::{Blank, Ledger, Steps};
use std::marker::Brand;
use std::sync::Wait;

/// Runs a primary to its end, by turns with what it has on its thread. Where there is no memory for one, it tells the others
/// that it is down, and is short.
pub(crate) fn run_one<R: Wait, D: Disk, G: Gate>(
    rt: &R,
    shared: &Shared,
    gate: &G,
    primary: &mut Primary<D>,
    runner: &mut Runner,
)
    requires may { MayRun D.Disk shared.now primary.old runner.old }
    ensures ran { RanAlone D.Disk shared.now primary.old primary.new runner.old runner.new }
{
    let blank = Blank::new(1);
    run_counted::<R, D, G, Brand>(rt, blank, shared, gate, primary, runner);
}

// The same, with a count of steps of its own.
fn run_counted<R: Wait, D: Disk, G: Gate, L: Ledger>(
    rt: &R,
    blank: Blank,
    shared: &Shared,
    gate: &G,
    primary: &mut Primary<D>,
    runner: &mut Runner,
)
    requires name { blank.name ≡ L.name }
    requires parts { (blank.parts ≡ L.parts) × (0 < L.parts) }
    requires may { MayRun D.Disk shared.now primary.old runner.old }
    ensures ran { RanAlone D.Disk shared.now primary.old primary.new runner.old runner.new }
{
    let mut steps = Steps::<L>::new(blank);
    if drive_alone(rt, shared, gate, primary, runner, &mut steps).is_ok() {
        return;
    }
    tell_down(shared, primary, &mut runner.node);
    runner.short = true;
}

// Takes turns by the schedule until the primary is through. `Memory` only for want of memory; it may go on from where it is.
fn drive_alone<R: Wait, D: Disk, G: Gate, L: Ledger>(
    rt: &R,
    shared: &Shared,
    gate: &G,
    primary: &mut Primary<D>,
    runner: &mut Runner,
    steps: &mut Steps<L>,
) -> Result<(), Memory>
    requires may { MayRun D.Disk shared.now primary.old runner.old }
    ensures drove { DroveAlone D.Disk shared.now primary.old primary.new runner.old runner.new }
    ensures through { OnOk result (IsThrough primary.new) }
{
    let mut pace = Pace::of(&runner.schedule);
    for _ in rt.forever() {
        match runner.schedule.next() {
            Next::Try { place, session } => {
                pace.meet(gate, primary.number(), session);
                try_at(shared, primary, runner, place, session, &mut pace, steps)?
            }
            Next::Forget => {
                pace.pause();
                runner.schedule.forget()
            }
            Next::Over => {
                if rest(shared, primary, runner, steps)? {
                    return Ok(());
                }
                pace.pause()
            }
        }
    }
    unreachable!()
}

// Tries what is at a place of the schedule. One that is answered, or of which nothing is left, is over; one that waits is
// marked.
fn try_at<D: Disk, L: Ledger>(
    shared: &Shared,
    primary: &mut Primary<D>,
    runner: &mut Runner,
    place: usize,
    session: u8,
    pace: &mut Pace,
    steps: &mut Steps<L>,
) -> Result<(), Memory>
    requires may { MayRun D.Disk shared.now primary.old runner.old }
    requires place { place < length runner.old.schedule.tries.items }
    requires session { session ≤ 64 }
    ensures drove { DroveAlone D.Disk shared.now primary.old primary.new runner.old runner.new }
{
    match take_turn(shared, primary, &mut runner.node, Some(session), steps)? {
        Turn::Answered => {
            pace.go_on(session);
            runner.schedule.finish(place);
            runner.schedule.forget();
        }
        Turn::Waiting(_) => {
            pace.pause();
            runner.schedule.wait(place);
        }
        Turn::Done | Turn::Stopped(_) => {
            pace.go_on(session);
            runner.schedule.finish(place);
        }
    }
    Ok(())
}

// A turn without a session, behind which it is known whether the primary is through.
fn rest<D: Disk, L: Ledger>(
    shared: &Shared,
    primary: &mut Primary<D>,
    runner: &mut Runner,
    steps: &mut Steps<L>,
) -> Result<bool, Memory>
    requires may { MayRun D.Disk shared.now primary.old runner.old }
    ensures drove { DroveAlone D.Disk shared.now primary.old primary.new runner.old runner.new }
    ensures through { IfOk result (λ over. over ≡ true → IsThrough primary.new) }
{
    match take_turn(shared, primary, &mut runner.node, None, steps)? {
        Turn::Done => Ok(true),
        Turn::Stopped(_) => Ok(primary.is_answered()),
        _ => Ok(false),
    }
}

// A turn of the primary. Where there was no memory for it, it is where it was.
fn take_turn<D: Disk, L: Ledger>(
    shared: &Shared,
    primary: &mut Primary<D>,
    node: &mut Node,
    session: Option<u8>,
    steps: &mut Steps<L>,
) -> Result<Turn, Memory>
    requires stands { StandsSomehow D.Disk shared.now primary.old node.old }
    requires session { IfSome session (λ number. number < 65) }
    ensures on { GoesAlone D.Disk shared.now primary.old primary.new node.old node.new }
    ensures same { IsSameMember D.Disk primary.old primary.new }
    ensures ends { session ≡ None → IfOk result (EndsBy primary.new) }
{
    primary.turn(shared, node, session, steps)
}

// A primary that is short of memory for a turn tells the others that it is down, so that none waits for it.
fn tell_down<D: Disk>(shared: &Shared, primary: &Primary<D>, node: &mut Node)
    requires stands { StandsSomehow D.Disk shared.now primary.now node.old }
    ensures has_only { HasOnly shared.now primary.now.number node.new }
{
    if primary.down() != 0 {
        return;
    }
    let number = primary.number();
    shared.store_down(node, number, number);
}
