//! Primaries on threads of their own.
ghost use Rattle.std.specs.Thread.{IsSync};
ghost use denote.Param.Send.{IsSend};
ghost use Rattle.mp_threads.specs.Threads.{MayRun, RanAlone, AllMayRun, AllRanAlone};

use crate::on_thread::run_one;
use crate::runner::Runner;
use mp_gates::Gate;
use mp_outside::Disk;
use mp_primary::Primary;
use mp_shared::Shared;
use std::sync::Wait;
use std::thread::{Threads, join_mut};

/// Runs each primary to its end, all but the first on threads that it starts. Where no thread can be made, the later ones
/// run behind the first.
#[cycle(runs)]
pub(crate) fn run_from<R: Threads + Wait + Sync, D: Disk + Drop + Send, G: Gate + Sync>(
    rt: &R,
    shared: &Shared,
    gate: &G,
    primaries: &mut [Primary<D>],
    runners: &mut [Runner],
)
    requires may { AllMayRun D.Disk shared.now primaries.old runners.old }
    ensures ran { AllRanAlone D.Disk shared.now primaries.old primaries.new runners.old runners.new }
{
    let Some((primary, primaries)) = primaries.split_first_mut() else {
        return;
    };
    let Some((runner, runners)) = runners.split_first_mut() else {
        return;
    };
    run_beside(rt, shared, gate, primary, primaries, runner, runners);
}

// Runs a primary on this thread, and beside it the others.
#[cycle(runs)]
fn run_beside<R: Threads + Wait + Sync, D: Disk + Drop + Send, G: Gate + Sync>(
    rt: &R,
    shared: &Shared,
    gate: &G,
    primary: &mut Primary<D>,
    primaries: &mut [Primary<D>],
    runner: &mut Runner,
    runners: &mut [Runner],
)
    requires one { MayRun D.Disk shared.now primary.old runner.old }
    requires others { AllMayRun D.Disk shared.now primaries.old runners.old }
    ensures one { RanAlone D.Disk shared.now primary.old primary.new runner.old runner.new }
    ensures others { AllRanAlone D.Disk shared.now primaries.old primaries.new runners.old runners.new }
{
    if primaries.is_empty() {
        run_one(rt, shared, gate, primary, runner);
        return;
    }
    join_mut(
        rt,
        &mut ||
            requires { IsSync R.row × IsSync G.row × IsSend D.row × AllMayRun D.Disk shared.now primaries.now runners.now }
            ensures { AllRanAlone D.Disk shared.entry.now primaries.entry.now primaries.exit.now runners.entry.now runners.exit.now }
        { run_from(rt, shared, gate, primaries, runners) },
        &mut ||
            requires { MayRun D.Disk shared.now primary.now runner.now }
            ensures { RanAlone D.Disk shared.entry.now primary.entry.now primary.exit.now runner.entry.now runner.exit.now }
        { run_one(rt, shared, gate, primary, runner) },
    );
}

/// Runs each primary of a list to its end, with what it has on its thread.
pub(crate) fn run_lists<R: Threads + Wait + Sync, D: Disk + Drop + Send, G: Gate + Sync>(
    rt: &R,
    shared: &Shared,
    gate: &G,
    primaries: &mut Vec<Primary<D>>,
    runners: &mut Vec<Runner>,
)
    requires may { AllMayRun D.Disk shared.now primaries.old.items runners.old.items }
    ensures ran { AllRanAlone D.Disk shared.now primaries.old.items primaries.new.items runners.old.items runners.new.items }
{
    run_from(
        rt,
        shared,
        gate,
        primaries.as_mut_slice(),
        runners.as_mut_slice(),
    );
}
