//! Dealing the node of a run out to the threads of its primaries.
ghost use Rattle.std.specs.Prelude.{◌≡◌, false, [], length, IfOk, OnOk};
ghost use Rattle.mp_shared.specs.Nodes.{HoldsPart, Reached, node_of_one, node_without};
ghost use Rattle.mp_script.specs.Spelling.{IsSpelled};
ghost use Rattle.mp_schedule.specs.Schedules.{HasSessions};
ghost use Rattle.mp_supports.specs.Work.{Work};
ghost use Rattle.mp_members.specs.Running.{RunsApart};
ghost use Rattle.mp_threads.specs.Threads.{AllMayRun};
ghost use Rattle.mp_threads.specs.Dealing.{HasLeft, AllDealt, IsDealt};

use crate::runner::Runner;
use mp_members::Members;
use mp_model::Memory;
use mp_outside::Disk;
use mp_schedule::{Schedule, law_schedule_sessions};
use mp_script::Script;
use mp_shared::{Node, Shared};
use std::alloc::Global;

/// What each primary has on its thread, in ascending number: the part of each is split off from the node of the members. `Memory`
/// only for want of memory; some parts may be split off then.
pub(crate) fn deal<D: Disk>(
    alloc: Global,
    script: &Script,
    members: &mut Members<D>,
) -> Result<Vec<Runner>, Memory>
    requires spelled { IsSpelled script.now }
    requires runs { (work : Work) × RunsApart D.Disk work members.old [] }
    ensures rest { IsDealt members.old members.new }
    ensures left { OnOk result (HasLeft members.old.node (length members.old.primaries.items) members.new.node) }
    ensures dealt { IfOk result (λ runners. (work : Work) → RunsApart D.Disk work members.old []
        → AllDealt D.Disk work members.old.shared members.old.primaries.items runners.items) }
    ensures may { IfOk result (λ runners. AllMayRun D.Disk members.old.shared members.old.primaries.items runners.items) }
{
    let mut runners = Vec::new(alloc);
    for place in 0..members.primaries.len() {
        let number = place as u8 + 1;
        let runner = split_off(alloc, script, &members.shared, &mut members.node, number)?;
        runners.push(runner)?;
    }
    Ok(runners)
}

// What one primary has on its thread.
fn split_off(
    alloc: Global,
    script: &Script,
    shared: &Shared,
    node: &mut Node,
    number: u8,
) -> Result<Runner, Memory>
    requires spelled { IsSpelled script.now }
    requires run { node.old.run ≡ shared.now }
    requires part { HoldsPart node.old number }
    requires frames { node.old.frames ≡ [] }
    ensures own { IfOk result (λ runner. (runner.node ≡ node_of_one number node.old) × Reached runner.node) }
    ensures sessions { IfOk result (λ runner. HasSessions runner.schedule.tries.items) }
    ensures enough { IfOk result (λ runner. runner.short ≡ false) }
    ensures rest { OnOk result ((node.new ≡ node_without number node.old) × Reached node.new) }
{
    // It does nothing: that the sessions are 0 to 64 rests on it.
    law_schedule_sessions();
    let schedule = Schedule::of_primary(alloc, script, number)?;
    let own = shared.split(node, number)?;
    Ok(Runner {
        node: own,
        schedule,
        short: false,
    })
}
