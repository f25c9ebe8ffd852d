//! What the runs of a script over nine disks have in common: how they begin and how they end.
ghost use Rattle.std.specs.Prelude.{◌≡◌, ◌≢◌, ℕ, ◌+◌, ◌≤◌, [], length, map, slice_get, vec_capacity, Some, Ok, IfOk, IfErr};
ghost use Rattle.mp_script.specs.DownLines.{down_lines};
ghost use Rattle.mp_script.specs.Spelling.{IsSpelled};
ghost use Rattle.mp_primary.specs.Primaries.{PrimaryView};
ghost use Rattle.mp_members.specs.Running.{downs_in, logs_of};
ghost use Rattle.mp_cluster.specs.Runs.{transactions_of};
ghost use Rattle.mp_cluster.specs.StepRuns.{IsRefusedOver, LinesUpOver, StopsFor};

use mp_core_trx::Base;
use mp_files::Disks;
use mp_lineup::{count_begins, line_up, list_downs, stop};
use mp_members::Members;
use mp_model::{Answers, Downs, Memory, Transcript};
use mp_opening::{ClusterRefusal, open_nine};
use mp_outside::Disk;
use mp_script::Script;
use std::alloc::Global;

/// Opens nine disks for a run of a script, and lines up its members over what the store had reached. Where it refuses, the logs'
/// disks are back in their list.
pub(crate) fn open_and_line_up<D: Disk + Drop>(
    alloc: Global,
    script: &Script,
    disks: &mut Disks<D>,
) -> Result<(Base, Members<D>), ClusterRefusal>
    requires eight { length disks.old.logs.items ≡ 8 }
    requires spelled { IsSpelled script.now }
    ensures lined_up { IfOk result (λ lined_up. LinesUpOver D.Disk script.now disks.old disks.new lined_up.0 lined_up.1) }
    ensures refused { IfErr result (IsRefusedOver D.Disk (transactions_of script.now) disks.old disks.new) }
{
    let begins = count_begins(script.lines.as_slice());
    let opened = open_nine(alloc, disks, begins)?;
    let base = opened.base;
    let Ok(members) = line_up(alloc, script, opened, &mut disks.logs) else {
        return Err(ClusterRefusal::Memory);
    };
    Ok((base, members))
}

/// Ends a run: the numbers of the primaries that gave the answers, in the order in which these were given, the answers of each
/// primary, those of number n at place n - 1, and the `down` lines. It puts the logs' disks back into their list, which is empty and
/// has room for them, whatever it answers.
pub(crate) fn end_run<D: Disk + Drop>(
    alloc: Global,
    members: Members<D>,
    disks: &mut Vec<D>,
) -> Result<(Vec<u8>, Vec<Answers>, Downs), Memory>
    requires numbers { (place : ℕ) (pr : PrimaryView D) → slice_get members.primaries.items place ≡ Some pr → pr.number ≡ place + 1 }
    requires none { disks.old.items ≡ [] }
    requires room { length (logs_of members) ≤ vec_capacity disks.old }
    ensures put_back { disks.new.items ≡ map (λ log. log.disk) (logs_of members) }
    ensures order { IfOk result (λ ended. ended.0.items ≡ members.order.items) }
    ensures lists { IfOk result (λ ended. map (λ list. list.items) ended.1.items
        ≡ map (λ pr. pr.book.answers.items) members.primaries.items) }
    ensures downs { IfOk result (λ ended. ended.2.items ≡ down_lines (downs_in members) 1 (length members.primaries.items)) }
{
    let listed = list_downs(alloc, members.primaries.as_slice());
    // `stop` takes the members, so their order is taken out before.
    let Members {
        shared,
        node,
        primaries,
        idle,
        order,
    } = members;
    let rest = Members {
        shared,
        node,
        primaries,
        idle,
        order: Vec::new(alloc),
    };
    let stopped = stop(alloc, rest, disks);
    let downs = listed?;
    let lists = stopped?;
    Ok((order, lists, downs))
}

/// What a run that began answers: it is refused for want of memory, and for nothing else.
pub(crate) fn or_refuse(told: Result<Transcript, Memory>) -> Result<Transcript, ClusterRefusal>
    ensures answered { IfOk result (λ transcript. told ≡ Ok transcript) }
    ensures stopped { IfErr result StopsFor }
{
    match told {
        Ok(transcript) => Ok(transcript),
        Err(Memory) => Err(ClusterRefusal::Memory),
    }
}
