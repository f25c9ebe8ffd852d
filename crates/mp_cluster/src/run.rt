//! A script run on a thread for each primary.
ghost use Rattle.std.specs.Prelude.{◌≡◌, ◌≤◌, [], length, map, vec_capacity, IfOk, IfErr};
ghost use Rattle.mp_model.specs.declared.transcripts.Mode.TheVariants.{Run};
ghost use Rattle.mp_report.specs.Readable.{IsReadable};
ghost use Rattle.mp_script.specs.Spelling.{IsSpelled};
ghost use Rattle.mp_files.specs.Nine.{AllTell, Every, KeptDisk, StillNine, as_read};
ghost use Rattle.mp_members.specs.Running.{logs_of};
ghost use Rattle.mp_opening.specs.Openings.{RunCause};
ghost use Rattle.mp_cluster.specs.Runs.{DownsHaveFailed, IsLegalRun, IsLeftOfRun, RunFinds, RunLeaves, transactions_of};
ghost use Rattle.mp_cluster.specs.StepRuns.{AreLinedUp, AreStillThere, IsToldRun};

use crate::running::{end_run, open_and_line_up, or_refuse};
use crate::transcripts::run_transcript_of;
use mp_core_trx::Base;
use mp_files::Disks;
use mp_gates::Gate;
use mp_members::Members;
use mp_model::{Memory, Transcript};
use mp_opening::ClusterRefusal;
use mp_outcome::law_left_outcome;
use mp_outside::Disk;
use mp_script::Script;
use mp_threads::run_apart;
use std::alloc::Global;
use std::sync::Wait;
use std::thread::Threads;

/// Runs a script over nine disks, each primary on a thread of its own: opens them, lines up the script's primaries, lets each
/// take turns until each statement is answered, and puts the logs' disks back in their order, whatever it answers. There are
/// eight logs. The transcript, of mode `Run`, has a part for each primary, is legal for the script over what the disks held, and
/// readable. It tells each primary that went down, and with which one: that one's log's count of faults rose. The store is read
/// alone. Whatever a crash then leaves is sound, and the commits that recovery keeps of it are closed for the transcript.
///
/// From run to run the replies, views and timestamps may differ, as far as the rules for mode `Run` let them, and so may who goes
/// down, and with whom. A primary's part has the statements of its sessions, each once, those of a session in their order; which
/// session's comes first may differ. The gate is called before the first try of each statement, on its primary's thread.
///
/// `Store`, `StoreDisk`, `Log`, `LogDisk`, `NeedsRecover`, `NotClean` and `Spent` come as `open_nine` has them, in that
/// order, before anything is written, and leave the disks as they were. `Memory` only for want of memory, at any time. It
/// isn't promised to return. `docs/language.md` says how statements of several sessions are answered.
pub fn run_all<R: Threads + Wait + Sync, D: Disk + Drop + Send, G: Gate + Sync>(
    rt: &R,
    alloc: Global,
    script: &Script,
    disks: &mut Disks<D>,
    gate: &G,
) -> Result<Transcript, ClusterRefusal>
    requires eight { length disks.old.logs.items ≡ 8 }
    requires spelled { IsSpelled script.now }
    // All nine disks stand and tell what they told, no count of faults fell, and the store is as it was.
    ensures nine { StillNine D.Disk disks.old disks.new }
    ensures store { KeptDisk D.Disk disks.old.store disks.new.store }
    ensures finds { AllTell D.Disk disks.old → RunFinds (as_read D.Disk disks.old) (transactions_of script.now) result }
    ensures untouched { IfErr result (RunLeaves D.Disk disks.old disks.new) }
    ensures cause { IfErr result (RunCause D.Disk disks.old disks.new) }
    ensures legal { IfOk result (IsLegalRun D.Disk disks.old script.now) }
    ensures readable { IfOk result IsReadable }
    ensures mode { IfOk result (λ transcript. transcript.mode ≡ Run) }
    ensures downs { IfOk result (DownsHaveFailed D.Disk disks.old disks.new) }
    // Whatever a crash now leaves, recovery keeps what the transcript acknowledges, and what that rests on.
    ensures left { AllTell D.Disk disks.old → IfOk result (λ transcript.
        Every D.Disk disks.new (IsLeftOfRun (as_read D.Disk disks.old) script.now transcript)) }
{
    let (base, members) = open_and_line_up(alloc, script, disks)?;
    let told = run_members(rt, alloc, script, base, members, &mut disks.logs, gate);
    or_refuse(told)
}

// Runs a script by members that were lined up for it, and puts the logs' disks back into their list, which is empty and has room for
// them, whatever it answers.
fn run_members<R: Threads + Wait + Sync, D: Disk + Drop + Send, G: Gate + Sync>(
    rt: &R,
    alloc: Global,
    script: &Script,
    base: Base,
    mut members: Members<D>,
    disks: &mut Vec<D>,
    gate: &G,
) -> Result<Transcript, Memory>
    requires spelled { IsSpelled script.now }
    requires lined_up { AreLinedUp D.Disk script.now base members }
    requires none { disks.old.items ≡ [] }
    requires room { length (logs_of members) ≤ vec_capacity disks.old }
    ensures there { AreStillThere D.Disk (map (λ log. log.disk) (logs_of members)) disks.new.items }
    ensures told { IfOk result (IsToldRun D.Disk script.now members.shared.opening Run (map (λ log. log.disk) (logs_of members)) disks.new.items) }
{
    // It does nothing: what a crash may leave rests on it.
    law_left_outcome();
    let ran = run_apart(rt, alloc, script, &mut members, gate);
    let ended = end_run(alloc, members, disks);
    ran?;
    let (_, lists, downs) = ended?;
    run_transcript_of(alloc, base.ts, lists, downs)
}
