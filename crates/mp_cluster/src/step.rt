//! A script run on one thread.
ghost use Rattle.std.specs.Prelude.{◌≡◌, ◌<◌, ◌≤◌, List, [], length, map, vec_capacity, IfOk, IfErr, OnOk};
ghost use Rattle.mp_model.specs.declared.transcripts.Mode.TheVariants.{Step};
ghost use Rattle.mp_report.specs.Readable.{IsReadable};
ghost use Rattle.mp_script.specs.Spelling.{IsSpelled};
ghost use Rattle.mp_files.specs.Nine.{AllTell, Every, KeptDisk, StillNine, as_read};
ghost use Rattle.mp_supports.specs.Work.{Work};
ghost use Rattle.mp_supports.specs.Kept.{answers_in};
ghost use Rattle.mp_verdict.specs.Orders.{NodeEntry, entries_given};
ghost use Rattle.mp_members.specs.Running.{Runs, AreSameMembers, logs_of};
ghost use Rattle.mp_driver.specs.Driving.{RunsToItsEnd};
ghost use Rattle.mp_opening.specs.Openings.{RunCause};
ghost use Rattle.mp_lineup.specs.LiningUp.{AreListed};
ghost use Rattle.mp_cluster.specs.Runs.{DownsHaveFailed, IsLegalRun, IsLeftOfRun, RunFinds, RunLeaves, transactions_of};
ghost use Rattle.mp_cluster.specs.StepRuns.{AreLinedUp, AreStillThere, IsToldRun};
ghost use Rattle.mp_cluster.specs.StepTranscripts.{IsStepOver};

use crate::running::{end_run, open_and_line_up, or_refuse};
use crate::transcripts::transcript_of;
use mp_core_trx::Base;
use mp_driver::drive;
use mp_files::Disks;
use mp_lineup::merge;
use mp_members::Members;
use mp_model::{Answers, Downs, Memory, Transcript};
use mp_opening::ClusterRefusal;
use mp_outcome::law_left_outcome;
use mp_outside::Disk;
use mp_schedule::Schedule;
use mp_script::Script;
use mp_steps::{Blank, Ledger, Steps};
use std::alloc::Global;
use std::marker::Brand;
use std::sync::Wait;

/// Runs a script over nine disks, on one thread, by the schedule: opens them, lines up the script's primaries, takes turns
/// until each statement is answered, and puts the logs' disks back in their order, whatever it answers. There are eight
/// logs. The transcript, of mode `Step`, is legal for the script over what the disks held, and readable. It tells each
/// primary that went down, and with which one: that one's log's count of faults rose. The store is read alone. Whatever a
/// crash then leaves is sound, and the commits that recovery keeps of it are closed for the transcript.
///
/// `Store`, `StoreDisk`, `Log`, `LogDisk`, `NeedsRecover`, `NotClean` and `Spent` come as `open_nine` has them, in that
/// order, before anything is written, and leave the disks as they were. `Memory` only for want of memory, at any time. It
/// isn't promised to return. `docs/language.md` says how statements of several sessions are answered.
pub fn step_all<R: Wait, D: Disk + Drop>(
    rt: &R,
    alloc: Global,
    script: &Script,
    disks: &mut Disks<D>,
) -> Result<Transcript, ClusterRefusal>
    requires eight { length disks.old.logs.items ≡ 8 }
    requires spelled { IsSpelled script.now }
    // All nine disks stand and tell what they told, no count of faults fell, and the store is as it was.
    ensures nine { StillNine D.Disk disks.old disks.new }
    ensures store { KeptDisk D.Disk disks.old.store disks.new.store }
    ensures finds { AllTell D.Disk disks.old → RunFinds (as_read D.Disk disks.old) (transactions_of script.now) result }
    ensures untouched { IfErr result (RunLeaves D.Disk disks.old disks.new) }
    ensures cause { IfErr result (RunCause D.Disk disks.old disks.new) }
    ensures legal { IfOk result (IsLegalRun D.Disk disks.old script.now) }
    ensures readable { IfOk result IsReadable }
    ensures mode { IfOk result (λ transcript. transcript.mode ≡ Step) }
    ensures downs { IfOk result (DownsHaveFailed D.Disk disks.old disks.new) }
    // Whatever a crash now leaves, recovery keeps what the transcript acknowledges, and what that rests on.
    ensures left { AllTell D.Disk disks.old → IfOk result (λ transcript.
        Every D.Disk disks.new (IsLeftOfRun (as_read D.Disk disks.old) script.now transcript)) }
{
    let (base, members) = open_and_line_up(alloc, script, disks)?;
    let blank = Blank::new(1);
    let told = step_members::<R, D, Brand>(
        rt,
        blank,
        alloc,
        script,
        base,
        members,
        &mut disks.logs,
    );
    or_refuse(told)
}

// Runs a script by members that were lined up for it, and puts the logs' disks back into their list, which is empty and has room for
// them, whatever it answers.
fn step_members<R: Wait, D: Disk + Drop, L: Ledger>(
    rt: &R,
    blank: Blank,
    alloc: Global,
    script: &Script,
    base: Base,
    mut members: Members<D>,
    disks: &mut Vec<D>,
) -> Result<Transcript, Memory>
    requires name { blank.name ≡ L.name }
    requires parts { (blank.parts ≡ L.parts) × (0 < L.parts) }
    requires spelled { IsSpelled script.now }
    requires lined_up { AreLinedUp D.Disk script.now base members }
    requires none { disks.old.items ≡ [] }
    requires room { length (logs_of members) ≤ vec_capacity disks.old }
    ensures there { AreStillThere D.Disk (map (λ log. log.disk) (logs_of members)) disks.new.items }
    ensures told { IfOk result (IsToldRun D.Disk script.now members.shared.opening Step (map (λ log. log.disk) (logs_of members)) disks.new.items) }
{
    // It does nothing: what a crash may leave rests on it.
    law_left_outcome();
    let driven = drive_script::<R, D, L>(rt, blank, alloc, script, &mut members);
    let ended = end_run(alloc, members, disks);
    driven?;
    let (order, lists, downs) = ended?;
    tell(alloc, base.ts, &order, lists, downs)
}

// Drives members through all of a script, by its schedule.
fn drive_script<R: Wait, D: Disk + Drop, L: Ledger>(
    rt: &R,
    blank: Blank,
    alloc: Global,
    script: &Script,
    members: &mut Members<D>,
) -> Result<(), Memory>
    requires name { blank.name ≡ L.name }
    requires parts { (blank.parts ≡ L.parts) × (0 < L.parts) }
    requires spelled { IsSpelled script.now }
    requires runs { (work : Work) × (given : List NodeEntry) × Runs D.Disk work members.old given }
    requires primaries { length members.old.primaries.items ≡ script.now.primaries }
    ensures ended { OnOk result (RunsToItsEnd D.Disk members.old members.new) }
    ensures same { AreSameMembers D.Disk members.old members.new }
{
    let mut steps = Steps::<L>::new(blank);
    let mut schedule = Schedule::new(alloc, script)?;
    let sessions = script.sessions.as_slice();
    drive(rt, members, sessions, &mut schedule, &mut steps)
}

// The transcript of the answers of all primaries, in the order in which they were given, by the numbers of the primaries in
// that order, and of those that are down.
fn tell(
    alloc: Global,
    base: u64,
    order: &[u8],
    lists: Vec<Answers>,
    downs: Downs,
) -> Result<Transcript, Memory>
    requires { (given : List NodeEntry) × AreListed given order.now (map (λ list. list.items) lists.items) }
    ensures { IfOk result (λ transcript. (given : List NodeEntry) → AreListed given order.now (map (λ list. list.items) lists.items)
        → IsStepOver base (answers_in (entries_given given)) downs.items transcript) }
{
    let answers = merge(alloc, order, lists)?;
    transcript_of(alloc, base, answers, downs)
}
