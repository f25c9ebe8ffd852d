//! What carries the promise of a run, as the contracts of functions that do nothing.
ghost use Rattle.std.specs.Prelude.{◌≡◌, List, map};
ghost use Rattle.mp_model.specs.declared.histories.Opening.{Opening};
ghost use Rattle.mp_model.specs.declared.transcripts.Transcript.{Transcript};
ghost use Rattle.mp_report.specs.Readable.{IsReadable};
ghost use Rattle.mp_script.specs.declared.statements.Script.{Script};
ghost use Rattle.mp_script.specs.DownLines.{down_lines};
ghost use Rattle.mp_script.specs.Legal.{Legal};
ghost use Rattle.mp_script.specs.Spelling.{IsSpelled};
ghost use Rattle.mp_core_trx.specs.declared.opening.Base.{Base};
ghost use Rattle.mp_supports.specs.Kept.{answers_in};
ghost use Rattle.mp_verdict.specs.Finished.{BeginsWith};
ghost use Rattle.mp_verdict.specs.Orders.{NodeEntry, entries_given};
ghost use Rattle.mp_members.specs.declared.members.Members.{Members};
ghost use Rattle.mp_members.specs.Running.{downs_in, logs_of, AreThrough, Runs, RunsApart};
ghost use Rattle.mp_lineup.specs.LiningUp.{work_over};
ghost use Rattle.mp_cluster.specs.RunTranscripts.{IsRunOver};
ghost use Rattle.mp_cluster.specs.StepRuns.{HasIdleLogs, LeavesClosed};
ghost use Rattle.mp_cluster.specs.StepTranscripts.{IsStepOver};

use mp_outcome::law_left_outcome;
use mp_outside::Disk;

/// Where the members of a run of a spelled script are through, the transcript of their answers, in the order in which these were
/// given, and of those that are down is legal over what their table was opened with, and readable.
pub fn law_run_is_legal<D: Disk>()
    ensures legal { (script : Script) (base : Base) (m : Members D) (given : List NodeEntry) (opening : Opening) (transcript : Transcript)
        → IsSpelled script → Runs D.Disk (work_over script base) m given → AreThrough m
        → m.shared.opening.trx.primaries ≡ script.primaries → BeginsWith m.shared.opening opening
        → IsStepOver base.ts (answers_in (entries_given given)) (down_lines (downs_in m) 1 m.shared.opening.trx.primaries) transcript
        → Legal script opening transcript }
    ensures readable { (script : Script) (base : Base) (m : Members D) (given : List NodeEntry) (opening : Opening) (transcript : Transcript)
        → IsSpelled script → Runs D.Disk (work_over script base) m given → AreThrough m
        → m.shared.opening.trx.primaries ≡ script.primaries → BeginsWith m.shared.opening opening
        → IsStepOver base.ts (answers_in (entries_given given)) (down_lines (downs_in m) 1 m.shared.opening.trx.primaries) transcript
        → IsReadable transcript }
{}

/// And whatever a crash then leaves of the disks of their logs, beside a store over which the table was opened, is sound, and the
/// commits that recovery keeps of it are closed for the transcript.
pub fn law_run_leaves<D: Disk>()
    ensures { (script : Script) (base : Base) (m : Members D) (given : List NodeEntry) (transcript : Transcript)
        → IsSpelled script → Runs D.Disk (work_over script base) m given → AreThrough m
        → m.shared.opening.trx.primaries ≡ script.primaries → HasIdleLogs D.Disk base m
        → IsStepOver base.ts (answers_in (entries_given given)) (down_lines (downs_in m) 1 m.shared.opening.trx.primaries) transcript
        → LeavesClosed D.Disk script m.shared.opening (map (λ log. log.disk) (logs_of m)) transcript }
{
    law_left_outcome();
}

/// Where the members of a run on a thread for each primary are through, the transcript that has the answers of each primary in a
/// part, and tells those that are down, is legal over what their table was opened with, and readable.
pub fn law_apart_is_legal<D: Disk>()
    ensures legal { (script : Script) (base : Base) (m : Members D) (given : List NodeEntry) (opening : Opening) (transcript : Transcript)
        → IsSpelled script → RunsApart D.Disk (work_over script base) m given → AreThrough m
        → m.shared.opening.trx.primaries ≡ script.primaries → BeginsWith m.shared.opening opening
        → IsRunOver base.ts (map (λ pr. pr.book.answers.items) m.primaries.items)
        (down_lines (downs_in m) 1 m.shared.opening.trx.primaries) transcript
        → Legal script opening transcript }
    ensures readable { (script : Script) (base : Base) (m : Members D) (given : List NodeEntry) (opening : Opening) (transcript : Transcript)
        → IsSpelled script → RunsApart D.Disk (work_over script base) m given → AreThrough m
        → m.shared.opening.trx.primaries ≡ script.primaries → BeginsWith m.shared.opening opening
        → IsRunOver base.ts (map (λ pr. pr.book.answers.items) m.primaries.items)
        (down_lines (downs_in m) 1 m.shared.opening.trx.primaries) transcript
        → IsReadable transcript }
{}

/// And what a crash then leaves is as behind a run on one thread.
pub fn law_apart_leaves<D: Disk>()
    ensures { (script : Script) (base : Base) (m : Members D) (given : List NodeEntry) (transcript : Transcript)
        → IsSpelled script → RunsApart D.Disk (work_over script base) m given → AreThrough m
        → m.shared.opening.trx.primaries ≡ script.primaries → HasIdleLogs D.Disk base m
        → IsRunOver base.ts (map (λ pr. pr.book.answers.items) m.primaries.items)
        (down_lines (downs_in m) 1 m.shared.opening.trx.primaries) transcript
        → LeavesClosed D.Disk script m.shared.opening (map (λ log. log.disk) (logs_of m)) transcript }
{
    law_left_outcome();
}
