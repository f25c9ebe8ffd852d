//! The laws, as the contracts of functions that do nothing but cite a law of `mp_cuts`.

ghost use Rattle.std.specs.Prelude.{ℕ, List};
ghost use Rattle.mp_model.specs.declared.histories.Opening.{Opening};
ghost use Rattle.mp_model.specs.declared.transcripts.Down.{Down};
ghost use Rattle.mp_model.specs.declared.transcripts.Transcript.{Transcript};
ghost use Rattle.mp_script.specs.declared.statements.Script.{Script};
ghost use Rattle.mp_script.specs.Execution.{Execution, execution_of};
ghost use Rattle.mp_script.specs.Spelling.{IsSpelled};
ghost use Rattle.mp_files.specs.Nine.{Image};
ghost use Rattle.mp_core.specs.declared.opening.CoreOpening.{CoreOpening};
ghost use Rattle.mp_core.specs.World.{CoreWorld};
ghost use Rattle.mp_supports.specs.Work.{Work};
ghost use Rattle.mp_supports.specs.Kept.{Entry};
ghost use Rattle.mp_recover.specs.KeptCommits.{kept_commits};
ghost use Rattle.mp_recover.specs.Closed.{KeptAreClosed};
ghost use Rattle.mp_recover.specs.Images.{logged_above};
ghost use Rattle.mp_verdict.specs.Counting.{CountsCommits};
ghost use Rattle.mp_verdict.specs.Finished.{Finished};
ghost use Rattle.mp_verdict.specs.Orders.{NodeEntry, IsMerged, StepOrder, IsStepTranscript, IsRunTranscript};
ghost use Rattle.mp_verdict.specs.Told.{IsToldBy};
ghost use Rattle.mp_cuts.specs.ValidCuts.{IsValidCut, mtrs_of_cut};
ghost use Rattle.mp_cuts.specs.LeftBehind.{IsOpenedOver, IsLeftBehind};

use mp_cuts::law_kept_closed;

/// The commits that a valid cut of a finished run keeps are closed for what the run told, in mode Step and in mode Run:
/// each acknowledged one is kept, each kept one was committed, maybe with unknown end, with its timestamp and its writes,
/// and what it rests on is kept with it.
pub fn law_kept_outcome()
    ensures told { (script : Script) (work : Work) (opening : Opening) (o : CoreOpening) (w : CoreWorld) (down : ℕ → ℕ) (entries : ℕ → List Entry) (downs : List Down) (run : Execution) (count : ℕ → ℕ) → IsSpelled script → Finished work script opening o w down entries downs → IsToldBy work opening o entries downs run → CountsCommits w run → IsValidCut o w count → KeptAreClosed run (kept_commits (mtrs_of_cut w count)) }
    ensures step { (script : Script) (work : Work) (opening : Opening) (o : CoreOpening) (w : CoreWorld) (down : ℕ → ℕ) (entries : ℕ → List Entry) (downs : List Down) (given : List NodeEntry) (transcript : Transcript) (count : ℕ → ℕ) → IsSpelled script → Finished work script opening o w down entries downs → IsMerged o.trx entries given → StepOrder opening.base given → IsStepTranscript opening given downs transcript → IsValidCut o w count → KeptAreClosed (execution_of script opening transcript) (kept_commits (mtrs_of_cut w count)) }
    ensures run { (script : Script) (work : Work) (opening : Opening) (o : CoreOpening) (w : CoreWorld) (down : ℕ → ℕ) (entries : ℕ → List Entry) (downs : List Down) (transcript : Transcript) (count : ℕ → ℕ) → IsSpelled script → Finished work script opening o w down entries downs → IsRunTranscript opening o.trx.primaries entries downs transcript → IsValidCut o w count → KeptAreClosed (execution_of script opening transcript) (kept_commits (mtrs_of_cut w count)) }
{
    law_kept_closed();
}

/// So are the commits that recovery finds in whatever a crash leaves of a finished run, for the transcript that it printed.
pub fn law_left_outcome()
    ensures step { (script : Script) (work : Work) (opening : Opening) (o : CoreOpening) (w : CoreWorld) (down : ℕ → ℕ) (entries : ℕ → List Entry) (downs : List Down) (given : List NodeEntry) (transcript : Transcript) (opened : List ℕ) (image : Image) → IsSpelled script → Finished work script opening o w down entries downs → IsMerged o.trx entries given → StepOrder opening.base given → IsStepTranscript opening given downs transcript → IsOpenedOver opened o → IsLeftBehind o w opened image → KeptAreClosed (execution_of script opening transcript) (kept_commits (logged_above image)) }
    ensures run { (script : Script) (work : Work) (opening : Opening) (o : CoreOpening) (w : CoreWorld) (down : ℕ → ℕ) (entries : ℕ → List Entry) (downs : List Down) (transcript : Transcript) (opened : List ℕ) (image : Image) → IsSpelled script → Finished work script opening o w down entries downs → IsRunTranscript opening o.trx.primaries entries downs transcript → IsOpenedOver opened o → IsLeftBehind o w opened image → KeptAreClosed (execution_of script opening transcript) (kept_commits (logged_above image)) }
{
    law_kept_closed();
}
