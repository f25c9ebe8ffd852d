//! The answers of a run that has come to its end are a legal transcript.

ghost use Rattle.std.specs.Prelude.{ℕ, List};
ghost use Rattle.mp_model.specs.declared.histories.Opening.{Opening};
ghost use Rattle.mp_model.specs.declared.transcripts.Down.{Down};
ghost use Rattle.mp_model.specs.declared.transcripts.Transcript.{Transcript};
ghost use Rattle.mp_script.specs.declared.statements.Script.{Script};
ghost use Rattle.mp_script.specs.Legal.{Legal};
ghost use Rattle.mp_script.specs.Spelling.{IsSpelled};
ghost use Rattle.mp_core.specs.declared.opening.CoreOpening.{CoreOpening};
ghost use Rattle.mp_core.specs.World.{CoreWorld};
ghost use Rattle.mp_supports.specs.Work.{Work};
ghost use Rattle.mp_supports.specs.Kept.{Entry};
ghost use Rattle.mp_verdict.specs.Finished.{Finished};
ghost use Rattle.mp_verdict.specs.Orders.{NodeEntry, IsMerged, StepOrder, RunOrder, IsStepTranscript, IsRunTranscript};

/// In mode Step: where a run of a spelled script has come to its end, and its answers stand in the order in which they
/// were given, the transcript is legal.
pub fn law_step_legal()
    ensures { (script : Script) (work : Work) (opening : Opening) (o : CoreOpening) (w : CoreWorld) (down : ℕ → ℕ) (entries : ℕ → List Entry) (downs : List Down) (given : List NodeEntry) (transcript : Transcript) → IsSpelled script → Finished work script opening o w down entries downs → IsMerged o.trx entries given → StepOrder opening.base given → IsStepTranscript opening given downs transcript → Legal script opening transcript }
{}

/// In mode Run: where a run of a spelled script has come to its end, and the views of each primary cover the commits
/// above them, the transcript of its parts is legal.
pub fn law_run_legal()
    ensures { (script : Script) (work : Work) (opening : Opening) (o : CoreOpening) (w : CoreWorld) (down : ℕ → ℕ) (entries : ℕ → List Entry) (downs : List Down) (transcript : Transcript) → IsSpelled script → Finished work script opening o w down entries downs → RunOrder o.trx entries → IsRunTranscript opening o.trx.primaries entries downs transcript → Legal script opening transcript }
{}
