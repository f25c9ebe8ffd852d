//! The numbers of commits and the views that the answers of a finished run show.

ghost use Rattle.std.specs.Prelude.{◌≡◌, ℕ, List, length};
ghost use Rattle.mp_model.specs.declared.histories.Opening.{Opening};
ghost use Rattle.mp_model.specs.declared.transcripts.Down.{Down};
ghost use Rattle.mp_script.specs.declared.statements.Script.{Script};
ghost use Rattle.mp_script.specs.Below.{numbers};
ghost use Rattle.mp_model.specs.declared.transcripts.Transcript.{Transcript};
ghost use Rattle.mp_script.specs.Execution.{Execution, execution_of};
ghost use Rattle.mp_script.specs.InTheirPart.{BeginsAtOpening, AnswersEachStatement};
ghost use Rattle.mp_script.specs.Legal.{ViewsAreRight};
ghost use Rattle.mp_script.specs.Numbered.{AreNumbered};
ghost use Rattle.mp_script.specs.Spelling.{IsSpelled};
ghost use Rattle.mp_core.specs.declared.opening.CoreOpening.{CoreOpening};
ghost use Rattle.mp_core.specs.World.{CoreWorld};
ghost use Rattle.mp_supports.specs.Work.{Work};
ghost use Rattle.mp_supports.specs.Kept.{Entry};
ghost use Rattle.mp_verdict.specs.Counting.{CountsCommits};
ghost use Rattle.mp_script.specs.Answers.{AreApartAnswers};
ghost use Rattle.mp_verdict.specs.Finished.{Finished};
ghost use Rattle.mp_verdict.specs.Orders.{NodeEntry, IsMerged, StepOrder, RunOrder, IsStepTranscript, IsRunTranscript};
ghost use Rattle.mp_verdict.specs.Told.{IsToldBy};

/// Where no statement is answered twice, the commits of a finished run are numbered from base + 1 on, each number once, each
/// above its transaction's view; and they are the timestamps that were drawn.
pub fn law_numbered()
    ensures counted { (script : Script) (work : Work) (opening : Opening) (o : CoreOpening) (w : CoreWorld) (down : ℕ → ℕ) (entries : ℕ → List Entry) (downs : List Down) (run : Execution) → IsSpelled script → Finished work script opening o w down entries downs → IsToldBy work opening o entries downs run → AreApartAnswers run.answers → length (numbers run.answers) ≡ run.commits → CountsCommits w run }
    ensures numbered { (script : Script) (work : Work) (opening : Opening) (o : CoreOpening) (w : CoreWorld) (down : ℕ → ℕ) (entries : ℕ → List Entry) (downs : List Down) (run : Execution) → IsSpelled script → Finished work script opening o w down entries downs → IsToldBy work opening o entries downs run → AreApartAnswers run.answers → length (numbers run.answers) ≡ run.commits → AreNumbered run }
{}

/// The transcript of a finished run in mode Run begins at its opening, answers each statement once in its part, numbers its
/// commits, and shows views within them that cover the commits above, where each primary's views do.
pub fn law_run_rules()
    ensures begins { (script : Script) (work : Work) (opening : Opening) (o : CoreOpening) (w : CoreWorld) (down : ℕ → ℕ) (entries : ℕ → List Entry) (downs : List Down) (transcript : Transcript) → IsSpelled script → Finished work script opening o w down entries downs → IsRunTranscript opening o.trx.primaries entries downs transcript → BeginsAtOpening (execution_of script opening transcript) }
    ensures answered { (script : Script) (work : Work) (opening : Opening) (o : CoreOpening) (w : CoreWorld) (down : ℕ → ℕ) (entries : ℕ → List Entry) (downs : List Down) (transcript : Transcript) → IsSpelled script → Finished work script opening o w down entries downs → IsRunTranscript opening o.trx.primaries entries downs transcript → AnswersEachStatement (execution_of script opening transcript) }
    ensures numbered { (script : Script) (work : Work) (opening : Opening) (o : CoreOpening) (w : CoreWorld) (down : ℕ → ℕ) (entries : ℕ → List Entry) (downs : List Down) (transcript : Transcript) → IsSpelled script → Finished work script opening o w down entries downs → IsRunTranscript opening o.trx.primaries entries downs transcript → AreNumbered (execution_of script opening transcript) }
    ensures counted { (script : Script) (work : Work) (opening : Opening) (o : CoreOpening) (w : CoreWorld) (down : ℕ → ℕ) (entries : ℕ → List Entry) (downs : List Down) (transcript : Transcript) → IsSpelled script → Finished work script opening o w down entries downs → IsRunTranscript opening o.trx.primaries entries downs transcript → CountsCommits w (execution_of script opening transcript) }
    ensures views { (script : Script) (work : Work) (opening : Opening) (o : CoreOpening) (w : CoreWorld) (down : ℕ → ℕ) (entries : ℕ → List Entry) (downs : List Down) (transcript : Transcript) → IsSpelled script → Finished work script opening o w down entries downs → IsRunTranscript opening o.trx.primaries entries downs transcript → RunOrder o.trx entries → ViewsAreRight (execution_of script opening transcript) }
{}

/// The same of a run in mode Step, whose answers stand in one part in the order in which they were given.
pub fn law_step_rules()
    ensures begins { (script : Script) (work : Work) (opening : Opening) (o : CoreOpening) (w : CoreWorld) (down : ℕ → ℕ) (entries : ℕ → List Entry) (downs : List Down) (given : List NodeEntry) (transcript : Transcript) → IsSpelled script → Finished work script opening o w down entries downs → IsMerged o.trx entries given → StepOrder opening.base given → IsStepTranscript opening given downs transcript → BeginsAtOpening (execution_of script opening transcript) }
    ensures answered { (script : Script) (work : Work) (opening : Opening) (o : CoreOpening) (w : CoreWorld) (down : ℕ → ℕ) (entries : ℕ → List Entry) (downs : List Down) (given : List NodeEntry) (transcript : Transcript) → IsSpelled script → Finished work script opening o w down entries downs → IsMerged o.trx entries given → StepOrder opening.base given → IsStepTranscript opening given downs transcript → AnswersEachStatement (execution_of script opening transcript) }
    ensures numbered { (script : Script) (work : Work) (opening : Opening) (o : CoreOpening) (w : CoreWorld) (down : ℕ → ℕ) (entries : ℕ → List Entry) (downs : List Down) (given : List NodeEntry) (transcript : Transcript) → IsSpelled script → Finished work script opening o w down entries downs → IsMerged o.trx entries given → StepOrder opening.base given → IsStepTranscript opening given downs transcript → AreNumbered (execution_of script opening transcript) }
    ensures counted { (script : Script) (work : Work) (opening : Opening) (o : CoreOpening) (w : CoreWorld) (down : ℕ → ℕ) (entries : ℕ → List Entry) (downs : List Down) (given : List NodeEntry) (transcript : Transcript) → IsSpelled script → Finished work script opening o w down entries downs → IsMerged o.trx entries given → StepOrder opening.base given → IsStepTranscript opening given downs transcript → CountsCommits w (execution_of script opening transcript) }
    ensures views { (script : Script) (work : Work) (opening : Opening) (o : CoreOpening) (w : CoreWorld) (down : ℕ → ℕ) (entries : ℕ → List Entry) (downs : List Down) (given : List NodeEntry) (transcript : Transcript) → IsSpelled script → Finished work script opening o w down entries downs → IsMerged o.trx entries given → StepOrder opening.base given → IsStepTranscript opening given downs transcript → ViewsAreRight (execution_of script opening transcript) }
{}
