//! What the answers of a finished run tell of its world.

ghost use Rattle.std.specs.Prelude.{◌≡◌, ℕ, false, List, Some};
ghost use Rattle.mp_machine.specs.Lists.{IsIn};
ghost use Rattle.mp_model.specs.declared.ids.TrxName.{TrxName};
ghost use Rattle.mp_model.specs.declared.replies.Answer.{Answer};
ghost use Rattle.mp_model.specs.declared.replies.Reply.TheVariants.{Held};
ghost use Rattle.mp_model.specs.declared.replies.WriteVerb.{WriteVerb};
ghost use Rattle.mp_script.specs.declared.statements.Line.{Line};
ghost use Rattle.mp_model.specs.declared.histories.Opening.{Opening};
ghost use Rattle.mp_model.specs.declared.transcripts.Down.{Down};
ghost use Rattle.mp_model.specs.declared.transcripts.Transcript.{Transcript};
ghost use Rattle.mp_script.specs.declared.statements.Script.{Script};
ghost use Rattle.mp_script.specs.Execution.{Execution, execution_of, line_at};
ghost use Rattle.mp_script.specs.Legal.{FirstCommittersWin, WritesSeeEarlierCommits, KeysAreHeld};
ghost use Rattle.mp_script.specs.Right.{AreRightWaits, IsRightReply, FollowsRefusal};
ghost use Rattle.mp_script.specs.Transactions.{is_refusal, refused_before};
ghost use Rattle.mp_script.specs.Spelling.{IsSpelled};
ghost use Rattle.mp_core.specs.declared.opening.CoreOpening.{CoreOpening};
ghost use Rattle.mp_core.specs.World.{CoreWorld};
ghost use Rattle.mp_supports.specs.Work.{Work};
ghost use Rattle.mp_supports.specs.Kept.{Entry};
ghost use Rattle.mp_script.specs.Below.{EachInItsPart};
ghost use Rattle.mp_script.specs.WentDown.{DownsRise, HaveTheirCause, StaysDown};
ghost use Rattle.mp_verdict.specs.Counting.{CountsCommits};
ghost use Rattle.mp_script.specs.Answers.{IsReadReply};
ghost use Rattle.mp_verdict.specs.Finished.{Finished};
ghost use Rattle.mp_verdict.specs.Orders.{NodeEntry, IsMerged, StepOrder, IsStepTranscript, IsRunTranscript};
ghost use Rattle.mp_verdict.specs.Told.{IsToldBy};
ghost use Rattle.mp_verdict.specs.Writers.{TellsOfWorld};

/// The execution that has the answers of a finished run tells of the run's world: it begins with the rows of the opening
/// pages, its acknowledged commits are the durable ones, each above its view, and their ok writes are the puts of their ids.
pub fn law_tells()
    ensures { (script : Script) (work : Work) (opening : Opening) (o : CoreOpening) (w : CoreWorld) (down : ℕ → ℕ) (entries : ℕ → List Entry) (downs : List Down) (run : Execution) → IsSpelled script → Finished work script opening o w down entries downs → IsToldBy work opening o entries downs run → TellsOfWorld o w run }
{}

/// Each value and each rows that the answers of a finished run show are what the statement's transaction sees: the commits
/// at or below its view, and its own writes over them.
pub fn law_reads_right()
    ensures { (script : Script) (work : Work) (opening : Opening) (o : CoreOpening) (w : CoreWorld) (down : ℕ → ℕ) (entries : ℕ → List Entry) (downs : List Down) (run : Execution) (answer : Answer) (line : Line) → IsSpelled script → Finished work script opening o w down entries downs → IsToldBy work opening o entries downs run → CountsCommits w run → IsIn answer run.answers → line_at run.lines answer.session answer.index ≡ Some line → IsReadReply answer.reply → IsRightReply run line answer.reply }
{}

/// Of two commits of one key in the answers of a finished run none lies between the other's view and its number.
pub fn law_first_wins()
    ensures { (script : Script) (work : Work) (opening : Opening) (o : CoreOpening) (w : CoreWorld) (down : ℕ → ℕ) (entries : ℕ → List Entry) (downs : List Down) (run : Execution) → IsSpelled script → Finished work script opening o w down entries downs → IsToldBy work opening o entries downs run → FirstCommittersWin run }
{}

/// The transcript of a finished run in mode Run has the answers of its primaries, no write in a part goes over a commit
/// above it that its view doesn't show, and none comes between another transaction's write and its commit.
pub fn law_run_conflicts()
    ensures told { (script : Script) (work : Work) (opening : Opening) (o : CoreOpening) (w : CoreWorld) (down : ℕ → ℕ) (entries : ℕ → List Entry) (downs : List Down) (transcript : Transcript) → IsSpelled script → Finished work script opening o w down entries downs → IsRunTranscript opening o.trx.primaries entries downs transcript → IsToldBy work opening o entries downs (execution_of script opening transcript) }
    ensures earlier { (script : Script) (work : Work) (opening : Opening) (o : CoreOpening) (w : CoreWorld) (down : ℕ → ℕ) (entries : ℕ → List Entry) (downs : List Down) (transcript : Transcript) → IsSpelled script → Finished work script opening o w down entries downs → IsRunTranscript opening o.trx.primaries entries downs transcript → WritesSeeEarlierCommits (execution_of script opening transcript) }
    ensures held { (script : Script) (work : Work) (opening : Opening) (o : CoreOpening) (w : CoreWorld) (down : ℕ → ℕ) (entries : ℕ → List Entry) (downs : List Down) (transcript : Transcript) → IsSpelled script → Finished work script opening o w down entries downs → IsRunTranscript opening o.trx.primaries entries downs transcript → KeysAreHeld (execution_of script opening transcript) }
{}

/// The same of a run in mode Step, whose answers stand in the order in which they were given.
pub fn law_step_conflicts()
    ensures told { (script : Script) (work : Work) (opening : Opening) (o : CoreOpening) (w : CoreWorld) (down : ℕ → ℕ) (entries : ℕ → List Entry) (downs : List Down) (given : List NodeEntry) (transcript : Transcript) → IsSpelled script → Finished work script opening o w down entries downs → IsMerged o.trx entries given → StepOrder opening.base given → IsStepTranscript opening given downs transcript → IsToldBy work opening o entries downs (execution_of script opening transcript) }
    ensures earlier { (script : Script) (work : Work) (opening : Opening) (o : CoreOpening) (w : CoreWorld) (down : ℕ → ℕ) (entries : ℕ → List Entry) (downs : List Down) (given : List NodeEntry) (transcript : Transcript) → IsSpelled script → Finished work script opening o w down entries downs → IsMerged o.trx entries given → StepOrder opening.base given → IsStepTranscript opening given downs transcript → WritesSeeEarlierCommits (execution_of script opening transcript) }
    ensures held { (script : Script) (work : Work) (opening : Opening) (o : CoreOpening) (w : CoreWorld) (down : ℕ → ℕ) (entries : ℕ → List Entry) (downs : List Down) (given : List NodeEntry) (transcript : Transcript) → IsSpelled script → Finished work script opening o w down entries downs → IsMerged o.trx entries given → StepOrder opening.base given → IsStepTranscript opening given downs transcript → KeysAreHeld (execution_of script opening transcript) }
{}

/// Each reply of a finished run that refuses nothing is right for its statement, and each reply follows the refusals of
/// its transaction before it.
pub fn law_replies_right()
    ensures right { (script : Script) (work : Work) (opening : Opening) (o : CoreOpening) (w : CoreWorld) (down : ℕ → ℕ) (entries : ℕ → List Entry) (downs : List Down) (run : Execution) (answer : Answer) (line : Line) → IsSpelled script → Finished work script opening o w down entries downs → IsToldBy work opening o entries downs run → CountsCommits w run → IsIn answer run.answers → line_at run.lines answer.session answer.index ≡ Some line → is_refusal (Some answer.reply) ≡ false → IsRightReply run line answer.reply }
    ensures follows { (script : Script) (work : Work) (opening : Opening) (o : CoreOpening) (w : CoreWorld) (down : ℕ → ℕ) (entries : ℕ → List Entry) (downs : List Down) (run : Execution) (answer : Answer) → IsSpelled script → Finished work script opening o w down entries downs → IsToldBy work opening o entries downs run → IsIn answer run.answers → FollowsRefusal (refused_before run answer.session answer.index) answer.reply }
{}

/// The `down` lines of a finished run rise by their primaries, the primary whose log failed has its own, and once an answer
/// showed a session's primary down, the answers below it in its part stop the session.
pub fn law_downs_right()
    ensures rise { (script : Script) (work : Work) (opening : Opening) (o : CoreOpening) (w : CoreWorld) (down : ℕ → ℕ) (entries : ℕ → List Entry) (downs : List Down) (run : Execution) → IsSpelled script → Finished work script opening o w down entries downs → IsToldBy work opening o entries downs run → DownsRise 0 run.downs }
    ensures causes { (script : Script) (work : Work) (opening : Opening) (o : CoreOpening) (w : CoreWorld) (down : ℕ → ℕ) (entries : ℕ → List Entry) (downs : List Down) (run : Execution) → IsSpelled script → Finished work script opening o w down entries downs → IsToldBy work opening o entries downs run → HaveTheirCause run.downs }
    ensures run_stays { (script : Script) (work : Work) (opening : Opening) (o : CoreOpening) (w : CoreWorld) (down : ℕ → ℕ) (entries : ℕ → List Entry) (downs : List Down) (transcript : Transcript) → IsSpelled script → Finished work script opening o w down entries downs → IsRunTranscript opening o.trx.primaries entries downs transcript → EachInItsPart (execution_of script opening transcript) (λ primary. StaysDown (execution_of script opening transcript)) }
    ensures step_stays { (script : Script) (work : Work) (opening : Opening) (o : CoreOpening) (w : CoreWorld) (down : ℕ → ℕ) (entries : ℕ → List Entry) (downs : List Down) (given : List NodeEntry) (transcript : Transcript) → IsSpelled script → Finished work script opening o w down entries downs → IsMerged o.trx entries given → StepOrder opening.base given → IsStepTranscript opening given downs transcript → EachInItsPart (execution_of script opening transcript) (λ primary. StaysDown (execution_of script opening transcript)) }
{}

/// A write that was held names an older transaction of another session that has written its key; and the waits of each
/// answer are younger ones that have.
pub fn law_waits_right()
    ensures held { (script : Script) (work : Work) (opening : Opening) (o : CoreOpening) (w : CoreWorld) (down : ℕ → ℕ) (entries : ℕ → List Entry) (downs : List Down) (run : Execution) (answer : Answer) (line : Line) (verb : WriteVerb) (name : TrxName) → IsSpelled script → Finished work script opening o w down entries downs → IsToldBy work opening o entries downs run → IsIn answer run.answers → line_at run.lines answer.session answer.index ≡ Some line → answer.reply ≡ Held verb name → IsRightReply run line (Held verb name) }
    ensures waits { (script : Script) (work : Work) (opening : Opening) (o : CoreOpening) (w : CoreWorld) (down : ℕ → ℕ) (entries : ℕ → List Entry) (downs : List Down) (run : Execution) (answer : Answer) (line : Line) → IsSpelled script → Finished work script opening o w down entries downs → IsToldBy work opening o entries downs run → IsIn answer run.answers → line_at run.lines answer.session answer.index ≡ Some line → AreRightWaits run line answer.waits.items }
{}
