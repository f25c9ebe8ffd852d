//! What the words of contracts say, tried on small primaries, as the contracts of functions that do nothing.
ghost use Rattle.std.specs.Prelude.{◌≡◌, ◌≢◌, ℕ, true, false, List, [], ◌∷◌, None, Some, Option, IfSome, Ok, Err};
ghost use Rattle.mp_machine.specs.View.{part_in};
ghost use Rattle.mp_model.specs.declared.ids.TrxName.{TrxName};
ghost use Rattle.mp_model.specs.declared.replies.Answer.{Answer};
ghost use Rattle.mp_model.specs.declared.replies.Reply.{Reply};
ghost use Rattle.mp_model.specs.declared.replies.WriteVerb.{WriteVerb};
ghost use Rattle.mp_model.specs.declared.waiting.Cause.{Cause};
ghost use Rattle.mp_model.specs.declared.waiting.Turn.{Turn};
ghost use Rattle.mp_script.specs.declared.statements.Line.{Line};
ghost use Rattle.mp_script.specs.declared.statements.Stmt.{Stmt};
ghost use Rattle.mp_core_trx.specs.declared.part.Begun.{Begun};
ghost use Rattle.mp_core.specs.declared.part.CorePart.{CorePart};
ghost use Rattle.mp_book.specs.declared.session.Session.{Session};
ghost use Rattle.mp_book.specs.declared.stage.Stage.{Stage};
ghost use Rattle.mp_book.specs.SmallBooks.{one_on_one, put_seven, stated_as, its_begun, its_name, session_with, answered_as, row_seven};
ghost use Rattle.mp_facts.specs.SmallParts.{active_part, put_part};
ghost use Rattle.mp_log.specs.Tails.{LogView};
ghost use Rattle.mp_shared.specs.Nodes.{Run, NodeView};
ghost use Rattle.mp_shared.specs.SmallNodes.{node_of_first};
ghost use Rattle.mp_buffer_fusion.specs.PoolExamples.{blank_buffer};
ghost use Rattle.mp_supports.specs.SmallParts.{part_before_steps, open_part, open_session, own_name, own_trx};
ghost use Rattle.mp_supports.specs.Supports.{no_trace, began_trace};
ghost use Rattle.mp_supports.specs.Kept.{Entry};
ghost use Rattle.mp_supports.specs.Work.{Work};
ghost use Rattle.mp_desk.specs.Making.{IsOpenLog};
ghost use Rattle.mp_primary.specs.declared.outside.CommitEnd.TheVariants as ends;
ghost use Rattle.mp_primary.specs.declared.outside.RollRefusal.TheVariants as refusals;
ghost use Rattle.mp_primary.specs.Primaries.{PrimaryView, IsBetweenTurns, AreSessions, AreWaitsSupported, BeginsByAnswer, IsFirstLog, PrimaryAgrees, PrimaryAgreesIn, StandsWith};
ghost use Rattle.mp_primary.specs.Answering.{has_no_line, have_no_line};
ghost use Rattle.mp_primary.specs.Downs.{IsDownAsTold, WentDownHere};
ghost use Rattle.mp_primary.specs.Turns.{no_task_in, IsPutStatement, IsInTurns, IsTakenBack, IsSessionOf, MayTakeTurn, MayLeave, has_nothing_left, HasNoStatement, Adds, AddsAnswer, EndsUnprinted, AddsNext, WaitsFor, NamesWait, IfWaiting, TellsDown, IsLeftAfter, GoesOnBy, TakesTurn, ComesTo, ComesToStop, TriesAt};
ghost use Rattle.mp_primary.specs.AtWork.{IsAtWork, HasClearedDesk, HasGoneDown, LeavesAtMostOne, MayStopWith};
ghost use Rattle.mp_primary.specs.OutsideCalls.{HasOpen, HasOpenStill, StandsOutside, CallsOutside, IsOnEachImage, EndsAs, RollsBackAs};
ghost use Rattle.mp_primary.specs.SmallPrimaries.{written_before, gate_alone};

use mp_outside::Disk;

/// A primary goes down with its own number or another, and knows where the script's sessions are declared. An open transaction of the part is a session's. A `commit` waits for
/// nobody. Only what was answered began a transaction. A log with appended bytes isn't a first one. A primary agrees with its
/// part only by the answers that it has, and stands with no node that lacks its part.
pub fn law_primary_examples<D: Disk>()
    ensures down { (pr : PrimaryView D) (by : ℕ) → by ≢ 0 → IsBetweenTurns pr → IsBetweenTurns (record pr { down = by }) }
    ensures declared_elsewhere { (pr : PrimaryView D) → pr.places ≡ [] → pr.work.sessions ≡ one_on_one → ¬ IsBetweenTurns pr }
    ensures none_open { AreSessions part_before_steps [] }
    ensures open_alone { ¬ AreSessions open_part [] }
    ensures no_waits { (work : Work) (q : CorePart) → AreWaitsSupported work q (open_session ∷ []) }
    ensures commit_waits { (work : Work) (q : CorePart) → ¬ AreWaitsSupported work q (record open_session { waits = record { items = own_name ∷ []; spare = 0 } } ∷ []) }
    ensures began_none { BeginsByAnswer record { answer = None; trace = no_trace } }
    ensures began_silently { ¬ BeginsByAnswer record { answer = None; trace = began_trace its_begun } }
    ensures first_log { (work : Work) (p : ℕ) (log : LogView D) → IsOpenLog p work.base.llsn log → log.tail.bytes ≡ [] → D.tells log.disk ≡ false → IsFirstLog D.Disk work p log }
    ensures not_first { (work : Work) (p : ℕ) (log : LogView D) → log.tail.bytes ≡ 1 ∷ [] → ¬ IsFirstLog D.Disk work p log }
    ensures agrees_nowhere { (pr : PrimaryView D) (entries : List Entry) (n : NodeView) → part_in n.parts pr.number ≡ None → PrimaryAgreesIn D.Disk pr entries n }
    ensures not_kept { (pr : PrimaryView D) (q : CorePart) (a : Answer) → pr.book.answers.items ≡ a ∷ [] → ¬ PrimaryAgrees D.Disk pr [] q }
    ensures no_part { (run : Run) (pr : PrimaryView D) (n : NodeView) → part_in n.parts pr.number ≡ None → ¬ StandsWith D.Disk run pr n }
{}

/// Nothing is left where there are no sessions, and something where one has a transaction open. A delete writes no value.
/// A session without a transaction is in turns; one of a call outside them isn't. Rows are put back in a turn at no stage of
/// such a call, and no turn is taken for such a session. A transaction is left unprinted where no statement is left, and then the session has no line.
pub fn law_task_examples()
    ensures no_session { no_task_in None ≡ true }
    ensures a_task { no_task_in (Some (session_with 1 (Stage.Open its_begun) [])) ≡ false }
    ensures deletes { IsPutStatement (Stmt.Del 7) WriteVerb.Del 7 None }
    ensures not_empty { ¬ IsPutStatement (Stmt.Del 7) WriteVerb.Del 7 (Some []) }
    ensures in_turns { IsInTurns Stage.Closed }
    ensures not_in_turns { ¬ IsInTurns (Stage.Outside None) }
    ensures taken_back { IsTakenBack (Stage.Leaving its_begun) }
    ensures not_in_a_turn { ¬ IsTakenBack (Stage.Outside (Some its_begun)) }
    ensures a_session { (pr : PrimaryView ℕ) → pr.book.sessions.items ≡ session_with 0 Stage.Closed [] ∷ [] → IsSessionOf pr 0 (session_with 0 Stage.Closed []) }
    ensures not_a_session { (pr : PrimaryView ℕ) (s : Session) → pr.book.sessions.items ≡ session_with 0 Stage.Closed [] ∷ [] → ¬ IsSessionOf pr 1 s }
    ensures may_take { (pr : PrimaryView ℕ) → pr.book.sessions.items ≡ session_with 0 Stage.Closed [] ∷ [] → MayTakeTurn pr 0 }
    ensures may_not_take { (pr : PrimaryView ℕ) → pr.book.sessions.items ≡ session_with 0 (Stage.Outside None) [] ∷ [] → ¬ MayTakeTurn pr 0 }
    ensures may_leave { (pr : PrimaryView ℕ) → pr.book.sessions.items ≡ session_with 3 (Stage.Open its_begun) [] ∷ [] → MayLeave pr 0 }
    ensures may_not_leave { (pr : PrimaryView ℕ) → pr.book.sessions.items ≡ session_with 1 (Stage.Open its_begun) [] ∷ [] → ¬ MayLeave pr 0 }
    ensures nothing_left { (pr : PrimaryView ℕ) → pr.book.sessions.items ≡ session_with 3 Stage.Closed [] ∷ [] → has_nothing_left pr None ≡ true }
    ensures something_left { (pr : PrimaryView ℕ) → pr.book.sessions.items ≡ session_with 3 Stage.Skipping [] ∷ [] → has_nothing_left pr (Some 0) ≡ false }
    ensures no_line { has_no_line (session_with 3 (Stage.Open its_begun) []) ≡ true }
    ensures a_line { have_no_line (session_with 3 Stage.Closed [] ∷ session_with 0 Stage.Closed [] ∷ []) ≡ false }
    ensures no_statement { (pr : PrimaryView ℕ) → pr.book.sessions.items ≡ session_with 3 Stage.Skipping [] ∷ [] → HasNoStatement pr (Some 0) }
    ensures a_statement { (pr : PrimaryView ℕ) → pr.book.sessions.items ≡ session_with 0 Stage.Closed [] ∷ [] → ¬ HasNoStatement pr (Some 0) }
{}

/// An answer stands at the end. It is that of the session's next statement, or an unprinted rollback ended; a turn that
/// answered nothing adds nothing. A turn that waits for a writer names it. An answer tells with which number its primary is
/// down. What a statement made was made after all that its node knew.
pub fn law_answering_examples()
    ensures adds { (old new : PrimaryView ℕ) → old.book.answers.items ≡ [] → new.book.answers.items ≡ answered_as 1 (Reply.Began 0) ∷ [] → Adds old new (answered_as 1 (Reply.Began 0)) }
    ensures adds_none { (pr : PrimaryView ℕ) (a : Answer) → ¬ Adds pr pr a }
    ensures its_answer { (pr : PrimaryView ℕ) → pr.book.sessions.items ≡ session_with 0 Stage.Closed [] ∷ session_with 1 (Stage.Open its_begun) [] ∷ [] → AddsAnswer pr 1 (record { answer = Some (answered_as 2 (Reply.Wrote WriteVerb.Put)); trace = no_trace } ∷ []) }
    ensures another_answer { (pr : PrimaryView ℕ) → pr.book.sessions.items ≡ session_with 0 Stage.Closed [] ∷ session_with 1 (Stage.Open its_begun) [] ∷ [] → ¬ AddsAnswer pr 1 (record { answer = Some (answered_as 3 Reply.CommittedNone); trace = no_trace } ∷ []) }
    ensures unprinted { (old new : PrimaryView ℕ) → old.book.sessions.items ≡ session_with 3 Stage.Skipping [] ∷ [] → new.book.sessions.items ≡ session_with 3 Stage.Closed [] ∷ [] → EndsUnprinted old new 0 [] }
    ensures not_ended { (pr : PrimaryView ℕ) → pr.book.sessions.items ≡ session_with 3 Stage.Skipping [] ∷ [] → ¬ EndsUnprinted pr pr 0 [] }
    ensures waiting_adds_none { (old new : PrimaryView ℕ) (cause : Cause) → AddsNext old new (Some 0) [] (Turn.Waiting cause) }
    ensures waiting_adds { (old new : PrimaryView ℕ) (e : Entry) (cause : Cause) → ¬ AddsNext old new (Some 0) (e ∷ []) (Turn.Waiting cause) }
    ensures waits_for_nobody { (pr : PrimaryView ℕ) (n : NodeView) (q : CorePart) (name : TrxName) → part_in n.parts pr.number ≡ Some q → pr.book.sessions.items ≡ [] → ¬ WaitsFor pr 0 n n (Cause.Writer name) }
    ensures names { (old new : PrimaryView ℕ) → old.book.sessions.items ≡ session_with 1 (Stage.Open its_begun) [] ∷ []
        → new.book.sessions.items ≡ record (session_with 1 (Stage.Open its_begun) []) { waits = record { items = its_name ∷ []; spare = 0 } } ∷ [] → NamesWait old new 0 (Turn.Waiting (Cause.Writer its_name)) }
    ensures names_nobody { (pr : PrimaryView ℕ) (name : TrxName) → pr.book.sessions.items ≡ session_with 1 (Stage.Open its_begun) [] ∷ [] → ¬ NamesWait pr pr 0 (Turn.Waiting (Cause.Writer name)) }
    ensures no_cause { IfWaiting Turn.Done (λ cause. ⊥) }
    ensures its_cause { (cause : Cause) → ¬ IfWaiting (Turn.Waiting cause) (λ other. ⊥) }
    ensures tells { TellsDown 1 (Reply.Stopped 1) × TellsDown 0 Reply.Skipped × TellsDown 1 (Reply.Unknown 5) }
    ensures tells_wrong { ¬ TellsDown 1 (Reply.Stopped 2) }
    ensures skips_down { ¬ TellsDown 1 Reply.Skipped }
    ensures left_nothing { (n : NodeView) → IsLeftAfter n record { answer = None; trace = no_trace } }
    ensures left_before { (run : Run) → ¬ IsLeftAfter (node_of_first run put_part) written_before }
{}

/// A primary that stands, is up and has nothing left is done; one that is down is not, and one with something left isn't
/// either. No turn drops an answer, leaves its session with a call outside turns, or changes whether its log's disk tells. A
/// statement is tried only with room for its answer, and only of a primary that is up.
pub fn law_turn_examples<D: Disk>()
    ensures done { (run : Run) (pr : PrimaryView D) (n : NodeView) (session : Option ℕ) → StandsWith D.Disk run pr n → IsDownAsTold pr n → pr.down ≡ 0 → has_nothing_left pr session ≡ true → IfSome session (MayTakeTurn pr) → TakesTurn D.Disk run pr pr n n session Turn.Done }
    ensures not_done { (run : Run) (pr : PrimaryView D) (n : NodeView) (session : Option ℕ) → pr.down ≡ 1 → ¬ TakesTurn D.Disk run pr pr n n session Turn.Done }
    ensures not_with_something_left { (run : Run) (pr : PrimaryView D) (n : NodeView) (session : Option ℕ) → has_nothing_left pr session ≡ false → ¬ TakesTurn D.Disk run pr pr n n session Turn.Done }
    ensures not_stopped { (run : Run) (pr : PrimaryView D) (n : NodeView) (session : Option ℕ) → pr.down ≡ 0 → ¬ TakesTurn D.Disk run pr pr n n session (Turn.Stopped 1) }
    ensures goes_on { (pr : PrimaryView D) (n : NodeView) (session : Option ℕ) (entries : List Entry) → PrimaryAgreesIn D.Disk pr entries n → GoesOnBy D.Disk pr pr n n session entries Turn.Done }
    ensures drops_none { (old new : PrimaryView D) (n : NodeView) (q : CorePart) (a : Answer) → part_in n.parts new.number ≡ Some q → new.book.answers.items ≡ []
        → ¬ GoesOnBy D.Disk old new n n None (record { answer = Some a; trace = no_trace } ∷ []) Turn.Answered }
    ensures may_not_go_on { (run : Run) (old new : PrimaryView D) (n : NodeView) (turn : Turn) → new.book.sessions.items ≡ session_with 0 (Stage.Outside None) [] ∷ [] → ¬ TakesTurn D.Disk run old new n n (Some 0) turn }
    ensures tells_still { (run : Run) (old new : PrimaryView D) (n : NodeView) (session : Option ℕ) (turn : Turn) → D.tells old.media.log.disk ≡ true → D.tells new.media.log.disk ≡ false → ¬ TakesTurn D.Disk run old new n n session turn }
    ensures no_room { (run : Run) (pr : PrimaryView D) (n : NodeView) (s : Session) (line : Line) → pr.book.answers.spare ≡ 0 → ¬ ComesTo D.Disk run pr n 1 s line }
    ensures no_room_to_stop { (run : Run) (pr : PrimaryView D) (n : NodeView) (s : Session) (line : Line) → pr.book.answers.spare ≡ 0 → ¬ ComesToStop D.Disk run pr n 1 s line }
    ensures tries_down { (run : Run) (pr : PrimaryView D) (n : NodeView) (stmt : Stmt) → pr.down ≡ 1 → ¬ TriesAt D.Disk run pr n 1 its_begun stmt }
{}

/// A primary that stands and is up is at work, with nothing done; one that is down isn't. A desk with a page on it isn't
/// cleared, and a primary that is up hasn't gone down. A write that is stopped may have left its mtr, a commit may not, and
/// nothing that is stopped begins a transaction.
pub fn law_work_examples<D: Disk>()
    ensures at_work { (run : Run) (pr : PrimaryView D) (n : NodeView) → StandsWith D.Disk run pr n → pr.down ≡ 0 → IsAtWork D.Disk run pr pr n n no_trace }
    ensures not_at_work { (run : Run) (pr : PrimaryView D) (n : NodeView) → pr.down ≡ 1 → ¬ IsAtWork D.Disk run pr pr n n no_trace }
    ensures not_cleared { (run : Run) (pr : PrimaryView D) (n : NodeView) → pr.desk.pool ≡ blank_buffer 5 true ∷ [] → ¬ HasClearedDesk D.Disk run pr pr n n no_trace }
    ensures leaves_one { LeavesAtMostOne (stated_as 2 put_seven) None active_part put_part }
    ensures leaves_none { ¬ LeavesAtMostOne (stated_as 3 Stmt.Commit) None active_part put_part }
    ensures may_stop { (pr : PrimaryView D) (line : Line) (n : NodeView) → MayStopWith pr line None n n no_trace }
    ensures may_not_stop { (pr : PrimaryView D) (line : Line) (n : NodeView) (q : CorePart) → part_in n.parts pr.number ≡ Some q → ¬ MayStopWith pr line None n n (began_trace its_begun) }
    ensures not_gone { (run : Run) (pr : PrimaryView D) (n : NodeView) → pr.number ≡ 1 → pr.down ≡ 0 → ¬ HasGoneDown D.Disk run pr pr n n no_trace }
{}

/// A call outside a turn goes on with a transaction that is open, or that such a call began to put back, with one row of each
/// key. It adds no answer, and leaves other sessions as they are.
/// A commit tells that its log's disk failed only where the primary is down.
pub fn law_outside_examples<D: Disk>()
    ensures has_open { (pr : PrimaryView D) → pr.book.sessions.items ≡ session_with 1 (Stage.Open its_begun) [] ∷ [] → HasOpen pr 0 its_begun }
    ensures has_none_open { (pr : PrimaryView D) (trx : Begun) → pr.book.sessions.items ≡ session_with 3 Stage.Closed [] ∷ [] → ¬ HasOpen pr 0 trx }
    ensures has_still { (pr : PrimaryView D) → pr.book.sessions.items ≡ session_with 1 (Stage.Outside (Some its_begun)) [] ∷ [] → HasOpenStill pr 0 its_begun }
    ensures has_two_rows { (pr : PrimaryView D) → pr.book.sessions.items ≡ session_with 1 (Stage.Outside (Some its_begun)) (row_seven ∷ row_seven ∷ []) ∷ [] → ¬ HasOpenStill pr 0 its_begun }
    ensures has_ended { (pr : PrimaryView D) (trx : Begun) → pr.book.sessions.items ≡ session_with 1 (Stage.Outside None) [] ∷ [] → ¬ HasOpenStill pr 0 trx }
    ensures stands_outside { (pr : PrimaryView D) → pr.book.sessions.items ≡ session_with 1 (Stage.Outside None) [] ∷ [] → StandsOutside pr 0 None }
    ensures stands_inside { (pr : PrimaryView D) (trx : Option Begun) → pr.book.sessions.items ≡ session_with 1 (Stage.Open its_begun) [] ∷ [] → ¬ StandsOutside pr 0 trx }
    ensures calls { (run : Run) (pr : PrimaryView D) (n : NodeView) → StandsWith D.Disk run pr n → IsDownAsTold pr n → CallsOutside D.Disk run pr pr n n 0 }
    ensures calls_answer { (run : Run) (old new : PrimaryView D) (n : NodeView) (a : Answer) → old.book.answers.items ≡ [] → new.book.answers.items ≡ a ∷ [] → ¬ CallsOutside D.Disk run old new n n 0 }
    ensures calls_another { (run : Run) (old new : PrimaryView D) (n : NodeView) → old.book.sessions.items ≡ [] → new.book.sessions.items ≡ session_with 1 (Stage.Open its_begun) [] ∷ [] → ¬ CallsOutside D.Disk run old new n n 1 }
    ensures stays_up { (old new : PrimaryView D) → old.number ≡ 1 → new.down ≡ 0 → ¬ WentDownHere D.Disk old new }
    ensures untold { (pr : PrimaryView D) → D.tells pr.media.log.disk ≡ false → IsOnEachImage D.Disk pr own_trx 5 }
    ensures on_no_image { (pr : PrimaryView D) → D.tells pr.media.log.disk ≡ true → D.image pr.media.log.disk gate_alone → ¬ IsOnEachImage D.Disk pr own_trx 5 }
    ensures committed_none { (old new : PrimaryView D) → new.down ≡ 0 → new.book.sessions.items ≡ session_with 1 (Stage.Outside None) [] ∷ [] → EndsAs D.Disk old new 0 its_begun ends.None }
    ensures not_stopped { (old new : PrimaryView D) → old.number ≡ 1 → new.down ≡ 0 → ¬ EndsAs D.Disk old new 0 its_begun ends.Stopped }
    ensures not_rolled_back { (pr : PrimaryView D) (n : NodeView) → pr.book.sessions.items ≡ session_with 1 (Stage.Outside (Some its_begun)) [] ∷ [] → ¬ RollsBackAs D.Disk pr pr n n 0 its_begun (Ok tt) }
    ensures stopped_by_another { (old new : PrimaryView D) (before after : NodeView) → new.down ≡ 1 → ¬ RollsBackAs D.Disk old new before after 0 its_begun (Err (refusals.Stopped 2)) }
    ensures stopped_up { (old new : PrimaryView D) (before after : NodeView) → old.number ≡ 1 → new.down ≡ 0 → ¬ RollsBackAs D.Disk old new before after 0 its_begun (Err (refusals.Stopped 0)) }
{}
