//! Small examples of the definitions, as the contracts of functions that do nothing.

ghost use Rattle.std.specs.Prelude.{◌≡◌, ℕ, ◌+◌, true, false, List, [], ◌∷◌, slice_get, slice_set, None, Some};
ghost use Rattle.mp_model.specs.declared.replies.Answer.{Answer};
ghost use Rattle.mp_model.specs.declared.replies.Reply.{Reply};
ghost use Rattle.mp_model.specs.declared.replies.WriteVerb.{WriteVerb};
ghost use Rattle.mp_script.specs.declared.statements.Line.{Line};
ghost use Rattle.mp_script.specs.declared.statements.Stmt.{Stmt};
ghost use Rattle.mp_core_trx.specs.declared.part.Begun.{Begun};
ghost use Rattle.mp_book.specs.declared.stage.Refusal.{Refusal};
ghost use Rattle.mp_book.specs.declared.stage.Stage.{Stage};
ghost use Rattle.mp_book.specs.declared.stage.Task.{Task};
ghost use Rattle.mp_book.specs.declared.session.Session.{Session};
ghost use Rattle.mp_book.specs.declared.book.Book.{Book};
ghost use Rattle.mp_book.specs.Orderly.{session_lines, AreInOrder, IsOrderly};
ghost use Rattle.mp_book.specs.Stages.{next_line, task_left, task_of, trx_of_stage, HaveOneRowEach, with_former, is_named, with_name};
ghost use Rattle.mp_book.specs.Answered.{execution_above, NoneShowsDown, HasWrittenHere, WaitsStand, HolderStands, CommitTellsWrites, IsPlaced};
ghost use Rattle.mp_book.specs.Books.{StartsAs, IsSameSession, GoesOn, statements_upto, NextFits, TrxStands, RefusalStands, StageStands, SessionStands, IsBook, IsNext, IsRefusalReply, skipped_to, KeepsFormer, IsOpenStage, stage_after, MayAnswer, SetsSession, IsAnswered, own_lines, HasSameSession, HasRoom, NotesWait, IsGoingBack, IsRolledBack};
ghost use Rattle.mp_book.specs.Through.{have_no_task};
ghost use Rattle.mp_book.specs.SmallBooks.{stated_as, put_seven, three_lines, one_on_one, its_name, its_begun, row_seven, session_with, answered_as, began_alone};

/// A session's statements are its own, in their order, and next is the first that isn't answered; where none is left, an
/// open transaction is to be rolled back.
pub fn law_statement_examples()
    ensures its_lines { session_lines 1 three_lines ≡ three_lines }
    ensures no_others { session_lines 2 three_lines ≡ [] }
    ensures in_order { AreInOrder 0 false three_lines }
    ensures not_in_order { ¬ AreInOrder 0 false (stated_as 2 Stmt.Begin ∷ []) }
    ensures orderly { IsOrderly [] }
    ensures not_orderly { ¬ IsOrderly (stated_as 1 Stmt.Commit ∷ []) }
    ensures next { next_line (session_with 1 (Stage.Open its_begun) []) ≡ Some (stated_as 2 put_seven) }
    ensures none_left { next_line (session_with 3 Stage.Closed []) ≡ None }
    ensures nothing_left { task_left Stage.Closed ≡ Task.Nothing }
    ensures unprinted { task_left (Stage.Open its_begun) ≡ Task.Unprinted }
    ensures to_answer { task_of (session_with 2 (Stage.Open its_begun) []) ≡ Task.Statement (stated_as 3 Stmt.Commit) }
    ensures to_leave { task_of (session_with 3 Stage.Skipping []) ≡ Task.Unprinted }
    ensures its_trx { trx_of_stage (Stage.Leaving its_begun) ≡ Some its_begun }
    ensures no_trx { trx_of_stage Stage.Skipping ≡ None }
    ensures through { have_no_task (session_with 3 Stage.Closed [] ∷ []) ≡ true }
    ensures not_through { have_no_task (session_with 3 Stage.Closed [] ∷ session_with 3 (Stage.Open its_begun) [] ∷ []) ≡ false }
    ensures own_here { own_lines three_lines one_on_one 1 1 ≡ three_lines }
    ensures none_elsewhere { own_lines three_lines one_on_one 2 1 ≡ [] }
{}

/// A row of each key is kept once, and each transaction is named once.
pub fn law_list_examples()
    ensures one_row_each { HaveOneRowEach (row_seven ∷ []) }
    ensures not_one_each { ¬ HaveOneRowEach (row_seven ∷ row_seven ∷ []) }
    ensures row_more { with_former [] (Some row_seven) ≡ row_seven ∷ [] }
    ensures no_row_more { with_former (row_seven ∷ []) None ≡ row_seven ∷ [] }
    ensures keeps_first { KeepsFormer [] 7 (Some row_seven) }
    ensures keeps_no_second { ¬ KeepsFormer (row_seven ∷ []) 7 (Some row_seven) }
    ensures named { is_named its_name (its_name ∷ []) ≡ true }
    ensures not_named { is_named its_name [] ≡ false }
    ensures named_once { with_name its_name (its_name ∷ []) ≡ its_name ∷ [] }
    ensures named_first { with_name its_name [] ≡ its_name ∷ [] }
{}

/// An answer is to its session's next statement. A commit that wrote nothing says so, a read waits for nobody, and a holder
/// of the same primary has written the key.
pub fn law_answer_examples()
    ensures none_down { NoneShowsDown began_alone }
    ensures one_down { ¬ NoneShowsDown (answered_as 1 (Reply.Stopped 1) ∷ []) }
    ensures elsewhere { HasWrittenHere (execution_above three_lines one_on_one []) 2 7 its_name }
    ensures not_written { ¬ HasWrittenHere (execution_above three_lines one_on_one began_alone) 1 7 its_name }
    ensures no_waits { WaitsStand (execution_above three_lines one_on_one []) 1 (Stmt.Get 7) [] }
    ensures no_read_waits { ¬ WaitsStand (execution_above three_lines one_on_one []) 1 (Stmt.Get 7) (its_name ∷ []) }
    ensures no_holder { HolderStands (execution_above three_lines one_on_one began_alone) 1 put_seven (Reply.Wrote WriteVerb.Put) }
    ensures not_a_holder { ¬ HolderStands (execution_above three_lines one_on_one began_alone) 1 put_seven (Reply.Held WriteVerb.Put its_name) }
    ensures wrote_none { CommitTellsWrites (execution_above three_lines one_on_one began_alone) (stated_as 3 Stmt.Commit) Reply.CommittedNone }
    ensures wrote_nothing_at { ¬ CommitTellsWrites (execution_above three_lines one_on_one began_alone) (stated_as 3 Stmt.Commit) (Reply.Committed 1) }
    ensures placed { IsPlaced three_lines one_on_one 1 [] (answered_as 1 (Reply.Began 0)) }
    ensures not_placed { ¬ IsPlaced three_lines one_on_one 1 [] (answered_as 2 (Reply.Wrote WriteVerb.Put)) }
{}

/// What a reply asks of a session's stage, and where the session stands behind it.
pub fn law_stage_examples()
    ensures fits { NextFits true (session_with 1 (Stage.Open its_begun) []) }
    ensures no_put_outside { ¬ NextFits false (session_with 1 Stage.Closed []) }
    ensures none_yet { statements_upto (execution_above three_lines one_on_one began_alone) 1 1 ≡ 0 }
    ensures one_statement { statements_upto (execution_above three_lines one_on_one began_alone) 1 2 ≡ 1 }
    ensures trx_stands { TrxStands (execution_above three_lines one_on_one began_alone) 1 (session_with 1 (Stage.Open its_begun) []) its_begun }
    ensures not_begun { ¬ TrxStands (execution_above three_lines one_on_one []) 1 (session_with 1 (Stage.Open its_begun) []) its_begun }
    ensures full_stands { RefusalStands (execution_above three_lines one_on_one began_alone) 1 put_seven Refusal.Full }
    ensures held_by_none { ¬ RefusalStands (execution_above three_lines one_on_one began_alone) 1 put_seven (Refusal.Held its_name) }
    ensures closed { StageStands (execution_above three_lines one_on_one []) 1 1 (session_with 0 Stage.Closed []) Stage.Closed }
    ensures not_closed { ¬ StageStands (execution_above three_lines one_on_one began_alone) 1 1 (session_with 1 Stage.Closed []) Stage.Closed }
    ensures refusal_said { IsRefusalReply (Refusal.Conflict 5) (stated_as 2 put_seven) (Reply.Conflict WriteVerb.Put 5) }
    ensures another_said { ¬ IsRefusalReply (Refusal.Conflict 5) (stated_as 2 put_seven) (Reply.Full WriteVerb.Put) }
    ensures skipping_on { skipped_to true ≡ Stage.Skipping }
    ensures skipped_all { skipped_to false ≡ Stage.Closed }
    ensures is_open { IsOpenStage (Stage.Open its_begun) }
    ensures not_open { ¬ IsOpenStage Stage.Closed }
    ensures committed { stage_after (Stage.Open its_begun) Stmt.Commit (Reply.Committed 1) ≡ Stage.Closed }
    ensures refused { stage_after (Stage.Open its_begun) put_seven (Reply.Full WriteVerb.Put) ≡ Stage.Skipping }
    ensures may_write { MayAnswer (session_with 1 (Stage.Open its_begun) []) (stated_as 2 put_seven) (Reply.Wrote WriteVerb.Put) (Stage.Open its_begun) (row_seven ∷ []) 0 }
    ensures may_not_write { ¬ MayAnswer (session_with 1 Stage.Closed []) (stated_as 2 put_seven) (Reply.Wrote WriteVerb.Put) Stage.Closed (row_seven ∷ []) 0 }
    ensures goes_back { IsGoingBack (Stage.Leaving its_begun) }
    ensures goes_on { ¬ IsGoingBack (Stage.Open its_begun) }
    ensures rolled_back { IsRolledBack (session_with 3 Stage.Skipping []) }
    ensures not_rolled_back { ¬ IsRolledBack (session_with 3 (Stage.Leaving its_begun) (row_seven ∷ [])) }
{}

/// A session starts with nothing answered, and goes on by one statement; more room leaves it the same.
pub fn law_session_examples()
    ensures starts { StartsAs 1 three_lines (session_with 0 Stage.Closed []) }
    ensures not_a_start { ¬ StartsAs 1 three_lines (session_with 1 Stage.Closed []) }
    ensures same { IsSameSession (session_with 1 Stage.Closed []) (session_with 1 Stage.Closed []) }
    ensures not_same { ¬ IsSameSession (session_with 1 Stage.Closed []) (session_with 1 Stage.Closed (row_seven ∷ [])) }
    ensures goes_on { GoesOn (session_with 1 (Stage.Open its_begun) []) (session_with 2 (Stage.Open its_begun) (row_seven ∷ [])) (Stage.Open its_begun) (row_seven ∷ []) 0 }
    ensures stands_still { ¬ GoesOn (session_with 1 (Stage.Open its_begun) []) (session_with 1 (Stage.Open its_begun) []) (Stage.Open its_begun) [] 0 }
    ensures stands { SessionStands three_lines one_on_one 1 began_alone 1 (session_with 1 (Stage.Open its_begun) []) }
    ensures stands_behind { ¬ SessionStands three_lines one_on_one 1 began_alone 1 (session_with 0 Stage.Closed []) }
{}

/// A book has 65 sessions. The next statement is one of a session that is there. An answer stands at the end of all, and a
/// session's change is no answer.
pub fn law_book_examples()
    ensures no_book { (book : Book) → book.sessions.items ≡ [] → ¬ IsBook three_lines one_on_one 1 book }
    ensures next { (book : Book) (s : Session) → book.sessions.items ≡ s ∷ session_with 1 (Stage.Open its_begun) [] ∷ [] → IsNext book 1 (session_with 1 (Stage.Open its_begun) []) (stated_as 2 put_seven) }
    ensures no_next { (book : Book) (s : Session) (line : Line) → book.sessions.items ≡ [] → ¬ IsNext book 1 s line }
    ensures sets { (book : Book) (s : Session) → slice_get book.sessions.items 1 ≡ Some s → SetsSession book book 1 s }
    ensures sets_no_answer { (old new : Book) (s : Session) → old.answers.items ≡ [] → new.answers.items ≡ began_alone → ¬ SetsSession old new 1 s }
    ensures answered { (old new : Book) → old.answers.items ≡ began_alone → new.answers.items ≡ answered_as 1 (Reply.Began 0) ∷ answered_as 2 (Reply.Wrote WriteVerb.Put) ∷ []
        → new.sessions.items ≡ slice_set old.sessions.items 1 (session_with 2 (Stage.Open its_begun) (row_seven ∷ []))
        → IsAnswered old new 1 (session_with 1 (Stage.Open its_begun) []) (stated_as 2 put_seven) (Reply.Wrote WriteVerb.Put) (Stage.Open its_begun) (row_seven ∷ []) 0 }
    ensures not_answered { (book : Book) (s : Session) (line : Line) (reply : Reply) → book.answers.items ≡ [] → ¬ IsAnswered book book 1 s line reply Stage.Closed [] 0 }
    ensures same { (book : Book) (s : Session) → slice_get book.sessions.items 1 ≡ Some s → HasSameSession book book 1 s }
    ensures not_same { (old new : Book) (s : Session) → old.sessions.items ≡ s ∷ [] → new.sessions.items ≡ [] → ¬ HasSameSession old new 0 s }
    ensures room { (book : Book) → book.answers.spare ≡ 1 → book.sessions.items ≡ [] → HasRoom book 1 }
    ensures no_room { (book : Book) → book.answers.spare ≡ 0 → ¬ HasRoom book 1 }
    ensures notes { (old new : Book) → new.answers ≡ old.answers → new.sessions.items ≡ slice_set old.sessions.items 1 (record (session_with 1 (Stage.Open its_begun) []) { waits = record { items = its_name ∷ []; spare = 0 } })
        → NotesWait old new 1 (session_with 1 (Stage.Open its_begun) []) its_name }
    ensures notes_nobody { (book : Book) (s : Session) → book.sessions.items ≡ s ∷ [] → s.waits.items ≡ [] → ¬ NotesWait book book 0 s its_name }
{}
