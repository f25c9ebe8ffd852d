//! The laws, as the contracts of functions that do nothing.
ghost use Rattle.std.specs.Prelude.{ℕ, Bool, true, false, List, [], ◌∷◌, ◌++◌, length, slice_get, slice_set, ◌≡◌, ◌≢◌, ◌<◌, ◌≤◌, ◌+◌, ◌⊎◌, Option, None, Some};
ghost use Rattle.std.specs.List.{AllByRecursion};
ghost use Rattle.mp_machine.specs.Lists.{IsIn};
ghost use Rattle.mp_model.specs.declared.ids.TrxId.{TrxId};
ghost use Rattle.mp_model.specs.declared.ids.TrxName.{TrxName};
ghost use Rattle.mp_model.specs.declared.replies.Answer.{Answer};
ghost use Rattle.mp_model.specs.declared.replies.Reply.{Reply};
ghost use Rattle.mp_script.specs.declared.statements.Line.{Line};
ghost use Rattle.mp_script.specs.Execution.{stmt_in};
ghost use Rattle.mp_script.specs.Transactions.{begins, trx_in_lines};
ghost use Rattle.mp_cells.specs.PageView.{PageView};
ghost use Rattle.mp_cells.specs.declared.records.Mtr.{Mtr};
ghost use Rattle.mp_cells.specs.declared.rows.Row.{Row};
ghost use Rattle.mp_core_trx.specs.declared.part.Begun.{Begun};
ghost use Rattle.mp_core_trx.specs.declared.part.Draw.{Draw};
ghost use Rattle.mp_core_trx.specs.declared.slot.SlotTag.TheVariants.{Active};
ghost use Rattle.mp_core_trx.specs.Words.{shows};
ghost use Rattle.mp_core_trx.specs.Events.{IsUsable, slot_row, ended};
ghost use Rattle.mp_core_trx.specs.Parts.{IsOpen, shown_at};
ghost use Rattle.mp_core_pages.specs.declared.part.GivenPage.{GivenPage};
ghost use Rattle.mp_core_pages.specs.declared.part.Placed.{Placed};
ghost use Rattle.mp_core.specs.declared.part.CorePart.{CorePart};
ghost use Rattle.mp_core.specs.CoreExtends.{durable_of, CoreExtends};
ghost use Rattle.mp_core.specs.OwnMtrs.{row_put_by, row_kept_by, row_restored_by, trx_of_mtr, TrxMtr, trx_mtrs};
ghost use Rattle.mp_book.specs.declared.session.Session.{Session};
ghost use Rattle.mp_book.specs.declared.stage.Stage.TheVariants.{Open};
ghost use Rattle.mp_book.specs.Stages.{trx_of_stage, HaveOneRowEach, with_former};
ghost use Rattle.mp_book.specs.Books.{GoesOn, KeepsFormer};
ghost use Rattle.mp_supports.specs.Work.{Work, name_of};
ghost use Rattle.mp_supports.specs.Seeing.{Sees};
ghost use Rattle.mp_supports.specs.Supports.{Trace, no_trace, began_trace, wrote_trace, commit_trace, SupportsReply, SupportsWaits, Supports};
ghost use Rattle.mp_supports.specs.Kept.{Entry, IsTraced, Kept, Did, GoesDownOnce, MayBeKept};
ghost use Rattle.mp_supports.specs.Steps.{OnlyLooked, MadeOne, Forced, TrxStep, trx_mtr_of, drew_trace};
ghost use Rattle.mp_log.specs.Tails.{TailView, LogStands};
ghost use Rattle.mp_supports.specs.Agreement.{last_made_llsn, rows_left, is_of_write, StandAtNumbers, HasNoNewWait, Opens, Mirrors, Bounds};
ghost use Rattle.mp_supports.specs.Media.{mtrs_in_order, above_base, OnDisk};

use mp_outside::Disk;

/// Steps lead from a part to itself, and where they lead on they lead from the first to the last.
pub fn law_extends()
    ensures itself { (p : CorePart) → CoreExtends p p }
    ensures onward { (p q r : CorePart) → CoreExtends p q → CoreExtends q r → CoreExtends p r }
{}

/// Whatever later steps do, a part goes on to show the versions that it showed, to have the traces that it had, and to
/// support the answers that it supported: also where a primary that was up goes down.
pub fn law_supports_more()
    ensures supports { (work : Work) (p q : CorePart) (down after : ℕ) (answer : Answer) (trace : Trace) → CoreExtends p q → (down ≡ 0) ⊎ (down ≡ after) → Supports work p down answer trace → Supports work q after answer trace }
    ensures reply { (work : Work) (p q : CorePart) (down after : ℕ) (trace : Trace) (line : Line) (reply : Reply) → CoreExtends p q → (down ≡ 0) ⊎ (down ≡ after) → SupportsReply work p down trace line reply → SupportsReply work q after trace line reply }
    ensures waits { (work : Work) (p q : CorePart) (line : Line) (waits : List TrxName) → CoreExtends p q → SupportsWaits work p line waits → SupportsWaits work q line waits }
    ensures sees { (p q : CorePart) (pages : List (GivenPage PageView)) (reader : TrxId) (view key : ℕ) (found : Row) → CoreExtends p q → Sees p pages reader view key found → Sees q pages reader view key found }
    ensures traced { (p q : CorePart) (trace : Trace) → CoreExtends p q → IsTraced p trace → IsTraced q trace }
{}

/// What a primary keeps stays so by what a turn did for one statement, and the statement's answer with its trace may be
/// added; a turn that left no trace adds nothing.
pub fn law_kept()
    ensures more { (work : Work) (p q : CorePart) (down after : ℕ) (entries : List Entry) (entry : Entry) → GoesDownOnce p q down after → Kept work p down entries → Did p q entry.trace → MayBeKept work q after entry → Kept work q after (entries ++ entry ∷ []) }
    ensures quiet { (work : Work) (p q : CorePart) (down after : ℕ) (entries : List Entry) → GoesDownOnce p q down after → Kept work p down entries → Did p q no_trace → Kept work q after entries }
{}

/// What each class of steps leaves as the trace of a statement: a look, a force and a restore leave nothing, a begin, a draw,
/// a put and a commit record leave themselves. Steps one after another leave one trace.
pub fn law_steps_leave()
    ensures looked { (p q : CorePart) → OnlyLooked p q → Did p q no_trace }
    ensures forced { (p q : CorePart) (llsn : ℕ) → Forced llsn p q → Did p q no_trace }
    ensures trx { (p q : CorePart) → TrxStep p q → q.trx.begun ≡ p.trx.begun → q.trx.drew ≡ p.trx.drew → Did p q no_trace }
    ensures began { (p q : CorePart) (b : Begun) → TrxStep p q → q.trx.begun ≡ b ∷ p.trx.begun → q.trx.drew ≡ p.trx.drew → Did p q (began_trace b) }
    ensures drew { (p q : CorePart) (d : Draw) → TrxStep p q → q.trx.begun ≡ p.trx.begun → q.trx.drew ≡ d ∷ p.trx.drew → Did p q (drew_trace d) }
    ensures made { (p q : CorePart) (x : Placed Mtr) → MadeOne x p q → row_restored_by x.mtr ≡ None → Did p q (wrote_trace [] (trx_mtr_of p x)) }
    ensures put_back { (p q : CorePart) (x : Placed Mtr) (row : Row) → MadeOne x p q → row_restored_by x.mtr ≡ Some row → Did p q no_trace }
    ensures with_pages { (p q : CorePart) (trace : Trace) (pages : List (GivenPage PageView)) → Did p q trace → AllByRecursion (λ g. IsIn g q.pages.given) pages → AllByRecursion (λ g. (x : Placed Mtr) → IsIn x p.pages.made → x.at < g.height) pages → Did p q (record trace { pages = pages }) }
    ensures then_nothing { (p q r : CorePart) (trace : Trace) → Did p q trace → Did q r no_trace → Did p r trace }
    ensures after_nothing { (p q r : CorePart) (trace : Trace) → Did p q no_trace → Did q r trace → Did p r trace }
    ensures commit { (p q r : CorePart) (d : Draw) (m : TrxMtr) → Did p q (drew_trace d) → Did q r (wrote_trace [] m) → Did p r (commit_trace d m) }
{}

/// What a step changes nothing of stays: the open transactions where it only looks, forces, or records a commit; what
/// mirrors pages where it makes nothing and changes no lock; the bounds where it makes nothing.
pub fn law_steps_keep()
    ensures opens_looked { (work : Work) (p q : CorePart) (down : ℕ) (sessions : List Session) → OnlyLooked p q → Opens work p down sessions → Opens work q down sessions }
    ensures opens_forced { (work : Work) (p q : CorePart) (down llsn : ℕ) (sessions : List Session) → Forced llsn p q → Opens work p down sessions → Opens work q down sessions }
    ensures opens_drawn { (work : Work) (p q : CorePart) (down : ℕ) (sessions : List Session) → TrxStep p q → q.trx.begun ≡ p.trx.begun → q.trx.rows ≡ p.trx.rows → Opens work p down sessions → Opens work q down sessions }
    ensures opens_commit { (work : Work) (p q : CorePart) (down : ℕ) (x : Placed Mtr) (sessions : List Session) → MadeOne x p q → row_put_by x.mtr ≡ None → row_restored_by x.mtr ≡ None → Opens work p down sessions → Opens work q down sessions }
    ensures mirrors_looked { (p q : CorePart) (down llsn : ℕ) (undo : Option ℕ) → OnlyLooked p q → q.pages.locks ≡ p.pages.locks → Mirrors p down llsn undo → Mirrors q down llsn undo }
    ensures mirrors_forced { (p q : CorePart) (down llsn durable : ℕ) (undo : Option ℕ) → Forced durable p q → Mirrors p down llsn undo → Mirrors q down llsn undo }
    ensures mirrors_trx { (p q : CorePart) (down llsn : ℕ) (undo : Option ℕ) → TrxStep p q → Mirrors p down llsn undo → Mirrors q down llsn undo }
    ensures bounds_looked { (work : Work) (p q : CorePart) (answers : List Answer) (sessions : List Session) → OnlyLooked p q → Bounds work p answers sessions → Bounds work q answers sessions }
    ensures bounds_forced { (work : Work) (p q : CorePart) (llsn : ℕ) (answers : List Answer) (sessions : List Session) → Forced llsn p q → Bounds work p answers sessions → Bounds work q answers sessions }
    ensures bounds_trx { (work : Work) (p q : CorePart) (answers : List Answer) (sessions : List Session) → TrxStep p q → Bounds work p answers sessions → Bounds work q answers sessions }
{}

/// Where a session's transaction begins, puts, puts a row back or ends, the open transactions are the sessions' again once
/// the session goes on so. Over the steps of a commit the others' slots and rows must stay as they were.
pub fn law_sessions_go_on()
    ensures begun { (work : Work) (p q : CorePart) (down number : ℕ) (sessions : List Session) (s after : Session) (b : Begun) → TrxStep p q
        → q.trx.begun ≡ b ∷ p.trx.begun → q.trx.rows ≡ slot_row b.id (shows Active b.id.version 0) ∷ p.trx.rows
        → IsUsable p.trx b.id.slot → ((c : Begun) → IsIn c p.trx.begun → c.id.version ≢ b.id.version) → ((m : TrxMtr) → IsIn m (trx_mtrs p.pages.made) → m.of ≢ Some b.id)
        → StandAtNumbers sessions → slice_get sessions number ≡ Some s → trx_of_stage s.stage ≡ None → name_of work b.id ≡ Some (trx_in_lines work.lines s.number (s.next + 1)) → GoesOn s after (Open b) [] 0
        → Opens work p down sessions → Opens work q down (slice_set sessions number after) }
    ensures put { (work : Work) (p q : CorePart) (down number : ℕ) (sessions : List Session) (s after : Session) (x : Placed Mtr) (trx : Begun) (row kept : Row) (former : Option Row) → MadeOne x p q
        → row_restored_by x.mtr ≡ None → row_put_by x.mtr ≡ Some row → row.writer ≡ Some trx.id → row_kept_by x.mtr ≡ Some kept
        → StandAtNumbers sessions → slice_get sessions number ≡ Some s → s.stage ≡ Open trx → s.restored ≡ 0 → begins (stmt_in work.lines s.number (s.next + 1)) ≡ false
        → KeepsFormer s.formers.items row.key former → (former ≡ None) ⊎ (former ≡ Some kept) → GoesOn s after (Open trx) (with_former s.formers.items former) 0
        → Opens work p down sessions → Opens work q down (slice_set sessions number after) }
    ensures put_back { (work : Work) (p q : CorePart) (down number : ℕ) (sessions : List Session) (s : Session) (x : Placed Mtr) (trx : Begun) (row former : Row) → MadeOne x p q
        → row_restored_by x.mtr ≡ Some row → row_put_by x.mtr ≡ None → trx_of_mtr p.pages.made x.mtr ≡ Some trx.id
        → StandAtNumbers sessions → slice_get sessions number ≡ Some s → trx_of_stage s.stage ≡ Some trx → slice_get s.formers.items s.restored ≡ Some former → former.key ≡ row.key → HaveOneRowEach s.formers.items
        → Opens work p down sessions → Opens work q down (slice_set sessions number (record s { restored = s.restored + 1 })) }
    ensures freed { (work : Work) (p q : CorePart) (down number : ℕ) (sessions : List Session) (s after : Session) (trx : Begun) → TrxStep p q
        → q.trx.begun ≡ p.trx.begun → q.trx.rows ≡ slot_row trx.id (ended trx.id None) ∷ p.trx.rows → IsOpen p.trx trx.id
        → StandAtNumbers sessions → slice_get sessions number ≡ Some s → trx_of_stage s.stage ≡ Some trx → trx_of_stage after.stage ≡ None → HasNoNewWait s after
        → Opens work p down sessions → Opens work q down (slice_set sessions number after) }
    ensures published { (work : Work) (p q : CorePart) (down number cts : ℕ) (sessions : List Session) (s after : Session) (trx : Begun) (x : Placed Mtr) → CoreExtends p q
        → q.trx.begun ≡ p.trx.begun → ((slot : ℕ) → slot ≢ trx.id.slot → shown_at q.trx.rows slot ≡ shown_at p.trx.rows slot) → shown_at q.trx.rows trx.id.slot ≡ ended trx.id (Some cts)
        → q.pages.made ≡ x ∷ p.pages.made → row_put_by x.mtr ≡ None → row_restored_by x.mtr ≡ None → IsOpen p.trx trx.id
        → StandAtNumbers sessions → slice_get sessions number ≡ Some s → trx_of_stage s.stage ≡ Some trx → trx_of_stage after.stage ≡ None → HasNoNewWait s after
        → Opens work p down sessions → Opens work q down (slice_set sessions number after) }
{}

/// The bounds stand where a session goes on: with a put's mtr, where its write is answered; with one that puts a row back; with
/// a commit's record, where a timestamp was drawn for it; and without an mtr, where the session has no more rows to put back.
pub fn law_bounds_go_on()
    ensures put { (work : Work) (p q : CorePart) (answers : List Answer) (number : ℕ) (sessions : List Session) (s after : Session) (x : Placed Mtr) (trx : Begun) (former : Option Row) (a : Answer) → MadeOne x p q
        → slice_get sessions number ≡ Some s → trx_of_stage s.stage ≡ Some trx → GoesOn s after (Open trx) (with_former s.formers.items former) s.restored → is_of_write work.lines a ≡ true
        → Bounds work p answers sessions → Bounds work q (answers ++ a ∷ []) (slice_set sessions number after) }
    ensures put_back { (work : Work) (p q : CorePart) (answers : List Answer) (number : ℕ) (sessions : List Session) (s : Session) (x : Placed Mtr) (trx : Begun) → MadeOne x p q
        → slice_get sessions number ≡ Some s → trx_of_stage s.stage ≡ Some trx → s.restored < length s.formers.items
        → Bounds work p answers sessions → Bounds work q answers (slice_set sessions number (record s { restored = s.restored + 1 })) }
    ensures commit { (work : Work) (p q : CorePart) (answers more : List Answer) (number : ℕ) (sessions : List Session) (s after : Session) → CoreExtends p q
        → length q.pages.made ≡ length p.pages.made + 1 → length q.trx.drew ≡ length p.trx.drew + 1
        → slice_get sessions number ≡ Some s → rows_left after ≤ rows_left s
        → Bounds work p answers sessions → Bounds work q (answers ++ more) (slice_set sessions number after) }
    ensures no_mtr { (work : Work) (p q : CorePart) (answers more : List Answer) (number : ℕ) (sessions : List Session) (s after : Session) → CoreExtends p q → q.pages.made ≡ p.pages.made
        → slice_get sessions number ≡ Some s → rows_left after ≤ rows_left s
        → Bounds work p answers sessions → Bounds work q (answers ++ more) (slice_set sessions number after) }
{}

/// What the media hold stays where a step only looks, or is one of transactions. An mtr that was made must be appended to the
/// same primary's log, and be above what is durable; a force must have left all mtrs in the log's batches.
pub fn law_steps_keep_media<D: Disk>()
    ensures looked { (work : Work) (p q : CorePart) (down : ℕ) (tail : TailView) (unforced : Bool) (disk : D) → OnlyLooked p q → OnDisk work p down tail unforced (D.tells disk) (D.seen disk) (D.image disk) → OnDisk work q down tail unforced (D.tells disk) (D.seen disk) (D.image disk) }
    ensures trx { (work : Work) (p q : CorePart) (down : ℕ) (tail : TailView) (unforced : Bool) (disk : D) → TrxStep p q → OnDisk work p down tail unforced (D.tells disk) (D.seen disk) (D.image disk) → OnDisk work q down tail unforced (D.tells disk) (D.seen disk) (D.image disk) }
    ensures made { (work : Work) (p q : CorePart) (down : ℕ) (x : Placed Mtr) (old tail : TailView) (unforced : Bool) (disk : D) → MadeOne x p q → durable_of q < x.mtr.llsn → OnDisk work p down old unforced (D.tells disk) (D.seen disk) (D.image disk)
        → ((batches : List (List Mtr)) (pending : List Mtr) → LogStands batches pending old (D.seen disk) (D.image disk) → LogStands batches (pending ++ x.mtr ∷ []) tail (D.seen disk) (D.image disk))
        → tail.node ≡ old.node → tail.last ≡ x.mtr.llsn → tail.live ≡ old.live → OnDisk work q down tail true (D.tells disk) (D.seen disk) (D.image disk) }
    ensures forced { (work : Work) (p q : CorePart) (down : ℕ) (tail : TailView) (batches : List (List Mtr)) (disk : D) → Forced (last_made_llsn p) p q → LogStands batches [] tail (D.seen disk) (D.image disk) → mtrs_in_order p ≡ above_base work batches
        → tail.live ≡ true → (0 < length p.pages.made → tail.last ≡ last_made_llsn p) → OnDisk work q down tail false (D.tells disk) (D.seen disk) (D.image disk) }
{}
