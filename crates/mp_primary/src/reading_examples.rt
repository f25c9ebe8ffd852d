//! What the words of a read's end and of a stop say, tried on small parts, as the contracts of functions that do nothing.
ghost use Rattle.std.specs.Prelude.{◌≡◌, ℕ, true, List, [], ◌∷◌, None, Some};
ghost use Rattle.mp_machine.specs.View.{part_in};
ghost use Rattle.mp_model.specs.declared.ids.TrxName.{TrxName};
ghost use Rattle.mp_model.specs.declared.replies.Reply.{Reply};
ghost use Rattle.mp_model.specs.declared.waiting.Cause.{Cause};
ghost use Rattle.mp_model.specs.declared.waiting.NotYet.{NotYet};
ghost use Rattle.mp_script.specs.declared.statements.Line.{Line};
ghost use Rattle.mp_script.specs.declared.statements.Stmt.{Stmt};
ghost use Rattle.mp_script.specs.Execution.{runs_on};
ghost use Rattle.mp_cells.specs.declared.rows.Row.{Row};
ghost use Rattle.mp_core.specs.declared.part.CorePart.{CorePart};
ghost use Rattle.mp_book.specs.declared.stage.Stage.{Stage};
ghost use Rattle.mp_book.specs.Answered.{execution_above};
ghost use Rattle.mp_book.specs.SmallBooks.{its_begun, session_with};
ghost use Rattle.mp_shared.specs.Nodes.{NodeView};
ghost use Rattle.mp_supports.specs.Supports.{no_trace};
ghost use Rattle.mp_supports.specs.SmallParts.{own_trx};
ghost use Rattle.mp_desk.specs.declared.halts.ReadHalt.{ReadHalt};
ghost use Rattle.mp_primary.specs.Primaries.{PrimaryView};
ghost use Rattle.mp_primary.specs.AtWork.{LeavesAtMostOne, MayStopWith, WroteHere};
ghost use Rattle.mp_primary.specs.Reads.{IsReadOf, FindsReply, StopsReading};

/// A `get` is a read with its value, and with no reply to a `commit`. A read comes to its reply, or stops, only in a session
/// with an open transaction.
pub fn law_read_end_examples()
    ensures reads { IsReadOf (Stmt.Get 5) (Reply.Got None) }
    ensures not_a_commit { ¬ IsReadOf (Stmt.Get 5) Reply.CommittedNone }
    ensures finds { (pr : PrimaryView ℕ) (n : NodeView) (line : Line) → part_in n.parts pr.number ≡ None → line.stmt ≡ Stmt.Get 5 → FindsReply pr n n (session_with 1 (Stage.Open its_begun) []) line (Reply.Got None) [] }
    ensures finds_unopened { (pr : PrimaryView ℕ) (n : NodeView) (line : Line) → ¬ FindsReply pr n n (session_with 1 Stage.Closed []) line (Reply.Got None) [] }
    ensures stops { (pr : PrimaryView ℕ) (n : NodeView) → part_in n.parts pr.number ≡ None → StopsReading pr n n (session_with 1 (Stage.Open its_begun) []) (ReadHalt.Prep own_trx) }
    ensures stops_unopened { (pr : PrimaryView ℕ) (n : NodeView) (halt : ReadHalt) → ¬ StopsReading pr n n (session_with 1 Stage.Closed []) halt }
{}

/// A statement that is stopped may have left nothing, and then keeps no row that it replaced. A transaction of the primary's
/// own that has written nothing isn't waited for.
pub fn law_stopping_examples()
    ensures leaves_none { (line : Line) (q : CorePart) → LeavesAtMostOne line None q q }
    ensures leaves_a_row { (line : Line) (q : CorePart) (row : Row) → ¬ LeavesAtMostOne line (Some row) q q }
    ensures may_stop { (pr : PrimaryView ℕ) (line : Line) (n : NodeView) → MayStopWith pr line None n n no_trace }
    ensures may_not_stop { (pr : PrimaryView ℕ) (line : Line) (n : NodeView) (q : CorePart) (row : Row) → part_in n.parts pr.number ≡ Some q → ¬ MayStopWith pr line (Some row) n n no_trace }
    ensures a_word { (pr : PrimaryView ℕ) (line : Line) (wait : NotYet) → WroteHere pr line (Cause.Word wait) }
    ensures wrote_nothing { (pr : PrimaryView ℕ) (line : Line) (name : TrxName) → pr.book.answers.items ≡ [] → line.stmt ≡ Stmt.Del 7
        → runs_on (execution_above pr.work.lines pr.work.sessions []) name.session pr.number ≡ true → ¬ WroteHere pr line (Cause.Writer name) }
{}
