//! Laws of the script language.

ghost use Rattle.std.specs.Prelude.{◌≡◌, ◌+◌, ◌<◌, ◌≤◌, ℕ, List, [], None, IfSome};
ghost use Rattle.std.specs.List.{AllByRecursion};
ghost use Rattle.mp_model.specs.Folded.{over, before, value_at};
ghost use Rattle.mp_model.specs.declared.histories.Opening.{Opening};
ghost use Rattle.mp_model.specs.declared.key_value.KeyValue.{KeyValue};
ghost use Rattle.mp_model.specs.declared.key_value.KeyWrite.{KeyWrite};
ghost use Rattle.mp_model.specs.declared.transcripts.Part.{Part};
ghost use Rattle.mp_model.specs.declared.transcripts.Transcript.{Transcript};
ghost use Rattle.mp_script.specs.Below.{EachBelow, stated};
ghost use Rattle.mp_script.specs.Execution.{Execution, execution_of};
ghost use Rattle.mp_script.specs.InTheirPart.{count_from, IsNextStatement, LeavesNone, AnswersEachOnce};
ghost use Rattle.mp_script.specs.Entries.{statements};
ghost use Rattle.mp_script.specs.LastValues.{last_value, value_over, IsValueInView, CommitsAboveViews};
ghost use Rattle.mp_script.specs.Numbered.{AreNumbered, AreNumberedOnce};
ghost use Rattle.mp_script.specs.Seen.{history, seen};
ghost use Rattle.mp_script.specs.SpelledLines.{IsLineInRange, IsRowInRange, HaveTheirBegin, begin_count};
ghost use Rattle.mp_script.specs.Transactions.{view_at, cts_of};
ghost use Rattle.mp_script.specs.declared.statements.Script.{Script};
ghost use Rattle.mp_script.specs.Faults.{script_fault};
ghost use Rattle.mp_script.specs.Spelling.{Spells, IsSpelled, IsSameScript};

/// Bytes spell one script at most. Those that spell one have no fault, and those without a fault spell one: so bytes
/// are a script or have a first fault, and never both.
pub fn law_one_script()
    ensures once { (bytes : List ℕ) (one other : Script) → Spells bytes one → Spells bytes other → IsSameScript one other }
    ensures no_fault { (bytes : List ℕ) (script : Script) → Spells bytes script → script_fault bytes ≡ None }
    ensures spelled { (bytes : List ℕ) → script_fault bytes ≡ None → (script : Script) × Spells bytes script }
{}

/// Commits that each show a free number, as many as the transcript says, are numbered from base + 1 on, each number
/// once; and the other way round where each is above its view.
pub fn law_numbered_once()
    ensures once { (run : Execution) → AreNumbered run → AreNumberedOnce run }
    ensures free { (run : Execution) → AreNumberedOnce run
        → AllByRecursion (λ answer. IfSome (cts_of answer.reply) (λ number. view_at run answer.session answer.index < number))
        run.answers
        → AreNumbered run }
{}

/// A part whose every answer is the one to its session's next statement, with no statement left, has the statements of
/// its sessions in each session's order, and no others; and the other way round.
pub fn law_answered_once()
    ensures once { (run : Execution) (part : Part) → EachBelow (IsNextStatement run part.primary) [] part.answers.items
        → LeavesNone run part → AnswersEachOnce run part }
    ensures next { (run : Execution) (part : Part) → AnswersEachOnce run part
        → EachBelow (IsNextStatement run part.primary) [] part.answers.items }
    ensures none_left { (run : Execution) (part : Part) → AnswersEachOnce run part → LeavesNone run part }
{}

/// Of a script that bytes spell: each session's statements are numbered from 1 on, in order; each statement is within
/// the ranges of the language; each has its transaction's `begin` at or above it in its session; and at most 5,032
/// transactions are begun.
pub fn law_spelled_lines()
    ensures in_order { (script : Script) → IsSpelled script → (session : ℕ)
        → stated session script.lines.items ≡ count_from 1 (statements script.lines.items session) }
    ensures within { (script : Script) → IsSpelled script → AllByRecursion IsLineInRange script.lines.items }
    ensures begun { (script : Script) → IsSpelled script → HaveTheirBegin script.lines.items }
    ensures few_begins { (script : Script) → IsSpelled script → begin_count script.lines.items ≤ 5032 }
{}

/// Where a spelled script runs over rows whose keys and values statements may write, so are the rows that its
/// statements see.
pub fn law_seen_rows()
    ensures { (script : Script) (opening : Opening) (transcript : Transcript) → IsSpelled script
        → AllByRecursion IsRowInRange opening.rows.items
        → (session index : ℕ) → AllByRecursion IsRowInRange (seen (execution_of script opening transcript) session index) }
{}

/// The value of a key after writes is what the last write of it sets, or else the value before them. The rows of a view
/// have at a key what the latest commit in the view that wrote the key set, or the opening's value.
pub fn law_value_in_view()
    ensures over_rows { (key : ℕ) (rows : List KeyValue) (writes : List KeyWrite) → value_at key (over rows writes) ≡ value_over (last_value key writes) (value_at key rows) }
    ensures in_view { (run : Execution) (key view : ℕ) → CommitsAboveViews run → run.opening.base ≤ view → view ≤ run.opening.base + run.commits → IsValueInView run view key (value_at key (before run.opening.rows.items (history run run.commits) view)) }
{}
