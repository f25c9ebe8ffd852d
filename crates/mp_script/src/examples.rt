//! Definitions, tried on small cases.

ghost use Rattle.std.specs.Prelude.{◌≡◌, ℕ, ◌==◌, if◌then◌else◌, true, false, [], ◌∷◌, Some, None};
ghost use Rattle.mp_model.specs.declared.replies.Answer.{Answer};
ghost use Rattle.mp_model.specs.declared.replies.Reply.TheVariants.{Held, Wrote};
ghost use Rattle.mp_model.specs.declared.replies.WriteVerb.TheVariants as verb;
ghost use Rattle.mp_script.specs.Answers.{names_of, AreApartAnswers, IsWholePart};
ghost use Rattle.mp_script.specs.BeginNames.{begin_names};
ghost use Rattle.mp_script.specs.DownLines.{down_lines};
ghost use Rattle.mp_script.specs.Execution.{is_session_on};
ghost use Rattle.mp_script.specs.LastValues.{last_value, value_over};
ghost use Rattle.mp_script.specs.Legal.{Legal};
ghost use Rattle.mp_script.specs.Example.{small_script, fresh, small_transcript};
ghost use Rattle.mp_script.specs.Standing.{StandsAbove};
ghost use Rattle.mp_script.specs.declared.statements.Stmt.TheVariants as stmts;

/// A session that begins, puts `a` at key 7, gets key 7 and commits is answered view 0, ok, `a` and timestamp 1. It is
/// not answered another value, nor a timestamp that skips, nor a view above the last commit, nor a view that shows the
/// commit itself.
pub fn law_examples()
    ensures legal { Legal small_script fresh (small_transcript 0 (Some (97 ∷ [])) 1 1) }
    ensures wrong_value { ¬ Legal small_script fresh (small_transcript 0 (Some (98 ∷ [])) 1 1) }
    ensures skipped_number { ¬ Legal small_script fresh (small_transcript 0 (Some (97 ∷ [])) 2 2) }
    ensures view_above_all { ¬ Legal small_script fresh (small_transcript 5 (Some (97 ∷ [])) 1 1) }
    ensures view_of_itself { ¬ Legal small_script fresh (small_transcript 1 (Some (97 ∷ [])) 1 1) }
{}

/// The last write of a key sets its value, also none; where none is of the key, the value before stands. The first of two
/// items stands above the second, and not below it. A session is on the primary that it is declared on. A transaction is
/// named by its `begin`. A held write names its holder, and a statement its waits. A statement isn't answered twice. A `down`
/// line stands for each primary that is down, in their order. The answers of one part are its own, and no others.
pub fn law_word_examples()
    ensures sets_none { last_value 7 (record { key = 7; value = Some (65 ∷ []) } ∷ record { key = 7; value = None } ∷ []) ≡ Some None }
    ensures other_key { last_value 7 (record { key = 8; value = Some (65 ∷ []) } ∷ []) ≡ None }
    ensures stands { value_over None (Some (65 ∷ [])) ≡ Some (65 ∷ []) }
    ensures gone { value_over (Some None) (Some (65 ∷ [])) ≡ None }
    ensures above { StandsAbove {T = ℕ} 1 2 (1 ∷ 2 ∷ []) }
    ensures not_above { StandsAbove {T = ℕ} 2 1 (1 ∷ 2 ∷ []) → ⊥ }
    ensures on { is_session_on (record { session = 1; primary = 2 } ∷ []) 1 2 ≡ true }
    ensures not_on { is_session_on (record { session = 1; primary = 2 } ∷ []) 1 1 ≡ false }
    ensures begun { begin_names (record { session = 1; index = 1; stmt = stmts.Begin } ∷ record { session = 1; index = 2; stmt = stmts.Commit } ∷ []) ≡ record { session = 1; first = 1 } ∷ [] }
    ensures names { names_of (record { session = 1; index = 2; reply = Held verb.Put (record { session = 2; first = 1 }); waits = record { items = record { session = 3; first = 1 } ∷ []; spare = 0 } }) ≡ record { session = 2; first = 1 } ∷ record { session = 3; first = 1 } ∷ [] }
    ensures apart { AreApartAnswers (record { session = 1; index = 1; reply = Wrote verb.Put; waits = record { items = []; spare = 0 } } ∷ record { session = 1; index = 2; reply = Wrote verb.Put; waits = record { items = []; spare = 0 } } ∷ []) }
    ensures twice { (a : Answer) → AreApartAnswers (a ∷ a ∷ []) → ⊥ }
    ensures lines { down_lines (λ n. if n == 2 then 3 else (if n == 3 then 3 else 0)) 1 3 ≡ record { primary = 2; by = 3 } ∷ record { primary = 3; by = 3 } ∷ [] }
    ensures whole { IsWholePart [] (record { primary = 0; answers = record { items = []; spare = 0 } } ∷ []) }
    ensures not_whole { IsWholePart [] (record { primary = 1; answers = record { items = []; spare = 0 } } ∷ []) → ⊥ }
{}
