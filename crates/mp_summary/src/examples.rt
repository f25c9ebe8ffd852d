//! What summaries say of small cases, as the contract of a function that does nothing.
ghost use Rattle.std.specs.Prelude.{◌≡◌, [], ◌∷◌, ◌++◌, Some, true, codes};
ghost use Rattle.mp_model.specs.declared.replies.Reply.TheVariants.{Conflict, Committed, CommittedNone, Unknown, Wrote, Skipped, Stopped};
ghost use Rattle.mp_model.specs.declared.replies.WriteVerb.TheVariants as verb;
ghost use Rattle.mp_script.specs.Example.{small_script, small_transcript};
ghost use Rattle.mp_script.specs.Execution.{all_answers};
ghost use Rattle.mp_script.specs.declared.statements.Stmt.TheVariants.{Del};
ghost use Rattle.mp_summary.specs.Summaries.{is_answered, is_acknowledged, answered_count, acknowledged_count, written_key, keys_written};
ghost use Rattle.mp_summary.specs.Summaries.{with_number, with_numbers, key_count, summary_line, summary_text};
ghost use Rattle.mp_summary.specs.Counted.{HasCounted};

/// A refused write counts as answered, and a skipped statement doesn't. A commit counts with a number that is certain alone.
/// A key counts once. A session that begins, puts `a` at key 7, gets key 7 and commits has four answers, one commit and one
/// key.
pub fn law_summary_examples()
    ensures refused { is_answered (Conflict verb.Put 7) ≡ true }
    ensures skipped { ¬ (is_answered Skipped ≡ true) }
    ensures stopped { ¬ (is_answered (Stopped 1) ≡ true) }
    ensures committed { is_acknowledged (Committed 7) ≡ true }
    ensures unknown { ¬ (is_acknowledged (Unknown 7) ≡ true) }
    ensures none { ¬ (is_acknowledged CommittedNone ≡ true) }
    ensures four { answered_count (all_answers (small_transcript 0 (Some (97 ∷ [])) 1 1)) ≡ 4 }
    ensures not_three { ¬ (answered_count (all_answers (small_transcript 0 (Some (97 ∷ [])) 1 1)) ≡ 3) }
    ensures one { acknowledged_count (all_answers (small_transcript 0 (Some (97 ∷ [])) 1 1)) ≡ 1 }
    ensures not_none { ¬ (acknowledged_count (all_answers (small_transcript 0 (Some (97 ∷ [])) 1 1)) ≡ 0) }
    ensures wrote { keys_written small_script.lines.items (all_answers (small_transcript 0 (Some (97 ∷ [])) 1 1)) ≡ 7 ∷ [] }
    ensures no_line { ¬ (keys_written [] (all_answers (small_transcript 0 (Some (97 ∷ [])) 1 1)) ≡ 7 ∷ []) }
    ensures key { written_key (record { session = 1; index = 2; stmt = Del 5 } ∷ [])
        (record { session = 1; index = 2; reply = Wrote verb.Del; waits = record { items = []; spare = 0 } }) ≡ Some 5 }
    ensures no_key { ¬ (written_key (record { session = 1; index = 2; stmt = Del 5 } ∷ [])
        (record { session = 1; index = 2; reply = Skipped; waits = record { items = []; spare = 0 } }) ≡ Some 5) }
    ensures once { with_numbers [] (5 ∷ 6 ∷ 5 ∷ []) ≡ 5 ∷ 6 ∷ [] }
    ensures in_order { ¬ (with_numbers [] (5 ∷ 6 ∷ 5 ∷ []) ≡ 6 ∷ 5 ∷ []) }
    ensures more { with_number (5 ∷ []) 6 ≡ 5 ∷ 6 ∷ [] }
    ensures not_twice { ¬ (with_number (5 ∷ []) 5 ≡ 5 ∷ 5 ∷ []) }
    ensures keys { key_count small_script.lines.items (all_answers (small_transcript 0 (Some (97 ∷ [])) 1 1)) ≡ 1 }
    ensures not_two { ¬ (key_count small_script.lines.items (all_answers (small_transcript 0 (Some (97 ∷ [])) 1 1)) ≡ 2) }
    ensures line { summary_line 7 4 1 1 ≡ codes "summary number 7 answered 4 commits 1 keys 1" ++ 10 ∷ [] }
    ensures not_line { ¬ (summary_line 7 4 1 1 ≡ []) }
    ensures text { summary_text 7 small_script (small_transcript 0 (Some (97 ∷ [])) 1 1) ≡ summary_line 7 4 1 1 }
    ensures not_text { ¬ (summary_text 7 small_script (small_transcript 0 (Some (97 ∷ [])) 1 1) ≡ []) }
    ensures counted { HasCounted small_script.lines.items (all_answers (small_transcript 0 (Some (97 ∷ [])) 1 1))
        (record { answered = 2; commits = 0; keys = record { items = 5 ∷ []; spare = 0 } })
        (record { answered = 6; commits = 1; keys = record { items = 5 ∷ 7 ∷ []; spare = 0 } }) }
    ensures not_counted { ¬ HasCounted small_script.lines.items (all_answers (small_transcript 0 (Some (97 ∷ [])) 1 1))
        (record { answered = 2; commits = 0; keys = record { items = 7 ∷ []; spare = 0 } })
        (record { answered = 6; commits = 1; keys = record { items = 7 ∷ 7 ∷ []; spare = 0 } }) }
{}
