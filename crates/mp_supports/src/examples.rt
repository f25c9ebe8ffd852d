//! Small examples of supports, as the contracts of functions that do nothing.

ghost use Rattle.std.specs.Prelude.{ℕ, List, true, ◌≡◌, [], ◌∷◌, None, Some, replicate};
ghost use Rattle.mp_model.specs.declared.replies.Reply.{Reply};
ghost use Rattle.mp_model.specs.declared.replies.WriteVerb.{WriteVerb};
ghost use Rattle.mp_script.specs.declared.statements.Stmt.{Stmt};
ghost use Rattle.mp_core_trx.specs.declared.slot.SlotTag.{SlotTag};
ghost use Rattle.mp_core_trx.specs.Words.{shows};
ghost use Rattle.mp_core_trx.specs.Parts.{begun_of, draw_of};
ghost use Rattle.mp_supports.specs.Supports.{no_trace, looked_trace, began_trace, wrote_trace, commit_trace, Supports, SupportsWaits};
ghost use Rattle.mp_core.specs.CoreExtends.{CoreExtends};
ghost use Rattle.mp_supports.specs.Agreement.{Opens, Mirrors, Bounds};
ghost use Rattle.mp_supports.specs.Kept.{Precedes, Kept, Did, GoesDownOnce, MayBeKept};
ghost use Rattle.mp_supports.specs.Steps.{OnlyLooked, MadeOne, Forced, TrxStep};
ghost use Rattle.mp_supports.specs.Media.{IsOnImage, OnDisk};
ghost use Rattle.mp_supports.specs.SmallParts.{older_trx, own_trx, younger_trx, line_of, work_with, answered_with, small_part, part_before_steps, version_by, only_leaf, first_link, only_undo, only_meta, load_showing, open_part, open_session, put_over, commit_mtr, made_at_four, own_mtr, forced_to, read_entry, write_entry, older_name, own_name, younger_name};

/// A `begin` is answered with the view with which its transaction was begun, and with no other.
pub fn law_supports_begin_examples()
    ensures began { Supports (work_with Stmt.Commit) (small_part [] [] []) 0 record { session = 1; index = 1; reply = Reply.Began 3; waits = record { items = []; spare = 0 } } (began_trace (begun_of own_trx 3)) }
    ensures not_another_view { ¬ Supports (work_with Stmt.Commit) (small_part [] [] []) 0 record { session = 1; index = 1; reply = Reply.Began 4; waits = record { items = []; spare = 0 } } (began_trace (begun_of own_trx 4)) }
{}

/// A `get` is answered with the transaction's own version, with one that committed at or below its view, and, below one that
/// is hidden, with the version before; not with one that committed above the view, nor with one of an open transaction.
pub fn law_supports_get_examples()
    ensures own { Supports (work_with (Stmt.Get 5)) (small_part [] (only_leaf (version_by (Some own_trx) None 97) ∷ []) []) 0 (answered_with (Reply.Got (Some (97 ∷ [])))) (looked_trace (only_leaf (version_by (Some own_trx) None 97) ∷ [])) }
    ensures at_the_view { Supports (work_with (Stmt.Get 5)) (small_part (load_showing younger_trx (shows SlotTag.Committed 3 3) ∷ []) (only_leaf (version_by (Some younger_trx) None 97) ∷ []) []) 0 (answered_with (Reply.Got (Some (97 ∷ [])))) (looked_trace (only_leaf (version_by (Some younger_trx) None 97) ∷ [])) }
    ensures below_an_open_one { Supports (work_with (Stmt.Get 5)) (small_part (load_showing younger_trx (shows SlotTag.Active 3 0) ∷ []) (only_leaf (version_by (Some younger_trx) (Some first_link) 97) ∷ only_undo (version_by None None 98) ∷ []) []) 0 (answered_with (Reply.Got (Some (98 ∷ [])))) (looked_trace (only_leaf (version_by (Some younger_trx) (Some first_link) 97) ∷ [])) }
    ensures below_a_later_one { Supports (work_with (Stmt.Get 5)) (small_part (load_showing younger_trx (shows SlotTag.Committed 3 4) ∷ []) (only_leaf (version_by (Some younger_trx) (Some first_link) 97) ∷ only_undo (version_by None None 98) ∷ []) []) 0 (answered_with (Reply.Got (Some (98 ∷ [])))) (looked_trace (only_leaf (version_by (Some younger_trx) (Some first_link) 97) ∷ [])) }
    ensures not_above_the_view { ¬ Supports (work_with (Stmt.Get 5)) (small_part (load_showing younger_trx (shows SlotTag.Committed 3 4) ∷ []) (only_leaf (version_by (Some younger_trx) None 97) ∷ []) []) 0 (answered_with (Reply.Got (Some (97 ∷ [])))) (looked_trace (only_leaf (version_by (Some younger_trx) None 97) ∷ [])) }
    ensures not_an_open_one { ¬ Supports (work_with (Stmt.Get 5)) (small_part (load_showing younger_trx (shows SlotTag.Active 3 0) ∷ []) (only_leaf (version_by (Some younger_trx) None 97) ∷ []) []) 0 (answered_with (Reply.Got (Some (97 ∷ [])))) (looked_trace (only_leaf (version_by (Some younger_trx) None 97) ∷ [])) }
{}

/// A `scan` is answered with the rows that are seen of all keys from its own on; not before it came to the last key or had
/// as many rows as it asks for.
pub fn law_supports_scan_examples()
    ensures all_rows { Supports (work_with (Stmt.Scan 0 10)) (small_part [] (only_leaf (version_by (Some own_trx) None 97) ∷ []) []) 0 (answered_with (Reply.Scanned record { items = record { key = 5; value = 97 ∷ [] } ∷ []; spare = 0 })) (looked_trace (only_leaf (version_by (Some own_trx) None 97) ∷ [])) }
    ensures not_cut_short { ¬ Supports (work_with (Stmt.Scan 0 10)) (small_part [] (only_leaf (version_by (Some own_trx) None 97) ∷ []) []) 0 (answered_with (Reply.Scanned record { items = []; spare = 0 })) (looked_trace []) }
{}

/// A write is answered ok with an mtr that puts its value over a version that its transaction may replace: not over one of
/// an open transaction.
pub fn law_supports_put_examples()
    ensures over_settled { Supports (work_with (Stmt.Put 5 (98 ∷ []))) (small_part (load_showing older_trx (shows SlotTag.Committed 1 2) ∷ []) [] (made_at_four (put_over (version_by (Some older_trx) None 97) (version_by (Some own_trx) (Some first_link) 98)))) 0 (answered_with (Reply.Wrote WriteVerb.Put)) (wrote_trace [] (own_mtr (put_over (version_by (Some older_trx) None 97) (version_by (Some own_trx) (Some first_link) 98)))) }
    ensures not_over_an_open_one { ¬ Supports (work_with (Stmt.Put 5 (98 ∷ []))) (small_part (load_showing younger_trx (shows SlotTag.Active 3 0) ∷ []) [] (made_at_four (put_over (version_by (Some younger_trx) None 97) (version_by (Some own_trx) (Some first_link) 98)))) 0 (answered_with (Reply.Wrote WriteVerb.Put)) (wrote_trace [] (own_mtr (put_over (version_by (Some younger_trx) None 97) (version_by (Some own_trx) (Some first_link) 98)))) }
{}

/// A `commit` is answered with the timestamp that was drawn once its record is durable, and not before. Its end is
/// unknown only where its primary is down. One without a timestamp answers a `commit`, and a `rollback` is answered as one.
pub fn law_supports_commit_examples()
    ensures durable { Supports (work_with Stmt.Commit) (small_part [] [] (made_at_four (commit_mtr 1))) 0 (answered_with (Reply.Committed 5)) (commit_trace (draw_of own_trx 5) (own_mtr (commit_mtr 1))) }
    ensures not_durable { ¬ Supports (work_with Stmt.Commit) (small_part [] [] (made_at_four (commit_mtr 2))) 0 (answered_with (Reply.Committed 5)) (commit_trace (draw_of own_trx 5) (own_mtr (commit_mtr 2))) }
    ensures unknown { Supports (work_with Stmt.Commit) (small_part [] [] (made_at_four (commit_mtr 2))) 1 (answered_with (Reply.Unknown 5)) (commit_trace (draw_of own_trx 5) (own_mtr (commit_mtr 2))) }
    ensures not_unknown_while_up { ¬ Supports (work_with Stmt.Commit) (small_part [] [] (made_at_four (commit_mtr 2))) 0 (answered_with (Reply.Unknown 5)) (commit_trace (draw_of own_trx 5) (own_mtr (commit_mtr 2))) }
    ensures none { Supports (work_with Stmt.Commit) (small_part [] [] []) 0 (answered_with Reply.CommittedNone) no_trace }
    ensures none_only_of_a_commit { ¬ Supports (work_with Stmt.Rollback) (small_part [] [] []) 0 (answered_with Reply.CommittedNone) no_trace }
    ensures rolled_back { Supports (work_with Stmt.Rollback) (small_part [] [] []) 0 (answered_with Reply.RolledBack) no_trace }
    ensures no_commit_rolled_back { ¬ Supports (work_with Stmt.Commit) (small_part [] [] []) 0 (answered_with Reply.RolledBack) no_trace }
{}

/// A write is refused `conflict` for a commit above its view, not for one within it. It is refused `held` for an older transaction, not for a younger one, and `full` where fewer than five pages are
/// clear, not where more are.
pub fn law_supports_refusal_examples()
    ensures conflict { Supports (work_with (Stmt.Del 5)) (small_part (load_showing older_trx (shows SlotTag.Committed 1 7) ∷ []) (only_leaf (version_by (Some older_trx) None 97) ∷ []) []) 0 (answered_with (Reply.Conflict WriteVerb.Del 7)) no_trace }
    ensures no_conflict_within_the_view { ¬ Supports (work_with (Stmt.Del 5)) (small_part (load_showing older_trx (shows SlotTag.Committed 1 2) ∷ []) (only_leaf (version_by (Some older_trx) None 97) ∷ []) []) 0 (answered_with (Reply.Conflict WriteVerb.Del 2)) no_trace }
    ensures held { Supports (work_with (Stmt.Del 5)) (small_part (load_showing older_trx (shows SlotTag.Active 1 0) ∷ []) (only_leaf (version_by (Some older_trx) None 97) ∷ []) []) 0 (answered_with (Reply.Held WriteVerb.Del older_name)) no_trace }
    ensures not_held_by_a_younger_one { ¬ Supports (work_with (Stmt.Del 5)) (small_part (load_showing younger_trx (shows SlotTag.Active 3 0) ∷ []) (only_leaf (version_by (Some younger_trx) None 97) ∷ []) []) 0 (answered_with (Reply.Held WriteVerb.Del younger_name)) no_trace }
    ensures full { Supports (work_with (Stmt.Del 5)) (small_part [] (only_meta (replicate 512 255) ∷ []) []) 0 (answered_with (Reply.Full WriteVerb.Del)) no_trace }
    ensures not_full { ¬ Supports (work_with (Stmt.Del 5)) (small_part [] (only_meta [] ∷ []) []) 0 (answered_with (Reply.Full WriteVerb.Del)) no_trace }
{}

/// Any statement but a `begin` may be skipped; one is stopped only where its primary is down.
pub fn law_supports_end_examples()
    ensures skipped { Supports (work_with Stmt.Commit) (small_part [] [] []) 0 (answered_with Reply.Skipped) no_trace }
    ensures no_begin_skipped { ¬ Supports (work_with Stmt.Begin) (small_part [] [] []) 0 (answered_with Reply.Skipped) no_trace }
    ensures stopped { Supports (work_with Stmt.Commit) (small_part [] [] []) 2 (answered_with (Reply.Stopped 2)) no_trace }
    ensures not_stopped_while_up { ¬ Supports (work_with Stmt.Commit) (small_part [] [] []) 0 (answered_with (Reply.Stopped 2)) no_trace }
{}

/// A write waits for a younger transaction that holds its key, and not for an older one, nor for its own.
pub fn law_supports_wait_examples()
    ensures younger { SupportsWaits (work_with (Stmt.Del 5)) (small_part (load_showing younger_trx (shows SlotTag.Active 3 0) ∷ []) (only_leaf (version_by (Some younger_trx) None 97) ∷ []) []) (line_of 1 2 (Stmt.Del 5)) (younger_name ∷ []) }
    ensures not_older { ¬ SupportsWaits (work_with (Stmt.Del 5)) (small_part (load_showing older_trx (shows SlotTag.Active 1 0) ∷ []) (only_leaf (version_by (Some older_trx) None 97) ∷ []) []) (line_of 1 2 (Stmt.Del 5)) (older_name ∷ []) }
    ensures not_itself { ¬ SupportsWaits (work_with (Stmt.Del 5)) (small_part (load_showing own_trx (shows SlotTag.Active 2 0) ∷ []) (only_leaf (version_by (Some own_trx) None 97) ∷ []) []) (line_of 1 2 (Stmt.Del 5)) (own_name ∷ []) }
{}

/// A part's open transaction is a session's; a primary's LLSN is none that nobody told it; more mtrs than writes were
/// answered and timestamps were drawn are too many.
pub fn law_agreement_examples()
    ensures opens { Opens (work_with Stmt.Commit) open_part 0 (open_session ∷ []) }
    ensures not_without_its_session { ¬ Opens (work_with Stmt.Commit) open_part 0 [] }
    ensures mirrors { Mirrors open_part 0 0 None }
    ensures not_above_all_told { ¬ Mirrors open_part 0 7 None }
    ensures bounds { Bounds (work_with Stmt.Commit) open_part [] (open_session ∷ []) }
    ensures not_two_mtrs { ¬ Bounds (work_with Stmt.Commit) (small_part [] [] (record { at = 5; mtr = commit_mtr 2 } ∷ made_at_four (commit_mtr 1))) [] [] }
{}

/// An empty log holds what a part without mtrs made, and not what one made whose log is durable up to its mtr. No image of
/// another primary's log has that mtr.
pub fn law_media_examples()
    ensures nothing_made { OnDisk (work_with Stmt.Commit) (small_part [] [] []) 0 record { node = 1; place = 0; last = 0; live = true; bytes = [] } true true (0 ∷ []) (λ c. c ≡ 0 ∷ []) }
    ensures not_without_its_mtr { ¬ OnDisk (work_with Stmt.Commit) (small_part [] [] (made_at_four (commit_mtr 1))) 0 record { node = 1; place = 0; last = 1; live = true; bytes = [] } true true (0 ∷ []) (λ c. c ≡ 0 ∷ []) }
    ensures not_anothers { (image : List ℕ) → ¬ IsOnImage (work_with Stmt.Commit) 2 (small_part [] [] (made_at_four (commit_mtr 1))) image }
{}

/// What a primary keeps before any step is no entry; a begin that no entry has isn't kept so. A turn without a step left
/// nothing, and no begin. A part doesn't come to know less.
pub fn law_entries_examples()
    ensures nothing_kept { Kept (work_with Stmt.Commit) part_before_steps 0 [] }
    ensures not_without_its_begin { ¬ Kept (work_with Stmt.Commit) (small_part [] [] []) 0 [] }
    ensures did_nothing { Did part_before_steps part_before_steps no_trace }
    ensures did_not_begin { ¬ Did part_before_steps part_before_steps (began_trace (begun_of own_trx 3)) }
    ensures may_be_kept { MayBeKept (work_with Stmt.Commit) part_before_steps 0 record { answer = None; trace = no_trace } }
    ensures no_stop_while_up { ¬ MayBeKept (work_with Stmt.Commit) part_before_steps 0 record { answer = Some (answered_with (Reply.Stopped 2)); trace = no_trace } }
    ensures stays { CoreExtends part_before_steps part_before_steps }
    ensures forgets_nothing { ¬ CoreExtends (small_part [] [] []) part_before_steps }
    ensures looked { OnlyLooked part_before_steps part_before_steps }
    ensures not_looked { ¬ OnlyLooked part_before_steps (small_part [] [] []) }
{}

/// A step made the mtr that the part has more, a force what is durable, and a step of transactions no pages. A read stands before a write
/// that came after its page was given, and not behind it. A primary that is down stays so.
pub fn law_steps_examples()
    ensures made { MadeOne record { at = 4; mtr = commit_mtr 1 } (small_part [] [] []) (small_part [] [] (made_at_four (commit_mtr 1))) }
    ensures not_made { ¬ MadeOne record { at = 4; mtr = commit_mtr 1 } (small_part [] [] []) (small_part [] [] []) }
    ensures forced { Forced 2 (small_part [] [] []) (forced_to 2 (small_part [] [] [])) }
    ensures not_forced { ¬ Forced 2 (small_part [] [] []) (small_part [] [] []) }
    ensures trx { TrxStep (small_part [] [] []) open_part }
    ensures not_trx { ¬ TrxStep (small_part [] [] []) (small_part [] [] (made_at_four (commit_mtr 1))) }
    ensures precedes { Precedes read_entry write_entry }
    ensures not_precedes { ¬ Precedes write_entry read_entry }
    ensures goes_down { GoesDownOnce (small_part [] [] []) (small_part [] [] []) 0 2 }
    ensures not_up_again { ¬ GoesDownOnce (small_part [] [] []) (small_part [] [] []) 2 0 }
{}
