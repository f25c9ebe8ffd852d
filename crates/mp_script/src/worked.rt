//! The rules of a legal transcript, tried on small ones: legal ones, and ones at which a rule fails.

ghost use Rattle.mp_script.specs.InTheirPart.{BeginsAtOpening, AnswersEachStatement};
ghost use Rattle.mp_script.specs.Legal.{IsLegal, RepliesAreRight, ViewsAreRight, FirstCommittersWin};
ghost use Rattle.mp_script.specs.Legal.{WritesSeeEarlierCommits, KeysAreHeld};
ghost use Rattle.mp_script.specs.Numbered.{AreNumbered};
ghost use Rattle.mp_script.specs.WentDown.{GoDownForACause};
ghost use Rattle.mp_script.specs.WorkedReplies.{conflict_after_a_wait, conflict_without_a_wait, ok_after_a_rollback};
ghost use Rattle.mp_script.specs.WorkedReplies.{held_by_an_older, held_and_conflict, copy_of_no_row};
ghost use Rattle.mp_script.specs.WorkedReplies.{scans_of_own_writes, conflict_with_no_commit, commit_after_a_refusal};
ghost use Rattle.mp_script.specs.WorkedReplies.{waits_twice, held_by_a_younger, conflict_with_itself};
ghost use Rattle.mp_script.specs.WorkedReplies.{full_of_few_writes, full_over};
ghost use Rattle.mp_script.specs.WorkedViews.{old_value_twice, unknown_is_not_read, numbers_across_parts};
ghost use Rattle.mp_script.specs.WorkedViews.{view_across_parts, new_value_then, read_of_unknown, get_that_waits};
ghost use Rattle.mp_script.specs.WorkedViews.{view_at_the_base, view_below_unknown, view_below_its_part};
ghost use Rattle.mp_script.specs.WorkedViews.{view_above_all};
ghost use Rattle.mp_script.specs.WorkedKeys.{no_commit_of_either, lost_update, dirty_write};
ghost use Rattle.mp_script.specs.WorkedDowns.{stopped_after_unknown, stopped_from_the_first, stopped_by_nobody};
ghost use Rattle.mp_script.specs.WorkedDowns.{stopped_by_another, begins_when_down, unknown_without_down};
ghost use Rattle.mp_script.specs.WorkedDowns.{downs_that_fall, down_without_its_cause};
ghost use Rattle.mp_script.specs.WorkedParts.{one_left, one_too_many, in_the_other_part, number_that_skips};
ghost use Rattle.mp_script.specs.WorkedParts.{number_twice, number_at_its_view, commit_that_is_not_there, nothing_over};
ghost use Rattle.mp_script.specs.WorkedParts.{rows_in_order, rows_out_of_order};

/// Refusals, waits, copies and scans that are right, among them a write that is refused with four pages left. Wrong
/// ones: a conflict with no such commit or with a commit of the same session, a commit after a refusal, a wait that is
/// named twice, a holder that is younger, a store that is full of two writes, and one that is full with five pages left.
pub fn law_worked_replies()
    ensures conflict_after_a_wait { IsLegal conflict_after_a_wait }
    ensures conflict_without_a_wait { IsLegal conflict_without_a_wait }
    ensures ok_after_a_rollback { IsLegal ok_after_a_rollback }
    ensures held_by_an_older { IsLegal held_by_an_older }
    ensures held_and_conflict { IsLegal held_and_conflict }
    ensures copy_of_no_row { IsLegal copy_of_no_row }
    ensures scans_of_own_writes { IsLegal scans_of_own_writes }
    ensures full_with_four_left { IsLegal (full_over 4092) }
    ensures conflict_with_no_commit { ¬ RepliesAreRight conflict_with_no_commit }
    ensures commit_after_a_refusal { ¬ RepliesAreRight commit_after_a_refusal }
    ensures waits_twice { ¬ RepliesAreRight waits_twice }
    ensures held_by_a_younger { ¬ RepliesAreRight held_by_a_younger }
    ensures conflict_with_itself { ¬ RepliesAreRight conflict_with_itself }
    ensures full_of_few_writes { ¬ RepliesAreRight full_of_few_writes }
    ensures full_with_five_left { ¬ RepliesAreRight (full_over 4091) }
{}

/// Views that stay and that cross parts, in both modes; and wrong ones: a value of a later commit or of one whose end is
/// unknown, a `get` that waits, and views below what stands above them or above all.
pub fn law_worked_views()
    ensures old_value_twice { IsLegal old_value_twice }
    ensures unknown_is_not_read { IsLegal unknown_is_not_read }
    ensures numbers_across_parts { IsLegal numbers_across_parts }
    ensures view_across_parts { IsLegal view_across_parts }
    ensures new_value_then { ¬ RepliesAreRight new_value_then }
    ensures read_of_unknown { ¬ RepliesAreRight read_of_unknown }
    ensures get_that_waits { ¬ RepliesAreRight get_that_waits }
    ensures view_at_the_base { ¬ ViewsAreRight view_at_the_base }
    ensures view_below_unknown { ¬ ViewsAreRight view_below_unknown }
    ensures view_below_its_part { ¬ ViewsAreRight view_below_its_part }
    ensures view_above_all { ¬ ViewsAreRight view_above_all }
{}

/// Two writes of a key side by side where neither commits; a lost update, refused by two rules; and a write between
/// another's write and its commit.
pub fn law_worked_keys()
    ensures no_commit_of_either { IsLegal no_commit_of_either }
    ensures lost_update { ¬ FirstCommittersWin lost_update }
    ensures lost_update_seen { ¬ WritesSeeEarlierCommits lost_update }
    ensures dirty_write { ¬ KeysAreHeld dirty_write }
{}

/// A primary that goes down at a commit, and one that is down from the first statement; and wrong ones: stopped by nobody
/// or by another, a begin after it went down, an unknown end without a line, lines out of order or without a cause.
pub fn law_worked_downs()
    ensures stopped_after_unknown { IsLegal stopped_after_unknown }
    ensures stopped_from_the_first { IsLegal stopped_from_the_first }
    ensures stopped_by_nobody { ¬ RepliesAreRight stopped_by_nobody }
    ensures stopped_by_another { ¬ RepliesAreRight stopped_by_another }
    ensures begins_when_down { ¬ GoDownForACause begins_when_down }
    ensures unknown_without_down { ¬ GoDownForACause unknown_without_down }
    ensures downs_that_fall { ¬ GoDownForACause downs_that_fall }
    ensures down_without_its_cause { ¬ GoDownForACause down_without_its_cause }
{}

/// Rows whose keys ascend are an opening. Wrong ones: rows out of order, another base, a statement without an answer, an
/// answer without a statement, answers in the other part, and numbers that skip, stand twice, are no higher than their
/// view, or are counted too many.
pub fn law_worked_parts()
    ensures rows_ascend { IsLegal (nothing_over rows_in_order 0) }
    ensures rows_fall { ¬ BeginsAtOpening (nothing_over rows_out_of_order 0) }
    ensures other_base { ¬ BeginsAtOpening (nothing_over rows_in_order 1) }
    ensures one_left { ¬ AnswersEachStatement one_left }
    ensures one_too_many { ¬ AnswersEachStatement one_too_many }
    ensures in_the_other_part { ¬ AnswersEachStatement in_the_other_part }
    ensures number_that_skips { ¬ AreNumbered number_that_skips }
    ensures number_twice { ¬ AreNumbered number_twice }
    ensures number_at_its_view { ¬ AreNumbered number_at_its_view }
    ensures commit_that_is_not_there { ¬ AreNumbered commit_that_is_not_there }
{}
