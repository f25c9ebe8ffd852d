//! What the calls of a schedule do to the counts of what is left, and that sessions stay as they are.
ghost use Rattle.std.specs.Prelude.{◌≡◌, ◌<◌, ◌≤◌, ℕ, suc, true, List, length, Some};
ghost use Rattle.std.specs.List.{slice_get, AllByRecursion};
ghost use Rattle.mp_script.specs.declared.statements.Line.{Line};
ghost use Rattle.mp_script.specs.declared.statements.SessionOn.{SessionOn};
ghost use Rattle.mp_schedule.specs.declared.schedule.Try.{Try};
ghost use Rattle.mp_schedule.specs.declared.schedule.TryState.{TryState};
ghost use Rattle.mp_schedule.specs.declared.schedule.TryState.TheVariants.{Waiting, Over};
ghost use Rattle.mp_schedule.specs.Schedules.{first_tries, tries_on, is_left, is_free, count_left, count_free, HasSessions, StandsSo, without_marks};

/// Where a try that was left is over, one less is left. Where a free one is found waiting, as many are left, and one less is
/// free. As many are left where marks are forgotten.
pub fn law_schedule_counts()
    ensures over { (old new : List Try) (place : ℕ) (t : Try) → slice_get old place ≡ Some t → is_left t.state ≡ true
        → StandsSo old place Over new → count_left old ≡ suc (count_left new) }
    ensures waiting { (old new : List Try) (place : ℕ) (t : Try) → slice_get old place ≡ Some t → is_left t.state ≡ true
        → StandsSo old place Waiting new → count_left new ≡ count_left old }
    ensures no_more_free { (old new : List Try) (place : ℕ) (t : Try) → slice_get old place ≡ Some t → is_free t.state ≡ true
        → StandsSo old place Waiting new → count_free old ≡ suc (count_free new) }
    ensures forgotten { (tries : List Try) → count_left (without_marks tries) ≡ count_left tries }
{}

/// The sessions of a schedule are 0 to 64 where those of the script's statements are, and stay so, whatever becomes of its tries.
pub fn law_schedule_sessions()
    ensures first { (lines : List Line) (sessions : List SessionOn) → AllByRecursion (λ line. line.session ≤ 64) lines
        → HasSessions (first_tries lines sessions) }
    ensures on { (primary : ℕ) (lines : List Line) (sessions : List SessionOn) → AllByRecursion (λ line. line.session ≤ 64) lines
        → HasSessions (tries_on primary lines sessions) }
    ensures stand { (old new : List Try) (place : ℕ) (state : TryState) → place < length old → StandsSo old place state new
        → HasSessions old → HasSessions new }
    ensures forgotten { (tries : List Try) → HasSessions tries → HasSessions (without_marks tries) }
{}
