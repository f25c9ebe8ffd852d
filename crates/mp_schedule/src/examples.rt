//! What a schedule is in small cases, as the contracts of functions that do nothing.
ghost use Rattle.std.specs.Prelude.{◌≡◌, true, false, [], ◌∷◌};
ghost use Rattle.mp_script.specs.declared.statements.Line.{Line};
ghost use Rattle.mp_schedule.specs.declared.schedule.TryState.TheVariants.{Free, Waiting, Over};
ghost use Rattle.mp_schedule.specs.declared.schedule.Next.TheVariants as nexts;
ghost use Rattle.mp_schedule.specs.Schedules.{free_try, first_tries, tries_on, sessions_of_primary, is_left, has_left, is_free, count_left, count_free, MayBeTried, NoneMayBeTried, SomeWaits, ComesNext, IsNextWithin, HasSessions, without_mark, without_marks, StandsSo, AreOverBelow, NoneWaitsFrom};
ghost use Rattle.mp_schedule.specs.SmallTries.{waiting_try, over_try};

/// What comes next, of two tries at most: the first where both are free, and not the second; what may be tried behind one that
/// is over, and not behind one of the same session that waits; marks are forgotten where the rest waits, and not where one is
/// free; all is over where nothing is left.
pub fn law_schedule_examples()
    ensures first { ComesNext (free_try 1 ∷ free_try 2 ∷ []) (nexts.Try 0 1) }
    ensures not_second { ¬ ComesNext (free_try 1 ∷ free_try 2 ∷ []) (nexts.Try 1 2) }
    ensures may { MayBeTried (over_try 1 ∷ free_try 1 ∷ []) 1 1 }
    ensures may_not { ¬ MayBeTried (waiting_try 1 ∷ free_try 1 ∷ []) 1 1 }
    ensures none_may { NoneMayBeTried 2 (waiting_try 1 ∷ free_try 1 ∷ []) }
    ensures one_may { ¬ NoneMayBeTried 2 (waiting_try 1 ∷ free_try 2 ∷ []) }
    ensures waits { SomeWaits (free_try 1 ∷ waiting_try 1 ∷ []) }
    ensures none_waits { ¬ SomeWaits (free_try 1 ∷ []) }
    ensures forget { ComesNext (waiting_try 1 ∷ free_try 1 ∷ []) nexts.Forget }
    ensures not_forget { ¬ ComesNext (waiting_try 1 ∷ free_try 2 ∷ []) nexts.Forget }
    ensures all_over { ComesNext (over_try 1 ∷ []) nexts.Over }
    ensures not_over { ¬ ComesNext (free_try 1 ∷ []) nexts.Over }
    ensures within { IsNextWithin (free_try 1 ∷ []) (nexts.Try 0 1) }
    ensures not_within { ¬ IsNextWithin (free_try 1 ∷ []) (nexts.Try 1 1) }
    ensures sessions { HasSessions (free_try 64 ∷ []) }
    ensures not_sessions { ¬ HasSessions (free_try 65 ∷ []) }
{}

/// A script's tries: a statement, and behind it the end of each session that is declared, never before it. What is left, of a
/// try and of a session. What becomes of a try that waits, and of one that is over, when marks are forgotten. Only one try
/// stands otherwise after a call. How many are left, and how many free.
pub fn law_tries_examples()
    ensures free { free_try 3 ≡ (record { session = 3; state = Free }) }
    ensures not_waiting { ¬ (free_try 3 ≡ waiting_try 3) }
    ensures ends_last { (line : Line) → first_tries (record line { session = 2 } ∷ []) (record { session = 1; primary = 1 } ∷ [])
        ≡ free_try 2 ∷ free_try 1 ∷ [] }
    ensures not_first { (line : Line) → ¬ (first_tries (record line { session = 2 } ∷ []) (record { session = 1; primary = 1 } ∷ [])
        ≡ free_try 1 ∷ free_try 2 ∷ []) }
    ensures left { is_left Waiting ≡ true }
    ensures not_left { is_left Over ≡ false }
    ensures in_turn { has_left 1 (free_try 2 ∷ free_try 1 ∷ []) ≡ true }
    ensures none_left { has_left 1 (free_try 2 ∷ over_try 1 ∷ []) ≡ false }
    ensures freed { without_mark (waiting_try 1) ≡ free_try 1 }
    ensures not_back { ¬ (without_mark (over_try 1) ≡ free_try 1) }
    ensures all_freed { without_marks (waiting_try 1 ∷ over_try 2 ∷ []) ≡ free_try 1 ∷ over_try 2 ∷ [] }
    ensures not_gone { ¬ (without_marks (over_try 2 ∷ []) ≡ []) }
    ensures stands { StandsSo (free_try 1 ∷ free_try 2 ∷ []) 1 Over (free_try 1 ∷ over_try 2 ∷ []) }
    ensures not_another { ¬ StandsSo (free_try 1 ∷ free_try 2 ∷ []) 1 Over (over_try 1 ∷ free_try 2 ∷ []) }
    ensures is_free { is_free Free ≡ true }
    ensures waits { is_free Waiting ≡ false }
    ensures two_left { count_left (free_try 1 ∷ waiting_try 2 ∷ over_try 3 ∷ []) ≡ 2 }
    ensures not_three { ¬ (count_left (free_try 1 ∷ waiting_try 2 ∷ over_try 3 ∷ []) ≡ 3) }
    ensures one_free { count_free (free_try 1 ∷ waiting_try 2 ∷ over_try 3 ∷ []) ≡ 1 }
    ensures not_two { ¬ (count_free (free_try 1 ∷ waiting_try 2 ∷ over_try 3 ∷ []) ≡ 2) }
{}

/// The tries of one primary: the statements of its sessions and their ends, and nothing of a session on another. Below the
/// second of two tries all is over where the first is, and below the end it isn't. From the second one on none waits, and from
/// the first on one does.
pub fn law_primary_tries_examples()
    ensures its_own { (line : Line) → tries_on 2 (record line { session = 3 } ∷ record line { session = 4 } ∷ [])
        (record { session = 3; primary = 1 } ∷ record { session = 4; primary = 2 } ∷ []) ≡ free_try 4 ∷ free_try 4 ∷ [] }
    ensures no_others { (line : Line) → ¬ (tries_on 2 (record line { session = 3 } ∷ record line { session = 4 } ∷ [])
        (record { session = 3; primary = 1 } ∷ record { session = 4; primary = 2 } ∷ []) ≡ free_try 3 ∷ free_try 4 ∷ free_try 4 ∷ []) }
    ensures sessions { sessions_of_primary 2 (record { session = 3; primary = 1 } ∷ record { session = 4; primary = 2 } ∷ [])
        ≡ record { session = 4; primary = 2 } ∷ [] }
    ensures not_both { ¬ (sessions_of_primary 2 (record { session = 3; primary = 1 } ∷ []) ≡ record { session = 3; primary = 1 } ∷ []) }
    ensures over { AreOverBelow 1 (over_try 1 ∷ free_try 1 ∷ []) }
    ensures not_over { ¬ AreOverBelow 2 (over_try 1 ∷ free_try 1 ∷ []) }
    ensures none_waits { NoneWaitsFrom 1 (waiting_try 1 ∷ free_try 1 ∷ []) }
    ensures waits { ¬ NoneWaitsFrom 0 (waiting_try 1 ∷ free_try 1 ∷ []) }
{}
