//! The laws, as the contracts of functions that do nothing.
ghost use Rattle.std.specs.Prelude.{List, [], ◌∷◌};
ghost use Rattle.mp_machine.specs.Machine.{AllowedFrom, run_from};
ghost use Rattle.mp_core.specs.declared.opening.CoreOpening.{CoreOpening};
ghost use Rattle.mp_core.specs.declared.event.CoreEvent.{CoreEvent};
ghost use Rattle.mp_core.specs.World.{core_start, core};
ghost use Rattle.mp_core.specs.Invariant.{NumbersFit, CoreInv};
ghost use Rattle.mp_cells.specs.declared.changes.Change.TheVariants.{TakePage};
ghost use Rattle.mp_core.specs.CoreExamples.{MayComeAfter, prepares_first, draws_one, records_commit, recorded_one, forced_one, ends_at_one, writes_meta, changes_meta, goes_down_with, loads_down_second};

/// After any steps from any opening whose numbers fit, each of which was allowed when it came, the joint invariant holds.
pub fn law_inv()
    ensures { (opening : CoreOpening) (events : List CoreEvent) → NumbersFit opening → AllowedFrom (core opening) (core_start opening) events → CoreInv opening (run_from (core opening) (core_start opening) events) }
{}

/// What the conditions of steps ask across the components, on small lists of steps. A commit is recorded once its
/// transaction drew, and not before, and only once; it is published once its record is durable, and not before. An mtr that
/// changes a page and puts no row, puts none back and records no commit isn't made. A primary goes down by itself, or with
/// the number that another went down with, once it loaded that; but not with another number, and not twice.
pub fn law_core_examples()
    ensures records { MayComeAfter draws_one (records_commit 1) }
    ensures publishes { MayComeAfter forced_one ends_at_one }
    ensures no_record_before_the_draw { ¬ MayComeAfter prepares_first (records_commit 1) }
    ensures no_second_record { ¬ MayComeAfter forced_one (records_commit 2) }
    ensures no_end_without_record { ¬ MayComeAfter draws_one ends_at_one }
    ensures no_end_before_durable { ¬ MayComeAfter recorded_one ends_at_one }
    ensures no_change_without_a_row { ¬ MayComeAfter writes_meta (changes_meta (TakePage 2)) }
    ensures down_by_itself { MayComeAfter [] (goes_down_with 1 1) }
    ensures down_after_another { MayComeAfter loads_down_second (goes_down_with 1 2) }
    ensures no_untold_down { ¬ MayComeAfter (goes_down_with 2 2 ∷ []) (goes_down_with 1 2) }
    ensures no_second_down { ¬ MayComeAfter (goes_down_with 1 1 ∷ []) (goes_down_with 1 1) }
{}
