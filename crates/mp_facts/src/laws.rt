//! The laws, as the contracts of functions that do nothing.
ghost use Rattle.std.specs.Prelude.{List};
ghost use Rattle.mp_machine.specs.Machine.{AllowedFrom, run_from};
ghost use Rattle.mp_core.specs.declared.opening.CoreOpening.{CoreOpening};
ghost use Rattle.mp_core.specs.declared.event.CoreEvent.{CoreEvent};
ghost use Rattle.mp_core.specs.World.{core_start, core};
ghost use Rattle.mp_core.specs.Invariant.{NumbersFit};
ghost use Rattle.mp_facts.specs.Facts.{Facts};
ghost use Rattle.mp_facts.specs.Standing.{CommitsStand};

/// After any steps from any opening whose numbers fit, each of which was allowed when it came, the facts hold.
pub fn law_facts()
    ensures { (opening : CoreOpening) (events : List CoreEvent) → NumbersFit opening → AllowedFrom (core opening) (core_start opening) events → Facts opening (run_from (core opening) (core_start opening) events) }
{}

/// In each such world all pages with all mtrs applied are a tree, and the chains of all keys stand for the commits with a
/// record. What a transaction with a commit record keeps of a key is what it put last.
pub fn law_commits_stand()
    ensures { (opening : CoreOpening) (events : List CoreEvent) → NumbersFit opening → AllowedFrom (core opening) (core_start opening) events → CommitsStand opening (run_from (core opening) (core_start opening) events) }
{}
