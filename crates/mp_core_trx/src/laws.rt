//! Laws, as the contracts of functions that do nothing.
ghost use Rattle.std.specs.Prelude.{◌+◌, ◌*◌, ◌≤◌, List, [], ◌∷◌, Some, None};
ghost use Rattle.mp_machine.specs.Machine.{AllowedFrom, run_from};
ghost use Rattle.mp_core_trx.specs.declared.opening.TrxOpening.{TrxOpening};
ghost use Rattle.mp_core_trx.specs.declared.event.TrxEvent.{TrxEvent};
ghost use Rattle.mp_core_trx.specs.declared.event.TrxEvent.TheVariants.{StoreActive, StorePrep, DrawTso, StoreEnd, LoadTit};
ghost use Rattle.mp_core_trx.specs.Parts.{trx};
ghost use Rattle.mp_core_trx.specs.Examples.{MayRun, first_trx, begun_then, drawn_then, one_commit};
ghost use Rattle.mp_core_trx.specs.World.{trx_start, transactions, TrxNumbersFit};
ghost use Rattle.mp_core_trx.specs.Invariant.{TrxInv};

/// After any steps from any opening whose numbers fit, each of which was allowed when it came, the invariant holds, and
/// the timestamp oracle is above its base by at most 8 times the transactions of the run.
pub fn law_trx_inv()
    ensures kept { (opening : TrxOpening) (events : List TrxEvent) → TrxNumbersFit opening → AllowedFrom (transactions opening) (trx_start opening) events → TrxInv opening (run_from (transactions opening) (trx_start opening) events) }
    ensures bounded { (opening : TrxOpening) (events : List TrxEvent) → TrxNumbersFit opening → AllowedFrom (transactions opening) (trx_start opening) events → (run_from (transactions opening) (trx_start opening) events).tso ≤ opening.base.ts + 8 * opening.begins }
{}

/// What the conditions of steps allow, and what they forbid, on small lists of steps. A commit that another primary sees,
/// a transaction that is freed, and two in slots of their own may be. No timestamp is drawn before PREP, and no second
/// one; a transaction ends with the timestamp that it drew, and with none only where it drew none; no slot is taken twice,
/// no version is used twice, no primary begins a transaction of another; and a slot that isn't there isn't loaded.
pub fn law_trx_examples()
    ensures commit { MayRun one_commit }
    ensures free { MayRun (begun_then (StoreEnd 1 first_trx None ∷ [])) }
    ensures two { MayRun (begun_then (StoreActive 1 (trx 1 1 2) ∷ [])) }
    ensures no_early_draw { ¬ MayRun (begun_then (DrawTso 1 first_trx ∷ [])) }
    ensures no_second_prep { ¬ MayRun (begun_then (StorePrep 1 first_trx ∷ StorePrep 1 first_trx ∷ [])) }
    ensures no_second_draw { ¬ MayRun (drawn_then (DrawTso 1 first_trx ∷ [])) }
    ensures no_foreign_timestamp { ¬ MayRun (drawn_then (StoreEnd 1 first_trx (Some 2) ∷ [])) }
    ensures no_end_without { ¬ MayRun (drawn_then (StoreEnd 1 first_trx None ∷ [])) }
    ensures no_slot_twice { ¬ MayRun (begun_then (StoreActive 1 (trx 1 0 2) ∷ [])) }
    ensures no_version_twice { ¬ MayRun (begun_then (StoreActive 1 (trx 1 1 1) ∷ [])) }
    ensures no_begin_for_another { ¬ MayRun (StoreActive 2 first_trx ∷ []) }
    ensures no_slot_beyond { ¬ MayRun (LoadTit 1 2 5032 ∷ []) }
{}
