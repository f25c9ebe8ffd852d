//! Small cases of the definitions.
ghost use Rattle.std.specs.Prelude.{◌≡◌, ℕ, List, [], ◌∷◌};
ghost use Rattle.mp_model.specs.declared.ids.TrxId.{TrxId};
ghost use Rattle.mp_model.specs.declared.histories.Opening.{Opening};
ghost use Rattle.mp_model.specs.declared.transcripts.Down.{Down};
ghost use Rattle.mp_script.specs.declared.statements.Script.{Script};
ghost use Rattle.mp_cells.specs.declared.rows.Row.{Row};
ghost use Rattle.mp_core_trx.specs.declared.opening.TrxOpening.{TrxOpening};
ghost use Rattle.mp_core.specs.declared.opening.CoreOpening.{CoreOpening};
ghost use Rattle.mp_core.specs.World.{CoreWorld, core_start};
ghost use Rattle.mp_supports.specs.Work.{Work};
ghost use Rattle.mp_supports.specs.Kept.{Entry};
ghost use Rattle.mp_verdict.specs.Reads.{LastPutBelow, PutsNothingBelow};
ghost use Rattle.mp_verdict.specs.Finished.{Finished};
ghost use Rattle.mp_verdict.specs.Orders.{NodeEntry, IsMerged, StepOrder};

/// Before any step no transaction has put a row. A run in which no primary is down has no `down` line. Entries of a primary
/// that the list of all doesn't have aren't merged in it, and an empty list is the merge of none.
pub fn law_order_examples()
    ensures puts_nothing { (o : CoreOpening) (id : TrxId) (key height : ℕ) → PutsNothingBelow (core_start o) id key height }
    ensures no_last_put { (o : CoreOpening) (id : TrxId) (key height : ℕ) (row : Row) → LastPutBelow (core_start o) id key height row → ⊥ }
    ensures no_lines { (work : Work) (script : Script) (opening : Opening) (o : CoreOpening) (w : CoreWorld) (entries : ℕ → List Entry) (line : Down) → Finished work script opening o w (λ n. 0) entries (line ∷ []) → ⊥ }
    ensures merged { (opening : TrxOpening) → IsMerged opening (λ n. []) [] }
    ensures not_merged { (opening : TrxOpening) (x : NodeEntry) (entry : Entry) → opening.primaries ≡ 1 → IsMerged opening (λ n. entry ∷ []) [] → ⊥ }
    ensures ordered { (base : ℕ) → StepOrder base [] }
{}
