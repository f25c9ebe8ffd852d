//! The values that transactions see, as an execution's answers tell them and as a world's pages have them.

ghost use Rattle.std.specs.Prelude.{◌≡◌, ◌⊎◌, ℕ, ◌+◌, ◌<◌, ◌≤◌, List, length};
ghost use Rattle.std.specs.List.{AllByRecursion};
ghost use Rattle.mp_model.specs.Folded.{over, value_at, KeysAscend};
ghost use Rattle.mp_model.specs.declared.ids.TrxId.{TrxId};
ghost use Rattle.mp_model.specs.declared.ids.TrxName.{TrxName};
ghost use Rattle.mp_model.specs.declared.key_value.KeyValue.{KeyValue};
ghost use Rattle.mp_script.specs.Execution.{Execution};
ghost use Rattle.mp_script.specs.Transactions.{view_of};
ghost use Rattle.mp_script.specs.Seen.{rows_of_view};
ghost use Rattle.mp_script.specs.Right.{first_rows_from};
ghost use Rattle.mp_cells.specs.PageView.{PageView};
ghost use Rattle.mp_cells.specs.Trees.{top};
ghost use Rattle.mp_cells.specs.declared.rows.Row.{Row};
ghost use Rattle.mp_core.specs.declared.opening.CoreOpening.{CoreOpening};
ghost use Rattle.mp_core.specs.Invariant.{NumbersFit};
ghost use Rattle.mp_core.specs.World.{CoreWorld, core_part};
ghost use Rattle.mp_core_pages.specs.declared.part.GivenPage.{GivenPage};
ghost use Rattle.mp_supports.specs.Seeing.{Sees, ScansTo};
ghost use Rattle.mp_facts.specs.Facts.{Facts};
ghost use Rattle.mp_verdict.specs.Reads.{ShowsReader};
ghost use Rattle.mp_script.specs.LastValues.{first_writes};
ghost use Rattle.mp_verdict.specs.Writers.{LiesBetween, IsWriter, TellsOfWorld};

/// Where an execution tells of a world, and the ok writes of a transaction are the puts of an id, the transaction's part
/// shows it, at a height between its writes, the value that it sees between them.
pub fn law_seen()
    ensures { (o : CoreOpening) (w : CoreWorld) (run : Execution) (trx : TrxName) (id : TrxId) (count limit place height key : ℕ) (found : Row) → Facts o w → TellsOfWorld o w run → (writer : IsWriter o w run trx id count limit) → run.opening.base ≤ view_of run trx → view_of run trx ≤ run.opening.base + run.commits → place ≤ count → height ≤ limit → LiesBetween run trx writer.mtrs count place height → ShowsReader o w id height (view_of run trx) key found → value_at key (over (rows_of_view run trx) (first_writes run trx place)) ≡ found.value }
{}

/// Where the rows that a transaction sees have at each key the value that its part shows it, stretches of leaves up to a
/// bound show the first of these rows: as many as were asked for, or all from the first key on.
pub fn law_scans()
    ensures { (o : CoreOpening) (w : CoreWorld) (pages : List (GivenPage PageView)) (reader : TrxId) (view count low high most : ℕ) (rows all : List KeyValue) → NumbersFit o → Facts o w → ((key : ℕ) (found : Row) → Sees (core_part w reader.node) pages reader view key found → value_at key all ≡ found.value) → KeysAscend all → AllByRecursion (λ row. row.key < top) all → ScansTo (core_part w reader.node) pages reader view count low high rows → length rows ≤ most → (high ≡ top) ⊎ (length rows ≡ most) → rows ≡ first_rows_from low most all }
{}
