//! The laws, as the contracts of functions that do nothing.
ghost use Rattle.std.specs.Prelude.{◌≢◌, ℕ, ◌<◌, List};
ghost use Rattle.mp_model.specs.declared.ids.TrxId.{TrxId};
ghost use Rattle.mp_cells.specs.PageView.{PageView};
ghost use Rattle.mp_cells.specs.declared.rows.Row.{Row};
ghost use Rattle.mp_core_pages.specs.declared.part.GivenPage.{GivenPage};
ghost use Rattle.mp_core.specs.declared.opening.CoreOpening.{CoreOpening};
ghost use Rattle.mp_core.specs.Invariant.{NumbersFit};
ghost use Rattle.mp_core.specs.World.{CoreWorld, core_part};
ghost use Rattle.mp_core.specs.OwnMtrs.{TrxMtr};
ghost use Rattle.mp_facts.specs.Facts.{Facts};
ghost use Rattle.mp_supports.specs.Seeing.{Sees};
ghost use Rattle.mp_verdict.specs.Reads.{PutOf, ShowsReader};
ghost use Rattle.mp_verdict.specs.WriteOrder.{PutsOverSettled, IsWholeBelow, CommittedBefore};

/// What a part shows a reader of its node, by a leaf that the node was given, is right at the leaf's height: the reader's own
/// last put below it, else what the durable commits at or below the view show.
pub fn law_read()
    ensures { (o : CoreOpening) (w : CoreWorld) (pages : List (GivenPage PageView)) (reader : TrxId) (view key : ℕ) (found : Row) → NumbersFit o → Facts o w → (sees : Sees (core_part w reader.node) pages reader view key found) → ShowsReader o w reader sees.leaf.height view key found }
{}

/// Where a transaction put a row of a key after another one had, of which nothing was put back before, the other one's
/// commit was recorded before that put and is in the transaction's view.
pub fn law_covers()
    ensures { (o : CoreOpening) (w : CoreWorld) (id under : TrxId) (key view : ℕ) (upper lower : TrxMtr) (row other : Row) → NumbersFit o → Facts o w → under ≢ id → PutsOverSettled w id view → PutOf w id key upper row → PutOf w under key lower other → lower.at < upper.at → IsWholeBelow w under upper.at → CommittedBefore o w under view upper.at }
{}
