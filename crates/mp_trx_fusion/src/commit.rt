//! The end of a transaction.
ghost use Rattle.std.specs.Prelude.{◌≡◌, ◌+◌, ◌<◌, Some, None};
ghost use Rattle.mp_core_trx.specs.declared.event.TrxEvent.TheVariants.{StorePrep, DrawTso, StoreEnd};
ghost use Rattle.mp_core.specs.declared.event.CoreEvent.TheVariants.{Trx};
ghost use Rattle.mp_shared.specs.Nodes.{HoldsAll, MayTake, Reached};
ghost use Rattle.mp_core_trx.specs.Events.{with_prep, with_draw, with_end};
ghost use Rattle.mp_trx_fusion.specs.Calls.{with_trx, IsNextTimestamp, KnowsLess, tso_of};

use mp_model::TrxId;
use mp_shared::{Node, Shared};

/// Says that the commit of an open transaction of `p` has begun. Its slot shows ACTIVE before, and PREP then.
pub fn prepare(shared: &Shared, node: &mut Node, p: u8, id: TrxId)
    requires run { node.old.run ≡ shared.now }
    requires may { MayTake (Trx (StorePrep p id)) node.old }
    ensures becomes { node.new ≡ with_trx node.old p (with_prep id) 1 }
    ensures reached { Reached node.new }
{
    shared.store_prep(node, p, id);
}

/// Draws a timestamp for a transaction of `p` that is prepared and has drawn nothing: one more than the greatest that was
/// drawn by then, and so above all that the part of `p` knew.
pub fn draw(shared: &Shared, node: &mut Node, p: u8, id: TrxId) -> u64
    requires run { node.old.run ≡ shared.now }
    requires may { MayTake (Trx (DrawTso p id)) node.old }
    ensures becomes { node.new ≡ with_trx node.old p (with_draw id result) 1 }
    ensures next { IsNextTimestamp node.old result }
    ensures above { KnowsLess node.old p result }
    ensures exact { HoldsAll node.old → result ≡ tso_of node.old + 1 }
    ensures reached { Reached node.new }
{
    shared.draw_tso(node, p, id)
}

/// Says that a transaction of `p` is committed at the timestamp that it drew.
pub fn publish(shared: &Shared, node: &mut Node, p: u8, id: TrxId, cts: u64)
    requires run { node.old.run ≡ shared.now }
    requires may { MayTake (Trx (StoreEnd p id (Some cts))) node.old }
    ensures becomes { node.new ≡ with_trx node.old p (with_end id (Some cts)) 1 }
    ensures reached { Reached node.new }
{
    shared.store_end(node, p, id, Some(cts));
}

/// Says that a transaction of `p` that drew nothing is over.
pub fn free(shared: &Shared, node: &mut Node, p: u8, id: TrxId)
    requires run { node.old.run ≡ shared.now }
    requires may { MayTake (Trx (StoreEnd p id None)) node.old }
    ensures becomes { node.new ≡ with_trx node.old p (with_end id None) 1 }
    ensures reached { Reached node.new }
{
    shared.store_end(node, p, id, None);
}
