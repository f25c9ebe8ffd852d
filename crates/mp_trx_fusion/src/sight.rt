//! What a primary sees of the timestamp oracle, and how its transactions begin.
ghost use Rattle.std.specs.Prelude.{◌≡◌, ◌≤◌, Some, None, IfOk, IfErr, IsOk};
ghost use Rattle.mp_core_trx.specs.declared.opening.TheConstants.{SLOTS};
ghost use Rattle.mp_shared.specs.Nodes.{HoldsAll, HoldsPart, Reached};
ghost use Rattle.mp_shared.specs.Slots.{next_slot, CanUse};
ghost use Rattle.mp_core_trx.specs.Events.{with_seen};
ghost use Rattle.mp_trx_fusion.specs.Calls.{with_trx, with_begin, Knows, tso_of, MayBeginTrx, no_slot_for};

use mp_core_trx::Begun;
use mp_model::{NotYet, TrxId, WordKind};
use mp_shared::{Node, Shared};

/// The greatest timestamp that was drawn, or the base where none was. It is at least each timestamp that the part of `p`
/// knows, and exactly the base and the timestamps drawn where the node holds all parts.
pub fn view(shared: &Shared, node: &mut Node, p: u8) -> u64
    requires run { node.old.run ≡ shared.now }
    requires part { HoldsPart node.old p }
    ensures becomes { node.new ≡ with_trx node.old p (with_seen result) 1 }
    ensures newest { Knows node.old p result }
    ensures exact { HoldsAll node.old → result ≡ tso_of node.old }
    ensures reached { Reached node.new }
{
    shared.load_tso(node, p)
}

/// Begins a transaction of `p` with this version, which is above the base version and within the run's, and which no
/// other transaction of `p` has. It takes the next unused slot of `p`. Its view is the greatest timestamp that was drawn,
/// loaded in this call. `NotYet` only where all slots of `p` were used, which can't be where the run begins at most as
/// many transactions as a primary has slots; nothing changed then. It names the least view of `p`, which no step reads yet.
pub fn begin(shared: &Shared, node: &mut Node, p: u8, version: u32) -> Result<Begun, NotYet>
    requires run { node.old.run ≡ shared.now }
    requires may { MayBeginTrx node.old p version }
    ensures begun { IfOk result (λ b. (b.id.node ≡ p) × (b.id.version ≡ version) × (next_slot node.old p ≡ Some b.id.slot) × CanUse node.old p b.id.slot) }
    ensures becomes { IfOk result (λ b. node.new ≡ with_trx node.old p (with_begin b) 2) }
    ensures newest { IfOk result (λ b. Knows node.old p b.view) }
    ensures exact { IfOk result (λ b. HoldsAll node.old → b.view ≡ tso_of node.old) }
    ensures refused { IfErr result (λ _. node.new ≡ node.old) }
    ensures only { IfErr result (λ w. (next_slot node.old p ≡ None) × (w ≡ no_slot_for p)) }
    ensures room { node.old.run.opening.trx.begins ≤ SLOTS → IsOk result }
    ensures reached { Reached node.new }
{
    let Some(slot) = node.next_slot(p) else {
        return Err(NotYet {
            of: WordKind::Least,
            at: u32::from(p),
            seen: 0,
        });
    };
    let view = shared.load_tso(node, p);
    let id = TrxId {
        node: p,
        slot,
        version,
    };
    shared.store_active(node, p, id);
    Ok(Begun { id, view })
}
