//! Where a transaction stands.
ghost use Rattle.std.specs.Prelude.{◌≡◌, ◌<◌, ℕ};
ghost use Rattle.mp_core_trx.specs.Words.{shown_of};
ghost use Rattle.mp_shared.specs.Nodes.{Reached};
ghost use Rattle.mp_core_trx.specs.Events.{with_slot_load};
ghost use Rattle.mp_trx_fusion.specs.Calls.{with_trx, MayLook};
ghost use Rattle.mp_trx_fusion.specs.Statuses.{status_of, Stood};

use mp_core_trx::{Shown, SlotTag};
use mp_model::TrxId;
use mp_shared::{Node, Shared};

/// What a transaction's slot shows of it. `Other` says that the slot shows another transaction, or none: since no slot is
/// used twice, the transaction was never begun.
#[derive(Clone, Copy, Debug, PartialEq, Eq)]
pub enum SlotStatus {
    Active,
    Prep,
    /// The timestamp that it drew.
    Committed(u64),
    Free,
    Other,
}

/// What the word of its slot shows of the transaction `id`, by its version.
fn shown_status(shown: Shown, id: TrxId) -> SlotStatus
    ensures { result ≡ status_of id shown }
{
    if shown.version != id.version {
        return SlotStatus::Other;
    }
    match shown.tag {
        SlotTag::Free => SlotStatus::Free,
        SlotTag::Active => SlotStatus::Active,
        SlotTag::Prep => SlotStatus::Prep,
        SlotTag::Committed => SlotStatus::Committed(shown.cts),
    }
}

/// Where the transaction `id` of any primary stands, by its slot's word, which the part of `p` notes: ACTIVE or FREE where
/// it had drawn no timestamp as the word was loaded, PREP where it was begun, COMMITTED with the timestamp that it drew,
/// and `Other` where it was not begun by then.
pub fn status(shared: &Shared, node: &mut Node, p: u8, id: TrxId) -> SlotStatus
    requires run { node.old.run ≡ shared.now }
    requires may { MayLook node.old p id }
    ensures shown { (word : ℕ) × (result ≡ status_of id (shown_of word)) × (node.new ≡ with_trx node.old p (with_slot_load id.node id.slot word) 1) }
    ensures stood { Stood node.old id result }
    ensures reached { Reached node.new }
{
    let word = shared.load_tit(node, p, id.node, id.slot);
    shown_status(Shown::read(word), id)
}
