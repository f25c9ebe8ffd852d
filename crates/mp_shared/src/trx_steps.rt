//! The steps of transactions. Each is one operation on one word, and one event of the machine: its condition is on the
//! part of primary `p` alone, which the node holds. None takes memory or waits.
ghost use Rattle.std.specs.Prelude.{◌≡◌, ◌+◌, ◌-◌, ◌*◌, ◌<◌, ◌≤◌, Some};
ghost use Rattle.mp_core_trx.specs.declared.event.TrxEvent.TheVariants.{LoadTso, StoreActive, StorePrep, DrawTso, StoreEnd, LoadTit};
ghost use Rattle.mp_core_trx.specs.Events.{at_slot, ended as ended_of};
ghost use Rattle.mp_core.specs.declared.event.CoreEvent.TheVariants.{Trx};
ghost use Rattle.mp_core.specs.World.{of_trx, core_index, IsCorePlace};
ghost use Rattle.mp_shared.specs.Nodes.{MayTake, Took, TookUnseen, TookNext};
ghost use Rattle.mp_shared.specs.Slots.{next_slot};

use crate::node::Node;
use crate::shared::Shared;
use mp_core::{SLOT_WORDS, TSO_WORD};
use mp_core_trx::{SLOTS, Shown, SlotTag};
use mp_model::TrxId;
use std::marker::Brand;

/// Where the word of a slot lies.
fn slot_word(p: u8, slot: u16) -> usize
    requires { IsCorePlace (of_trx (at_slot p slot)) }
    ensures { result ≡ core_index (of_trx (at_slot p slot)) }
{
    SLOT_WORDS + (usize::from(p) - 1) * usize::from(SLOTS) + usize::from(slot)
}

/// What the slot of an ended transaction shows.
fn ended(id: TrxId, cts: Option<u64>) -> Shown
    ensures { result ≡ ended_of id cts }
{
    match cts {
        Some(cts) => Shown {
            tag: SlotTag::Committed,
            version: id.version,
            cts,
        },
        None => Shown {
            tag: SlotTag::Free,
            version: id.version,
            cts: 0,
        },
    }
}

impl Shared {
    /// Loads the timestamp oracle: the greatest timestamp drawn, or the base where none was.
    pub fn load_tso(&self, node: &mut Node, p: u8) -> u64
        requires run { node.old.run ≡ self.now }
        requires step { MayTake (Trx (LoadTso p)) node.old }
        ensures { Took (Trx (LoadTso p)) node.old result node.new }
    {
        self.table.load::<Brand, u8>(&mut node.seat, TSO_WORD, &p)
    }

    /// Begins a transaction, in its primary's next unused slot. Its view is the greatest timestamp that `p` knows.
    pub fn store_active(&self, node: &mut Node, p: u8, id: TrxId)
        requires run { node.old.run ≡ self.now }
        requires step { MayTake (Trx (StoreActive p id)) node.old }
        requires slot { next_slot node.old p ≡ Some id.slot }
        ensures { TookUnseen (Trx (StoreActive p id)) node.old node.new }
    {
        let shown = Shown {
            tag: SlotTag::Active,
            version: id.version,
            cts: 0,
        };
        self.table.store::<Brand, (u8, TrxId)>(
            &mut node.seat,
            slot_word(p, id.slot),
            shown.word(),
            &(p, id),
        );
        node.counts.set(p, Some(id.slot + 1));
    }

    /// Says that the transaction's commit has begun.
    pub fn store_prep(&self, node: &mut Node, p: u8, id: TrxId)
        requires run { node.old.run ≡ self.now }
        requires step { MayTake (Trx (StorePrep p id)) node.old }
        ensures { TookUnseen (Trx (StorePrep p id)) node.old node.new }
    {
        let shown = Shown {
            tag: SlotTag::Prep,
            version: id.version,
            cts: 0,
        };
        self.table.store::<Brand, (u8, TrxId)>(
            &mut node.seat,
            slot_word(p, id.slot),
            shown.word(),
            &(p, id),
        );
    }

    /// Draws a timestamp for the transaction: the TSO's next, which is the answer.
    pub fn draw_tso(&self, node: &mut Node, p: u8, id: TrxId) -> u64
        requires run { node.old.run ≡ self.now }
        requires step { MayTake (Trx (DrawTso p id)) node.old }
        ensures { TookNext (Trx (DrawTso p id)) node.old result node.new }
    {
        let before = self
            .table
            .fetch_add::<Brand, (u8, TrxId)>(&mut node.seat, TSO_WORD, 1, &(p, id));
        before + 1
    }

    /// Ends the transaction: its slot shows COMMITTED with its timestamp, or FREE.
    pub fn store_end(&self, node: &mut Node, p: u8, id: TrxId, cts: Option<u64>)
        requires run { node.old.run ≡ self.now }
        requires step { MayTake (Trx (StoreEnd p id cts)) node.old }
        ensures { TookUnseen (Trx (StoreEnd p id cts)) node.old node.new }
    {
        self.table.store::<Brand, (u8, TrxId, Option<u64>)>(
            &mut node.seat,
            slot_word(p, id.slot),
            ended(id, cts).word(),
            &(p, id, cts),
        );
    }

    /// Loads the word of the slot `slot` of primary `of`.
    pub fn load_tit(&self, node: &mut Node, p: u8, of: u8, slot: u16) -> u64
        requires run { node.old.run ≡ self.now }
        requires step { MayTake (Trx (LoadTit p of slot)) node.old }
        ensures { Took (Trx (LoadTit p of slot)) node.old result node.new }
    {
        self.table
            .load::<Brand, (u8, u8, u16)>(&mut node.seat, slot_word(of, slot), &(p, of, slot))
    }
}
