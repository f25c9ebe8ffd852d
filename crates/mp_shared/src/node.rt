//! What a thread steps with: the parts of one or more primaries.
ghost use Rattle.std.specs.Prelude.{◌≡◌, ◌<◌, IfSome};
ghost use Rattle.mp_core_pages.specs.declared.opening.TheConstants.{PAGES};
ghost use Rattle.mp_shared.specs.KeptNodes.{CarriesAllOut};
ghost use Rattle.mp_shared.specs.LockTables.{IsFirstHeld};
ghost use Rattle.mp_shared.specs.Nodes.{HoldsPart, Reached};
ghost use Rattle.mp_shared.specs.PageSteps.{held_in};
ghost use Rattle.mp_shared.specs.Slots.{next_slot, CanUse};

use crate::held_locks::HeldLocks;
use crate::shared::Shared;
use crate::slot_counts::SlotCounts;
use crate::system::Core;
use mp_core_pages::Held;
use mp_core_trx::SLOTS;
use mp_machine::Seat;
use std::marker::Model;
use std::snapshot::Snapshot;

/// The parts of one or more primaries, and of which table they are. No two nodes of a table hold one part.
#[derive(Drop)]
pub struct Node {
    pub(crate) seat: Seat<Core>,
    pub(crate) run: Snapshot<Shared>,
    pub(crate) counts: SlotCounts,
    pub(crate) locks: HeldLocks,
}

impl Model for Node {
    ghost use Rattle.std.specs.Prelude.{map};
    ghost use Rattle.mp_shared.specs.Nodes.{NodeView};
    ghost use Rattle.mp_shared.specs.KeptNodes.{IsKeptNode};

    ghost Value = { NodeView };

    ghost view = { λ n. record { run = n.run.value; parts = n.seat.me.0; frames = map (λ x. x.0) n.seat.me.1 } };

    ghost invariant = { λ n. IsKeptNode n.run.value n.seat.table_id n.seat.me.0 (map (λ x. x.0) n.seat.me.1) n.counts.used n.locks.tables };
}

impl Node {
    /// How primary `p` holds the lock of a page. It makes no step and takes no memory. What is known of every node is
    /// handed out here: the node carries each frame that a part of it has.
    pub fn holds(&self, p: u8, page: u16) -> Held
        requires part { HoldsPart self.now p }
        requires page { page < PAGES }
        ensures held { result ≡ held_in self.now p page }
        ensures carries { CarriesAllOut self.now.parts self.now.frames }
        ensures reached { Reached self.now }
    {
        self.locks.get(p, page)
    }

    /// The first page from `from` on whose lock primary `p` holds. `None` where it holds none of them. It makes no step and
    /// takes no memory, and looks at few pages beside those that it finds.
    pub fn next_held(&self, p: u8, from: u16) -> Option<u16>
        requires part { HoldsPart self.now p }
        ensures next { IsFirstHeld (held_in self.now p) from PAGES result }
        ensures carries { CarriesAllOut self.now.parts self.now.frames }
        ensures reached { Reached self.now }
    {
        self.locks.next(p, from)
    }

    /// The slot that the next transaction of primary `p` takes: each transaction takes its primary's next unused slot.
    /// `None` where all slots of `p` were used. It makes no step.
    pub fn next_slot(&self, p: u8) -> Option<u16>
        requires { HoldsPart self.now p }
        ensures slot { result ≡ next_slot self.now p }
        ensures usable { IfSome result (λ slot. CanUse self.now p slot) }
        ensures reached { Reached self.now }
    {
        match self.counts.get(p) {
            Some(count) if count < SLOTS => Some(count),
            _ => None,
        }
    }
}
