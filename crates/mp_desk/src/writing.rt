//! How a transaction writes a key: over a version that it may replace, by one mtr.
ghost use Rattle.std.specs.Prelude.{◌≡◌, ◌≢◌, ℕ, ◌+◌, ◌<◌, ◌≤◌, ◌⊎◌, false, List, ◌∷◌, length, Some, Err, IsTrue, IfOk, IfErr, OnErr, OnOk};
ghost use Rattle.mp_machine.specs.View.{part_in};
ghost use Rattle.mp_outside.specs.Faults.{Rose};
ghost use Rattle.mp_core_pages.specs.declared.opening.TheConstants.{MOST_MTRS};
ghost use Rattle.mp_core_pages.specs.declared.part.Placed.{Placed};
ghost use Rattle.mp_cells.specs.Rows.{IsRow, is_writer};
ghost use Rattle.mp_cells.specs.declared.records.Mtr.{Mtr};
ghost use Rattle.mp_trx_fusion.specs.declared.slot_status.SlotStatus.TheVariants as statuses;
ghost use Rattle.mp_buffer_fusion.specs.declared.pool.TheConstants.{BUFFERS};
ghost use Rattle.mp_core.specs.declared.part.CorePart.{CorePart};
ghost use Rattle.mp_core.specs.CoreExtends.{durable_of};
ghost use Rattle.mp_supports.specs.Seeing.{IsSeenBy};
ghost use Rattle.mp_supports.specs.Work.{Work};
ghost use Rattle.mp_desk.specs.declared.halts.WriteHalt.TheVariants as halts;
ghost use Rattle.mp_desk.specs.Desks.{IsAtDesk, IsReadAfresh, IsWayTo, KeepsLocks, Brings, MetWait, Moves};
ghost use Rattle.mp_desk.specs.Planned.{PlansWrite, HasTaken};
ghost use Rattle.mp_desk.specs.Making.{IsOpenLog, IsMadeAfter, MediaAgree, MediaAgreeSomehow};
ghost use Rattle.mp_desk.specs.Statements.{LooksOn, ReadsIn, StaysQuiet, MakesThen};
ghost use Rattle.mp_desk.specs.Writes.{ShowsReplaced, HasUnfreedWriter, StopsWrite, Withstands, HaltsPlan, PutsValue, HaltsWrite};

use crate::desk::Desk;
use crate::halts::WriteHalt;
use crate::media::Media;
use crate::reading::newest_in;
use mp_cells::Row;
use mp_core_trx::Begun;
use mp_model::{NotYet, TrxId, Value};
use mp_outside::Disk;
use mp_shared::{Node, Shared};
use mp_steps::{Ledger, Steps};
use mp_tree::{PlanRefusal, Write};
use mp_trx_fusion::{SlotStatus, status};

/// Whether a transaction stops before a version of another one, begun and not freed, by where that one stands: while it is
/// open, and where it committed above the view.
fn stop_before(trx: Begun, id: TrxId, status: SlotStatus) -> Result<(), WriteHalt>
    requires not_freed { status ≢ statuses.Free }
    requires begun { status ≢ statuses.Other }
    ensures over { OnOk result ((cts : ℕ) × (status ≡ statuses.Committed cts) × (cts ≤ trx.view)) }
    ensures stop { IfErr result (StopsWrite trx id status) }
{
    match status {
        SlotStatus::Committed(cts) => {
            if cts <= trx.view {
                Ok(())
            } else {
                Err(WriteHalt::Conflict(id, cts))
            }
        }
        SlotStatus::Active | SlotStatus::Prep => {
            if id.version < trx.id.version {
                Err(WriteHalt::Held(id))
            } else {
                Err(WriteHalt::Writer(id))
            }
        }
        SlotStatus::Free | SlotStatus::Other => unreachable!(),
    }
}

impl Desk {
    /// The newest version of a key, by its leaf, which it comes to write. Buffers are dropped where few are free.
    fn replaced<L: Ledger>(
        &mut self,
        shared: &Shared,
        node: &mut Node,
        p: u8,
        key: u32,
        steps: &mut Steps<L>,
    ) -> Result<Row, NotYet>
        requires desk { IsAtDesk shared.now self.old p node.old }
        requires afresh { IsReadAfresh self.old p node.old }
        ensures desk { IsAtDesk shared.now self.new p node.new }
        ensures looks { LooksOn p self.old self.new node.old node.new }
        ensures llsn { self.old.llsn ≤ self.new.llsn }
        ensures room { length self.new.pool + 22 ≤ BUFFERS }
        ensures shows { IfOk result (ShowsReplaced self.new.pool key) }
        ensures cause { IfErr result (MetWait p node.old node.new) }
    {
        self.make_room();
        let number = match self.leaf(shared, node, p, key, steps) {
            Ok(number) => number,
            Err(wait) => return Err(wait),
        };
        match self.take(shared, node, p, number, steps) {
            Ok(()) => Ok(newest_in(self.pool.look(number), key)),
            Err(wait) => Err(wait),
        }
    }

    /// Whether a transaction may replace a version: one without a writer, or its own, takes no step; else the word of the
    /// writer's slot is loaded.
    fn standing(
        &self,
        shared: &Shared,
        node: &mut Node,
        p: u8,
        trx: Begun,
        row: &Row,
    ) -> Result<(), WriteHalt>
        requires desk { IsAtDesk shared.now self.now p node.old }
        requires writer { ReadsIn p trx node.old }
        requires unfreed { HasUnfreedWriter node.old row.now }
        ensures desk { IsAtDesk shared.now self.now p node.new }
        ensures brings { Brings 0 p self.now self.now node.old node.new }
        ensures over { OnOk result ((r : CorePart) → part_in node.new.parts p ≡ Some r → IsSeenBy r trx.id trx.view row.now) }
        ensures stop { IfErr result (λ halt. (r : CorePart) → part_in node.new.parts p ≡ Some r → Withstands r trx row.now halt) }
    {
        let Some(id) = row.writer else {
            return Ok(());
        };
        if id == trx.id {
            return Ok(());
        }
        let status = status(shared, node, p, id);
        stop_before(trx, id, status)
    }

    /// Plans a write of a key whose leaf was found, and comes to write each page that the plan changes.
    fn plan_taken<L: Ledger>(
        &mut self,
        shared: &Shared,
        node: &mut Node,
        p: u8,
        write: &Write,
        steps: &mut Steps<L>,
    ) -> Result<(), WriteHalt>
        requires desk { IsAtDesk shared.now self.old p node.old }
        requires afresh { IsReadAfresh self.old p node.old }
        requires writer { IsTrue (is_writer write.now.writer) }
        requires way { (number : ℕ) × IsWayTo self.old.pool write.now.key number }
        requires room { length self.old.pool + 22 ≤ BUFFERS }
        ensures desk { IsAtDesk shared.now self.new p node.new }
        ensures brings { Brings 22 p self.old self.new node.old node.new }
        ensures mtr { self.new.mtr ≡ self.old.mtr }
        ensures plan { OnOk result (PlansWrite self.new.pool self.new.undo write.now self.new.plan) }
        ensures taken { OnOk result (HasTaken p self.new.pool self.new.plan node.new) }
        ensures cause { IfErr result (HaltsPlan p node.old node.new) }
    {
        match self.plan_put(shared, node, p, write, steps) {
            Ok(_) => {}
            Err(
                PlanRefusal::Full {
                    needed: _,
                    clear: _,
                },
            ) => return Err(WriteHalt::Full),
            Err(PlanRefusal::NotYet(wait)) => return Err(WriteHalt::Word(wait)),
        }
        match self.take_all(shared, node, p, steps) {
            Ok(()) => Ok(()),
            Err(wait) => Err(WriteHalt::Word(wait)),
        }
    }

    /// Puts a value at a key for an open transaction, or none where its row is to be gone; the answer is the version that
    /// was replaced. It comes to write the key's leaf, looks at its newest version and that one's writer, and stops where
    /// the transaction may not replace it. On `Err` nothing was made.
    pub fn put<D: Disk, L: Ledger>(
        &mut self,
        media: &mut Media<D>,
        shared: &Shared,
        node: &mut Node,
        p: u8,
        trx: Begun,
        key: u32,
        value: Option<Value>,
        steps: &mut Steps<L>,
    ) -> Result<Row, WriteHalt>
        requires desk { IsAtDesk shared.now self.old p node.old }
        requires own { self.old.mtr.node ≡ p }
        requires writer { ReadsIn p trx node.old }
        requires afresh { IsReadAfresh self.old p node.old }
        requires few { (q : CorePart) → part_in node.old.parts p ≡ Some q → length q.pages.made < MOST_MTRS }
        requires log { IsOpenLog p self.old.llsn media.old.log }
        requires agrees { MediaAgreeSomehow D.Disk media.old p node.old }
        ensures desk { IsAtDesk shared.now self.new p node.new }
        ensures own { self.new.mtr.node ≡ p }
        ensures locks { KeepsLocks p node.old node.new }
        ensures wrote { IfOk result (λ former. (x : Placed Mtr) × Moves (MakesThen x) p node.old node.new × IsMadeAfter node.old x
            × ((r : CorePart) → part_in node.new.parts p ≡ Some r → PutsValue r trx key value former x.mtr)) }
        ensures quiet { OnErr result (Moves StaysQuiet p node.old node.new) }
        ensures cause { IfErr result (HaltsWrite p trx key node.old node.new) }
        ensures open { OnOk result (IsOpenLog p self.new.llsn media.new.log) }
        ensures still_open { IfErr result (λ halt. ((halt ≡ halts.Failed) × (media.new.log.tail.live ≡ false)
            × Rose (D.faults media.old.log.disk) (D.faults media.new.log.disk))
            ⊎ IsOpenLog p self.new.llsn media.new.log) }
        ensures media { (work : Work) → MediaAgree D.Disk work 0 media.old p node.old → MediaAgree D.Disk work 0 media.new p node.new
            ⊎ ((result ≡ Err halts.Failed) × MediaAgree D.Disk work p media.new p node.new) }
        ensures fresh { OnOk result ((r : CorePart) (x : Placed Mtr) (made : List (Placed Mtr)) → part_in node.new.parts p ≡ Some r
            → r.pages.made ≡ x ∷ made → durable_of r < x.mtr.llsn) }
        ensures failed { result ≡ Err halts.Failed
            → (media.new.log.tail.live ≡ false) × Rose (D.faults media.old.log.disk) (D.faults media.new.log.disk) }
        ensures counted { D.faults media.old.log.disk ≤ D.faults media.new.log.disk }
        ensures tells { D.tells media.new.log.disk ≡ D.tells media.old.log.disk }
    {
        let former = match self.replaced(shared, node, p, key, steps) {
            Ok(former) => former,
            Err(wait) => return Err(WriteHalt::Word(wait)),
        };
        if let Err(halt) = self.standing(shared, node, p, trx, &former) {
            return Err(halt);
        }
        let write = Write {
            key,
            value,
            writer: trx.id,
        };
        if let Err(halt) = self.plan_taken(shared, node, p, &write, steps) {
            return Err(halt);
        }
        if let Err(_) = media.make_room(shared, node, p) {
            return Err(WriteHalt::Failed);
        }
        self.make_plan(media, shared, node, p);
        Ok(former)
    }
}
