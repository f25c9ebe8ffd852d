//! How a transaction's rows are put back.
ghost use Rattle.std.specs.Prelude.{◌≡◌, ℕ, ◌+◌, ◌<◌, ◌≤◌, ◌⊎◌, false, length, drop, Some, Err, IfErr, OnOk, OnErr};
ghost use Rattle.mp_machine.specs.View.{part_in};
ghost use Rattle.mp_outside.specs.Disks.{Counts};
ghost use Rattle.mp_outside.specs.Faults.{Rose};
ghost use Rattle.mp_cells.specs.declared.records.Mtr.{Mtr};
ghost use Rattle.mp_core_pages.specs.declared.part.Placed.{Placed};
ghost use Rattle.mp_buffer_fusion.specs.declared.pool.TheConstants.{BUFFERS};
ghost use Rattle.mp_core_trx.specs.declared.slot.SlotTag.TheVariants.{Active};
ghost use Rattle.mp_core_trx.specs.Parts.{HasBegun, Shows};
ghost use Rattle.mp_core_pages.specs.declared.opening.TheConstants.{MOST_MTRS};
ghost use Rattle.mp_core.specs.declared.part.CorePart.{CorePart};
ghost use Rattle.mp_book.specs.Stages.{HaveOneRowEach};
ghost use Rattle.mp_supports.specs.Work.{Work};
ghost use Rattle.mp_desk.specs.declared.halts.BackHalt.TheVariants as backs;
ghost use Rattle.mp_desk.specs.Desks.{IsAtDesk, Moves, Brings, MetWait};
ghost use Rattle.mp_desk.specs.Making.{IsOpenLog, MediaAgree, MediaAgreeSomehow};
ghost use Rattle.mp_desk.specs.Writes.{HasFormers, PutsBackRows};
ghost use Rattle.mp_desk.specs.Statements.{StaysQuiet};
ghost use Rattle.mp_desk.specs.Rolling.{MakesBack, IsFormerIn, IsPlannedBack, HaltsBack};

use crate::desk::Desk;
use crate::halts::BackHalt;
use crate::media::Media;
use mp_cells::Row;
use mp_model::{NotYet, TrxId};
use mp_outside::{Disk, Failed};
use mp_shared::{Node, Shared};
use mp_steps::{Ledger, Steps};

impl Desk {
    /// Puts back the rows that an open transaction's first writes replaced, from the given place on, one mtr a row. The count
    /// of those that are back goes up with each. Where its buffers fill with changed pages it lets all pages go first. On
    /// `Err` a later call goes on where this one stopped.
    pub fn go_back<D: Disk, L: Ledger>(
        &mut self,
        media: &mut Media<D>,
        shared: &Shared,
        node: &mut Node,
        p: u8,
        id: TrxId,
        formers: &[Row],
        restored: &mut usize,
        steps: &mut Steps<L>,
    ) -> Result<(), BackHalt>
        requires desk { IsAtDesk shared.now self.old p node.old }
        requires own { self.old.mtr.node ≡ p }
        requires open { (q : CorePart) → part_in node.old.parts p ≡ Some q → HasBegun q.trx.begun id × Shows q.trx.rows id Active }
        requires formers { (q : CorePart) → part_in node.old.parts p ≡ Some q → HasFormers q id (drop restored.old formers.now) }
        requires once { HaveOneRowEach formers.now }
        requires within { restored.old ≤ length formers.now }
        requires few { (q : CorePart) → part_in node.old.parts p ≡ Some q
            → length q.pages.made + length (drop restored.old formers.now) ≤ MOST_MTRS }
        requires log { IsOpenLog p self.old.llsn media.old.log }
        requires agrees { MediaAgreeSomehow D.Disk media.old p node.old }
        ensures desk { IsAtDesk shared.now self.new p node.new }
        ensures own { self.new.mtr.node ≡ p }
        ensures back { Moves (PutsBackRows id formers.now restored.old restored.new) p node.old node.new }
        ensures all { OnOk result (restored.new ≡ length formers.now) }
        ensures cause { IfErr result (HaltsBack p node.old node.new) }
        ensures open { OnOk result (IsOpenLog p self.new.llsn media.new.log) }
        ensures still_open { IfErr result (λ halt. ((halt ≡ backs.Failed) × (media.new.log.tail.live ≡ false)
            × Rose (D.faults media.old.log.disk) (D.faults media.new.log.disk))
            ⊎ IsOpenLog p self.new.llsn media.new.log) }
        ensures media { (work : Work) → MediaAgree D.Disk work 0 media.old p node.old → MediaAgree D.Disk work 0 media.new p node.new
            ⊎ ((result ≡ Err backs.Failed) × MediaAgree D.Disk work p media.new p node.new) }
        ensures failed { result ≡ Err backs.Failed
            → (media.new.log.tail.live ≡ false) × Rose (D.faults media.old.log.disk) (D.faults media.new.log.disk) }
        ensures down { (work : Work) → MediaAgree D.Disk work 0 media.old p node.old → result ≡ Err backs.Failed
            → MediaAgree D.Disk work p media.new p node.new }
        ensures counted { D.faults media.old.log.disk ≤ D.faults media.new.log.disk }
        ensures tells { D.tells media.new.log.disk ≡ D.tells media.old.log.disk }
    {
        let first = *restored;
        for i in first..formers.len() {
            if let Err(halt) = self.put_back(media, shared, node, p, id, &formers[i], steps) {
                return Err(halt);
            }
            *restored += 1;
        }
        Ok(())
    }

    /// Puts back the row that an open transaction's first write of a key replaced. On `Err` nothing was made.
    fn put_back<D: Disk, L: Ledger>(
        &mut self,
        media: &mut Media<D>,
        shared: &Shared,
        node: &mut Node,
        p: u8,
        id: TrxId,
        row: &Row,
        steps: &mut Steps<L>,
    ) -> Result<(), BackHalt>
        requires desk { IsAtDesk shared.now self.old p node.old }
        requires own { self.old.mtr.node ≡ p }
        requires former { IsFormerIn p id row.now node.old }
        requires few { (q : CorePart) → part_in node.old.parts p ≡ Some q → length q.pages.made < MOST_MTRS }
        requires log { IsOpenLog p self.old.llsn media.old.log }
        requires agrees { MediaAgreeSomehow D.Disk media.old p node.old }
        ensures desk { IsAtDesk shared.now self.new p node.new }
        ensures own { self.new.mtr.node ≡ p }
        ensures back { OnOk result ((x : Placed Mtr) × Moves (MakesBack id row.now x) p node.old node.new) }
        ensures quiet { OnErr result (Moves StaysQuiet p node.old node.new) }
        ensures cause { IfErr result (HaltsBack p node.old node.new) }
        ensures open { OnOk result (IsOpenLog p self.new.llsn media.new.log) }
        ensures still_open { IfErr result (λ halt. ((halt ≡ backs.Failed) × (media.new.log.tail.live ≡ false)
            × Rose (D.faults media.old.log.disk) (D.faults media.new.log.disk))
            ⊎ IsOpenLog p self.new.llsn media.new.log) }
        ensures media { (work : Work) → MediaAgree D.Disk work 0 media.old p node.old → MediaAgree D.Disk work 0 media.new p node.new
            ⊎ ((result ≡ Err backs.Failed) × MediaAgree D.Disk work p media.new p node.new) }
        ensures failed { result ≡ Err backs.Failed
            → (media.new.log.tail.live ≡ false) × Rose (D.faults media.old.log.disk) (D.faults media.new.log.disk) }
        ensures down { (work : Work) → MediaAgree D.Disk work 0 media.old p node.old → result ≡ Err backs.Failed
            → MediaAgree D.Disk work p media.new p node.new }
        ensures counted { D.faults media.old.log.disk ≤ D.faults media.new.log.disk }
        ensures tells { D.tells media.new.log.disk ≡ D.tells media.old.log.disk }
    {
        if let Err(_failed) = self.have_room(media, shared, node, p) {
            return Err(BackHalt::Failed);
        }
        if let Err(_failed) = media.make_room(shared, node, p) {
            return Err(BackHalt::Failed);
        }
        if let Err(wait) = self.plan_former(shared, node, p, id, row, steps) {
            return Err(BackHalt::Word(wait));
        }
        self.make_plan(media, shared, node, p);
        Ok(())
    }

    /// Has 64 free buffers: lets all pages go where fewer are free. Refused as `let_go` is.
    fn have_room<D: Disk>(
        &mut self,
        media: &mut Media<D>,
        shared: &Shared,
        node: &mut Node,
        p: u8,
    ) -> Result<(), Failed>
        requires desk { IsAtDesk shared.now self.old p node.old }
        requires log { IsOpenLog p self.old.llsn media.old.log }
        requires agrees { MediaAgreeSomehow D.Disk media.old p node.old }
        ensures desk { IsAtDesk shared.now self.new p node.new }
        ensures rest { self.new ≡ record self.old { pool = self.new.pool } }
        ensures room { OnOk result (length self.new.pool + 64 ≤ BUFFERS) }
        ensures quiet { OnOk result (Moves StaysQuiet p node.old node.new) }
        ensures refused { OnErr result (node.new ≡ node.old) }
        ensures media { (work : Work) → MediaAgree D.Disk work 0 media.old p node.old
            → OnOk result (MediaAgree D.Disk work 0 media.new p node.new) × OnErr result (MediaAgree D.Disk work p media.new p node.new) }
        ensures open { OnOk result (IsOpenLog p self.new.llsn media.new.log) }
        ensures closed { OnErr result (media.new.log.tail.live ≡ false) }
        ensures counts { Counts result (D.faults media.old.log.disk) (D.faults media.new.log.disk) }
        ensures tells { D.tells media.new.log.disk ≡ D.tells media.old.log.disk }
    {
        if self.pool.free() < 64 {
            return self.let_go(media, shared, node, p);
        }
        Ok(())
    }

    /// Plans to put back the row that an open transaction's first write of a key replaced, and comes to write its page. On
    /// `NotYet` a page couldn't be had.
    fn plan_former<L: Ledger>(
        &mut self,
        shared: &Shared,
        node: &mut Node,
        p: u8,
        id: TrxId,
        row: &Row,
        steps: &mut Steps<L>,
    ) -> Result<(), NotYet>
        requires desk { IsAtDesk shared.now self.old p node.old }
        requires former { IsFormerIn p id row.now node.old }
        requires room { length self.old.pool + 23 ≤ BUFFERS }
        ensures desk { IsAtDesk shared.now self.new p node.new }
        ensures brings { Brings 23 p self.old self.new node.old node.new }
        ensures mtr { self.new.mtr ≡ self.old.mtr }
        ensures planned { OnOk result (IsPlannedBack p self.new row.now node.new) }
        ensures cause { IfErr result (MetWait p node.old node.new) }
    {
        let _leaf = match self.leaf(shared, node, p, row.key, steps) {
            Ok(number) => number,
            Err(wait) => return Err(wait),
        };
        self.plan_back(row);
        self.take_all(shared, node, p, steps)
    }
}
