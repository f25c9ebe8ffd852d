//! How a primary makes an mtr.
ghost use Rattle.std.specs.Prelude.{◌≡◌, ℕ, ◌+◌, ◌<◌, ◌≤◌, ◌^◌, List, length, Some, MatchOption};
ghost use Rattle.mp_machine.specs.Lists.{IsIn};
ghost use Rattle.mp_machine.specs.View.{part_in};
ghost use Rattle.mp_cells.specs.declared.changes.Change.TheVariants.{MakeUndo};
ghost use Rattle.mp_cells.specs.declared.records.Mtr.{Mtr};
ghost use Rattle.mp_redo.specs.Spelling.{mtr_bytes};
ghost use Rattle.mp_core_pages.specs.declared.event.PagesEvent.TheVariants.{StoreLlsn};
ghost use Rattle.mp_core_pages.specs.declared.opening.TheConstants.{MOST_MTRS};
ghost use Rattle.mp_core_pages.specs.declared.part.Placed.{Placed};
ghost use Rattle.mp_core.specs.declared.event.CoreEvent.TheVariants.{Pages};
ghost use Rattle.mp_core.specs.declared.part.CorePart.{CorePart};
ghost use Rattle.mp_core.specs.MtrKinds.{MayRecordCommit};
ghost use Rattle.mp_log.specs.Tails.{room_of};
ghost use Rattle.mp_shared.specs.Nodes.{MayTake, Reached};
ghost use Rattle.mp_buffer_fusion.specs.Buffers.{pool_recorded};
ghost use Rattle.mp_supports.specs.Work.{Work};
ghost use Rattle.mp_supports.specs.Steps.{MadeOne};
ghost use Rattle.mp_desk.specs.declared.media.TheConstants.{MTR_ROOM};
ghost use Rattle.mp_desk.specs.Desks.{IsAtDesk, KeepsLocks, Moves};
ghost use Rattle.mp_desk.specs.Planned.{HasTaken};
ghost use Rattle.mp_desk.specs.Making.{llsn_in, records_of_plan, CanChangeBuffers, mtr_of_plan, mtr_of_commit, MayPlan, MakesMtr, IsMadeAfter, HasSamePages, IsUndoAfter, IsOpenLog, MediaAgree};

use crate::desk::Desk;
use crate::media::Media;
use mp_buffer_fusion::Pool;
use mp_cells::{Change, Mtr, Record, Records};
use mp_model::TrxId;
use mp_outside::Disk;
use mp_shared::{Node, Shared};
use mp_tree::Plan;

/// Makes the changes of a plan in the buffers, each page with this LLSN then, and lists them as records.
fn change_pages(pool: &mut Pool, plan: &Plan, llsn: u64, records: &mut Records)
    requires llsn { llsn < 2 ^ 62 }
    requires can { CanChangeBuffers llsn pool.old plan.now }
    ensures records { records.new ≡ records_of_plan llsn (llsn_in pool.old) plan.now }
    ensures pool { pool.new ≡ pool_recorded llsn records.new pool.old }
    ensures few { length plan.now ≤ 20 }
{
    records.clear();
    for i in 0..plan.len() {
        let page = plan.page(i);
        let change = plan.change(i);
        let prev = pool.look(page).llsn();
        records.put(Record::Page {
            page,
            prev,
            change: *change,
        });
        match pool.change(page, change, llsn) {
            Ok(()) => {}
            Err(_) => unreachable!(),
        }
    }
}

/// The page that a plan makes an undo page. `None` where it makes none.
fn undo_page_of(plan: &Plan) -> Option<u16>
    ensures { MatchOption result ((page : ℕ) → IsIn (page, MakeUndo) plan.now → ⊥) (λ page. IsIn (page, MakeUndo) plan.now) }
{
    for i in 0..plan.len() {
        if let Change::MakeUndo = plan.change(i) {
            return Some(plan.page(i));
        }
    }
    None
}

/// Makes an mtr, which the primary may make, and appends it to the log, which has room for it.
fn log_mtr<D: Disk>(mtr: &Mtr, media: &mut Media<D>, shared: &Shared, node: &mut Node, p: u8)
    requires run { node.old.run ≡ shared.now }
    requires step { MayTake (Pages (StoreLlsn p mtr.now)) node.old }
    requires log { (llsn : ℕ) × IsOpenLog p llsn media.old.log × (llsn < mtr.now.llsn) }
    requires room { length (mtr_bytes mtr.now) ≤ room_of media.old.log.tail }
    ensures made { (x : Placed Mtr) × (x.mtr ≡ mtr.now) × MakesMtr p x node.old node.new }
    ensures reached { Reached node.new }
    ensures log { IsOpenLog p mtr.now.llsn media.new.log }
    ensures agrees { (work : Work) → MediaAgree D.Disk work 0 media.old p node.old → MediaAgree D.Disk work 0 media.new p node.new }
    ensures disk { media.new.log.disk ≡ media.old.log.disk }
{
    shared.store_llsn(node, p, mtr);
    media.log.append(mtr);
    media.unforced = true;
}

impl Desk {
    /// Makes the changes of the plan in the buffers, and has the planned mtr.
    fn write_mtr(&mut self)
        requires llsn { self.old.llsn + 1 < 2 ^ 62 }
        requires can { CanChangeBuffers (self.old.llsn + 1) self.old.pool self.old.plan }
        ensures made { self.new ≡ record self.old {
          pool = pool_recorded (self.old.llsn + 1) (mtr_of_plan self.old).records self.old.pool;
          mtr = mtr_of_plan self.old;
        } }
        ensures few { length self.old.plan ≤ 20 }
    {
        self.mtr.llsn = self.llsn + 1;
        change_pages(
            &mut self.pool,
            &self.plan,
            self.mtr.llsn,
            &mut self.mtr.records,
        );
    }

    /// Makes the planned mtr: its pages are the primary's to write and have buffers, and the log has room. The pages are
    /// changed in their buffers, the log has the mtr, and a page that it makes an undo page is the current one.
    pub fn make_plan<D: Disk>(
        &mut self,
        media: &mut Media<D>,
        shared: &Shared,
        node: &mut Node,
        p: u8,
    )
        requires desk { IsAtDesk shared.now self.old p node.old }
        requires own { self.old.mtr.node ≡ p }
        requires taken { HasTaken p self.old.pool self.old.plan node.old }
        requires may { (q : CorePart) → part_in node.old.parts p ≡ Some q → MayPlan q self.old.plan }
        requires few { (q : CorePart) → part_in node.old.parts p ≡ Some q → length q.pages.made < MOST_MTRS }
        requires log { IsOpenLog p self.old.llsn media.old.log }
        requires room { MTR_ROOM ≤ room_of media.old.log.tail }
        ensures desk { IsAtDesk shared.now self.new p node.new }
        ensures made { (x : Placed Mtr) × (x.mtr ≡ mtr_of_plan self.old) × Moves (MadeOne x) p node.old node.new × IsMadeAfter node.old x }
        ensures pages { HasSamePages self.old.pool self.new.pool }
        ensures undo { IsUndoAfter self.old.plan self.old.undo self.new.undo }
        ensures locks { KeepsLocks p node.old node.new }
        ensures own { self.new.mtr.node ≡ p }
        ensures log { IsOpenLog p self.new.llsn media.new.log }
        ensures agrees { (work : Work) → MediaAgree D.Disk work 0 media.old p node.old → MediaAgree D.Disk work 0 media.new p node.new }
        ensures disk { media.new.log.disk ≡ media.old.log.disk }
        ensures tells { D.tells media.new.log.disk ≡ D.tells media.old.log.disk }
    {
        self.write_mtr();
        log_mtr(&self.mtr, media, shared, node, p);
        self.llsn = self.mtr.llsn;
        if let Some(page) = undo_page_of(&self.plan) {
            self.undo = Some(page);
        }
    }

    /// Records that a transaction of the primary committed at the timestamp that it drew. The log has room.
    pub fn record_commit<D: Disk>(
        &mut self,
        media: &mut Media<D>,
        shared: &Shared,
        node: &mut Node,
        p: u8,
        id: TrxId,
        cts: u64,
    )
        requires desk { IsAtDesk shared.now self.old p node.old }
        requires own { self.old.mtr.node ≡ p }
        requires may { (q : CorePart) → part_in node.old.parts p ≡ Some q → MayRecordCommit q (mtr_of_commit p (self.old.llsn + 1) id cts) }
        requires few { (q : CorePart) → part_in node.old.parts p ≡ Some q → length q.pages.made < MOST_MTRS }
        requires log { IsOpenLog p self.old.llsn media.old.log }
        requires room { 27 ≤ room_of media.old.log.tail }
        ensures desk { IsAtDesk shared.now self.new p node.new }
        ensures made { (x : Placed Mtr) × (x.mtr ≡ mtr_of_commit p (self.old.llsn + 1) id cts) × Moves (MadeOne x) p node.old node.new
            × IsMadeAfter node.old x }
        ensures same { self.new ≡ record self.old { llsn = self.old.llsn + 1; mtr = self.new.mtr } }
        ensures locks { KeepsLocks p node.old node.new }
        ensures own { self.new.mtr.node ≡ p }
        ensures log { IsOpenLog p self.new.llsn media.new.log }
        ensures agrees { (work : Work) → MediaAgree D.Disk work 0 media.old p node.old → MediaAgree D.Disk work 0 media.new p node.new }
        ensures disk { media.new.log.disk ≡ media.old.log.disk }
        ensures tells { D.tells media.new.log.disk ≡ D.tells media.old.log.disk }
    {
        self.mtr.llsn = self.llsn + 1;
        self.mtr.records.clear();
        self.mtr.records.put(Record::Commit { id, cts });
        log_mtr(&self.mtr, media, shared, node, p);
        self.llsn = self.mtr.llsn;
    }
}
