//! How a transaction that wrote commits.
ghost use Rattle.std.specs.Prelude.{◌≡◌, ℕ, ◌+◌, ◌<◌, ◌≤◌, false, length, Some, Err, IfOk, IfErr, OnOk, OnErr};
ghost use Rattle.mp_machine.specs.View.{part_in};
ghost use Rattle.mp_outside.specs.Disks.{Counts};
ghost use Rattle.mp_core_pages.specs.declared.opening.TheConstants.{MOST_MTRS};
ghost use Rattle.mp_core.specs.declared.part.CorePart.{CorePart};
ghost use Rattle.mp_log.specs.Tails.{room_of};
ghost use Rattle.mp_shared.specs.Nodes.{HoldsAll, HoldsPart, Reached};
ghost use Rattle.mp_trx_fusion.specs.Calls.{KnowsLess, tso_of};
ghost use Rattle.mp_supports.specs.Work.{Work};
ghost use Rattle.mp_desk.specs.Desks.{IsAtDesk, KeepsLocks, Moves};
ghost use Rattle.mp_desk.specs.declared.desk.Desk.{Desk};
ghost use Rattle.mp_desk.specs.Making.{IsOpenLog, MakesLater, MediaAgree, MediaAgreeSomehow, SomeForced};
ghost use Rattle.mp_desk.specs.Statements.{ReadsIn};
ghost use Rattle.mp_desk.specs.Writes.{IsPublished, IsInTheBalance};
ghost use Rattle.mp_desk.specs.Ending.{StopsCommit, MediaAfterCommit, stamp_of};

use crate::desk::Desk;
use crate::halts::CommitHalt;
use crate::media::Media;
use mp_core_trx::Begun;
use mp_outside::{Disk, Failed};
use mp_shared::{Node, Shared};
use mp_trx_fusion::{draw, prepare, publish};

/// The room, in bytes, in which a commit record can be appended to a log.
const COMMIT_ROOM: usize = 27;

/// Has room for a commit record: forces the log where it has less. Refused as the force is: the log's disk failed in this
/// call, the log is closed then, and no step was taken.
fn room_for_commit<D: Disk>(
    media: &mut Media<D>,
    shared: &Shared,
    node: &mut Node,
    p: u8,
) -> Result<(), Failed>
    requires run { node.old.run ≡ shared.now }
    requires reached { Reached node.old }
    requires part { HoldsPart node.old p }
    requires log { (llsn : ℕ) × IsOpenLog p llsn media.old.log }
    requires agrees { MediaAgreeSomehow D.Disk media.old p node.old }
    ensures forced { OnOk result (Moves SomeForced p node.old node.new) }
    ensures desk { (desk : Desk) → IsAtDesk shared.now desk p node.old → IsAtDesk shared.now desk p node.new }
    ensures refused { OnErr result (node.new ≡ node.old) }
    ensures agrees { (work : Work) → MediaAgree D.Disk work 0 media.old p node.old
        → OnOk result (MediaAgree D.Disk work 0 media.new p node.new) × OnErr result (MediaAgree D.Disk work p media.new p node.new) }
    ensures open { (llsn : ℕ) → IsOpenLog p llsn media.old.log → OnOk result (IsOpenLog p llsn media.new.log) }
    ensures room { OnOk result (27 ≤ room_of media.new.log.tail) }
    ensures counts { Counts result (D.faults media.old.log.disk) (D.faults media.new.log.disk) }
    ensures tells { D.tells media.new.log.disk ≡ D.tells media.old.log.disk }
{
    if media.log.room() < COMMIT_ROOM {
        return media.force(shared, node, p);
    }
    Ok(())
}

impl Desk {
    /// Commits an open transaction of which nothing was put back, and answers its timestamp: the log has room for the record,
    /// or is forced; the slot shows that the commit has begun; the timestamp is drawn; the record is made and forced; and
    /// only then the slot shows the commit. It takes no memory. Refused only where the log's disk failed in this call.
    pub fn commit_trx<D: Disk>(
        &mut self,
        media: &mut Media<D>,
        shared: &Shared,
        node: &mut Node,
        p: u8,
        trx: Begun,
    ) -> Result<u64, CommitHalt>
        requires desk { IsAtDesk shared.now self.old p node.old }
        requires own { self.old.mtr.node ≡ p }
        requires open { ReadsIn p trx node.old }
        requires few { (q : CorePart) → part_in node.old.parts p ≡ Some q → length q.pages.made < MOST_MTRS }
        requires log { IsOpenLog p self.old.llsn media.old.log }
        requires agrees { MediaAgreeSomehow D.Disk media.old p node.old }
        ensures desk { IsAtDesk shared.now self.new p node.new }
        ensures own { self.new.mtr.node ≡ p }
        ensures locks { KeepsLocks p node.old node.new }
        ensures published { IfOk result (λ cts. Moves (IsPublished trx cts) p node.old node.new) }
        ensures stopped { IfErr result (StopsCommit p trx node.old node.new) }
        ensures later { MakesLater p node.old node.new }
        ensures above { (cts : ℕ) → stamp_of result ≡ Some cts → KnowsLess node.old p cts }
        ensures exact { (cts : ℕ) → stamp_of result ≡ Some cts → HoldsAll node.old → cts ≡ tso_of node.old + 1 }
        ensures forced { OnOk result (media.new.unforced ≡ false) }
        ensures open { OnOk result (IsOpenLog p self.new.llsn media.new.log) }
        ensures media { (work : Work) → MediaAgree D.Disk work 0 media.old p node.old
            → MediaAfterCommit D.Disk work p media.new node.new result }
        ensures counts { Counts result (D.faults media.old.log.disk) (D.faults media.new.log.disk) }
        ensures tells { D.tells media.new.log.disk ≡ D.tells media.old.log.disk }
    {
        if let Err(_failed) = room_for_commit(media, shared, node, p) {
            return Err(CommitHalt::Failed);
        }
        let cts = self.stamp(media, shared, node, p, trx);
        if let Err(_failed) = media.force(shared, node, p) {
            return Err(CommitHalt::Unknown(cts));
        }
        publish(shared, node, p, trx.id, cts);
        Ok(cts)
    }

    /// Says that the commit of an open transaction, of which nothing was put back, has begun, draws its timestamp and records
    /// the commit. The log has room.
    fn stamp<D: Disk>(
        &mut self,
        media: &mut Media<D>,
        shared: &Shared,
        node: &mut Node,
        p: u8,
        trx: Begun,
    ) -> u64
        requires desk { IsAtDesk shared.now self.old p node.old }
        requires own { self.old.mtr.node ≡ p }
        requires open { ReadsIn p trx node.old }
        requires few { (q : CorePart) → part_in node.old.parts p ≡ Some q → length q.pages.made < MOST_MTRS }
        requires log { IsOpenLog p self.old.llsn media.old.log }
        requires room { 27 ≤ room_of media.old.log.tail }
        ensures desk { IsAtDesk shared.now self.new p node.new }
        ensures own { self.new.mtr.node ≡ p }
        ensures locks { KeepsLocks p node.old node.new }
        ensures recorded { Moves (IsInTheBalance trx result) p node.old node.new }
        ensures later { MakesLater p node.old node.new }
        ensures above { KnowsLess node.old p result }
        ensures exact { HoldsAll node.old → result ≡ tso_of node.old + 1 }
        ensures open { IsOpenLog p self.new.llsn media.new.log }
        ensures media { (work : Work) → MediaAgree D.Disk work 0 media.old p node.old → MediaAgree D.Disk work 0 media.new p node.new }
        ensures disk { media.new.log.disk ≡ media.old.log.disk }
    {
        prepare(shared, node, p, trx.id);
        let cts = draw(shared, node, p, trx.id);
        self.record_commit(media, shared, node, p, trx.id, cts);
        cts
    }
}
