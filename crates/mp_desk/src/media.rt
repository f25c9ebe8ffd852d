//! A primary's log.
ghost use Rattle.std.specs.Prelude.{◌≡◌, ℕ, ◌<◌, ◌≤◌, true, false, length, OnOk, OnErr};
ghost use Rattle.mp_outside.specs.Disks.{Counts};
ghost use Rattle.mp_shared.specs.Nodes.{HoldsPart, Reached};
ghost use Rattle.mp_log.specs.Tails.{room_of};
ghost use Rattle.mp_supports.specs.Work.{Work};
ghost use Rattle.mp_desk.specs.declared.media.TheConstants.{MTR_ROOM};
ghost use Rattle.mp_desk.specs.declared.desk.Desk.{Desk};
ghost use Rattle.mp_desk.specs.Desks.{IsAtDesk, Moves};
ghost use Rattle.mp_desk.specs.Making.{IsOpenLog, MediaAgree, MediaAgreeSomehow, AllForced, SomeForced};

use mp_log::Log;
use mp_outside::{Disk, Failed};
use mp_shared::{Node, Shared};

/// The room, in bytes, in which any mtr can be appended to a log.
pub const MTR_ROOM: usize = 20_410;

/// The log, and whether mtrs were appended since it was last forced.
#[derive(Drop)]
pub struct Media<D: Disk> {
    pub log: Log<D>,
    pub unforced: bool,
}

impl<D: Disk> Media<D> {
    /// Makes durable what was appended, and says so. It is refused only where something was, and the log's disk failed in this
    /// call; the log is closed then, and no step was taken.
    pub fn force(&mut self, shared: &Shared, node: &mut Node, p: u8) -> Result<(), Failed>
        requires run { node.old.run ≡ shared.now }
        requires reached { Reached node.old }
        requires part { HoldsPart node.old p }
        requires log { (llsn : ℕ) × IsOpenLog p llsn self.old.log }
        requires agrees { MediaAgreeSomehow D.Disk self.old p node.old }
        ensures forced { OnOk result (Moves AllForced p node.old node.new) }
        ensures desk { (desk : Desk) → IsAtDesk shared.now desk p node.old → IsAtDesk shared.now desk p node.new }
        ensures reached { Reached node.new }
        ensures refused { OnErr result (node.new ≡ node.old) }
        ensures agrees { (work : Work) → MediaAgree D.Disk work 0 self.old p node.old
            → OnOk result (MediaAgree D.Disk work 0 self.new p node.new) × OnErr result (MediaAgree D.Disk work p self.new p node.new) }
        ensures appended { OnErr result (self.old.unforced ≡ true) }
        ensures unforced { OnOk result (self.new.unforced ≡ false) }
        ensures open { (llsn : ℕ) → IsOpenLog p llsn self.old.log → OnOk result (IsOpenLog p llsn self.new.log) }
        ensures closed { OnErr result (self.new.log.tail.live ≡ false) }
        ensures last { self.new.log.tail.last ≡ self.old.log.tail.last }
        ensures room { OnOk result (MTR_ROOM ≤ room_of self.new.log.tail) }
        ensures counts { Counts result (D.faults self.old.log.disk) (D.faults self.new.log.disk) }
        ensures tells { D.tells self.new.log.disk ≡ D.tells self.old.log.disk }
    {
        if !self.unforced {
            return Ok(());
        }
        self.log.force()?;
        self.unforced = false;
        shared.store_durable(node, p, self.log.last());
        Ok(())
    }

    /// Has room for any mtr: forces the log where it has less. Refused as `force` is.
    pub fn make_room(&mut self, shared: &Shared, node: &mut Node, p: u8) -> Result<(), Failed>
        requires run { node.old.run ≡ shared.now }
        requires reached { Reached node.old }
        requires part { HoldsPart node.old p }
        requires log { (llsn : ℕ) × IsOpenLog p llsn self.old.log }
        requires agrees { MediaAgreeSomehow D.Disk self.old p node.old }
        ensures forced { OnOk result (Moves SomeForced p node.old node.new) }
        ensures desk { (desk : Desk) → IsAtDesk shared.now desk p node.old → IsAtDesk shared.now desk p node.new }
        ensures reached { Reached node.new }
        ensures refused { OnErr result (node.new ≡ node.old) }
        ensures agrees { (work : Work) → MediaAgree D.Disk work 0 self.old p node.old
            → OnOk result (MediaAgree D.Disk work 0 self.new p node.new) × OnErr result (MediaAgree D.Disk work p self.new p node.new) }
        ensures open { (llsn : ℕ) → IsOpenLog p llsn self.old.log → OnOk result (IsOpenLog p llsn self.new.log) }
        ensures closed { OnErr result (self.new.log.tail.live ≡ false) }
        ensures room { OnOk result (MTR_ROOM ≤ room_of self.new.log.tail) }
        ensures counts { Counts result (D.faults self.old.log.disk) (D.faults self.new.log.disk) }
        ensures tells { D.tells self.new.log.disk ≡ D.tells self.old.log.disk }
    {
        if self.log.room() < MTR_ROOM {
            return self.force(shared, node, p);
        }
        Ok(())
    }
}
