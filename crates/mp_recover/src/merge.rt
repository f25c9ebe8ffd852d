//! The merge of the logs of nine disks.

ghost use Rattle.std.specs.Prelude.{◌≡◌, ℕ, ◌<◌, List, length, IfOk, IfErr, IfSome};
ghost use Rattle.std.specs.Borrow.{sem, RestsIfErr};
ghost use Rattle.mp_cells.specs.declared.records.Mtr.{Mtr};
ghost use Rattle.mp_cells.specs.Mtrs.{IsMtr};
ghost use Rattle.mp_files.specs.Nine.{seen_at, EachTells, KeptLogs};
ghost use Rattle.mp_files.specs.contracts.disks.Disks.{the_row};
ghost use Rattle.mp_recover.specs.Merging.{LaneSound, LaneGoes, EachLane, MergeCause, Merges, GivesMerged, AreFresh};

use crate::lanes::Lane;
use crate::merging::{new_lanes, next_of};
use crate::refusals::RecoverRefusal;
use mp_cells::Mtr;
use mp_files::Disks;
use mp_model::Memory;
use mp_outside::Disk;
use std::alloc::Global;
use std::marker::Model;

/// The readers of eight logs, each with the next mtr in hand or none yet. It is seen as the list of these.
#[derive(Debug, Drop)]
pub struct Fronts {
    lanes: Vec<Lane>,
}

impl Model for Fronts {
    ghost use Rattle.std.specs.Prelude.{◌≡◌, List, length};
    ghost use Rattle.mp_recover.specs.declared.lanes.Lane.{Lane};
    ghost use Rattle.mp_recover.specs.Merging.{LaneSound, EachLane};

    ghost Value = { List Lane };

    ghost view = { λ f. f.lanes.items };

    ghost invariant = { λ f. (length f.lanes.items ≡ 8) × EachLane LaneSound f.lanes.items };
}

/// Nine disks that are borrowed, and what is kept beside them.
pub struct Beside<'a, D: Disk, F> {
    disks: &'a mut Disks<D>,
    fronts: F,
    ghost logs: { length disks.now.logs.items ≡ 8 },
}

/// A merge of the logs of nine disks, which it borrows. It holds at most one batch of each log, and one mtr.
pub type Merge<'a, D> = Beside<'a, D, Fronts>;

impl<D: Disk, F: Drop> Drop for Beside<'_, D, F> {
    fn drop(self)
        ensures rests { self.exit.0.now ≡ self.entry.disks.now }
    {
        let Beside { disks: _, fronts } = self;
        drop(fronts);
    }
}

/// The readers, before anything was read.
pub(crate) fn new_fronts(alloc: Global) -> Result<Fronts, Memory>
    ensures fresh { IfOk result (λ fronts. AreFresh fronts) }
{
    Ok(Fronts {
        lanes: new_lanes(alloc)?,
    })
}

/// The next mtr of the logs of disks.
pub(crate) fn next_front<D: Disk>(
    fronts: &mut Fronts,
    disks: &mut Disks<D>,
) -> Result<Option<Mtr>, RecoverRefusal>
    requires logs { length disks.old.logs.items ≡ 8 }
    ensures store { disks.new.store ≡ disks.old.store }
    ensures kept { KeptLogs D.Disk disks.old.logs.items disks.new.logs.items }
    ensures gives { (mtrs : List Mtr) → EachTells D.Disk disks.old.logs.items
        → Merges fronts.old (seen_at D.Disk disks.old.logs.items) mtrs
        → GivesMerged (seen_at D.Disk disks.old.logs.items) mtrs fronts.new result }
    ensures is_mtr { IfOk result (λ next. IfSome next (λ mtr. IsMtr mtr)) }
    ensures goes { EachLane LaneGoes fronts.old → IfOk result (λ _. EachLane LaneGoes fronts.new) }
    ensures cause { EachLane LaneGoes fronts.old
        → IfErr result (MergeCause D.Disk disks.old.logs.items disks.new.logs.items) }
{
    next_of(&mut fronts.lanes, &mut disks.logs)
}

impl<'a, D: Disk> Beside<'a, D, Fronts> {
    /// Begins to merge the logs of disks, of which there are eight. Nothing is read yet. Where there is no memory, the
    /// disks are as they were.
    pub fn new(disks: &'a mut Disks<D>, alloc: Global) -> Result<Merge<'a, D>, Memory>
        requires { length disks.old.logs.items ≡ 8 }
        ensures* rests { sem 𝓛 (RestsIfErr (the_row D.row) disks.entry (λ merge. merge.disks.ghost_name) result (λ new. new ≡ disks.old)) }
        ensures same { IfOk result (λ merge. merge.disks.now ≡ disks.old) }
        ensures fresh { IfOk result (λ merge. AreFresh merge.fronts) }
    {
        let fronts = new_fronts(alloc)?;
        Ok(Beside { disks, fronts })
    }

    /// The next mtr of all logs, by LLSN and among equal ones by primary; none behind the last. `Log` comes only for a
    /// log that is off the grammar, at its first fault; `LogDisk` only where that disk's count of faults rose;
    /// `Memory`; and no other refusal. After a refusal the merge isn't used again. The disks are read, and keep what
    /// they hold.
    pub fn next(&mut self) -> Result<Option<Mtr>, RecoverRefusal>
        ensures same_reference { self.new.disks.ghost_name ≡ self.old.disks.ghost_name }
        ensures store { self.new.disks.now.store ≡ self.old.disks.now.store }
        ensures kept { KeptLogs D.Disk self.old.disks.now.logs.items self.new.disks.now.logs.items }
        ensures gives { (mtrs : List Mtr) → EachTells D.Disk self.old.disks.now.logs.items
            → Merges self.old.fronts (seen_at D.Disk self.old.disks.now.logs.items) mtrs
            → GivesMerged (seen_at D.Disk self.old.disks.now.logs.items) mtrs self.new.fronts result }
        ensures is_mtr { IfOk result (λ next. IfSome next (λ mtr. IsMtr mtr)) }
        ensures goes { EachLane LaneGoes self.old.fronts → IfOk result (λ _. EachLane LaneGoes self.new.fronts) }
        ensures cause { EachLane LaneGoes self.old.fronts
            → IfErr result (MergeCause D.Disk self.old.disks.now.logs.items self.new.disks.now.logs.items) }
    {
        next_front(&mut self.fronts, self.disks)
    }
}
