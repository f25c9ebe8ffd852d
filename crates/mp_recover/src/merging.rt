//! The merge of eight logs, over lanes and disks that are passed to it.

ghost use Rattle.std.specs.Prelude.{◌≡◌, ◌≢◌, ℕ, ◌+◌, ◌<◌, List, Some, None, length, slice_get, IfOk, IfErr, IfSome};
ghost use Rattle.mp_cells.specs.declared.records.Mtr.{Mtr};
ghost use Rattle.mp_cells.specs.Mtrs.{IsMtr};
ghost use Rattle.mp_files.specs.Nine.{At, seen_at, EachTells, KeptLogs};
ghost use Rattle.mp_recover.specs.declared.lanes.Lane.{Lane};
ghost use Rattle.mp_recover.specs.Merging.{LaneSound, LaneGoes, EachLane, DidFill, LanesLeft, refused_as, MergeCause, AllFill, IsLeast, Merges, GivesMerged, AreFresh};

use crate::lanes::Lane;
use crate::refusals::RecoverRefusal;
use mp_cells::Mtr;
use mp_log::LogRefusal;
use mp_model::Memory;
use mp_outside::Disk;
use std::alloc::Global;

/// The refusal of a primary's log among the others.
pub(crate) fn refused_as(primary: u8, refusal: LogRefusal) -> RecoverRefusal
    ensures { result ≡ refused_as primary refusal }
{
    match refusal {
        LogRefusal::Fault { place } => RecoverRefusal::Log { primary, place },
        LogRefusal::Disk => RecoverRefusal::LogDisk { primary },
        LogRefusal::Memory => RecoverRefusal::Memory,
    }
}

/// The lanes of the eight logs, before anything was read.
pub(crate) fn new_lanes(alloc: Global) -> Result<Vec<Lane>, Memory>
    ensures count { IfOk result (λ lanes. length lanes.items ≡ 8) }
    ensures fresh { IfOk result (λ lanes. AreFresh lanes.items) }
{
    let mut lanes = Vec::new(alloc);
    for place in 0..8u8 {
        let lane = Lane::new(alloc, place + 1)?;
        lanes.push(lane)?;
    }
    Ok(lanes)
}

// Fills the lane at a place from its log.
fn fill_at<D: Disk>(
    lanes: &mut Vec<Lane>,
    logs: &mut Vec<D>,
    place: usize,
) -> Result<(), LogRefusal>
    requires lane { place < length lanes.old.items }
    requires log { place < length logs.old.items }
    ensures lanes { length lanes.new.items ≡ length lanes.old.items }
    ensures logs { length logs.new.items ≡ length logs.old.items }
    ensures others { (k : ℕ) → k ≢ place → slice_get lanes.new.items k ≡ slice_get lanes.old.items k }
    ensures other_logs { (k : ℕ) → k ≢ place → slice_get logs.new.items k ≡ slice_get logs.old.items k }
    ensures did { At (λ old new. At (DidFill D.Disk result old new) logs.old.items logs.new.items place) lanes.old.items lanes.new.items place }
{
    lanes[place].fill(&mut logs[place])
}

/// Has the next mtr of each log in hand, where it has one. It is refused for the first log, from primary 1 on, where
/// nothing is left but a fault.
pub(crate) fn fill_all<D: Disk>(
    lanes: &mut Vec<Lane>,
    logs: &mut Vec<D>,
) -> Result<(), RecoverRefusal>
    requires lanes { length lanes.old.items ≡ 8 }
    requires logs { length logs.old.items ≡ 8 }
    requires sound { EachLane LaneSound lanes.old.items }
    ensures lanes { length lanes.new.items ≡ 8 }
    ensures kept { KeptLogs D.Disk logs.old.items logs.new.items }
    ensures fills { (lefts : ℕ → List Mtr) → EachTells D.Disk logs.old.items
        → LanesLeft lanes.old.items (seen_at D.Disk logs.old.items) lefts
        → AllFill (seen_at D.Disk logs.old.items) lefts lanes.new.items result }
    ensures sound { EachLane LaneSound lanes.new.items }
    ensures goes { EachLane LaneGoes lanes.old.items → IfOk result (λ _. EachLane LaneGoes lanes.new.items) }
    ensures cause { EachLane LaneGoes lanes.old.items → IfErr result (MergeCause D.Disk logs.old.items logs.new.items) }
{
    for place in 0..8usize {
        match fill_at(lanes, logs, place) {
            Ok(()) => (),
            Err(refusal) => return Err(refused_as(place as u8 + 1, refusal)),
        }
    }
    Ok(())
}

// The place of the lane whose head is the first in the order of logs; the first such place.
fn least(lanes: &Vec<Lane>) -> usize
    requires some { length lanes.now.items ≡ 8 }
    requires sound { EachLane LaneSound lanes.now.items }
    ensures bound { result < 8 }
    ensures least { IsLeast 8 lanes.now.items result }
{
    let mut found = 0;
    for place in 1..8usize {
        if lanes[place].is_before(&lanes[found]) {
            found = place;
        }
    }
    found
}

// Takes the head of the lane at a place.
fn take_at(lanes: &mut Vec<Lane>, place: usize) -> Option<Mtr>
    requires { place < length lanes.old.items }
    ensures lanes { length lanes.new.items ≡ length lanes.old.items }
    ensures others { (k : ℕ) → k ≢ place → slice_get lanes.new.items k ≡ slice_get lanes.old.items k }
    ensures took { (lane : Lane) → slice_get lanes.old.items place ≡ Some lane
        → (result ≡ lane.head) × (slice_get lanes.new.items place ≡ Some (record lane { head = None })) }
{
    lanes[place].head.take()
}

/// The next mtr of all logs, by LLSN and among equal ones by primary.
pub(crate) fn next_of<D: Disk>(
    lanes: &mut Vec<Lane>,
    logs: &mut Vec<D>,
) -> Result<Option<Mtr>, RecoverRefusal>
    requires lanes { length lanes.old.items ≡ 8 }
    requires logs { length logs.old.items ≡ 8 }
    requires sound { EachLane LaneSound lanes.old.items }
    ensures lanes { length lanes.new.items ≡ 8 }
    ensures kept { KeptLogs D.Disk logs.old.items logs.new.items }
    ensures gives { (mtrs : List Mtr) → EachTells D.Disk logs.old.items
        → Merges lanes.old.items (seen_at D.Disk logs.old.items) mtrs
        → GivesMerged (seen_at D.Disk logs.old.items) mtrs lanes.new.items result }
    ensures is_mtr { IfOk result (λ next. IfSome next (λ mtr. IsMtr mtr)) }
    ensures sound { EachLane LaneSound lanes.new.items }
    ensures goes { EachLane LaneGoes lanes.old.items → IfOk result (λ _. EachLane LaneGoes lanes.new.items) }
    ensures cause { EachLane LaneGoes lanes.old.items → IfErr result (MergeCause D.Disk logs.old.items logs.new.items) }
{
    match fill_all(lanes, logs) {
        Ok(()) => (),
        Err(refusal) => return Err(refusal),
    }
    let place = least(lanes);
    Ok(take_at(lanes, place))
}
