//! Emptying a log, and making a fresh one.

ghost use Rattle.std.specs.Prelude.{◌≡◌, ◌≢◌, ◌≤◌, List, [], ◌∷◌, length, slice_get, is_some, if◌then◌else◌, IsTrue, IfOk, OnOk};
ghost use Rattle.mp_outside.specs.Disks.{Quiet, Only, Counts};
ghost use Rattle.mp_gated.specs.Gates.{calls_after, CallsMade};
ghost use Rattle.mp_cells.specs.declared.records.Mtr.{Mtr};
ghost use Rattle.mp_log.specs.Logs.{IsText, HoldsOnly, HoldsEither, is_open_gate, is_closed_gate, reset_calls};

use crate::batches::OPEN;
use mp_gated::write_safely;
use mp_outside::{Disk, Failed};

/// The byte of a closed gate that a log writes.
const CLOSED: u8 = 0;

/// Empties a log, whatever its file holds: closes its first gate, unless it is closed, syncs, cuts the file to that gate,
/// and syncs. It is refused where one of these calls or a read is. A gate that is closed isn't written, since a crash
/// could leave it open. It makes six calls of the disk where the gate was open, else five.
pub fn reset<D: Disk>(disk: &mut D) -> Result<(), Failed>
    ensures tells { D.tells disk.new ≡ D.tells disk.old }
    // After Ok the log is a closed gate alone, and a crash leaves it.
    ensures one { IsTrue (D.tells disk.old) → OnOk result (length (D.seen disk.new) ≡ 1) }
    ensures safe { IsTrue (D.tells disk.old) → OnOk result (Only (D.seen disk.new) (D.image disk.new)) }
    ensures reads { IsTrue (D.tells disk.old) → OnOk result (IsText [] (D.seen disk.new)) }
    ensures emptied { IsTrue (D.tells disk.old) → OnOk result (HoldsOnly [] (D.image disk.new)) }
    // Whatever it answers, each image of a log holds its batches or none.
    ensures either { (batches : List (List Mtr)) → IsTrue (D.tells disk.old) → HoldsOnly batches (D.image disk.old) → HoldsEither batches [] (D.image disk.new) }
    ensures counts { Counts result (D.faults disk.old) (D.faults disk.new) }
    ensures calls { CallsMade 6 (D.calls disk.old) (D.calls disk.new) }
    ensures least { OnOk result (calls_after 5 (D.calls disk.old) ≤ D.calls disk.new) }
    ensures all { IsTrue (D.tells disk.old) → OnOk result (D.calls disk.new ≡ calls_after (reset_calls (D.seen disk.old)) (D.calls disk.old)) }
{
    close_first(disk)?;
    cut_behind_first(disk)
}

/// Makes a fresh log, whatever the file holds: the one byte 00, by three calls. It is refused where one of them is, and
/// then nothing is promised of the file: it is made again.
pub fn init<D: Disk>(disk: &mut D) -> Result<(), Failed>
    ensures tells { D.tells disk.new ≡ D.tells disk.old }
    ensures fresh { IsTrue (D.tells disk.old) → OnOk result (D.seen disk.new ≡ 0 ∷ []) }
    ensures safe { IsTrue (D.tells disk.old) → OnOk result (Only (D.seen disk.new) (D.image disk.new)) }
    ensures counts { Counts result (D.faults disk.old) (D.faults disk.new) }
    ensures calls { CallsMade 3 (D.calls disk.old) (D.calls disk.new) }
    ensures all { OnOk result (D.calls disk.new ≡ calls_after 3 (D.calls disk.old)) }
{
    disk.cut(0)?;
    write_safely(disk, 0, &[CLOSED])
}

// The first byte of the file, where it has one.
fn first_byte<D: Disk>(disk: &mut D) -> Result<Option<u8>, Failed>
    ensures tells { D.tells disk.new ≡ D.tells disk.old }
    ensures quiet { Quiet (D.seen disk.old) (D.image disk.old) (D.seen disk.new) (D.image disk.new) }
    ensures byte { IsTrue (D.tells disk.old) → IfOk result (λ first. slice_get (D.seen disk.old) 0 ≡ first) }
    ensures counts { Counts result (D.faults disk.old) (D.faults disk.new) }
    ensures calls { CallsMade 2 (D.calls disk.old) (D.calls disk.new) }
    ensures all { IfOk result (λ first. D.calls disk.new ≡ calls_after (if is_some first then 2 else 1) (D.calls disk.old)) }
{
    if disk.length()? == 0 {
        return Ok(None);
    }
    let mut first = [0];
    if disk.read(0, &mut first)? == 0 {
        return Err(Failed);
    }
    Ok(Some(first[0]))
}

// Whether there is a first byte, and it is no open gate.
fn is_closed(first: Option<u8>) -> bool
    ensures { result ≡ is_closed_gate first }
{
    match first {
        Some(gate) => gate != OPEN,
        None => false,
    }
}

// Makes the first byte a closed gate, where it is none.
fn close_first<D: Disk>(disk: &mut D) -> Result<(), Failed>
    ensures tells { D.tells disk.new ≡ D.tells disk.old }
    ensures closed { IsTrue (D.tells disk.old) → OnOk result (IsText [] (D.seen disk.new)) }
    ensures either { (batches : List (List Mtr)) → IsTrue (D.tells disk.old) → HoldsOnly batches (D.image disk.old) → HoldsEither batches [] (D.image disk.new) }
    ensures counts { Counts result (D.faults disk.old) (D.faults disk.new) }
    ensures calls { CallsMade 3 (D.calls disk.old) (D.calls disk.new) }
    ensures least { OnOk result (calls_after 2 (D.calls disk.old) ≤ D.calls disk.new) }
    ensures all { IsTrue (D.tells disk.old) → OnOk result (D.calls disk.new ≡ calls_after (if is_open_gate (slice_get (D.seen disk.old) 0) then 3 else 2) (D.calls disk.old)) }
{
    if is_closed(first_byte(disk)?) {
        return Ok(());
    }
    disk.write_at(0, &[CLOSED])
}

// Makes the first byte safe, cuts the file behind it, and makes that safe.
fn cut_behind_first<D: Disk>(disk: &mut D) -> Result<(), Failed>
    ensures tells { D.tells disk.new ≡ D.tells disk.old }
    ensures one { IsTrue (D.tells disk.old) → IsText [] (D.seen disk.old) → OnOk result (length (D.seen disk.new) ≡ 1) }
    ensures safe { IsTrue (D.tells disk.old) → OnOk result (Only (D.seen disk.new) (D.image disk.new)) }
    ensures reads { IsTrue (D.tells disk.old) → IsText [] (D.seen disk.old) → OnOk result (IsText [] (D.seen disk.new)) }
    ensures emptied { IsTrue (D.tells disk.old) → IsText [] (D.seen disk.old) → OnOk result (HoldsOnly [] (D.image disk.new)) }
    ensures either { (batches : List (List Mtr)) → IsTrue (D.tells disk.old) → IsText [] (D.seen disk.old) → HoldsEither batches [] (D.image disk.old) → HoldsEither batches [] (D.image disk.new) }
    ensures counts { Counts result (D.faults disk.old) (D.faults disk.new) }
    ensures calls { CallsMade 3 (D.calls disk.old) (D.calls disk.new) }
    ensures all { OnOk result (D.calls disk.new ≡ calls_after 3 (D.calls disk.old)) }
{
    disk.sync()?;
    disk.cut(1)?;
    disk.sync()
}
