//! Fresh stores.

ghost use Rattle.std.specs.Prelude.{◌≡◌, ◌≢◌, ℕ, ◌+◌, ◌<◌, ◌≤◌, OnOk, OnErr, IfErr, length, slice_get};
ghost use Rattle.mp_files.specs.Nine.{At, StillDisk, StillNine, RoseAt};
ghost use Rattle.mp_commands.specs.Fresh.{MadeLog, MadeBelow, Made, LogAtFault, Explains};

use crate::faults::DiskFault;
use mp_files::Disks;
use mp_outside::{Disk, Failed};

/// Makes a fresh store and its fresh logs (8 at most), the logs first. It is refused at the first disk that fails,
/// whose count of faults rose: a log of its number, and then the store wasn't touched, or the store. After a refusal
/// all disks are there, nothing is promised of those that were begun, and they can be initialised again. It takes no
/// memory. `docs/formats.md` has what a fresh store and a fresh log are.
pub fn init<D: Disk>(disks: &mut Disks<D>) -> Result<(), DiskFault>
    requires { length disks.old.logs.items ≤ 8 }
    ensures made { OnOk result (Made D.Disk disks.old disks.new) }
    ensures still { StillNine D.Disk disks.old disks.new }
    ensures cause { IfErr result (λ fault. Explains D.Disk fault disks.old disks.new) }
{
    make_logs(&mut disks.logs)?;
    match mp_store::init(&mut disks.store) {
        Ok(()) => Ok(()),
        Err(Failed) => Err(DiskFault::Store),
    }
}

// Makes the logs in turn.
fn make_logs<D: Disk>(logs: &mut Vec<D>) -> Result<(), DiskFault>
    requires { length logs.old.items ≤ 8 }
    ensures made { OnOk result (MadeBelow D.Disk (length logs.old.items) logs.old.items logs.new.items) }
    ensures count { length logs.new.items ≡ length logs.old.items }
    ensures still { (k : ℕ) → At (StillDisk D.Disk) logs.old.items logs.new.items k }
    ensures cause { IfErr result (λ fault. LogAtFault D.Disk fault logs.old.items logs.new.items) }
{
    for before in 0..logs.len() {
        if make_log(logs, before).is_err() {
            return Err(DiskFault::Log {
                primary: before as u8 + 1,
            });
        }
    }
    Ok(())
}

// Makes one of the logs.
fn make_log<D: Disk>(logs: &mut Vec<D>, place: usize) -> Result<(), Failed>
    requires { place < length logs.old.items }
    ensures count { length logs.new.items ≡ length logs.old.items }
    ensures others { (k : ℕ) → k ≢ place → slice_get logs.new.items k ≡ slice_get logs.old.items k }
    ensures still { At (StillDisk D.Disk) logs.old.items logs.new.items place }
    ensures made { OnOk result (At (MadeLog D.Disk) logs.old.items logs.new.items place) }
    ensures cause { OnErr result (RoseAt D.Disk place logs.old.items logs.new.items) }
{
    mp_log::init(&mut logs[place])
}
