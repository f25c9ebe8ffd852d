//! Making safe what logs hold.

ghost use Rattle.std.specs.Prelude.{◌≡◌, ◌≢◌, ℕ, ◌+◌, ◌<◌, ◌≤◌, length, slice_get, OnOk, OnErr, IfErr};
ghost use Rattle.mp_files.specs.Nine.{At, KeptDisk, KeptLogs, RoseAt, RoseOf};
ghost use Rattle.mp_checkpoint.specs.Emptying.{IsSynced, SyncedBelow};

use crate::emptying::LogFailed;
use mp_outside::{Disk, Failed};

/// Syncs the disks of eight logs, from primary 1 on. After Ok a crash leaves of each what a read gives. It is refused for
/// the first whose sync failed, and whose count of faults rose. The disks keep what they hold.
pub fn sync_logs<D: Disk>(logs: &mut Vec<D>) -> Result<(), LogFailed>
    requires { length logs.old.items ≡ 8 }
    ensures kept { KeptLogs D.Disk logs.old.items logs.new.items }
    ensures synced { OnOk result (SyncedBelow D.Disk 8 logs.old.items logs.new.items) }
    ensures cause { IfErr result (λ failed. RoseOf D.Disk failed.primary logs.old.items logs.new.items) }
{
    for place in 0..8usize {
        if sync_at(logs, place).is_err() {
            return Err(LogFailed {
                primary: place as u8 + 1,
            });
        }
    }
    Ok(())
}

// Syncs the disk at a place.
fn sync_at<D: Disk>(logs: &mut Vec<D>, place: usize) -> Result<(), Failed>
    requires { place < length logs.old.items }
    ensures count { length logs.new.items ≡ length logs.old.items }
    ensures others { (k : ℕ) → k ≢ place → slice_get logs.new.items k ≡ slice_get logs.old.items k }
    ensures kept { At (KeptDisk D.Disk) logs.old.items logs.new.items place }
    ensures synced { OnOk result (At (λ old new. IsSynced D.Disk new) logs.old.items logs.new.items place) }
    ensures cause { OnErr result (RoseAt D.Disk place logs.old.items logs.new.items) }
{
    logs[place].sync()
}
