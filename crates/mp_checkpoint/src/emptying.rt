//! Emptying logs.

ghost use Rattle.std.specs.Prelude.{◌≡◌, ◌≢◌, ℕ, ◌+◌, ◌<◌, ◌≤◌, length, slice_get, OnOk, OnErr, IfErr};
ghost use Rattle.mp_files.specs.Nine.{At, RoseAt, RoseOf};
ghost use Rattle.mp_checkpoint.specs.Emptying.{MayEmpty, DidEmpty, EmptiedBelow};

use mp_log::reset;
use mp_outside::{Disk, Failed};

/// The disk of the log of this primary (1 to 8) failed.
#[derive(Clone, Copy, Debug, PartialEq, Eq)]
pub struct LogFailed {
    pub primary: u8,
}

/// Empties eight logs, from primary 1 on. After Ok a crash leaves of each a log without batches. It is refused for the
/// first whose disk failed, and whose count of faults rose: those before it are empty then, those behind it as they
/// were, and a crash leaves of the refused one its batches or none.
pub fn reset_logs<D: Disk>(logs: &mut Vec<D>) -> Result<(), LogFailed>
    requires { length logs.old.items ≡ 8 }
    ensures count { length logs.new.items ≡ length logs.old.items }
    ensures left { (k : ℕ) → At (MayEmpty D.Disk) logs.old.items logs.new.items k }
    ensures emptied { OnOk result ((k : ℕ) → At (DidEmpty D.Disk) logs.old.items logs.new.items k) }
    ensures cause { IfErr result (λ failed. RoseOf D.Disk failed.primary logs.old.items logs.new.items) }
{
    for place in 0..8usize {
        if reset_at(logs, place).is_err() {
            return Err(LogFailed {
                primary: place as u8 + 1,
            });
        }
    }
    Ok(())
}

// Empties the log at a place.
fn reset_at<D: Disk>(logs: &mut Vec<D>, place: usize) -> Result<(), Failed>
    requires { place < length logs.old.items }
    ensures count { length logs.new.items ≡ length logs.old.items }
    ensures others { (k : ℕ) → k ≢ place → slice_get logs.new.items k ≡ slice_get logs.old.items k }
    ensures may { At (MayEmpty D.Disk) logs.old.items logs.new.items place }
    ensures did { OnOk result (At (DidEmpty D.Disk) logs.old.items logs.new.items place) }
    ensures cause { OnErr result (RoseAt D.Disk place logs.old.items logs.new.items) }
{
    reset(&mut logs[place])
}
