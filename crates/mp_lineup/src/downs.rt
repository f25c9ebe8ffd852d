//! Which primaries are down.
ghost use Rattle.std.specs.Prelude.{◌≡◌, ℕ, ◌+◌, length, slice_get, Some, IfOk};
ghost use Rattle.mp_script.specs.DownLines.{down_lines};
ghost use Rattle.mp_primary.specs.Primaries.{PrimaryView};
ghost use Rattle.mp_members.specs.Running.{downs_of};

use mp_model::{Down, Downs, Memory};
use mp_outside::Disk;
use mp_primary::Primary;
use std::alloc::Global;

/// The `down` lines of primaries, of whom that of number n stands at place n - 1: in ascending number a line for each that is
/// down, with the number with which it is. `Memory` only for want of memory.
pub fn list_downs<D: Disk>(alloc: Global, primaries: &[Primary<D>]) -> Result<Downs, Memory>
    requires { (place : ℕ) (pr : PrimaryView D) → slice_get primaries.now place ≡ Some pr → pr.number ≡ place + 1 }
    ensures { IfOk result (λ downs. downs.items ≡ down_lines (downs_of primaries.now) 1 (length primaries.now)) }
{
    let mut downs = Downs::new(alloc);
    for primary in primaries {
        let by = primary.down();
        if by != 0 {
            let primary = primary.number();
            downs.push(Down { primary, by })?;
        }
    }
    Ok(downs)
}
