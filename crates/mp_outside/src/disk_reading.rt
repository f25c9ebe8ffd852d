//! Reading a disk at a place.

ghost use Rattle.std.specs.Prelude.{◌≡◌, ◌+◌, ◌<◌, ◌≤◌, ◌^◌, IsTrue, Some, length, take, drop, slice_get, IfOk, OnOk, OnErr};
ghost use Rattle.mp_outside.specs.Faults.{Rose};
ghost use Rattle.mp_outside.specs.Disks.{Quiet};

use crate::disks::Disk;
use crate::errors::Failed;

/// Fills a slice with the bytes from a place on. It is refused where a read fails or where the file ends before: where
/// it was known to be long enough, its count of faults rose. What the slice holds then isn't said.
pub fn read_exactly<D: Disk>(disk: &mut D, place: u64, into: &mut [u8]) -> Result<(), Failed>
    requires { place + length into.old < 2 ^ 64 }
    ensures tells { D.tells disk.new ≡ D.tells disk.old }
    ensures quiet { Quiet (D.seen disk.old) (D.image disk.old) (D.seen disk.new) (D.image disk.new) }
    ensures bytes { IsTrue (D.tells disk.old)
        → OnOk result (into.new ≡ take (length into.old) (drop place (D.seen disk.old))) }
    ensures known { D.known disk.new ≡ D.known disk.old }
    ensures count { D.faults disk.old ≤ D.faults disk.new }
    ensures cause { place + length into.old ≤ D.known disk.old
        → OnErr result (Rose (D.faults disk.old) (D.faults disk.new)) }
{
    let mut filled = 0;
    'pieces: while filled < into.len() {
        let count = disk.read(place + filled as u64, &mut into[filled..])?;
        if count == 0 {
            return Err(Failed);
        }
        filled += count;
    }
    Ok(())
}

/// The byte at a place. It is refused as `read_exactly` is.
pub fn byte_at<D: Disk>(disk: &mut D, place: u64) -> Result<u8, Failed>
    requires { place + 1 < 2 ^ 64 }
    ensures tells { D.tells disk.new ≡ D.tells disk.old }
    ensures quiet { Quiet (D.seen disk.old) (D.image disk.old) (D.seen disk.new) (D.image disk.new) }
    ensures byte { IsTrue (D.tells disk.old)
        → IfOk result (λ byte. slice_get (D.seen disk.old) place ≡ Some byte) }
    ensures known { D.known disk.new ≡ D.known disk.old }
    ensures count { D.faults disk.old ≤ D.faults disk.new }
    ensures cause { place < D.known disk.old → OnErr result (Rose (D.faults disk.old) (D.faults disk.new)) }
{
    let mut byte = [0];
    read_exactly(disk, place, &mut byte)?;
    Ok(byte[0])
}
