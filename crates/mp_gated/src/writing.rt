//! Writing behind a gate.

ghost use Rattle.std.specs.Prelude.{◌≡◌, ◌⊎◌, ◌+◌, ◌-◌, ◌<◌, ◌≤◌, ◌^◌, IsTrue, ◌∷◌, [], length, OnOk, OnErr};
ghost use Rattle.mp_outside.specs.Disks.{written, first_changed, Torn, Follows, Only, Counts};
ghost use Rattle.mp_gated.specs.Gates.{calls_after, CallsMade, BodyTorn, GateTorn, gated, Gating};

use mp_outside::{Disk, Failed};

/// The byte of an open gate. Any other byte is a closed one.
const OPEN: u8 = 165;

/// Writes bytes at a place and makes them safe, by two calls, the second only after the first answered Ok. It is
/// refused where one of them is; until then a crash may leave any bytes in the range that was written.
pub fn write_safely<D: Disk>(disk: &mut D, place: u64, bytes: &[u8]) -> Result<(), Failed>
    requires { 0 < length bytes.now }
    ensures tells { D.tells disk.new ≡ D.tells disk.old }
    ensures bounded { OnOk result (place + length bytes.now < 2 ^ 63) }
    ensures written { IsTrue (D.tells disk.old) → OnOk result (D.seen disk.new ≡ written place bytes.now (D.seen disk.old)) }
    ensures safe { IsTrue (D.tells disk.old) → OnOk result (Only (written place bytes.now (D.seen disk.old)) (D.image disk.new)) }
    ensures in_part { IsTrue (D.tells disk.old)
        → Torn (first_changed place (D.seen disk.old)) (place + length bytes.now) (D.seen disk.old) (D.seen disk.new) }
    ensures images { IsTrue (D.tells disk.old) → Follows
        (Torn (first_changed place (D.seen disk.old)) (place + length bytes.now)) (D.image disk.old) (D.image disk.new) }
    ensures known { D.known disk.old ≤ D.known disk.new }
    ensures counts { Counts result (D.faults disk.old) (D.faults disk.new) }
    ensures calls { CallsMade 2 (D.calls disk.old) (D.calls disk.new) }
    ensures both { OnOk result (D.calls disk.new ≡ calls_after 2 (D.calls disk.old)) }
{
    disk.write_at(place, bytes)?;
    disk.sync()
}

/// Writes a body right behind its gate, makes it safe, and only then writes the open gate and makes that safe: four
/// calls, each only after the one before answered Ok. It is refused where one of them is. Where fewer than three calls
/// were made, the gate is as it was.
pub fn write_gated<D: Disk>(disk: &mut D, gate: u64, body: &[u8]) -> Result<(), Failed>
    requires some { 0 < length body.now }
    requires end { gate + 1 + length body.now < 2 ^ 64 }
    ensures tells { D.tells disk.new ≡ D.tells disk.old }
    ensures bounded { OnOk result (gate + 1 + length body.now < 2 ^ 63) }
    ensures done { IsTrue (D.tells disk.old) → gate < length (D.seen disk.old)
        → OnOk result (D.seen disk.new ≡ gated gate body.now (D.seen disk.old)) }
    ensures safe { IsTrue (D.tells disk.old) → gate < length (D.seen disk.old)
        → OnOk result (Only (gated gate body.now (D.seen disk.old)) (D.image disk.new)) }
    ensures in_part { IsTrue (D.tells disk.old) → gate < length (D.seen disk.old) → OnErr result
        (BodyTorn gate body.now (D.seen disk.old) (D.seen disk.new) ⊎ GateTorn gate body.now (D.seen disk.old) (D.seen disk.new)) }
    ensures images { IsTrue (D.tells disk.old) → gate < length (D.seen disk.old)
        → Gating gate body.now (D.seen disk.old) (D.image disk.old) (D.image disk.new) }
    ensures unreached { IsTrue (D.tells disk.old) → gate < length (D.seen disk.old) → D.calls disk.new < calls_after 3 (D.calls disk.old)
        → Follows (BodyTorn gate body.now) (D.image disk.old) (D.image disk.new) }
    ensures known { D.known disk.old ≤ D.known disk.new }
    ensures counts { Counts result (D.faults disk.old) (D.faults disk.new) }
    ensures calls { CallsMade 4 (D.calls disk.old) (D.calls disk.new) }
    ensures all { OnOk result (D.calls disk.new ≡ calls_after 4 (D.calls disk.old)) }
{
    write_safely(disk, gate + 1, body)?;
    write_safely(disk, gate, &[OPEN])
}
