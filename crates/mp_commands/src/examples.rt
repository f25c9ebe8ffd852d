//! Worked examples of the definitions, good ones and bad ones.

ghost use Rattle.std.specs.Prelude.{◌≡◌, ℕ, List, [], ◌∷◌, length};
ghost use Rattle.mp_files.specs.declared.disks.Disks.{Disks};
ghost use Rattle.mp_files.specs.Nine.{DiskRose};
ghost use Rattle.mp_commands.specs.declared.faults.DiskFault.TheVariants as faults;
ghost use Rattle.mp_commands.specs.Fresh.{LogAtFault, Explains};
ghost use Rattle.mp_commands.specs.LogTexts.{LogFault, IsFirstFault, IsFirstFailed};

use mp_outside::Disk;

/// Which disks may be blamed, of eight logs: a log whose count of faults rose, and no log 9. A log that is off the
/// grammar is one of those that there are.
pub fn law_blamed_disks<D: Disk>()
    ensures rose { (others : List D) (before after : D) → DiskRose D.Disk before after
        → LogAtFault D.Disk (faults.Log 1) (before ∷ others) (after ∷ others) }
    ensures nine { (old new : Disks D) → length old.logs.items ≡ 8 → Explains D.Disk (faults.Log 9) old new → ⊥ }
    ensures failed { (old new : List D) → length old ≡ 8 → IsFirstFailed D.Disk 9 old new → ⊥ }
    ensures fault { (place : ℕ) (logs : List D) → length logs ≡ 8
        → IsFirstFault D.Disk (record { primary = 9; place = place }) logs → ⊥ }
{}
