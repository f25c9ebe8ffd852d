//! What the words for nine disks say.

ghost use Rattle.std.specs.Prelude.{◌≡◌, ℕ, List, [], ◌∷◌, length};
ghost use Rattle.mp_files.specs.declared.disks.Disks.{Disks};
ghost use Rattle.mp_files.specs.Nine.{Image, IsImage, as_read, AllTell, KeptNine, StillNine, DiskRose, RoseOf, LogRose};

use mp_outside::Disk;

/// No count of faults of a log rose that isn't there: of eight logs those of the primaries 1 to 8 alone may rise. What a
/// call leaves of nine disks is said of calls one after another too, and what reads give is an image.
pub fn law_nine<D: Disk>()
    ensures rose { (others : List D) (first before after : D) → DiskRose D.Disk before after
        → RoseOf D.Disk 2 (first ∷ before ∷ others) (first ∷ after ∷ others) }
    ensures zero { (old new : Disks D) → LogRose D.Disk 0 old new → ⊥ }
    ensures nine { (old new : Disks D) → length old.logs.items ≡ 8 → LogRose D.Disk 9 old new → ⊥ }
    ensures same { (disks : Disks D) → StillNine D.Disk disks disks }
    ensures then_ { (old mid new : Disks D) → StillNine D.Disk old mid → StillNine D.Disk mid new → StillNine D.Disk old new }
    ensures kept { (old new : Disks D) → KeptNine D.Disk old new → StillNine D.Disk old new }
    ensures read { (disks : Disks D) → AllTell D.Disk disks → IsImage D.Disk disks (as_read D.Disk disks) }
    ensures short { (disks : Disks D) (file : List ℕ) → length disks.logs.items ≡ 8
        → IsImage D.Disk disks (record { store = file; logs = file ∷ [] }) → ⊥ }
{}
