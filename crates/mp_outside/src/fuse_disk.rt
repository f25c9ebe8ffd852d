//! A disk whose calls fail from some call on, as where the machine stops there.

ghost use Rattle.std.specs.Prelude.{◌≡◌, ◌⊎◌, ◌↔◌, ◌+◌, ◌-◌, ◌^◌, ◌<◌, ◌≤◌, IsTrue, length, take, min, IfOk, OnOk, IsErr, OnErr};
ghost use Rattle.mp_outside.specs.Faults.{one_more, Rose};
ghost use Rattle.mp_outside.specs.Disks.{GivesBytes, written, first_changed, Torn, Cut, Follows, Only, Quiet, Counts};

use crate::disks::Disk;
use crate::errors::Failed;
use crate::mem_disk::MemDisk;

/// Lets so many calls pass, and then none.
#[derive(Debug, Drop)]
struct Fuse {
    passes: u64,
    made: u64,
    refused: u64,
}

impl Fuse {
    /// Counts a call, and fails it where no pass is left.
    fn spend(&mut self) -> Result<(), Failed>
        ensures blown { IsErr result ↔ (self.old.passes ≡ 0) }
        ensures passes { self.new.passes ≡ self.old.passes - 1 }
        ensures made { self.new.made ≡ one_more self.old.made }
        ensures counts { Counts result self.old.refused self.new.refused }
    {
        self.made = self.made.saturating_add(1);
        if self.passes == 0 {
            self.refused = self.refused.saturating_add(1);
            return Err(Failed);
        }
        self.passes -= 1;
        Ok(())
    }
}

/// A disk that passes so many calls on to another, and then fails each call and leaves that one alone.
#[derive(Debug, Drop)]
pub struct FuseDisk<D: Disk = MemDisk> {
    disk: D,
    fuse: Fuse,
}

impl<D: Disk> FuseDisk<D> {
    /// Passes that many calls.
    pub fn new(disk: D, passes: u64) -> Self
        ensures disk { result.disk ≡ disk }
        ensures passes { result.fuse.passes ≡ passes }
    {
        let fuse = Fuse {
            passes,
            made: 0,
            refused: 0,
        };
        FuseDisk { disk, fuse }
    }

    /// The disk that it passed calls on to.
    pub fn into_disk(self) -> D
        ensures { result ≡ self.disk }
    {
        let FuseDisk { disk, .. } = self;
        disk
    }
}

impl<D: Disk> Disk for FuseDisk<D> {
    ghost tells = { λ f. D.Disk.tells f.disk };

    ghost seen = { λ f. D.Disk.seen f.disk };

    ghost image = { λ f. D.Disk.image f.disk };

    ghost seen_is_image = { λ f. D.Disk.seen_is_image f.disk };

    ghost known = { λ f. D.Disk.known f.disk };

    ghost faults = { λ f. D.Disk.faults f.disk + f.fuse.refused };

    ghost calls = { λ f. f.fuse.made };

    fn length(&mut self) -> Result<u64, Failed>
        ensures tells { D.tells self.new.disk ≡ D.tells self.old.disk }
        ensures quiet { Quiet (D.seen self.old.disk) (D.image self.old.disk) (D.seen self.new.disk) (D.image self.new.disk) }
        ensures is { IsTrue (D.tells self.old.disk) → IfOk result (λ size. size ≡ length (D.seen self.old.disk)) }
        ensures small { IfOk result (λ size. size < 2 ^ 63) }
        ensures known { IfOk result (λ size. D.known self.new.disk ≡ size) }
        ensures still_known { OnErr result (D.known self.new.disk ≡ D.known self.old.disk) }
        ensures counts { Counts result (D.faults self.old.disk + self.old.fuse.refused) (D.faults self.new.disk + self.new.fuse.refused) }
        ensures calls { self.new.fuse.made ≡ one_more self.old.fuse.made }

        // It fails where no pass is left, and then leaves the disk alone, or where that disk does.
        ensures blown { self.old.fuse.passes ≡ 0 → IsErr result × (self.new.disk ≡ self.old.disk) }
        ensures fails { OnErr result ((self.old.fuse.passes ≡ 0) ⊎ Rose (D.faults self.old.disk) (D.faults self.new.disk)) }
        ensures spent { self.new.fuse.passes ≡ self.old.fuse.passes - 1 }
    {
        self.fuse.spend()?;
        self.disk.length()
    }

    fn read(&mut self, place: u64, into: &mut [u8]) -> Result<usize, Failed>
        ensures tells { D.tells self.new.disk ≡ D.tells self.old.disk }
        ensures quiet { Quiet (D.seen self.old.disk) (D.image self.old.disk) (D.seen self.new.disk) (D.image self.new.disk) }
        ensures within { IfOk result (λ count. count ≤ length into.old) }
        ensures gives { IsTrue (D.tells self.old.disk)
            → IfOk result (λ count. GivesBytes (D.seen self.old.disk) place count into.old into.new) }
        ensures some { IfOk result (λ count. place < D.known self.old.disk → 0 < length into.old → count ≡ 0
            → Rose (D.faults self.old.disk + self.old.fuse.refused) (D.faults self.new.disk + self.new.fuse.refused)) }
        ensures known { D.known self.new.disk ≡ D.known self.old.disk }
        ensures counts { Counts result (D.faults self.old.disk + self.old.fuse.refused) (D.faults self.new.disk + self.new.fuse.refused) }
        ensures calls { self.new.fuse.made ≡ one_more self.old.fuse.made }

        // It fails where no pass is left, and then leaves the disk alone, or where that disk does.
        ensures blown { self.old.fuse.passes ≡ 0 → IsErr result × (self.new.disk ≡ self.old.disk) }
        ensures fails { OnErr result ((self.old.fuse.passes ≡ 0) ⊎ Rose (D.faults self.old.disk) (D.faults self.new.disk)) }
        ensures spent { self.new.fuse.passes ≡ self.old.fuse.passes - 1 }
    {
        self.fuse.spend()?;
        self.disk.read(place, into)
    }

    fn write_at(&mut self, place: u64, bytes: &[u8]) -> Result<(), Failed>
        ensures tells { D.tells self.new.disk ≡ D.tells self.old.disk }
        ensures bounded { OnOk result (place + length bytes.now < 2 ^ 63) }
        ensures written { IsTrue (D.tells self.old.disk) → 0 < length bytes.now
            → OnOk result (D.seen self.new.disk ≡ written place bytes.now (D.seen self.old.disk)) }
        ensures in_part { IsTrue (D.tells self.old.disk)
            → Torn (first_changed place (D.seen self.old.disk)) (place + length bytes.now) (D.seen self.old.disk) (D.seen self.new.disk) }
        ensures images { IsTrue (D.tells self.old.disk) → Follows
            (Torn (first_changed place (D.seen self.old.disk)) (place + length bytes.now)) (D.image self.old.disk) (D.image self.new.disk) }
        ensures known { D.known self.old.disk ≤ D.known self.new.disk }
        ensures counts { Counts result (D.faults self.old.disk + self.old.fuse.refused) (D.faults self.new.disk + self.new.fuse.refused) }
        ensures calls { self.new.fuse.made ≡ one_more self.old.fuse.made }

        // It fails where no pass is left, and then leaves the disk alone, or where that disk does.
        ensures blown { self.old.fuse.passes ≡ 0 → IsErr result × (self.new.disk ≡ self.old.disk) }
        ensures fails { OnErr result ((self.old.fuse.passes ≡ 0) ⊎ Rose (D.faults self.old.disk) (D.faults self.new.disk)) }
        ensures spent { self.new.fuse.passes ≡ self.old.fuse.passes - 1 }
    {
        self.fuse.spend()?;
        self.disk.write_at(place, bytes)
    }

    fn cut(&mut self, size: u64) -> Result<(), Failed>
        ensures tells { D.tells self.new.disk ≡ D.tells self.old.disk }
        ensures cut { IsTrue (D.tells self.old.disk)
            → OnOk result (D.seen self.new.disk ≡ take size (D.seen self.old.disk)) }
        ensures or_not { IsTrue (D.tells self.old.disk) → OnErr result ((D.seen self.new.disk ≡ D.seen self.old.disk)
            ⊎ (D.seen self.new.disk ≡ take size (D.seen self.old.disk))) }
        ensures images { IsTrue (D.tells self.old.disk)
            → Follows (Cut size) (D.image self.old.disk) (D.image self.new.disk) }
        ensures known { min size (D.known self.old.disk) ≤ D.known self.new.disk }
        ensures counts { Counts result (D.faults self.old.disk + self.old.fuse.refused) (D.faults self.new.disk + self.new.fuse.refused) }
        ensures calls { self.new.fuse.made ≡ one_more self.old.fuse.made }

        // It fails where no pass is left, and then leaves the disk alone, or where that disk does.
        ensures blown { self.old.fuse.passes ≡ 0 → IsErr result × (self.new.disk ≡ self.old.disk) }
        ensures fails { OnErr result ((self.old.fuse.passes ≡ 0) ⊎ Rose (D.faults self.old.disk) (D.faults self.new.disk)) }
        ensures spent { self.new.fuse.passes ≡ self.old.fuse.passes - 1 }
    {
        self.fuse.spend()?;
        self.disk.cut(size)
    }

    fn sync(&mut self) -> Result<(), Failed>
        ensures tells { D.tells self.new.disk ≡ D.tells self.old.disk }
        ensures quiet { Quiet (D.seen self.old.disk) (D.image self.old.disk) (D.seen self.new.disk) (D.image self.new.disk) }
        ensures safe { IsTrue (D.tells self.old.disk)
            → OnOk result (Only (D.seen self.old.disk) (D.image self.new.disk)) }
        ensures known { D.known self.new.disk ≡ D.known self.old.disk }
        ensures counts { Counts result (D.faults self.old.disk + self.old.fuse.refused) (D.faults self.new.disk + self.new.fuse.refused) }
        ensures calls { self.new.fuse.made ≡ one_more self.old.fuse.made }

        // It fails where no pass is left, and then leaves the disk alone, or where that disk does.
        ensures blown { self.old.fuse.passes ≡ 0 → IsErr result × (self.new.disk ≡ self.old.disk) }
        ensures fails { OnErr result ((self.old.fuse.passes ≡ 0) ⊎ Rose (D.faults self.old.disk) (D.faults self.new.disk)) }
        ensures spent { self.new.fuse.passes ≡ self.old.fuse.passes - 1 }
    {
        self.fuse.spend()?;
        self.disk.sync()
    }
}
