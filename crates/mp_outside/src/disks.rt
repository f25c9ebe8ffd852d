//! What holds files that a crash may damage.

ghost use Rattle.std.specs.Prelude.{◌≡◌, ◌⊎◌, ℕ, ◌+◌, ◌<◌, ◌≤◌, ◌^◌, Bool, IsTrue, List, length, take, min, IfOk, OnOk, OnErr};
ghost use Rattle.mp_outside.specs.Faults.{one_more, Rose};
ghost use Rattle.mp_outside.specs.Disks.{GivesBytes, written, first_changed, Torn, Cut, Follows, Only, Quiet, Counts};

use crate::errors::Failed;

/// A file that outlives a crash. It may tell what a read gives and what a crash now may leave, its images: between
/// two syncs each written range and the part past the old end may hold any bytes, and all other bytes stay; a cut may
/// have happened or not. It keeps a count of faults, and a call answers `Failed` only where the count rose in it.
pub trait Disk {
    /// Whether the clauses speak of its content. A real file tells nothing. One that tells goes on telling.
    ghost tells: { Self → Bool };

    /// What a read gives.
    ghost seen: { Self → List ℕ };

    /// What a crash now may leave.
    ghost image: { Self → List ℕ → Type 0 };

    /// What a read gives is one of them.
    ghost seen_is_image: { (disk : Self) → IsTrue (tells disk) → image disk (seen disk) };

    /// A length that the file has at least, as long as nobody else writes it.
    ghost known: { Self → ℕ };

    /// How many faults there were.
    ghost faults: { Self → ℕ };

    /// How many calls there were. At a u64's end it stands still.
    ghost calls: { Self → ℕ };

    /// How many bytes it has, below 2^63.
    fn length(&mut self) -> Result<u64, Failed>
        ensures tells { tells self.new ≡ tells self.old }
        ensures quiet { Quiet (seen self.old) (image self.old) (seen self.new) (image self.new) }
        ensures is { IsTrue (tells self.old) → IfOk result (λ size. size ≡ length (seen self.old)) }
        ensures small { IfOk result (λ size. size < 2 ^ 63) }
        ensures known { IfOk result (λ size. known self.new ≡ size) }
        ensures still_known { OnErr result (known self.new ≡ known self.old) }
        ensures counts { Counts result (faults self.old) (faults self.new) }
        ensures calls { calls self.new ≡ one_more (calls self.old) };

    /// Reads from a place on into the front of a slice, and answers how many bytes it gave: some, where the place
    /// lies below the file's end and the slice isn't empty, or else its count of faults rose.
    fn read(&mut self, place: u64, into: &mut [u8]) -> Result<usize, Failed>
        ensures tells { tells self.new ≡ tells self.old }
        ensures quiet { Quiet (seen self.old) (image self.old) (seen self.new) (image self.new) }
        ensures within { IfOk result (λ count. count ≤ length into.old) }
        ensures gives { IsTrue (tells self.old)
            → IfOk result (λ count. GivesBytes (seen self.old) place count into.old into.new) }
        ensures some { IfOk result
            (λ count. place < known self.old → 0 < length into.old → count ≡ 0 → Rose (faults self.old) (faults self.new)) }
        ensures known { known self.new ≡ known self.old }
        ensures counts { Counts result (faults self.old) (faults self.new) }
        ensures calls { calls self.new ≡ one_more (calls self.old) };

    /// Writes over what is there, and past the end; zeros fill the part between the old end and the place. What it
    /// writes ends below 2^63. A write of no bytes past the end may leave the end where it is. Until a sync, a crash may
    /// leave any bytes from the place on, or from the old end on where that lies before, to the end of what was written.
    /// A write that fails may have been done in part.
    fn write_at(&mut self, place: u64, bytes: &[u8]) -> Result<(), Failed>
        ensures tells { tells self.new ≡ tells self.old }
        ensures bounded { OnOk result (place + length bytes.now < 2 ^ 63) }
        ensures written { IsTrue (tells self.old) → 0 < length bytes.now
            → OnOk result (seen self.new ≡ written place bytes.now (seen self.old)) }
        ensures in_part { IsTrue (tells self.old)
            → Torn (first_changed place (seen self.old)) (place + length bytes.now) (seen self.old) (seen self.new) }
        ensures images { IsTrue (tells self.old) → Follows
            (Torn (first_changed place (seen self.old)) (place + length bytes.now)) (image self.old) (image self.new) }
        ensures known { known self.old ≤ known self.new }
        ensures counts { Counts result (faults self.old) (faults self.new) }
        ensures calls { calls self.new ≡ one_more (calls self.old) };

    /// Shortens the file to a length, and leaves it where it isn't longer. Until a sync, a crash may leave the cut
    /// done, not done, or done in part. A cut that fails has happened or not.
    fn cut(&mut self, size: u64) -> Result<(), Failed>
        ensures tells { tells self.new ≡ tells self.old }
        ensures cut { IsTrue (tells self.old) → OnOk result (seen self.new ≡ take size (seen self.old)) }
        ensures or_not { IsTrue (tells self.old) → OnErr result
            ((seen self.new ≡ seen self.old) ⊎ (seen self.new ≡ take size (seen self.old))) }
        ensures images { IsTrue (tells self.old) → Follows (Cut size) (image self.old) (image self.new) }
        ensures known { min size (known self.old) ≤ known self.new }
        ensures counts { Counts result (faults self.old) (faults self.new) }
        ensures calls { calls self.new ≡ one_more (calls self.old) };

    /// Makes safe what is there: where it answers Ok, a crash leaves what a read gives and nothing else.
    fn sync(&mut self) -> Result<(), Failed>
        ensures tells { tells self.new ≡ tells self.old }
        ensures quiet { Quiet (seen self.old) (image self.old) (seen self.new) (image self.new) }
        ensures safe { IsTrue (tells self.old) → OnOk result (Only (seen self.old) (image self.new)) }
        ensures known { known self.new ≡ known self.old }
        ensures counts { Counts result (faults self.old) (faults self.new) }
        ensures calls { calls self.new ≡ one_more (calls self.old) };
}
