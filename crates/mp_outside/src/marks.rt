//! What became of each byte of a disk in memory since its last sync.

ghost use Rattle.std.specs.Prelude.{◌≡◌, ◌+◌, ◌≤◌, length};
ghost use Rattle.mp_outside.specs.Marks.{marked, left_of};

/// What became of a byte since the last sync: nothing, or the last write that reached it filled it as a gap before its
/// place, or wrote it in the front half or in the back half of its range.
#[derive(Clone, Copy, Debug, PartialEq, Eq)]
pub enum Mark {
    Untouched,
    Gap,
    Front,
    Back,
}

impl Mark {
    /// What a crash leaves of a byte with this mark.
    pub fn leaves(self, choice: u8, now: u8, was: u8) -> u8
        ensures { result ≡ left_of self choice now was }
    {
        match self {
            Mark::Untouched | Mark::Gap => now,
            Mark::Front if choice == 3 => 0xa5,
            Mark::Front => now,
            Mark::Back if choice == 3 => 0xa5,
            Mark::Back if choice == 2 => was,
            Mark::Back => now,
        }
    }
}

/// Marks what a write of `count` bytes at a place reaches, in a file of `size` bytes.
pub fn mark_write(marks: &mut [Mark], size: usize, place: usize, count: usize)
    requires within { place + count ≤ length marks.old }
    requires size { size ≤ length marks.old }
    ensures { marks.new ≡ marked place count size marks.old }
{
    marks[place.min(size)..place].fill(Mark::Gap);
    let middle = place + count / 2;
    marks[place..middle].fill(Mark::Front);
    marks[middle..place + count].fill(Mark::Back);
}
