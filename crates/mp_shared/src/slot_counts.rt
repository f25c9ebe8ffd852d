//! How many transaction slots each held part has used, so that the next unused slot is known without a step.
ghost use Rattle.std.specs.Prelude.{◌≡◌, ◌<◌, ◌≤◌, ℕ, Some, None, slice_index_or};
ghost use Rattle.mp_machine.specs.View.{either_part};

/// By primary, the count of a part that is held. Place 0 is nobody's.
#[derive(Clone, Copy)]
pub(crate) struct SlotCounts {
    pub(crate) used: [Option<u16>; 9],
}

impl SlotCounts {
    /// No part is held.
    pub(crate) fn none() -> SlotCounts
        ensures { (n : ℕ) → slice_index_or result.used n None ≡ None }
    {
        SlotCounts { used: [None; 9] }
    }

    /// The parts up to that of the last primary are held, and have used no slot.
    pub(crate) fn unused(primaries: u8) -> SlotCounts
        requires { primaries ≤ 8 }
        ensures held { (n : ℕ) → n ≤ primaries → slice_index_or result.used n None ≡ Some 0 }
        ensures others { (n : ℕ) → primaries < n → slice_index_or result.used n None ≡ None }
    {
        let mut counts = SlotCounts::none();
        for p in 0..usize::from(primaries) + 1 {
            counts.used[p] = Some(0);
        }
        counts
    }

    pub(crate) fn get(&self, p: u8) -> Option<u16>
        requires { p ≤ 8 }
        ensures { result ≡ slice_index_or self.now.used p None }
    {
        self.used[usize::from(p)]
    }

    pub(crate) fn set(&mut self, p: u8, count: Option<u16>)
        requires { p ≤ 8 }
        ensures here { slice_index_or self.new.used p None ≡ count }
        ensures others { (n : ℕ) → ¬ (n ≡ p) → slice_index_or self.new.used n None ≡ slice_index_or self.old.used n None }
    {
        self.used[usize::from(p)] = count;
    }

    /// Takes in the counts of parts that are held elsewhere.
    pub(crate) fn join(&mut self, other: &SlotCounts)
        ensures { (n : ℕ) → slice_index_or self.new.used n None ≡ either_part (slice_index_or self.old.used n None) (slice_index_or other.now.used n None) }
    {
        for n in 0..9 {
            if self.used[n].is_none() {
                self.used[n] = other.used[n];
            }
        }
    }
}
