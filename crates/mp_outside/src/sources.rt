//! What bytes are read from.

ghost use Rattle.std.specs.Prelude.{ℕ, ◌≤◌, List, length, Option, IfOk, OnErr};
ghost use Rattle.std.specs.Io.KnownBytes.{ReadConsumes};
ghost use Rattle.mp_outside.specs.Faults.{Rose};

use crate::errors::Failed;

/// What bytes are read from, one after another. It may tell which bytes are left, and it keeps a count of faults.
pub trait Source {
    /// The bytes that are left. None tells nothing.
    ghost left: { Self → Option (List ℕ) };

    /// How many faults there were.
    ghost faults: { Self → ℕ };

    /// Reads into the front of a slice, and answers how many bytes it gave: the first of those left, which are then
    /// no longer left. To a slice that isn't empty it gives none only where none is left. A read that fails takes
    /// none.
    fn read(&mut self, into: &mut [u8]) -> Result<usize, Failed>
        ensures within { IfOk result (λ count. count ≤ length into.old) }
        ensures bytes { ReadConsumes (left self.old) (left self.new) result into.new }
        ensures count { faults self.old ≤ faults self.new }
        ensures cause { OnErr result (Rose (faults self.old) (faults self.new)) };
}
