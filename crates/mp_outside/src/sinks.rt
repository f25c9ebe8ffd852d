//! What bytes are written to.

ghost use Rattle.std.specs.Prelude.{◌≡◌, ℕ, ◌<◌, ◌≤◌, List, length, Option, IfOk, OnErr};
ghost use Rattle.std.specs.Io.KnownBytes.{WriteAppends};
ghost use Rattle.mp_outside.specs.Faults.{Rose};

use crate::errors::Failed;

/// What bytes are written to, one after another. It may tell which bytes were written, and it keeps a count of faults.
pub trait Sink {
    /// The bytes that were written. None tells nothing.
    ghost written: { Self → Option (List ℕ) };

    /// How many faults there were.
    ghost faults: { Self → ℕ };

    /// Writes the front of a piece, and answers how many of its bytes it took. Where it takes none of a piece that
    /// isn't empty, its count of faults rose. A write that fails adds none.
    fn write(&mut self, piece: &[u8]) -> Result<usize, Failed>
        ensures within { IfOk result (λ count. count ≤ length piece.now) }
        ensures bytes { WriteAppends (written self.old) (written self.new) result piece.now }
        ensures count { faults self.old ≤ faults self.new }
        ensures cause { OnErr result (Rose (faults self.old) (faults self.new)) }
        ensures takes { IfOk result
            (λ count. count ≡ 0 → 0 < length piece.now → Rose (faults self.old) (faults self.new)) };
}
