//! Why the outside refused.

ghost use Rattle.std.specs.Prelude.{◌≡◌};

use mp_model::Memory;

/// A call of a source, a sink or a disk failed. It comes only where that object's count of faults rose in the call.
#[derive(Clone, Copy, Debug, PartialEq, Eq)]
pub struct Failed;

/// Why reading a source to its end was refused: a read failed, or there was no memory.
#[derive(Clone, Copy, Debug, PartialEq, Eq)]
pub enum ReadRefusal {
    Failed,
    Memory,
}

impl From<Failed> for ReadRefusal {
    ghost use Rattle.mp_outside.specs.declared.errors.ReadRefusal.TheVariants.{Failed};

    ghost from_gives = { λ _ refusal. refusal ≡ Failed };

    fn from(_: Failed) -> Self {
        ReadRefusal::Failed
    }
}

impl From<Memory> for ReadRefusal {
    ghost use Rattle.mp_outside.specs.declared.errors.ReadRefusal.TheVariants.{Memory};

    ghost from_gives = { λ _ refusal. refusal ≡ Memory };

    fn from(_: Memory) -> Self {
        ReadRefusal::Memory
    }
}
