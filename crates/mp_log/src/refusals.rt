//! Why a log was refused.

ghost use Rattle.std.specs.Prelude.{◌≡◌};

use mp_model::Memory;
use mp_outside::Failed;

/// Why a log wasn't opened or read on.
#[derive(Clone, Copy, Debug, PartialEq, Eq)]
pub enum LogRefusal {
    /// The file is off the grammar of logs, first at this place. `docs/formats.md` has the places.
    Fault { place: u64 },
    /// A call of the disk failed.
    Disk,
    /// There was no memory.
    Memory,
}

impl From<Failed> for LogRefusal {
    ghost use Rattle.mp_log.specs.declared.refusals.LogRefusal.TheVariants.{Disk};

    ghost from_gives = { λ _ refusal. refusal ≡ Disk };

    fn from(_: Failed) -> Self {
        LogRefusal::Disk
    }
}

impl From<Memory> for LogRefusal {
    ghost use Rattle.mp_log.specs.declared.refusals.LogRefusal.TheVariants.{Memory};

    ghost from_gives = { λ _ refusal. refusal ≡ Memory };

    fn from(_: Memory) -> Self {
        LogRefusal::Memory
    }
}
