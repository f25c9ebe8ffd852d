//! Why a store was refused.

ghost use Rattle.std.specs.Prelude.{◌≡◌};

use mp_outside::Failed;

/// Why a store wasn't opened, or a page wasn't read.
#[derive(Clone, Copy, Debug, PartialEq, Eq)]
pub enum StoreRefusal {
    /// The file is off the grammar of stores, at this place. `docs/formats.md` has the order of the checks.
    NotStore { place: u64 },
    /// A call of the disk failed.
    Disk,
    /// There was no memory. No call answers it now.
    Memory,
}

impl From<Failed> for StoreRefusal {
    ghost use Rattle.mp_store.specs.declared.refusals.StoreRefusal.TheVariants.{Disk};

    ghost from_gives = { λ _ refusal. refusal ≡ Disk };

    fn from(_: Failed) -> Self {
        StoreRefusal::Disk
    }
}
