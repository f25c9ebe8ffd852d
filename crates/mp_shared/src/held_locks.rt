//! How the parts that a node holds hold page locks, so that a node knows it without a step.
ghost use Rattle.std.specs.Prelude.{◌≡◌, ℕ, ◌<◌, ◌≤◌, Some, None, IfOk, slice_index_or};
ghost use Rattle.mp_machine.specs.Lists.{updated};
ghost use Rattle.mp_machine.specs.View.{either_part};
ghost use Rattle.mp_core_pages.specs.declared.page_lock.Held.TheVariants.{No};
ghost use Rattle.mp_core_pages.specs.declared.opening.TheConstants.{PAGES};
ghost use Rattle.mp_shared.specs.LockTables.{NotesLocks, IsFirstHeld};

use crate::lock_table::LockTable;
use mp_core_pages::Held;
use std::alloc::{AllocError, Global};

/// By primary, the table of its part, where the part is held. Place 0 is nobody's.
#[derive(Drop)]
pub(crate) struct HeldLocks {
    pub(crate) tables: [Option<LockTable>; 9],
}

impl HeldLocks {
    /// No part is held.
    pub(crate) fn none() -> HeldLocks
        ensures { (n : ℕ) → slice_index_or result.tables n None ≡ None }
    {
        HeldLocks {
            tables: [None, None, None, None, None, None, None, None, None],
        }
    }

    /// The parts up to that of the last primary are held, and hold no lock.
    pub(crate) fn free(alloc: Global, primaries: u8) -> Result<HeldLocks, AllocError>
        requires { primaries ≤ 8 }
        ensures held { IfOk result (λ locks. (n : ℕ) → n ≤ primaries → NotesLocks (slice_index_or locks.tables n None) (λ _. No)) }
        ensures others { IfOk result (λ locks. (n : ℕ) → primaries < n → slice_index_or locks.tables n None ≡ None) }
    {
        let mut locks = HeldLocks::none();
        for p in 0..usize::from(primaries) + 1 {
            locks.tables[p] = Some(LockTable::free(alloc)?);
        }
        Ok(locks)
    }

    /// How the part of primary `p` holds the page's lock.
    pub(crate) fn get(&self, p: u8, page: u16) -> Held
        requires range { (p ≤ 8) × (page < PAGES) }
        ensures { (held : ℕ → Held) → NotesLocks (slice_index_or self.now.tables p None) held → result ≡ held page }
    {
        match &self.tables[usize::from(p)] {
            Some(table) => table.get(page),
            None => Held::No,
        }
    }

    /// The first page from `from` on whose lock the part of primary `p` holds. `None` where it holds none of them.
    pub(crate) fn next(&self, p: u8, from: u16) -> Option<u16>
        requires { p ≤ 8 }
        ensures { (held : ℕ → Held) → NotesLocks (slice_index_or self.now.tables p None) held → IsFirstHeld held from PAGES result }
    {
        match &self.tables[usize::from(p)] {
            Some(table) => table.next(from),
            None => None,
        }
    }

    /// Notes how the part of primary `p` holds the page's lock.
    pub(crate) fn set(&mut self, p: u8, page: u16, now: Held)
        requires range { (p ≤ 8) × (page < PAGES) }
        ensures here { (held : ℕ → Held) → NotesLocks (slice_index_or self.old.tables p None) held → NotesLocks (slice_index_or self.new.tables p None) (updated held page now) }
        ensures others { (n : ℕ) → ¬ (n ≡ p) → slice_index_or self.new.tables n None ≡ slice_index_or self.old.tables n None }
    {
        if let Some(table) = &mut self.tables[usize::from(p)] {
            table.set(page, now);
        }
    }

    /// Hands out the table of primary `p`, and keeps the others.
    pub(crate) fn part_off(&mut self, p: u8) -> HeldLocks
        requires { p ≤ 8 }
        ensures given { slice_index_or result.tables p None ≡ slice_index_or self.old.tables p None }
        ensures given_alone { (n : ℕ) → ¬ (n ≡ p) → slice_index_or result.tables n None ≡ None }
        ensures kept { slice_index_or self.new.tables p None ≡ None }
        ensures others { (n : ℕ) → ¬ (n ≡ p) → slice_index_or self.new.tables n None ≡ slice_index_or self.old.tables n None }
    {
        let mut parted = HeldLocks::none();
        parted.tables[usize::from(p)] = self.tables[usize::from(p)].take();
        parted
    }

    /// Takes in the tables of parts that are held elsewhere.
    pub(crate) fn join(&mut self, mut other: HeldLocks)
        ensures { (n : ℕ) → slice_index_or self.new.tables n None ≡ either_part (slice_index_or self.old.tables n None) (slice_index_or other.tables n None) }
    {
        for n in 0..9 {
            if self.tables[n].is_none() {
                self.tables[n] = other.tables[n].take();
            }
        }
    }
}
