//! How one part holds each page's lock, so that those that it holds are found without a look at each page.
ghost use Rattle.std.specs.Prelude.{◌≡◌, ◌<◌, ◌≤◌, length, Some, IfOk, slice_get, slice_set, slice_index_or};
ghost use Rattle.mp_core_pages.specs.declared.page_lock.Held.TheVariants.{No};
ghost use Rattle.mp_core_pages.specs.declared.opening.TheConstants.{PAGES};
ghost use Rattle.mp_shared.specs.LockTables.{NotesLocks, IsFirstHeld};

use mp_core_pages::{Held, PAGES};
use std::alloc::{AllocError, Global};
use std::marker::Model;

/// How many pages share a flag, and how many flags there are.
const GROUP: usize = 64;

/// How one part holds each page's lock, by page.
#[derive(Drop)]
pub(crate) struct LockTable {
    held: Vec<Held>,
    /// By group of 64 pages: not set where no lock of them is held.
    flags: [bool; 64],
}

impl Model for LockTable {
    ghost use Rattle.std.specs.Prelude.{◌≡◌, List, length};
    ghost use Rattle.mp_core_pages.specs.declared.opening.TheConstants.{PAGES};
    ghost use Rattle.mp_core_pages.specs.declared.page_lock.Held.{Held};
    ghost use Rattle.mp_shared.specs.LockTables.{FlagsHeld};

    ghost Value = { List Held };

    ghost view = { λ t. t.held.items };

    ghost invariant = { λ t. (length t.held.items ≡ PAGES) × FlagsHeld t.held.items t.flags };
}

/// The first place from `from` on and before `end` of a lock that is held.
fn first_held(held: &[Held], from: usize, end: usize) -> Option<usize>
    requires { end ≤ length held.now }
    ensures { IsFirstHeld (λ k. slice_index_or held.now k No) from end result }
{
    for i in from..end {
        match held[i] {
            Held::No => {}
            Held::Read | Held::Write => return Some(i),
        }
    }
    None
}

impl LockTable {
    /// No page's lock is held.
    pub(crate) fn free(alloc: Global) -> Result<LockTable, AllocError>
        ensures { IfOk result (λ t. NotesLocks (Some t) (λ _. No)) }
    {
        let held = Vec::from_elem(alloc, Held::No, usize::from(PAGES))?;
        Ok(LockTable {
            held,
            flags: [false; 64],
        })
    }

    /// How the page's lock is held.
    pub(crate) fn get(&self, page: u16) -> Held
        requires { page < PAGES }
        ensures { slice_get self.now page ≡ Some result }
    {
        self.held[usize::from(page)]
    }

    /// Notes how the page's lock is held.
    pub(crate) fn set(&mut self, page: u16, held: Held)
        requires { page < PAGES }
        ensures { self.new ≡ slice_set self.old page held }
    {
        self.held[usize::from(page)] = held;
        let group = usize::from(page) / GROUP;
        self.flags[group] = first_held(&self.held, group * GROUP, (group + 1) * GROUP).is_some();
    }

    /// The first page from `from` on whose lock is held. `None` where none of them is.
    pub(crate) fn next(&self, from: u16) -> Option<u16>
        ensures { IsFirstHeld (λ k. slice_index_or self.now k No) from PAGES result }
    {
        let from = usize::from(from);
        for group in from / GROUP..GROUP {
            if self.flags[group] {
                let low = from.max(group * GROUP);
                if let Some(page) = first_held(&self.held, low, (group + 1) * GROUP) {
                    return Some(page as u16);
                }
            }
        }
        None
    }
}
