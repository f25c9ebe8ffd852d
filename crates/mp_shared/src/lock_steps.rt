//! The steps on page locks. Each is one operation on the word of a page's lock, and one event of the machine: its
//! condition is on the part of primary `p` alone, which the node holds. None takes memory or waits.
//! `docs/architecture.md` has the form of the word.
ghost use Rattle.std.specs.Prelude.{◌≡◌, IfErr, IfOk, MatchResult};
ghost use Rattle.mp_core_pages.specs.declared.event.PagesEvent.TheVariants.{LockWord, UnlockWord};
ghost use Rattle.mp_core_pages.specs.PageEvents.{lock_of, taken_as as taken_as_of, with_lock, with_unlock};
ghost use Rattle.mp_core.specs.declared.event.CoreEvent.TheVariants.{Pages};
ghost use Rattle.mp_core.specs.World.{of_pages, core_index, IsCorePlace};
ghost use Rattle.mp_shared.specs.Nodes.{MayTake, Took};
ghost use Rattle.mp_shared.specs.PageSteps.{with_pages, with_ops};

use crate::node::Node;
use crate::shared::Shared;
use mp_core::LOCK_WORDS;
use mp_core_pages::{Held, release_mask};
use std::marker::Brand;

/// Where the word of a page's lock lies.
fn lock_word_at(page: u16) -> usize
    requires { IsCorePlace (of_pages (lock_of page)) }
    ensures { result ≡ core_index (of_pages (lock_of page)) }
{
    LOCK_WORDS + usize::from(page)
}

/// How a node holds the lock whose word it made this.
fn taken_as(new: u64) -> Held
    ensures { result ≡ taken_as_of new }
{
    if new < 256 { Held::Read } else { Held::Write }
}

impl Shared {
    /// Takes the lock of a page for `p`: where its word is `old`, the word becomes `new`. `p` comes to read it beside other
    /// readers, or to write it alone, as the two numbers say. At `Err` the word was another than `old`, which is the answer,
    /// and it stays; `p` has made one operation more, and nothing else changed.
    pub fn lock_word(
        &self,
        node: &mut Node,
        p: u8,
        page: u16,
        old: u64,
        new: u64,
    ) -> Result<(), u64>
        requires run { node.old.run ≡ self.now }
        requires step { MayTake (Pages (LockWord p page old new)) node.old }
        ensures step { MatchResult result (λ _. Took (Pages (LockWord p page old new)) node.old old node.new) (λ found. (¬ (found ≡ old)) × Took (Pages (LockWord p page old new)) node.old found node.new) }
        ensures locked { IfOk result (λ _. node.new ≡ with_pages node.old p (with_lock page (taken_as_of new)) 1) }
        ensures refused { IfErr result (λ _. node.new ≡ with_ops node.old p 1) }
    {
        let found = self.table.compare_exchange::<Brand, (u8, u16, u64, u64)>(
            &mut node.seat,
            lock_word_at(page),
            old,
            new,
            &(p, page, old, new),
        );
        if found != old {
            return Err(found);
        }
        node.locks.set(p, page, taken_as(new));
        Ok(())
    }

    /// Lets the lock of a page go, and with it the content that `p` has of the page. The answer is the word as it was
    /// before. The locks of other nodes stay.
    pub fn unlock_word(&self, node: &mut Node, p: u8, page: u16) -> u64
        requires run { node.old.run ≡ self.now }
        requires step { MayTake (Pages (UnlockWord p page)) node.old }
        ensures step { Took (Pages (UnlockWord p page)) node.old result node.new }
        ensures unlocked { node.new ≡ with_pages node.old p (with_unlock page) 1 }
    {
        let before = self.table.fetch_and::<Brand, (u8, u16)>(
            &mut node.seat,
            lock_word_at(page),
            release_mask(p),
            &(p, page),
        );
        node.locks.set(p, page, Held::No);
        before
    }
}
