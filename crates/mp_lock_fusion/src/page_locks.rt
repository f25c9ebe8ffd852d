//! The locks of pages. `docs/architecture.md` has the form of a lock's word.
ghost use Rattle.std.specs.Prelude.{◌≡◌, ◌<◌, IfErr, IfOk};
ghost use Rattle.mp_model.specs.declared.waiting.WordKind.TheVariants.{Lock};
ghost use Rattle.mp_core_pages.specs.declared.opening.TheConstants.{PAGES};
ghost use Rattle.mp_core_pages.specs.declared.event.PagesEvent.TheVariants.{UnlockWord};
ghost use Rattle.mp_core_pages.specs.PageEvents.{with_unlock};
ghost use Rattle.mp_core.specs.declared.event.CoreEvent.TheVariants.{Pages};
ghost use Rattle.mp_shared.specs.Nodes.{HoldsPart, MayTake, Reached};
ghost use Rattle.mp_shared.specs.PageSteps.{with_pages};
ghost use Rattle.mp_lock_fusion.specs.LockCalls.{CameToRead, CameToWrite, CouldNotRead, CouldNotWrite};

use mp_core_pages::{exclusive, has_other_writer, shared_with};
use mp_model::{NotYet, WordKind};
use mp_shared::{Held, Node, Shared};
use mp_steps::{Ledger, Steps};

/// The page's lock cannot be had, since its word is this.
fn refused(page: u16, seen: u64) -> NotYet
    ensures { (result.of ≡ Lock) × (result.at ≡ page) × (result.seen ≡ seen) }
{
    NotYet {
        of: WordKind::Lock,
        at: u32::from(page),
        seen,
    }
}

/// `p` comes to read a page, beside all others that read it. Where it holds the page's lock already, it takes no step.
/// `NotYet` only where the word of the lock showed that another node writes the page, or differed from the word that this
/// call had read before; it carries the word read last. Then `p` has made one or two operations more, and nothing else
/// changed. It takes no frame, so `steps` stays.
pub fn lock_shared<L: Ledger>(
    shared: &Shared,
    node: &mut Node,
    p: u8,
    page: u16,
    steps: &mut Steps<L>,
) -> Result<(), NotYet>
    requires run { node.old.run ≡ shared.now }
    requires part { HoldsPart node.old p }
    requires page { page < PAGES }
    ensures locked { IfOk result (λ _. CameToRead p page node.old node.new) }
    ensures refused { IfErr result (λ w. (w.of ≡ Lock) × (w.at ≡ page) × CouldNotRead p page node.old w.seen node.new) }
    ensures reached { Reached node.new }
    ensures steps { steps.new ≡ steps.old }
{
    match node.holds(p, page) {
        Held::Read | Held::Write => return Ok(()),
        Held::No => {}
    }
    let Err(first) = shared.lock_word(node, p, page, 0, shared_with(0, p)) else {
        return Ok(());
    };
    if has_other_writer(first, p) {
        return Err(refused(page, first));
    }
    let Err(last) = shared.lock_word(node, p, page, first, shared_with(first, p)) else {
        return Ok(());
    };
    Err(refused(page, last))
}

/// `p` comes to write a page, alone. Where it writes it already, it takes no step; where it reads it, it keeps its content.
/// `NotYet` only where the word of the lock showed another holder; it carries that word. Then `p` has made one operation
/// more, and nothing else changed. It takes no frame, so `steps` stays.
pub fn lock_exclusive<L: Ledger>(
    shared: &Shared,
    node: &mut Node,
    p: u8,
    page: u16,
    steps: &mut Steps<L>,
) -> Result<(), NotYet>
    requires run { node.old.run ≡ shared.now }
    requires part { HoldsPart node.old p }
    requires page { page < PAGES }
    ensures locked { IfOk result (λ _. CameToWrite p page node.old node.new) }
    ensures refused { IfErr result (λ w. (w.of ≡ Lock) × (w.at ≡ page) × CouldNotWrite p page node.old w.seen node.new) }
    ensures reached { Reached node.new }
    ensures steps { steps.new ≡ steps.old }
{
    let old = match node.holds(p, page) {
        Held::Write => return Ok(()),
        Held::Read => shared_with(0, p),
        Held::No => 0,
    };
    match shared.lock_word(node, p, page, old, exclusive(p)) {
        Ok(()) => Ok(()),
        Err(seen) => Err(refused(page, seen)),
    }
}

/// `p` lets the lock of a page go, and with it the content that it has of the page. All its records on the page are durable
/// and in the page's frame, and the frame is not out with `p`.
pub fn release(shared: &Shared, node: &mut Node, p: u8, page: u16)
    requires run { node.old.run ≡ shared.now }
    requires may { MayTake (Pages (UnlockWord p page)) node.old }
    ensures becomes { node.new ≡ with_pages node.old p (with_unlock page) 1 }
    ensures reached { Reached node.new }
{
    shared.unlock_word(node, p, page);
}
