//! A page taken in turn: its lock, and its newest content in a buffer; and let go again.
ghost use Rattle.std.specs.Prelude.{◌≡◌, ℕ, ◌+◌, ◌<◌, ◌≤◌, [], length, true, OnOk, OnErr};
ghost use Rattle.mp_cells.specs.declared.records.Mtr.{Mtr};
ghost use Rattle.mp_cells.specs.PageView.{PageView};
ghost use Rattle.mp_core_pages.specs.declared.opening.TheConstants.{PAGES};
ghost use Rattle.mp_core_pages.specs.declared.page_lock.Held.TheVariants.{No};
ghost use Rattle.mp_core_pages.specs.declared.part.PagesPart.{PagesPart};
ghost use Rattle.mp_shared.specs.Nodes.{Reached};
ghost use Rattle.mp_shared.specs.PageSteps.{held_in};
ghost use Rattle.mp_buffer_fusion.specs.declared.pool.TheConstants.{BUFFERS};
ghost use Rattle.mp_buffer_fusion.specs.Agreement.{AgreesWith, AgreesIn};
ghost use Rattle.mp_trials.specs.Turns.{HasForcedLog, KeepsLog, HasPage};

use mp_buffer_fusion::{BUFFERS, Ledger, Pool, Steps};
use mp_lock_fusion::{NotYet, lock_exclusive, release};
use mp_shared::{Node, Shared};

/// How often a page is tried that another primary has.
const TRIES: u32 = 100_000_000;

/// Tries once to come to write a page, alone, with its newest content in a buffer.
fn try_page<L: Ledger>(
    shared: &Shared,
    node: &mut Node,
    pool: &mut Pool,
    p: u8,
    page: u16,
    steps: &mut Steps<L>,
) -> Result<(), NotYet>
    requires run { node.old.run ≡ shared.now }
    requires frames { node.old.frames ≡ [] }
    requires forced { HasForcedLog node.old p }
    requires page { page < PAGES }
    requires agrees { AgreesIn pool.old node.old p }
    requires room { length pool.old < BUFFERS }
    ensures keeps { KeepsLog p node.old node.new }
    ensures agrees { AgreesIn pool.new node.new p }
    ensures taken { OnOk result (HasPage pool.new node.new p page) }
    ensures others { (k : ℕ) → HasPage pool.old node.old p k → HasPage pool.new node.new p k }
    ensures room { length pool.new ≤ length pool.old + 1 }
    ensures refused { OnErr result (pool.new ≡ pool.old) }
{
    lock_exclusive(shared, node, p, page, steps)?;
    pool.fetch(shared, node, p, page, steps)?;
    Ok(())
}

/// Comes to write a page, alone, with its newest content in a buffer. `NotYet` where another primary had it at each try.
pub(crate) fn take_page<L: Ledger>(
    shared: &Shared,
    node: &mut Node,
    pool: &mut Pool,
    p: u8,
    page: u16,
    steps: &mut Steps<L>,
) -> Result<(), NotYet>
    requires run { node.old.run ≡ shared.now }
    requires frames { node.old.frames ≡ [] }
    requires forced { HasForcedLog node.old p }
    requires page { page < PAGES }
    requires agrees { AgreesIn pool.old node.old p }
    requires room { length pool.old < BUFFERS }
    ensures keeps { KeepsLog p node.old node.new }
    ensures agrees { AgreesIn pool.new node.new p }
    ensures taken { OnOk result (HasPage pool.new node.new p page) }
    ensures others { (k : ℕ) → HasPage pool.old node.old p k → HasPage pool.new node.new p k }
    ensures room { length pool.new ≤ length pool.old + 1 }
{
    for _ in 0..TRIES {
        let Err(_wait) = try_page(shared, node, pool, p, page, steps) else {
            return Ok(());
        };
    }
    try_page(shared, node, pool, p, page, steps)
}

/// Puts a page that has a buffer into its frame.
fn push_page(shared: &Shared, node: &mut Node, pool: &mut Pool, p: u8, page: u16)
    requires run { node.old.run ≡ shared.now }
    requires frames { node.old.frames ≡ [] }
    requires forced { HasForcedLog node.old p }
    requires page { page < PAGES }
    requires has { HasPage pool.old node.old p page }
    requires agrees { AgreesIn pool.old node.old p }
    ensures keeps { KeepsLog p node.old node.new }
    ensures agrees { AgreesIn pool.new node.new p }
    ensures pages { (k : ℕ) → HasPage pool.old node.old p k → HasPage pool.new node.new p k }
{
    pool.push(shared, node, p, page);
}

/// Drops the clean buffers. Answers whether none is left.
pub(crate) fn drop_clean(pool: &mut Pool) -> bool
    ensures empty { result ≡ true → pool.new ≡ [] }
    ensures agrees { (part : PagesPart PageView Mtr) → AgreesWith pool.old part → AgreesWith pool.new part }
{
    pool.unpin_all();
    pool.free() == usize::from(BUFFERS)
}

/// Lets a page go. All records on it are durable and in its frame.
pub(crate) fn let_go(shared: &Shared, node: &mut Node, p: u8, page: u16)
    requires run { node.old.run ≡ shared.now }
    requires forced { HasForcedLog node.old p }
    requires page { page < PAGES }
    requires agrees { AgreesIn [] node.old p }
    requires lock { ¬ (held_in node.old p page ≡ No) }
    ensures keeps { KeepsLog p node.old node.new }
    ensures agrees { AgreesIn [] node.new p }
    ensures others { (k : ℕ) → ¬ (k ≡ page) → held_in node.new p k ≡ held_in node.old p k }
    ensures reached { Reached node.new }
{
    release(shared, node, p, page);
}

/// Takes the root in turn, alone, with its newest content, puts it back into its frame and lets it go. Answers whether it
/// was had.
fn take_turn<L: Ledger>(
    shared: &Shared,
    node: &mut Node,
    pool: &mut Pool,
    p: u8,
    steps: &mut Steps<L>,
) -> bool
    requires run { node.old.run ≡ shared.now }
    requires frames { node.old.frames ≡ [] }
    requires forced { HasForcedLog node.old p }
    requires pool { pool.old ≡ [] }
    requires agrees { AgreesIn [] node.old p }
    ensures keeps { KeepsLog p node.old node.new }
    ensures pool { result ≡ true → pool.new ≡ [] }
    ensures agrees { result ≡ true → AgreesIn [] node.new p }
{
    let Ok(()) = take_page(shared, node, pool, p, 1, steps) else {
        return false;
    };
    push_page(shared, node, pool, p, 1);
    if drop_clean(pool) {
        let_go(shared, node, p, 1);
        return true;
    }
    false
}

/// Takes the root in turn, so often. Answers how many turns ended.
pub(crate) fn take_turns<L: Ledger>(
    shared: &Shared,
    node: &mut Node,
    pool: &mut Pool,
    p: u8,
    turns: u16,
    steps: &mut Steps<L>,
) -> u16
    requires run { node.old.run ≡ shared.now }
    requires frames { node.old.frames ≡ [] }
    requires forced { HasForcedLog node.old p }
    requires pool { pool.old ≡ [] }
    requires agrees { AgreesIn [] node.old p }
    ensures keeps { KeepsLog p node.old node.new }
    ensures most { result ≤ turns }
{
    for turn in 0..turns {
        if !take_turn(shared, node, pool, p, steps) {
            return turn;
        }
    }
    turns
}
