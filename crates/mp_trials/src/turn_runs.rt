//! One primary, or four by a thread each, that take one page in turn.
ghost use Rattle.std.specs.Prelude.{◌≡◌, ◌+◌, ◌*◌, ◌<◌, ◌≤◌, [], IfOk};
ghost use Rattle.mp_trials.specs.Turns.{HasForced};

use crate::turns::take_turns;
use mp_buffer_fusion::{Blank, Ledger, Pool, Steps};
use mp_model::Memory;
use mp_page::Pages;
use mp_shared::{Base, Node, Shared};
use std::alloc::Global;
use std::marker::Brand;
use std::thread::{Threads, join};

const FRESH: Base = Base {
    ts: 0,
    llsn: 0,
    version: 0,
};

/// A node, and how many of its turns ended.
type Ended = (Node, u16);

/// Takes the root in turn for `p`, so often, with a count of steps of its own. No turn ends where there is no memory for
/// the buffers.
fn turns_of<L: Ledger>(
    blank: Blank,
    alloc: Global,
    shared: &Shared,
    mut node: Node,
    p: u8,
    turns: u16,
) -> Ended
    requires name { blank.name ≡ L.name }
    requires parts { (blank.parts ≡ L.parts) × (0 < L.parts) }
    requires run { node.run ≡ shared.now }
    requires frames { node.frames ≡ [] }
    requires forced { HasForced node p 0 }
    ensures node { (result.0.run ≡ shared.now) × (result.0.frames ≡ []) }
    ensures most { result.1 ≤ turns }
{
    let mut steps = Steps::<L>::new(blank);
    let Ok(mut pool) = Pool::new(alloc) else {
        return (node, 0);
    };
    let ended = take_turns(shared, &mut node, &mut pool, p, turns, &mut steps);
    (node, ended)
}

/// Takes the root in turn for `p`, so often.
fn turns_by(alloc: Global, shared: &Shared, node: Node, p: u8, turns: u16) -> Ended
    requires run { node.run ≡ shared.now }
    requires frames { node.frames ≡ [] }
    requires forced { HasForced node p 0 }
    ensures node { (result.0.run ≡ shared.now) × (result.0.frames ≡ []) }
    ensures most { result.1 ≤ turns }
{
    turns_of::<Brand>(Blank::new(1), alloc, shared, node, p, turns)
}

/// Two threads do so for two primaries.
fn turns_by_two<R: Threads + Sync>(
    rt: &R,
    alloc: Global,
    shared: &Shared,
    low: Node,
    high: Node,
    p: u8,
    turns: u16,
) -> (Ended, Ended)
    requires run { (low.run ≡ shared.now) × (high.run ≡ shared.now) }
    requires frames { (low.frames ≡ []) × (high.frames ≡ []) }
    requires forced { HasForced low p 0 × HasForced high (p + 1) 0 }
    requires fits { p < 255 }
    ensures low { (result.0.0.run ≡ shared.now) × (result.0.0.frames ≡ []) }
    ensures high { (result.1.0.run ≡ shared.now) × (result.1.0.frames ≡ []) }
    ensures most { (result.0.1 ≤ turns) × (result.1.1 ≤ turns) }
{
    join(
        rt,
        move || -> Ended
            requires { (low.run ≡ shared.now) × (low.frames ≡ []) × HasForced low p 0 }
            ensures { (result.0.run ≡ shared.entry.now) × (result.0.frames ≡ []) × (result.1 ≤ turns) }
        { turns_by(alloc, shared, low, p, turns) },
        move || -> Ended
            requires { (high.run ≡ shared.now) × (high.frames ≡ []) × HasForced high (p + 1) 0 × (p < 255) }
            ensures { (result.0.run ≡ shared.entry.now) × (result.0.frames ≡ []) × (result.1 ≤ turns) }
        { turns_by(alloc, shared, high, p + 1, turns) },
    )
}

/// Four threads do so for the primaries 1 to 4.
fn turns_by_four<R: Threads + Sync>(
    rt: &R,
    alloc: Global,
    shared: &Shared,
    first: Node,
    second: Node,
    third: Node,
    fourth: Node,
    turns: u16,
) -> ((Ended, Ended), (Ended, Ended))
    requires run { (first.run ≡ shared.now) × (second.run ≡ shared.now) × (third.run ≡ shared.now) × (fourth.run ≡ shared.now) }
    requires frames { (first.frames ≡ []) × (second.frames ≡ []) × (third.frames ≡ []) × (fourth.frames ≡ []) }
    requires low { HasForced first 1 0 × HasForced second 2 0 }
    requires high { HasForced third 3 0 × HasForced fourth 4 0 }
    ensures low { (result.0.0.1 ≤ turns) × (result.0.1.1 ≤ turns) }
    ensures high { (result.1.0.1 ≤ turns) × (result.1.1.1 ≤ turns) }
{
    join(
        rt,
        move || -> (Ended, Ended)
            requires { (first.run ≡ shared.now) × (second.run ≡ shared.now) × (first.frames ≡ []) × (second.frames ≡ [])
                × HasForced first 1 0 × HasForced second 2 0 }
            ensures { (result.0.1 ≤ turns) × (result.1.1 ≤ turns) }
        { turns_by_two(rt, alloc, shared, first, second, 1, turns) },
        move || -> (Ended, Ended)
            requires { (third.run ≡ shared.now) × (fourth.run ≡ shared.now) × (third.frames ≡ []) × (fourth.frames ≡ [])
                × HasForced third 3 0 × HasForced fourth 4 0 }
            ensures { (result.0.1 ≤ turns) × (result.1.1 ≤ turns) }
        { turns_by_two(rt, alloc, shared, third, fourth, 3, turns) },
    )
}

/// One thread takes the root of a fresh store in turn for one primary, so often: each time it comes to write it, alone, has
/// its newest content from its frame, puts that back into the frame and lets the page go, by six steps. Answers how many
/// turns ended: fewer where there was no memory for the buffers. At `Err` there was none for the table.
pub fn turns_alone(alloc: Global, turns: u16) -> Result<u64, Memory>
    ensures { IfOk result (λ ended. ended ≤ turns) }
{
    let pages = Pages::fresh(alloc)?;
    let (shared, node) = Shared::open(alloc, FRESH, 4, 4, pages)?;
    let (node, ended) = turns_by(alloc, &shared, node, 1, turns);
    drop(node);
    Ok(u64::from(ended))
}

/// Four threads do so, for one primary each, so often each. Answers how many turns ended in all: fewer where there was no
/// memory for the buffers, or a primary tried in vain. At `Err` there was no memory for the table.
pub fn turns_together<R: Threads + Sync>(rt: &R, alloc: Global, turns: u16) -> Result<u64, Memory>
    ensures { IfOk result (λ ended. ended ≤ 4 * turns) }
{
    let pages = Pages::fresh(alloc)?;
    let (shared, mut first) = Shared::open(alloc, FRESH, 4, 4, pages)?;
    let second = shared.split(&mut first, 2)?;
    let third = shared.split(&mut first, 3)?;
    let fourth = shared.split(&mut first, 4)?;
    let (low, high) = turns_by_four(rt, alloc, &shared, first, second, third, fourth, turns);
    let ((first, one), (second, two)) = low;
    let ((third, three), (fourth, four)) = high;
    drop(first);
    drop(second);
    drop(third);
    drop(fourth);
    Ok(u64::from(one) + u64::from(two) + u64::from(three) + u64::from(four))
}
