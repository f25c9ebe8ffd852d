//! One primary, or four by a thread each, that change one page in turn.
ghost use Rattle.std.specs.Prelude.{◌≡◌, ℕ, ◌+◌, ◌<◌, ◌≤◌, [], true, None, Some, IfSome, IfOk};
ghost use Rattle.mp_desk.specs.Statements.{ReadsIn};
ghost use Rattle.mp_shared.specs.Nodes.{Reached};
ghost use Rattle.mp_desk_tests.specs.Handover.{HasFirstPart, KnowsNoPage};
ghost use Rattle.mp_changes.specs.Changing.{HasPutInTurn, HasNoPageLeft, HasChanged, RefusedPut, changed_text, may_retry};

use crate::changes::{Turns, change_in_turn};
use crate::stops::Stop;
use mp_desk::{Desk, Media};
use mp_desk_tests::first_log;
use mp_model::Memory;
use mp_outside::{Disk, MemDisk};
use mp_page::Pages;
use mp_shared::{Base, Node, Shared};
use mp_steps::{Blank, Ledger, Steps};
use mp_trx_fusion::{Begun, begin};
use std::alloc::Global;
use std::marker::Brand;
use std::thread::{Threads, join};

const FRESH: Base = Base {
    ts: 0,
    llsn: 0,
    version: 0,
};

/// The room of a primary's log in memory, in bytes.
const LOG_ROOM: u64 = 1_048_576;

/// What a primary did: its node, how often it put its value, and why it stopped, where it did so before its last turn was
/// over.
#[derive(Drop)]
pub struct Changed {
    pub node: Node,
    pub done: u16,
    pub stop: Option<Stop>,
}

/// What four primaries did.
#[derive(Drop)]
pub struct Rivals {
    pub first: Changed,
    pub second: Changed,
    pub third: Changed,
    pub fourth: Changed,
}

/// The same of one, as it comes from a thread.
type Ended = (Node, u16, Option<Stop>);

/// Begins the one transaction of a primary.
fn begin_one(shared: &Shared, node: &mut Node, p: u8, version: u32) -> Begun
    requires run { node.old.run ≡ shared.now }
    requires frames { node.old.frames ≡ [] }
    requires first { HasFirstPart node.old p 4 }
    requires version { (1 ≤ version) × (version ≤ 4) }
    ensures node { (node.new.run ≡ shared.now) × (node.new.frames ≡ []) }
    ensures fresh { KnowsNoPage node.new p }
    ensures reads { ReadsIn p result node.new }
    ensures reached { Reached node.new }
{
    match begin(shared, node, p, version) {
        Ok(trx) => trx,
        Err(_) => unreachable!(),
    }
}

/// What the turns of a primary came to.
fn ended_of(node: Node, turns: Turns) -> Ended
    ensures { (p : ℕ) (key : ℕ) (count : ℕ) → turns.done ≤ count → HasPutInTurn node p key (Some changed_text) turns.done
        → (turns.halt ≡ None → turns.done ≡ count) → (may_retry turns.halt ≡ true → HasNoPageLeft node p)
        → IfSome turns.halt (RefusedPut p key node) → HasChanged p key count (Some changed_text) result.0 result.1 result.2 }
{
    match turns.halt {
        None => (node, turns.done, None),
        Some(halt) => (node, turns.done, Some(Stop::Refused(halt))),
    }
}

/// Puts the value at a key for `p`, so often, over this disk for its log, with a count of steps of its own.
fn changes_of<D: Disk + Drop, L: Ledger>(
    blank: Blank,
    alloc: Global,
    disk: D,
    shared: &Shared,
    mut node: Node,
    p: u8,
    key: u32,
    count: u16,
) -> Ended
    requires name { blank.name ≡ L.name }
    requires parts { (blank.parts ≡ L.parts) × (0 < L.parts) }
    requires run { node.run ≡ shared.now }
    requires frames { node.frames ≡ [] }
    requires first { HasFirstPart node p 4 }
    requires number { (1 ≤ p) × (p ≤ 4) }
    requires few { count ≤ 10000 }
    ensures { HasChanged p key count (Some changed_text) result.0 result.1 result.2 }
{
    let mut steps = Steps::<L>::new(blank);
    let trx = begin_one(shared, &mut node, p, u32::from(p));
    let Some(log) = first_log(alloc, disk, p) else {
        return (node, 0, Some(Stop::Unopened));
    };
    let Ok(mut desk) = Desk::new(alloc, p, 0) else {
        return (node, 0, Some(Stop::Unopened));
    };
    let mut media = Media {
        log,
        unforced: false,
    };
    let turns = change_in_turn(
        &mut desk, &mut media, shared, &mut node, p, trx, key, count, &mut steps,
    );
    ended_of(node, turns)
}

/// Puts the value at a key for `p`, so often, over this disk for its log.
fn changes_over<D: Disk + Drop>(
    alloc: Global,
    disk: D,
    shared: &Shared,
    node: Node,
    p: u8,
    key: u32,
    count: u16,
) -> Ended
    requires run { node.run ≡ shared.now }
    requires frames { node.frames ≡ [] }
    requires first { HasFirstPart node p 4 }
    requires number { (1 ≤ p) × (p ≤ 4) }
    requires few { count ≤ 10000 }
    ensures { HasChanged p key count (Some changed_text) result.0 result.1 result.2 }
{
    changes_of::<D, Brand>(Blank::new(1), alloc, disk, shared, node, p, key, count)
}

/// Puts the value at a key for `p`, so often, over a log in memory.
fn changes_by(alloc: Global, shared: &Shared, node: Node, p: u8, key: u32, count: u16) -> Ended
    requires run { node.run ≡ shared.now }
    requires frames { node.frames ≡ [] }
    requires first { HasFirstPart node p 4 }
    requires number { (1 ≤ p) × (p ≤ 4) }
    requires few { count ≤ 10000 }
    ensures { HasChanged p key count (Some changed_text) result.0 result.1 result.2 }
{
    let Ok(disk) = MemDisk::new(alloc, &[0], LOG_ROOM, &[]) else {
        return (node, 0, Some(Stop::Unopened));
    };
    changes_over(alloc, disk, shared, node, p, key, count)
}

/// Two threads do so for two primaries, each at a key of its own.
fn changes_by_two<R: Threads + Sync>(
    rt: &R,
    alloc: Global,
    shared: &Shared,
    low: Node,
    high: Node,
    p: u8,
    key: u32,
    count: u16,
) -> (Ended, Ended)
    requires run { (low.run ≡ shared.now) × (high.run ≡ shared.now) }
    requires frames { (low.frames ≡ []) × (high.frames ≡ []) }
    requires first { HasFirstPart low p 4 × HasFirstPart high (p + 1) 4 }
    requires number { (1 ≤ p) × (p ≤ 3) × (key ≤ 3) }
    requires few { count ≤ 10000 }
    ensures low { HasChanged p key count (Some changed_text) result.0.0 result.0.1 result.0.2 }
    ensures high { HasChanged (p + 1) (key + 1) count (Some changed_text) result.1.0 result.1.1 result.1.2 }
{
    join(
        rt,
        move || -> Ended
            requires { (low.run ≡ shared.now) × (low.frames ≡ []) × HasFirstPart low p 4 × (1 ≤ p) × (p ≤ 3) × (key ≤ 3) × (count ≤ 10000) }
            ensures { HasChanged p key count (Some changed_text) result.0 result.1 result.2 }
        { changes_by(alloc, shared, low, p, key, count) },
        move || -> Ended
            requires { (high.run ≡ shared.now) × (high.frames ≡ []) × HasFirstPart high (p + 1) 4 × (1 ≤ p) × (p ≤ 3) × (key ≤ 3) × (count ≤ 10000) }
            ensures { HasChanged (p + 1) (key + 1) count (Some changed_text) result.0 result.1 result.2 }
        { changes_by(alloc, shared, high, p + 1, key + 1, count) },
    )
}

/// Four threads do so for the primaries 1 to 4.
fn changes_by_four<R: Threads + Sync>(
    rt: &R,
    alloc: Global,
    shared: &Shared,
    first: Node,
    second: Node,
    third: Node,
    fourth: Node,
    count: u16,
) -> ((Ended, Ended), (Ended, Ended))
    requires run { (first.run ≡ shared.now) × (second.run ≡ shared.now) × (third.run ≡ shared.now) × (fourth.run ≡ shared.now) }
    requires frames { (first.frames ≡ []) × (second.frames ≡ []) × (third.frames ≡ []) × (fourth.frames ≡ []) }
    requires low { HasFirstPart first 1 4 × HasFirstPart second 2 4 }
    requires high { HasFirstPart third 3 4 × HasFirstPart fourth 4 4 }
    requires few { count ≤ 10000 }
    ensures first { HasChanged 1 1 count (Some changed_text) result.0.0.0 result.0.0.1 result.0.0.2 }
    ensures second { HasChanged 2 2 count (Some changed_text) result.0.1.0 result.0.1.1 result.0.1.2 }
    ensures third { HasChanged 3 3 count (Some changed_text) result.1.0.0 result.1.0.1 result.1.0.2 }
    ensures fourth { HasChanged 4 4 count (Some changed_text) result.1.1.0 result.1.1.1 result.1.1.2 }
{
    join(
        rt,
        move || -> (Ended, Ended)
            requires { (first.run ≡ shared.now) × (second.run ≡ shared.now) × (first.frames ≡ []) × (second.frames ≡ [])
                × HasFirstPart first 1 4 × HasFirstPart second 2 4 × (count ≤ 10000) }
            ensures { HasChanged 1 1 count (Some changed_text) result.0.0 result.0.1 result.0.2
                × HasChanged 2 2 count (Some changed_text) result.1.0 result.1.1 result.1.2 }
        { changes_by_two(rt, alloc, shared, first, second, 1, 1, count) },
        move || -> (Ended, Ended)
            requires { (third.run ≡ shared.now) × (fourth.run ≡ shared.now) × (third.frames ≡ []) × (fourth.frames ≡ [])
                × HasFirstPart third 3 4 × HasFirstPart fourth 4 4 × (count ≤ 10000) }
            ensures { HasChanged 3 3 count (Some changed_text) result.0.0 result.0.1 result.0.2
                × HasChanged 4 4 count (Some changed_text) result.1.0 result.1.1 result.1.2 }
        { changes_by_two(rt, alloc, shared, third, fourth, 3, 3, count) },
    )
}

/// One thread changes the root of a fresh store in turn for one primary, over this disk for its log, so often (at most
/// 10,000): each time its transaction puts `changed` at key 1, and the primary forces its log, puts the pages that it changed
/// into their frames and lets all pages go. Answers the primary's node, how many puts it made, and why it stopped, where it
/// did so early. The disk and what it holds go with the log. At `Err` there was no memory for the table.
pub fn changes_alone<D: Disk + Drop>(alloc: Global, disk: D, count: u16) -> Result<Changed, Memory>
    requires { count ≤ 10000 }
    ensures { IfOk result (λ c. HasChanged 1 1 count (Some changed_text) c.node c.done c.stop) }
{
    let pages = Pages::fresh(alloc)?;
    let (shared, node) = Shared::open(alloc, FRESH, 4, 4, pages)?;
    let (node, done, stop) = changes_over(alloc, disk, &shared, node, 1, 1, count);
    Ok(Changed { node, done, stop })
}

/// Four threads do so at a time, for one primary each, over logs in memory, so often each (at most 10,000): each primary has
/// a transaction and a key of its own, its number, and all keys are in the root. One that can't have a page lets its pages go
/// and tries again. Answers the same of each primary. At `Err` there was no memory for the table.
pub fn changes_together<R: Threads + Sync>(
    rt: &R,
    alloc: Global,
    count: u16,
) -> Result<Rivals, Memory>
    requires { count ≤ 10000 }
    ensures first { IfOk result (λ r. HasChanged 1 1 count (Some changed_text) r.first.node r.first.done r.first.stop) }
    ensures second { IfOk result (λ r. HasChanged 2 2 count (Some changed_text) r.second.node r.second.done r.second.stop) }
    ensures third { IfOk result (λ r. HasChanged 3 3 count (Some changed_text) r.third.node r.third.done r.third.stop) }
    ensures fourth { IfOk result (λ r. HasChanged 4 4 count (Some changed_text) r.fourth.node r.fourth.done r.fourth.stop) }
{
    let pages = Pages::fresh(alloc)?;
    let (shared, mut first) = Shared::open(alloc, FRESH, 4, 4, pages)?;
    let second = shared.split(&mut first, 2)?;
    let third = shared.split(&mut first, 3)?;
    let fourth = shared.split(&mut first, 4)?;
    let (low, high) = changes_by_four(rt, alloc, &shared, first, second, third, fourth, count);
    let ((first, one, first_stop), (second, two, second_stop)) = low;
    let ((third, three, third_stop), (fourth, four, fourth_stop)) = high;
    Ok(Rivals {
        first: Changed {
            node: first,
            done: one,
            stop: first_stop,
        },
        second: Changed {
            node: second,
            done: two,
            stop: second_stop,
        },
        third: Changed {
            node: third,
            done: three,
            stop: third_stop,
        },
        fourth: Changed {
            node: fourth,
            done: four,
            stop: fourth_stop,
        },
    })
}
