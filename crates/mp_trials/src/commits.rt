//! Transactions that only begin, look where they stand, prepare, draw, record their commit and publish it, by one thread or by four over one
//! table.
ghost use Rattle.std.specs.Prelude.{◌≡◌, ◌+◌, ◌-◌, ◌*◌, ◌<◌, ◌≤◌, ℕ, []};
ghost use Rattle.mp_core_trx.specs.declared.opening.TheConstants.{SLOTS};
ghost use Rattle.mp_core_trx.specs.declared.event.TrxEvent.TheVariants.{StorePrep};
ghost use Rattle.mp_core.specs.declared.event.CoreEvent.TheVariants.{Trx};
ghost use Rattle.mp_shared.specs.Nodes.{HoldsPart, MayTake, Reached};
ghost use Rattle.mp_trx_fusion.specs.Calls.{MayBeginTrx, MayLook};
ghost use Rattle.mp_trx_fusion.specs.CommitLogs.{MayCommitAt, LogEndsAt};
ghost use Rattle.mp_trials.specs.Versions.{MayCommitEach};

use mp_cells::{Mtr, Record, Records};
use mp_model::{Memory, TrxId};
use mp_page::Pages;
use mp_shared::{Base, Node, Shared};
use mp_trx_fusion::{Begun, begin, draw, prepare, publish, status, view};
use std::alloc::Global;
use std::thread::{Threads, join};

const FRESH: Base = Base {
    ts: 0,
    llsn: 0,
    version: 0,
};

/// How often each transaction looks where it stands.
const LOOKS: u8 = 16;

/// Looks where an ACTIVE transaction of `p` itself stands.
fn look_often(shared: &Shared, node: &mut Node, p: u8, id: TrxId)
    requires run { node.old.run ≡ shared.now }
    requires reached { Reached node.old }
    requires look { MayLook node.old p id }
    requires may { MayTake (Trx (StorePrep p id)) node.old }
    ensures node { (node.new.run ≡ node.old.run) × (node.new.frames ≡ node.old.frames) }
    ensures reached { Reached node.new }
    ensures may { MayTake (Trx (StorePrep p id)) node.new }
    ensures others { (other : ℕ) → MayBeginTrx node.old p other → MayBeginTrx node.new p other }
    ensures log { (llsn version : ℕ) → LogEndsAt node.old p llsn version → LogEndsAt node.new p llsn version }
{
    for _ in 0..LOOKS {
        let _ = status(shared, node, p, id);
    }
}

/// Makes the commit record of a transaction that drew `cts`, in an mtr that follows on the last of `p`, says that it is
/// durable, and publishes the commit.
fn publish_recorded(shared: &Shared, node: &mut Node, p: u8, id: TrxId, cts: u64, mtr: &mut Mtr)
    requires run { node.old.run ≡ shared.now }
    requires reached { Reached node.old }
    requires may { MayCommitAt node.old p id cts }
    requires log { LogEndsAt node.old p mtr.old.llsn id.version }
    requires mtr { (mtr.old.node ≡ p) × (mtr.old.llsn < 200) }
    ensures node { (node.new.run ≡ node.old.run) × (node.new.frames ≡ node.old.frames) }
    ensures part { HoldsPart node.new p }
    ensures log { LogEndsAt node.new p mtr.new.llsn (id.version + 1) }
    ensures mtr { (mtr.new.node ≡ p) × (mtr.new.llsn ≡ mtr.old.llsn + 1) }
    ensures others { (other : ℕ) → MayBeginTrx node.old p other → MayBeginTrx node.new p other }
{
    mtr.llsn += 1;
    mtr.records.clear();
    mtr.records.put(Record::Commit { id, cts });
    shared.store_llsn(node, p, mtr);
    shared.store_durable(node, p, mtr.llsn);
    publish(shared, node, p, id, cts);
}

/// Begins a transaction, looks where it stands, prepares, draws, records its commit and publishes it. Answers the
/// timestamp.
fn commit_one(shared: &Shared, node: &mut Node, p: u8, version: u32, mtr: &mut Mtr) -> u64
    requires run { node.old.run ≡ shared.now }
    requires few { shared.now.opening.trx.begins ≤ SLOTS }
    requires may { MayBeginTrx node.old p version }
    requires log { LogEndsAt node.old p mtr.old.llsn version }
    requires mtr { (mtr.old.node ≡ p) × (mtr.old.llsn < 200) }
    ensures node { (node.new.run ≡ node.old.run) × (node.new.frames ≡ node.old.frames) }
    ensures part { HoldsPart node.new p }
    ensures log { LogEndsAt node.new p mtr.new.llsn (version + 1) }
    ensures mtr { (mtr.new.node ≡ p) × (mtr.new.llsn ≡ mtr.old.llsn + 1) }
    ensures others { (other : ℕ) → ¬ (other ≡ version) → MayBeginTrx node.old p other → MayBeginTrx node.new p other }
{
    let Ok(Begun { id, view: _ }) = begin(shared, node, p, version) else {
        unreachable!()
    };
    look_often(shared, node, p, id);
    prepare(shared, node, p, id);
    let cts = draw(shared, node, p, id);
    publish_recorded(shared, node, p, id, cts, mtr);
    cts
}

/// The timestamps that 200 transactions drew, or that there was no memory for their commit records.
type Drawn = Result<[u64; 200], Memory>;

/// Commits 200 transactions of `p`, with the versions that follow on `after`. The answer has their timestamps.
fn commit_many(alloc: Global, shared: &Shared, mut node: Node, p: u8, after: u32) -> (Node, Drawn)
    requires run { node.run ≡ shared.now }
    requires few { shared.now.opening.trx.begins ≤ SLOTS }
    requires may { MayCommitEach node p after 200 }
    requires fits { after ≤ 600 }
    ensures node { (result.0.run ≡ shared.now) × (result.0.frames ≡ node.frames) }
    ensures part { HoldsPart result.0 p }
{
    let Ok(records) = Records::with_room(alloc) else {
        return (node, Err(Memory));
    };
    let mut mtr = Mtr {
        node: p,
        llsn: 0,
        records,
    };
    let mut drawn = [0; 200];
    for i in 0..200u8 {
        drawn[usize::from(i)] = commit_one(
            shared,
            &mut node,
            p,
            after + 1 + u32::from(i),
            &mut mtr,
        );
    }
    (node, Ok(drawn))
}

/// Two threads do so for two primaries.
fn commit_by_two<R: Threads + Sync>(
    rt: &R,
    alloc: Global,
    shared: &Shared,
    low: Node,
    high: Node,
    p: u8,
    after: u32,
) -> ((Node, Drawn), (Node, Drawn))
    requires run { (low.run ≡ shared.now) × (high.run ≡ shared.now) }
    requires few { shared.now.opening.trx.begins ≤ SLOTS }
    requires may { MayCommitEach low p after 200 × MayCommitEach high (p + 1) (after + 200) 200 }
    requires fits { (after ≤ 400) × (p < 255) }
    ensures low { (result.0.0.run ≡ shared.now) × (result.0.0.frames ≡ low.frames) × HoldsPart result.0.0 p }
    ensures high { (result.1.0.run ≡ shared.now) × (result.1.0.frames ≡ high.frames) × HoldsPart result.1.0 (p + 1) }
{
    join(
        rt,
        move || -> (Node, Drawn)
            requires { (low.run ≡ shared.now) × (shared.now.opening.trx.begins ≤ SLOTS) × MayCommitEach low p after 200 × (after ≤ 400) }
            ensures { (result.0.run ≡ shared.entry.now) × (result.0.frames ≡ low.frames) × HoldsPart result.0 p }
        { commit_many(alloc, shared, low, p, after) },
        move || -> (Node, Drawn)
            requires { (high.run ≡ shared.now) × (shared.now.opening.trx.begins ≤ SLOTS) × MayCommitEach high (p + 1) (after + 200) 200 × (after ≤ 400) × (p < 255) }
            ensures { (result.0.run ≡ shared.entry.now) × (result.0.frames ≡ high.frames) × HoldsPart result.0 (p + 1) }
        { commit_many(alloc, shared, high, p + 1, after + 200) },
    )
}

/// Four threads do so for the primaries 1 to 4.
fn commit_by_four<R: Threads + Sync>(
    rt: &R,
    alloc: Global,
    shared: &Shared,
    first: Node,
    second: Node,
    third: Node,
    fourth: Node,
) -> (
    ((Node, Drawn), (Node, Drawn)),
    ((Node, Drawn), (Node, Drawn)),
)
    requires run { (first.run ≡ shared.now) × (second.run ≡ shared.now) × (third.run ≡ shared.now) × (fourth.run ≡ shared.now) }
    requires few { shared.now.opening.trx.begins ≤ SLOTS }
    requires low { MayCommitEach first 1 0 200 × MayCommitEach second 2 200 200 }
    requires high { MayCommitEach third 3 400 200 × MayCommitEach fourth 4 600 200 }
    ensures run { (result.0.0.0.run ≡ shared.now) × (result.0.1.0.run ≡ shared.now) × (result.1.0.0.run ≡ shared.now) × (result.1.1.0.run ≡ shared.now) }
    ensures frames { (result.0.0.0.frames ≡ first.frames) × (result.0.1.0.frames ≡ second.frames) × (result.1.0.0.frames ≡ third.frames) × (result.1.1.0.frames ≡ fourth.frames) }
    ensures part { HoldsPart result.0.0.0 1 }
{
    join(
        rt,
        move || -> ((Node, Drawn), (Node, Drawn))
            requires { (first.run ≡ shared.now) × (second.run ≡ shared.now) × (shared.now.opening.trx.begins ≤ SLOTS) × MayCommitEach first 1 0 200 × MayCommitEach second 2 200 200 }
            ensures { (result.0.0.run ≡ shared.entry.now) × (result.1.0.run ≡ shared.entry.now) × (result.0.0.frames ≡ first.frames) × (result.1.0.frames ≡ second.frames) × HoldsPart result.0.0 1 }
        { commit_by_two(rt, alloc, shared, first, second, 1, 0) },
        move || -> ((Node, Drawn), (Node, Drawn))
            requires { (third.run ≡ shared.now) × (fourth.run ≡ shared.now) × (shared.now.opening.trx.begins ≤ SLOTS) × MayCommitEach third 3 400 200 × MayCommitEach fourth 4 600 200 }
            ensures { (result.0.0.run ≡ shared.entry.now) × (result.1.0.run ≡ shared.entry.now) × (result.0.0.frames ≡ third.frames) × (result.1.0.frames ≡ fourth.frames) }
        { commit_by_two(rt, alloc, shared, third, fourth, 3, 400) },
    )
}

/// One thread commits 200 transactions of one primary over a fresh store. Answers their timestamps, or that there was no
/// memory for the table or the records.
pub fn commit_alone(alloc: Global) -> Result<[u64; 200], Memory> {
    let pages = Pages::fresh(alloc)?;
    let (shared, node) = Shared::open(alloc, FRESH, 4, 800, pages)?;
    let (node, drawn) = commit_many(alloc, &shared, node, 1, 0);
    drop(node);
    drawn
}

/// The timestamps that the transactions of four primaries drew, and the greatest that was drawn, by the TSO.
#[derive(Clone, Copy, Debug)]
pub struct Together {
    pub drawn: [[u64; 200]; 4],
    pub newest: u64,
}

/// Four threads commit 200 transactions each, of one primary each, over a fresh store. It answers that there was no memory
/// for the table or the records.
pub fn commit_together<R: Threads + Sync>(rt: &R, alloc: Global) -> Result<Together, Memory> {
    let pages = Pages::fresh(alloc)?;
    let (shared, mut first) = Shared::open(alloc, FRESH, 4, 800, pages)?;
    let second = shared.split(&mut first, 2)?;
    let third = shared.split(&mut first, 3)?;
    let fourth = shared.split(&mut first, 4)?;
    let (low, high) = commit_by_four(rt, alloc, &shared, first, second, third, fourth);
    let (first, second) = low;
    let (third, fourth) = high;
    let (mut node, one) = first;
    let (second, two) = second;
    let (third, three) = third;
    let (fourth, four) = fourth;
    shared.join(&mut node, second);
    shared.join(&mut node, third);
    shared.join(&mut node, fourth);
    let newest = view(&shared, &mut node, 1);
    Ok(Together {
        drawn: [one?, two?, three?, four?],
        newest,
    })
}
