//! A page handed from one primary to another: one puts a value, lets its pages go and commits, and two others look.
ghost use Rattle.std.specs.Prelude.{◌≡◌, ℕ, ◌+◌, ◌<◌, ◌≤◌, [], true, length, Some, IfOk, IfSome, IsTrue};
ghost use Rattle.mp_machine.specs.View.{part_in};
ghost use Rattle.mp_core.specs.declared.part.CorePart.{CorePart};
ghost use Rattle.mp_core_pages.specs.declared.opening.TheConstants.{MOST_MTRS};
ghost use Rattle.mp_shared.specs.Nodes.{Reached};
ghost use Rattle.mp_desk.specs.Desks.{IsAtDesk};
ghost use Rattle.mp_desk.specs.Making.{IsOpenLog, MediaAgreeSomehow};
ghost use Rattle.mp_desk.specs.Statements.{ReadsIn};
ghost use Rattle.mp_desk_tests.specs.Handover.{HasFirstPart, KnowsNoPage, HasMade, IsFreshLog};

use mp_desk::{Desk, Media};
use mp_log::Log;
use mp_model::{Memory, Value};
use mp_outside::Disk;
use mp_page::Pages;
use mp_shared::{Base, Node, Shared};
use mp_steps::{Blank, Ledger, Steps};
use mp_trx_fusion::{Begun, begin};
use std::alloc::Global;
use std::marker::Brand;

const FRESH: Base = Base {
    ts: 0,
    llsn: 0,
    version: 0,
};

/// The key that is put.
const KEY: u32 = 7;

/// What two transactions see of the key: one that began before its commit, and one that began after it.
#[derive(Clone, Copy, Debug, PartialEq)]
pub struct Seen {
    pub earlier: Option<Value>,
    pub later: Option<Value>,
}

/// An opened log without an mtr. `None` where it can't be opened, or has mtrs.
pub fn first_log<D: Disk + Drop>(alloc: Global, disk: D, p: u8) -> Option<Log<D>>
    ensures { IfSome result (IsFreshLog D.Disk p) }
{
    let Ok(log) = Log::open(alloc, disk, p) else {
        return None;
    };
    match log.first_above(0) {
        None => Some(log),
        Some(_) => None,
    }
}

/// Begins the one transaction of a primary.
fn begin_first(shared: &Shared, node: &mut Node, p: u8, version: u32) -> Begun
    requires run { node.old.run ≡ shared.now }
    requires frames { node.old.frames ≡ [] }
    requires first { HasFirstPart node.old p 3 }
    requires version { (1 ≤ version) × (version ≤ 3) }
    ensures node { (node.new.run ≡ shared.now) × (node.new.frames ≡ []) }
    ensures fresh { KnowsNoPage node.new p }
    ensures reads { ReadsIn p result node.new }
    ensures reached { Reached node.new }
{
    match begin(shared, node, p, version) {
        Ok(trx) => trx,
        Err(_) => unreachable!(),
    }
}

/// What a transaction sees of the key, at a new desk. `None` where a page or a word couldn't be had.
fn seen_by<L: Ledger>(
    alloc: Global,
    shared: &Shared,
    node: &mut Node,
    p: u8,
    trx: Begun,
    steps: &mut Steps<L>,
) -> Result<Option<Option<Value>>, Memory>
    requires node { (node.old.run ≡ shared.now) × (node.old.frames ≡ []) }
    requires fresh { KnowsNoPage node.old p }
    requires reads { ReadsIn p trx node.old }
    requires reached { Reached node.old }
{
    let mut desk = Desk::new(alloc, p, 0)?;
    Ok(desk.get(shared, node, p, trx, KEY, steps).ok())
}

/// Puts a value at the key, and lets all pages go. Answers whether that was done.
fn put_and_let_go<D: Disk, L: Ledger>(
    desk: &mut Desk,
    media: &mut Media<D>,
    shared: &Shared,
    node: &mut Node,
    p: u8,
    trx: Begun,
    steps: &mut Steps<L>,
) -> bool
    requires desk { IsAtDesk shared.now desk.old p node.old }
    requires own { (desk.old.mtr.node ≡ p) × (desk.old.pool ≡ []) }
    requires reads { ReadsIn p trx node.old }
    requires few { (q : CorePart) → part_in node.old.parts p ≡ Some q → length q.pages.made < MOST_MTRS }
    requires log { IsOpenLog p desk.old.llsn media.old.log }
    requires agrees { MediaAgreeSomehow D.Disk media.old p node.old }
    ensures desk { result ≡ true → IsAtDesk shared.now desk.new p node.new }
    ensures own { result ≡ true → (desk.new.mtr.node ≡ p) × (desk.new.pool ≡ []) }
    ensures reads { result ≡ true → ReadsIn p trx node.new }
    ensures made { (count : ℕ) → HasMade node.old p count → result ≡ true → HasMade node.new p (count + 1) }
    ensures log { result ≡ true → IsOpenLog p desk.new.llsn media.new.log }
    ensures agrees { result ≡ true → MediaAgreeSomehow D.Disk media.new p node.new }
{
    let value = Value::read(b"handed");
    let Ok(_former) = desk.put(media, shared, node, p, trx, KEY, value, steps) else {
        return false;
    };
    match desk.let_go(media, shared, node, p) {
        Ok(()) => true,
        Err(_) => false,
    }
}

/// Puts a value at the key, lets all pages go, and commits. Answers whether all was done.
fn put_and_commit<D: Disk + Drop, L: Ledger>(
    alloc: Global,
    log: Log<D>,
    shared: &Shared,
    node: &mut Node,
    p: u8,
    trx: Begun,
    steps: &mut Steps<L>,
) -> Result<bool, Memory>
    requires node { (node.old.run ≡ shared.now) × (node.old.frames ≡ []) }
    requires fresh { KnowsNoPage node.old p }
    requires reads { ReadsIn p trx node.old }
    requires reached { Reached node.old }
    requires log { IsFreshLog D.Disk p log }
{
    let mut desk = Desk::new(alloc, p, 0)?;
    let mut media = Media {
        log,
        unforced: false,
    };
    if !put_and_let_go(&mut desk, &mut media, shared, node, p, trx, steps) {
        return Ok(false);
    }
    match desk.commit_trx(&mut media, shared, node, p, trx) {
        Ok(_cts) => Ok(true),
        Err(_) => Ok(false),
    }
}

/// Primary 3 begins a transaction, primary 1 puts the key's value, lets its pages go and commits, and primary 2 begins one;
/// then both look.
fn hand_over_counted<D: Disk + Drop, L: Ledger>(
    blank: Blank,
    alloc: Global,
    disk: D,
) -> Result<Option<Seen>, Memory>
    requires name { blank.name ≡ L.name }
    requires parts { (blank.parts ≡ L.parts) × (0 < L.parts) }
{
    let mut steps = Steps::<L>::new(blank);
    let Some(log) = first_log(alloc, disk, 1) else {
        return Ok(None);
    };
    let pages = Pages::fresh(alloc)?;
    let (shared, mut first) = Shared::open(alloc, FRESH, 3, 3, pages)?;
    let mut second = shared.split(&mut first, 2)?;
    let mut third = shared.split(&mut first, 3)?;
    let before = begin_first(&shared, &mut third, 3, 1);
    let writer = begin_first(&shared, &mut first, 1, 2);
    if !put_and_commit(alloc, log, &shared, &mut first, 1, writer, &mut steps)? {
        return Ok(None);
    }
    let after = begin_first(&shared, &mut second, 2, 3);
    let later = seen_by(alloc, &shared, &mut second, 2, after, &mut steps)?;
    let earlier = seen_by(alloc, &shared, &mut third, 3, before, &mut steps)?;
    match (earlier, later) {
        (Some(earlier), Some(later)) => Ok(Some(Seen { earlier, later })),
        _ => Ok(None),
    }
}

/// One primary puts a value, lets its pages go and commits, over this disk for its log; a transaction of another began
/// before, and one of a third begins after. Answers what both see. `None` where something could not be had. `Memory` only
/// for want of memory.
pub fn hand_over<D: Disk + Drop>(alloc: Global, disk: D) -> Result<Option<Seen>, Memory> {
    hand_over_counted::<D, Brand>(Blank::new(1), alloc, disk)
}
