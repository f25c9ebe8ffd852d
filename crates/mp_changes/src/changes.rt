//! A page changed in turn: one primary puts a value at a key and lets all pages go, and tries again where another has a page.
ghost use Rattle.std.specs.Prelude.{◌≡◌, ℕ, ◌+◌, ◌<◌, ◌≤◌, ◌⊎◌, true, false, Some, None, Err, IfSome, IfErr, OnOk, OnErr};
ghost use Rattle.mp_core.specs.CoreExtends.{CoreExtends};
ghost use Rattle.mp_core_trx.specs.declared.part.Begun.{Begun};
ghost use Rattle.mp_core_pages.specs.declared.opening.TheConstants.{MOST_MTRS};
ghost use Rattle.mp_outside.specs.Faults.{Rose};
ghost use Rattle.mp_desk.specs.declared.halts.WriteHalt.TheVariants as halts;
ghost use Rattle.mp_desk.specs.Desks.{IsAtDesk, Moves};
ghost use Rattle.mp_desk.specs.Making.{IsOpenLog, MediaAgreeSomehow};
ghost use Rattle.mp_desk.specs.Statements.{ReadsIn};
ghost use Rattle.mp_desk.specs.Writes.{HaltsWrite};
ghost use Rattle.mp_changes.specs.Changing.{HasPutInTurn, MayChange, RefusedPut, changed_text, may_retry, with_put};

use mp_desk::{Desk, Media, WriteHalt};
use mp_model::Value;
use mp_outside::Disk;
use mp_shared::{Node, Shared};
use mp_steps::{Ledger, Steps};
use mp_trx_fusion::Begun;
use std::thread::yield_now;

/// How often a put is tried while other primaries have its pages, before the last try.
const TRIES: u32 = 100_000_000;

/// What a try to put a value came to: whether the mtr was made, and what stopped the put or the letting go behind it.
#[derive(Clone, Copy)]
struct Tried {
    put: bool,
    halt: Option<WriteHalt>,
}

/// What a primary did of its turns: how often its value was put, and what stopped it, if something did.
#[derive(Clone, Copy)]
pub struct Turns {
    pub done: u16,
    pub halt: Option<WriteHalt>,
}

/// The value that is put.
fn changed_value() -> Option<Value>
    ensures { result ≡ Some changed_text }
{
    Value::read(b"changed")
}

/// Tries once to put the value at a key.
fn try_put<D: Disk, L: Ledger>(
    desk: &mut Desk,
    media: &mut Media<D>,
    shared: &Shared,
    node: &mut Node,
    p: u8,
    trx: Begun,
    key: u32,
    steps: &mut Steps<L>,
) -> Result<(), WriteHalt>
    requires may { MayChange D.Disk shared.now desk.old media.old p trx node.old }
    requires few { (count : ℕ) × HasPutInTurn node.old p key (Some changed_text) count × (count < MOST_MTRS) }
    ensures desk { IsAtDesk shared.now desk.new p node.new }
    ensures own { desk.new.mtr.node ≡ p }
    ensures reads { ReadsIn p trx node.new }
    ensures put { OnOk result ((count : ℕ) → HasPutInTurn node.old p key (Some changed_text) count → HasPutInTurn node.new p key (Some changed_text) (count + 1)) }
    ensures kept { OnErr result ((count : ℕ) → HasPutInTurn node.old p key (Some changed_text) count → HasPutInTurn node.new p key (Some changed_text) count) }
    ensures open { OnOk result (IsOpenLog p desk.new.llsn media.new.log × MediaAgreeSomehow D.Disk media.new p node.new) }
    ensures still { IfErr result (λ halt. may_retry (Some halt) ≡ true
        → IsOpenLog p desk.new.llsn media.new.log × MediaAgreeSomehow D.Disk media.new p node.new) }
    ensures cause { IfErr result (HaltsWrite p trx key node.old node.new) }
    ensures failed { result ≡ Err halts.Failed
        → (media.new.log.tail.live ≡ false) × Rose (D.faults media.old.log.disk) (D.faults media.new.log.disk) }
    ensures counted { D.faults media.old.log.disk ≤ D.faults media.new.log.disk }
{
    match desk.put(media, shared, node, p, trx, key, changed_value(), steps) {
        Ok(_former) => Ok(()),
        Err(halt) => Err(halt),
    }
}

/// Lets all pages go behind a try that came to this. Where the log's disk fails in it, no page is let go.
fn leave_all<D: Disk>(
    desk: &mut Desk,
    media: &mut Media<D>,
    shared: &Shared,
    node: &mut Node,
    p: u8,
    put: bool,
    halt: Option<WriteHalt>,
) -> Tried
    requires desk { IsAtDesk shared.now desk.old p node.old }
    requires own { desk.old.mtr.node ≡ p }
    requires log { IsOpenLog p desk.old.llsn media.old.log }
    requires agrees { MediaAgreeSomehow D.Disk media.old p node.old }
    ensures as_put { result.put ≡ put }
    ensures may { (trx : Begun) → ReadsIn p trx node.old → may_retry result.halt ≡ true
        → MayChange D.Disk shared.now desk.new media.new p trx node.new }
    ensures kept { (key : ℕ) (count : ℕ) → HasPutInTurn node.old p key (Some changed_text) count
        → HasPutInTurn node.new p key (Some changed_text) count }
    ensures goes { Moves CoreExtends p node.old node.new }
    ensures left { (result.halt ≡ halt) ⊎ ((result.halt ≡ Some halts.Failed)
        × (media.new.log.tail.live ≡ false) × Rose (D.faults media.old.log.disk) (D.faults media.new.log.disk)) }
    ensures counted { D.faults media.old.log.disk ≤ D.faults media.new.log.disk }
{
    match desk.let_go(media, shared, node, p) {
        Ok(()) => Tried { put, halt },
        Err(_) => Tried {
            put,
            halt: Some(WriteHalt::Failed),
        },
    }
}

/// Whether a put was refused since a page couldn't be had.
fn is_wait(halt: WriteHalt) -> bool
    ensures { result ≡ may_retry (Some halt) }
{
    match halt {
        WriteHalt::Word(_) => true,
        _ => false,
    }
}

/// Tries once to put the value at a key, and lets all pages go where it was put or a page couldn't be had.
fn put_in_turn<D: Disk, L: Ledger>(
    desk: &mut Desk,
    media: &mut Media<D>,
    shared: &Shared,
    node: &mut Node,
    p: u8,
    trx: Begun,
    key: u32,
    steps: &mut Steps<L>,
) -> Tried
    requires may { MayChange D.Disk shared.now desk.old media.old p trx node.old }
    requires few { (count : ℕ) × HasPutInTurn node.old p key (Some changed_text) count × (count < MOST_MTRS) }
    ensures put { (count : ℕ) → HasPutInTurn node.old p key (Some changed_text) count
        → HasPutInTurn node.new p key (Some changed_text) (with_put result.put count) }
    ensures may { may_retry result.halt ≡ true → MayChange D.Disk shared.now desk.new media.new p trx node.new }
    ensures all { result.halt ≡ None → result.put ≡ true }
    ensures cause { IfSome result.halt (RefusedPut p key node.new) }
    ensures failed { result.halt ≡ Some halts.Failed
        → (media.new.log.tail.live ≡ false) × Rose (D.faults media.old.log.disk) (D.faults media.new.log.disk) }
    ensures counted { D.faults media.old.log.disk ≤ D.faults media.new.log.disk }
{
    match try_put(desk, media, shared, node, p, trx, key, steps) {
        Ok(()) => leave_all(desk, media, shared, node, p, true, None),
        Err(halt) => {
            if !is_wait(halt) {
                return Tried {
                    put: false,
                    halt: Some(halt),
                };
            }
            leave_all(desk, media, shared, node, p, false, Some(halt))
        }
    }
}

/// Whether a page couldn't be had and nothing was put, so that the put may be tried again.
fn is_missed(tried: Tried) -> bool
    ensures { result ≡ true → (tried.put ≡ false) × (may_retry tried.halt ≡ true) }
{
    match tried.halt {
        Some(WriteHalt::Word(_)) => !tried.put,
        _ => false,
    }
}

/// Puts the value at a key and lets all pages go; where another primary has a page, it lets the pages go, lets another thread
/// run and tries again.
fn put_at_last<D: Disk, L: Ledger>(
    desk: &mut Desk,
    media: &mut Media<D>,
    shared: &Shared,
    node: &mut Node,
    p: u8,
    trx: Begun,
    key: u32,
    steps: &mut Steps<L>,
) -> Tried
    requires may { MayChange D.Disk shared.now desk.old media.old p trx node.old }
    requires few { (count : ℕ) × HasPutInTurn node.old p key (Some changed_text) count × (count < MOST_MTRS) }
    ensures put { (count : ℕ) → HasPutInTurn node.old p key (Some changed_text) count
        → HasPutInTurn node.new p key (Some changed_text) (with_put result.put count) }
    ensures may { may_retry result.halt ≡ true → MayChange D.Disk shared.now desk.new media.new p trx node.new }
    ensures all { result.halt ≡ None → result.put ≡ true }
    ensures cause { IfSome result.halt (RefusedPut p key node.new) }
    ensures failed { result.halt ≡ Some halts.Failed
        → (media.new.log.tail.live ≡ false) × Rose (D.faults media.old.log.disk) (D.faults media.new.log.disk) }
    ensures counted { D.faults media.old.log.disk ≤ D.faults media.new.log.disk }
{
    for _ in 0..TRIES {
        let tried = put_in_turn(desk, media, shared, node, p, trx, key, steps);
        if !is_missed(tried) {
            return tried;
        }
        yield_now();
    }
    put_in_turn(desk, media, shared, node, p, trx, key, steps)
}

/// How many puts were made behind a turn.
fn done_after(before: u16, put: bool) -> u16
    requires { before < 10000 }
    ensures { result ≡ with_put put before }
{
    if put { before + 1 } else { before }
}

/// Changes a page in turn, so often (at most 10,000): each time an open transaction of the primary puts `changed` at a key,
/// and the primary forces its log, puts the pages that it changed into their frames and lets all pages go. Where another primary
/// has a page, it lets its own go, lets another thread run and tries again. `done` counts the mtrs that were made, also that
/// of a turn whose pages weren't let go. `halt` is why it stopped before the end of its last turn: a page couldn't be had in
/// 100,000,001 tries, another transaction withstands the put, the store is full, or the log's disk failed.
pub fn change_in_turn<D: Disk, L: Ledger>(
    desk: &mut Desk,
    media: &mut Media<D>,
    shared: &Shared,
    node: &mut Node,
    p: u8,
    trx: Begun,
    key: u32,
    count: u16,
    steps: &mut Steps<L>,
) -> Turns
    requires may { MayChange D.Disk shared.now desk.old media.old p trx node.old }
    requires none { HasPutInTurn node.old p key (Some changed_text) 0 }
    requires few { count ≤ 10000 }
    ensures most { result.done ≤ count }
    ensures put { HasPutInTurn node.new p key (Some changed_text) result.done }
    ensures all { result.halt ≡ None → result.done ≡ count }
    ensures may { may_retry result.halt ≡ true → MayChange D.Disk shared.now desk.new media.new p trx node.new }
    ensures cause { IfSome result.halt (RefusedPut p key node.new) }
    ensures failed { result.halt ≡ Some halts.Failed
        → (media.new.log.tail.live ≡ false) × Rose (D.faults media.old.log.disk) (D.faults media.new.log.disk) }
    ensures counted { D.faults media.old.log.disk ≤ D.faults media.new.log.disk }
{
    for turn in 0..count {
        let tried = put_at_last(desk, media, shared, node, p, trx, key, steps);
        match tried.halt {
            None => {}
            Some(_) => {
                return Turns {
                    done: done_after(turn, tried.put),
                    halt: tried.halt,
                };
            }
        }
    }
    Turns {
        done: count,
        halt: None,
    }
}
