//! One commit that two primaries see, and one transaction that is freed.

use crate::{Begun, SlotStatus, begin, draw, free, prepare, publish, status, view};
use mp_cells::{Mtr, Record, Records};
use mp_model::{Memory, TrxId};
use mp_page::Pages;
use mp_shared::{Base, Node, Shared};

const FRESH: Base = Base {
    ts: 0,
    llsn: 0,
    version: 0,
};

#[test]
fn two_primaries_see_one_commit(rt: HostRuntime) -> Result<(), Memory> {
    let pages = Pages::fresh(rt.alloc())?;
    let (shared, mut node) = Shared::open(rt.alloc(), FRESH, 2, 1, pages)?;
    let Ok(Begun { id, view: seen }) = begin(&shared, &mut node, 1, 1) else {
        unreachable!()
    };
    let first = TrxId {
        node: 1,
        slot: 0,
        version: 1,
    };
    prepare(&shared, &mut node, 1, id);
    let before = status(&shared, &mut node, 2, id);
    let cts = draw(&shared, &mut node, 1, id);
    let mut records = Records::with_room(rt.alloc())?;
    records.put(Record::Commit { id, cts });
    let mtr = Mtr {
        node: 1,
        llsn: 1,
        records,
    };
    shared.store_llsn(&mut node, 1, &mtr);
    shared.store_durable(&mut node, 1, 1);
    publish(&shared, &mut node, 1, id, cts);
    let after = status(&shared, &mut node, 2, id);
    let newest = view(&shared, &mut node, 2);
    assert!(rt; id == first && seen == 0);
    assert_eq!(rt; before, SlotStatus::Prep);
    assert_eq!(rt; cts, 1);
    assert_eq!(rt; after, SlotStatus::Committed(1));
    assert_eq!(rt; newest, 1);
    Ok(())
}

#[test]
fn a_freed_transaction_shows_free(rt: HostRuntime) -> Result<(), Memory> {
    let pages = Pages::fresh(rt.alloc())?;
    let (shared, mut node) = Shared::open(rt.alloc(), FRESH, 2, 1, pages)?;
    let Ok(begun) = begin(&shared, &mut node, 1, 1) else {
        unreachable!()
    };
    let before = status(&shared, &mut node, 1, begun.id);
    free(&shared, &mut node, 1, begun.id);
    let after = status(&shared, &mut node, 1, begun.id);
    let other = TrxId {
        node: 2,
        slot: 0,
        version: 1,
    };
    let of_none = status(&shared, &mut node, 1, other);
    assert_eq!(rt; before, SlotStatus::Active);
    assert_eq!(rt; after, SlotStatus::Free);
    assert_eq!(rt; of_none, SlotStatus::Other);
    Ok(())
}
