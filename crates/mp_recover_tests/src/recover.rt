//! Recovery of worked logs, of damaged ones, and of links that no engine leaves.

use mp_files::Disks;
use mp_model::Memory;
use mp_outside::MemDisk;
use mp_recover::{RecoverRefusal, recover};
use mp_store::{Header, Store, init};
use std::alloc::Global;
use std::test::*;

/// The length of a store file.
const LENGTH: u64 = 8_519_808;

/// The link of a row: the number of an undo page below 16, and a place there below 16.
#[derive(Clone, Copy)]
struct To {
    page: u8,
    place: u8,
}

/// A put of a row with a value of one byte and its commit, by the first transaction of a node: the mtrs have the LLSNs
/// `llsn` and `llsn` + 1, the put takes an undo page, pages 0 and 1 had the LLSN `prev`, and the commit the timestamp
/// `version`, which is the id's version too.
#[derive(Clone, Copy)]
struct Put {
    node: u8,
    llsn: u8,
    prev: u8,
    undo: u8,
    key: u8,
    value: u8,
    version: u8,
    to: To,
}

// The cell of the put's row.
fn push_cell(bytes: &mut Vec<u8>, put: &Put, to: To) -> Result<(), Memory> {
    bytes.extend_from_slice(&[put.key, 0, 0, 0, 1, 1, 0, 0, put.node, 0, 0, 0])?;
    bytes.extend_from_slice(&[
        put.version,
        0,
        0,
        0,
        (to.page & 15) << 4 | (to.place & 15),
        0,
        0,
        0,
    ])?;
    bytes.extend_from_slice(&[0, 0, 0, 0, put.value])?;
    bytes.extend_from_slice(&[0; 39])?;
    Ok(())
}

// The cell of a gone row without a writer.
fn push_gone(bytes: &mut Vec<u8>, key: u8) -> Result<(), Memory> {
    bytes.extend_from_slice(&[key])?;
    bytes.extend_from_slice(&[0; 63])?;
    Ok(())
}

// The head of a record: its kind, its page, and the page's LLSN before it.
fn push_head(bytes: &mut Vec<u8>, kind: u8, page: u8, prev: u8) -> Result<(), Memory> {
    bytes.extend_from_slice(&[kind, page, 0, prev, 0, 0, 0, 0, 0, 0, 0])?;
    Ok(())
}

// The batch of the put. Its undo record is the gone row, or the put's row with another link.
fn push_put(bytes: &mut Vec<u8>, put: &Put, before: Option<To>) -> Result<(), Memory> {
    bytes.extend_from_slice(&[
        0xa5, 184, 0, 0, 0, put.node, 4, put.llsn, 0, 0, 0, 0, 0, 0, 0,
    ])?;
    push_head(bytes, 9, 0, put.prev)?;
    bytes.extend_from_slice(&[put.undo, 0])?;
    push_head(bytes, 3, put.undo, 0)?;
    push_head(bytes, 8, put.undo, put.llsn)?;
    match before {
        None => push_gone(bytes, put.key)?,
        Some(to) => push_cell(bytes, put, to)?,
    }
    push_head(bytes, 4, 1, put.prev)?;
    push_cell(bytes, put, put.to)
}

// The batch of the commit.
fn push_commit(bytes: &mut Vec<u8>, put: &Put) -> Result<(), Memory> {
    let llsn = put.llsn.saturating_add(1);
    bytes.extend_from_slice(&[
        0xa5, 27, 0, 0, 0, put.node, 1, llsn, 0, 0, 0, 0, 0, 0, 0, 10,
    ])?;
    bytes.extend_from_slice(&[
        put.node,
        0,
        0,
        0,
        put.version,
        0,
        0,
        0,
        put.version,
        0,
        0,
        0,
    ])?;
    bytes.extend_from_slice(&[0, 0, 0, 0])?;
    Ok(())
}

// A log of the put, and of its commit where it has one.
fn log_of_put(
    alloc: Global,
    put: &Put,
    before: Option<To>,
    commits: bool,
) -> Result<Vec<u8>, Memory> {
    let mut bytes = Vec::new(alloc);
    push_put(&mut bytes, put, before)?;
    if commits {
        push_commit(&mut bytes, put)?;
    }
    bytes.extend_from_slice(&[0])?;
    Ok(bytes)
}

const FIRST: Put = Put {
    node: 1,
    llsn: 1,
    prev: 0,
    undo: 2,
    key: 1,
    value: b'a',
    version: 1,
    to: To { page: 2, place: 0 },
};

const SECOND: Put = Put {
    node: 2,
    llsn: 2,
    prev: 1,
    undo: 3,
    key: 2,
    value: b'b',
    version: 2,
    to: To { page: 3, place: 0 },
};

fn log_disk(alloc: Global, bytes: &[u8]) -> Result<MemDisk, Memory> {
    MemDisk::new(alloc, bytes, bytes.len() as u64 + 8, &[])
}

// A fresh store, two logs, and six without batches.
fn nine(alloc: Global, first: &[u8], second: &[u8]) -> Result<Disks<MemDisk>, Memory> {
    let mut store = MemDisk::new(alloc, b"", LENGTH, &[])?;
    let _ = init(&mut store);
    let mut logs = Vec::new(alloc);
    logs.push(log_disk(alloc, first)?)?;
    logs.push(log_disk(alloc, second)?)?;
    for _ in 0..6 {
        logs.push(log_disk(alloc, &[0])?)?;
    }
    Ok(Disks { store, logs })
}

// What recovery answers: the base, the commits kept, the rows undone, and how many rows there are.
fn answer_over(
    alloc: Global,
    disks: &mut Disks<MemDisk>,
) -> Result<Result<(u64, u64, u64, usize), RecoverRefusal>, Memory> {
    if disks.logs.len() != 8 {
        return Err(Memory);
    }
    match recover(alloc, disks) {
        Ok(r) => Ok(Ok((r.base, r.kept, r.undone, r.rows.len()))),
        Err(refusal) => Ok(Err(refusal)),
    }
}

// What it answers for two logs over a fresh store.
fn answer_of(
    alloc: Global,
    first: &[u8],
    second: &[u8],
) -> Result<Result<(u64, u64, u64, usize), RecoverRefusal>, Memory> {
    let mut disks = nine(alloc, first, second)?;
    answer_over(alloc, &mut disks)
}

// The header of the store.
fn header_of(alloc: Global, disks: &mut Disks<MemDisk>) -> Option<Header> {
    match Store::open(alloc, &mut disks.store) {
        Ok(store) => Some(store.header()),
        Err(_) => None,
    }
}

#[test]
fn worked_logs_are_recovered(rt: HostRuntime) -> Result<(), Fail> {
    let alloc = rt.alloc();
    let first = log_of_put(alloc, &FIRST, None, true)?;
    let second = log_of_put(alloc, &SECOND, None, true)?;
    assert_eq!(rt; first.len(), 222);
    let mut disks = nine(alloc, &first, &second)?;
    assert_eq!(rt; answer_over(alloc, &mut disks)?, Ok((2, 2, 0, 2)));
    let header = Header {
        generation: 2,
        base: 2,
        llsn: 3,
        version: 2,
    };
    assert_eq!(rt; header_of(alloc, &mut disks), Some(header));
    // Once more nothing is left to be done.
    assert_eq!(rt; answer_over(alloc, &mut disks)?, Ok((2, 0, 0, 2)));
    assert_eq!(rt; header_of(alloc, &mut disks), Some(header));
    Ok(())
}

#[test]
fn damaged_logs_are_refused_or_end_early(rt: HostRuntime) -> Result<(), Fail> {
    let alloc = rt.alloc();
    let first = log_of_put(alloc, &FIRST, None, true)?;
    let second = log_of_put(alloc, &SECOND, None, true)?;
    // Without the first log the second put's page lacks an mtr.
    let gap = RecoverRefusal::Gap {
        page: 0,
        wanted: 1,
        found: 0,
    };
    assert_eq!(rt; answer_of(alloc, &[0], &second)?, Err(gap));
    // Without its commit the second put is undone.
    let open = log_of_put(alloc, &SECOND, None, false)?;
    assert_eq!(rt; answer_of(alloc, &first, &open)?, Ok((1, 1, 1, 1)));
    let fault = RecoverRefusal::Log {
        primary: 2,
        place: 0,
    };
    assert_eq!(rt; answer_of(alloc, &first, &[])?, Err(fault));
    Ok(())
}

#[test]
fn chains_that_end_nowhere_are_rolled_back(rt: HostRuntime) -> Result<(), Fail> {
    let alloc = rt.alloc();
    // The undo record links to itself.
    let circle = log_of_put(alloc, &FIRST, Some(To { page: 2, place: 0 }), false)?;
    assert!(rt; matches!(answer_of(alloc, &circle, &[0])?, Ok((0, 0, 1, _))));
    // The row links to a blank page.
    let blank = Put {
        to: To { page: 9, place: 0 },
        ..FIRST
    };
    let lost = log_of_put(alloc, &blank, None, false)?;
    assert!(rt; matches!(answer_of(alloc, &lost, &[0])?, Ok((0, 0, 1, _))));
    Ok(())
}

// Where the undo record of such a log has its page, the LLSN before it, and its key.
const UNDO_PAGE: usize = 40;

const UNDO_PREV: usize = 42;

const UNDO_KEY: usize = 50;

// The log of the first put, with other bytes at some places.
fn changed_log(alloc: Global, bytes: &[(usize, u8)], commits: bool) -> Result<Vec<u8>, Memory> {
    let mut log = log_of_put(alloc, &FIRST, None, commits)?;
    for (place, byte) in bytes {
        if let Some(old) = log.get_mut(*place) {
            *old = *byte;
        }
    }
    Ok(log)
}

// An undo record of another key isn't a version of the row: where the put isn't kept, the row stays as its last version.
// An undo record on a leaf doesn't fit.
#[test]
fn odd_undo_records(rt: HostRuntime) -> Result<(), Fail> {
    let alloc = rt.alloc();
    let unfit = RecoverRefusal::NotApplicable { page: 1, llsn: 1 };
    let other_key = [(UNDO_KEY, 5u8)];
    let on_leaf = [(UNDO_PAGE, 1u8), (UNDO_PREV, 0)];
    let rows = [
        (other_key.as_slice(), true, Ok((1, 1, 0, 1))),
        (&other_key, false, Ok((0, 0, 1, 1))),
        (&on_leaf, true, Err(unfit)),
        (&on_leaf, false, Err(unfit)),
    ];
    for (bytes, commits, answer) in rows {
        let log = changed_log(alloc, bytes, commits)?;
        assert_eq!(rt; answer_of(alloc, &log, &[0])?, answer);
    }
    Ok(())
}

// Of two mtrs with one LLSN that of primary 1 comes first.
#[test]
fn equal_llsns_go_by_primary(rt: HostRuntime) -> Result<(), Fail> {
    let alloc = rt.alloc();
    let gap = RecoverRefusal::Gap {
        page: 0,
        wanted: 1,
        found: 0,
    };
    let rows = [(0, 1, Ok((2, 2, 0, 2))), (1, 0, Err(gap))];
    for (first_prev, second_prev, answer) in rows {
        let first = Put {
            prev: first_prev,
            ..FIRST
        };
        let second = Put {
            llsn: 1,
            prev: second_prev,
            ..SECOND
        };
        let one = log_of_put(alloc, &first, None, true)?;
        let two = log_of_put(alloc, &second, None, true)?;
        assert_eq!(rt; answer_of(alloc, &one, &two)?, answer);
    }
    Ok(())
}
