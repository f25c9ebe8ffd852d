//! Recovery, by whole calls over logs that were written byte by byte.

ghost use Rattle.std.specs.Prelude.{◌≡◌, IfOk, length};

use crate::status::Status;
use crate::tests::log_bytes::{RecordBytes, Version, push_commit, push_mtr};
use crate::tests::{BOTH, Ran, fresh, run};
use mp_files::Disks;
use mp_model::Memory;
use mp_outside::{Disk, MemDisk};
use std::alloc::Global;
use std::sync::Wait;
use std::test::Fail;
use std::thread::Threads;

/// The rows that the first transactions of primaries 1 and 2 put.
const ROW_A: Version = Version {
    key: 1,
    value: b'a',
    node: 1,
    version: 1,
    link: 0x20,
};

const ROW_B: Version = Version {
    key: 2,
    value: b'b',
    node: 2,
    version: 2,
    link: 0x30,
};

// Their logs give both rows, and a store that has them gives them again.
const AGAIN: &str = "recovered base 2 kept 0 undone 0\nrow 1 a\nrow 2 b\nend rows 2\n";

const NOTHING: &str = "recovered base 0 kept 0 undone 0\nend rows 0\n";

// The first put of a primary: it takes an undo page, and pages 0 and 1 had the LLSN `prev`.
fn put_first(
    log: &mut Vec<u8>,
    alloc: Global,
    llsn: u8,
    prev: u8,
    undo: u8,
    row: &Version,
) -> Result<(), Memory> {
    let mut records = RecordBytes::new(alloc);
    records.take(prev, undo)?;
    records.make_undo(undo)?;
    records.undo_gone(undo, llsn, row.key)?;
    records.put_row(1, prev, row)?;
    push_mtr(log, row.node, llsn, &records)
}

// The log of primary 1, with its put and its commit.
fn first_log(alloc: Global) -> Result<Vec<u8>, Memory> {
    let mut log = Vec::new(alloc);
    put_first(&mut log, alloc, 1, 0, 2, &ROW_A)?;
    push_commit(&mut log, 2, &ROW_A, 1)?;
    log.push(0)?;
    Ok(log)
}

// That of primary 2, behind it; with its commit, or as a crash left it before.
fn second_log(alloc: Global, commits: bool) -> Result<Vec<u8>, Memory> {
    let mut log = Vec::new(alloc);
    put_first(&mut log, alloc, 2, 1, 3, &ROW_B)?;
    if commits {
        push_commit(&mut log, 3, &ROW_B, 2)?;
    }
    log.push(0)?;
    Ok(log)
}

// A put on page 2, which is blank.
fn unfit_log(alloc: Global) -> Result<Vec<u8>, Memory> {
    let mut records = RecordBytes::new(alloc);
    records.put_row(2, 0, &ROW_A)?;
    let mut log = Vec::new(alloc);
    push_mtr(&mut log, 1, 1, &records)?;
    log.push(0)?;
    Ok(log)
}

// The bytes on a disk without more room.
fn filled(alloc: Global, bytes: &[u8], fails: &[u32]) -> Result<MemDisk, Memory> {
    MemDisk::new(alloc, bytes, bytes.len() as u64, fails)
}

// A fresh store, logs 1 and 2 as they are given, and six without batches.
fn nine<R: Threads + Wait + Sync>(
    rt: &R,
    alloc: Global,
    first: &[u8],
    second: &[u8],
) -> Result<Disks<MemDisk>, Memory>
    ensures { IfOk result (λ disks. length disks.logs.items ≡ 8) }
{
    let mut disks = fresh(rt, alloc)?;
    disks.logs[0] = filled(alloc, first, &[])?;
    disks.logs[1] = filled(alloc, second, &[])?;
    Ok(disks)
}

fn recovered<R: Threads + Wait + Sync>(
    rt: &R,
    alloc: Global,
    disks: &mut Disks<MemDisk>,
) -> Result<Ran, Memory>
    requires { length disks.old.logs.items ≡ 8 }
    ensures { length disks.new.logs.items ≡ 8 }
{
    run(rt, alloc, &["recover"], &[], disks)
}

#[test]
fn logs_are_recovered(rt: HostRuntime) -> Result<(), Fail> {
    let alloc = rt.alloc();
    let first = first_log(alloc)?;
    let second = second_log(alloc, true)?;
    let open = second_log(alloc, false)?;
    let unfit = unfit_log(alloc)?;
    let none = [0];
    let one_undone = "recovered base 1 kept 1 undone 1\nrow 1 a\nend rows 1\n";
    let gap = "refused gap page 0 wanted 1 found 0\n";
    let change = "refused change page 2 llsn 1\n";
    let rows = [
        (first.as_slice(), second.as_slice(), Status::Done, BOTH),
        (&first, &open, Status::Done, one_undone),
        (&none, &none, Status::Done, NOTHING),
        (&none, &second, Status::Store, gap),
        (&unfit, &none, Status::Store, change),
        (&first, &[], Status::Store, "refused log 2 place 0\n"),
    ];
    for (one, two, status, printed) in rows {
        let mut disks = nine(&rt, alloc, one, two)?;
        assert!(rt; recovered(&rt, alloc, &mut disks)?.is(status, printed));
    }
    Ok(())
}

// Sixteen puts of one transaction: fifteen fill the root and an undo page, and the last splits the root.
fn sixteen_puts(alloc: Global) -> Result<Vec<u8>, Memory> {
    let mut rows = Vec::new(alloc);
    for key in 1..17u8 {
        rows.push(Version {
            key,
            link: if key < 16 { 0x1f + key } else { 0x30 },
            ..ROW_A
        })?;
    }
    let mut log = Vec::new(alloc);
    for row in rows.iter().take(15) {
        put_next(&mut log, alloc, row)?;
    }
    split_root(&mut log, alloc, &rows)?;
    push_commit(&mut log, 17, &ROW_A, 1)?;
    log.push(0)?;
    Ok(log)
}

// The put of a key from 1 to 15, whose mtr has the key as its LLSN.
fn put_next(log: &mut Vec<u8>, alloc: Global, row: &Version) -> Result<(), Memory> {
    let llsn = row.key;
    let prev = llsn.saturating_sub(1);
    if prev == 0 {
        return put_first(log, alloc, llsn, prev, 2, row);
    }
    let mut records = RecordBytes::new(alloc);
    records.undo_gone(2, prev, row.key)?;
    records.put_row(1, prev, row)?;
    push_mtr(log, row.node, llsn, &records)
}

// The put of key 16.
fn split_root(log: &mut Vec<u8>, alloc: Global, rows: &[Version]) -> Result<(), Memory> {
    let [left @ .., _, _, _, _, _, _, _, last] = rows else {
        return Ok(());
    };
    let mut records = RecordBytes::new(alloc);
    records.take(1, 3)?;
    records.take(16, 4)?;
    records.take(16, 5)?;
    records.make_undo(3)?;
    records.make_leaf(4, 0, Some(9), left)?;
    records.make_leaf(5, 9, None, rows.get(8..15).unwrap_or(&[]))?;
    records.make_root(15, 4, 9, 5)?;
    records.undo_gone(3, 16, 16)?;
    records.put_row(5, 16, last)?;
    push_mtr(log, 1, 16, &records)
}

const SPLIT: &str =
    "store format 1 generation 2 base 1 llsn 17 version 1\npage 0 meta llsn 17 taken 4\npage 1 inner llsn 17 low 0 high 4294967296 children 2\nchild 0 4\nchild 9 5\npage 4 leaf llsn 17 low 0 high 9 rows 8\nrow 1 a\nrow 2 a\nrow 3 a\nrow 4 a\nrow 5 a\nrow 6 a\nrow 7 a\nrow 8 a\npage 5 leaf llsn 17 low 9 high 4294967296 rows 8\nrow 9 a\nrow 10 a\nrow 11 a\nrow 12 a\nrow 13 a\nrow 14 a\nrow 15 a\nrow 16 a\nend pages 4\n";

// What is recovered is in the store, without undo pages and without writers.
#[test]
fn a_split_root_is_recovered(rt: HostRuntime) -> Result<(), Fail> {
    let alloc = rt.alloc();
    let log = sixteen_puts(alloc)?;
    let mut disks = nine(&rt, alloc, &log, &[0])?;
    assert!(rt; recovered(&rt, alloc, &mut disks)?.status == Status::Done);
    assert!(rt; run(&rt, alloc, &["dump"], &[], &mut disks)?.is(Status::Done, SPLIT));
    Ok(())
}

// Both logs, the first on a disk that fails from a call on; and again, with that log on a whole disk.
fn stopped<R: Threads + Wait + Sync>(
    rt: &R,
    alloc: Global,
    from: u32,
) -> Result<(Ran, Ran), Memory> {
    let first = first_log(alloc)?;
    let mut disks = nine(rt, alloc, &first, &second_log(alloc, true)?)?;
    let mut fails = Vec::new(alloc);
    for more in 0..32u32 {
        fails.push(from.saturating_add(more))?;
    }
    disks.logs[0] = filled(alloc, &first, &fails)?;
    let ran = recovered(rt, alloc, &mut disks)?;
    disks.logs[0] = filled(alloc, &first, &[])?;
    Ok((ran, recovered(rt, alloc, &mut disks)?))
}

// The disk of log 1 fails from a call on. Call 1 syncs it, the next 20 read it twice, and 22 to 27 empty it, of which
// the third is the first write. Before the flip the next recovery finds the commits again, behind it only the rows.
#[test]
fn a_stopped_recovery_is_done_again(rt: HostRuntime) -> Result<(), Fail> {
    let rows = [(21, BOTH), (24, AGAIN)];
    for (from, printed) in rows {
        let (ran, again) = stopped(&rt, rt.alloc(), from)?;
        assert!(rt; ran.is(Status::Disk, "fault disk log 1\n"));
        assert!(rt; again.is(Status::Done, printed));
    }
    Ok(())
}

// A header, a log or a store that is damaged, and a store of the last generation.
#[test]
fn damaged_disks_are_refused(rt: HostRuntime) -> Result<(), Fail> {
    let alloc = rt.alloc();
    let first = first_log(alloc)?;
    let place_one = "refused store place 1\n";
    let spent = "refused spent generations base 18446744073709551615 add 1\n";
    let rows = [
        (
            1u64,
            [0].as_slice(),
            first.as_slice(),
            Status::Store,
            place_one,
        ),
        (16, &[255; 8], &first, Status::Store, spent),
        (16, &[255; 8], &[0], Status::Done, NOTHING),
    ];
    for (place, bytes, log, status, printed) in rows {
        let mut disks = nine(&rt, alloc, log, &[0])?;
        assert!(rt; disks.store.write_at(place, bytes).is_ok());
        assert!(rt; recovered(&rt, alloc, &mut disks)?.is(status, printed));
    }
    let mut disks = nine(&rt, alloc, &[0], &[0])?;
    disks.logs[2] = filled(alloc, &[], &[])?;
    assert!(rt; recovered(&rt, alloc, &mut disks)?.is(Status::Store, "refused log 3 place 0\n"));
    disks.store = filled(alloc, &[], &[])?;
    assert!(rt; recovered(&rt, alloc, &mut disks)?.is(Status::Store, "refused store place 0\n"));
    Ok(())
}
