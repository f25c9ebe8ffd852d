//! The worked log, damaged forms of it, and a force that is stopped at each call with each crash.

use mp_log::{Log, LogRefusal, Reader, Unopened, reset};
use mp_outside::{Disk, FuseDisk, MemDisk, read_exactly};
use mp_redo::{decode, size};
use std::alloc::Global;
use std::test::*;

// The log of primary 1 with one mtr: LLSN 2, and the commit of 1.0.1 at 1.
const WORKED: [u8; 33] = [
    0xa5, 27, 0, 0, 0, 1, 1, 2, 0, 0, 0, 0, 0, 0, 0, 10, 1, 0, 0, 0, 1, 0, 0, 0, 1, 0, 0, 0, 0, 0,
    0, 0, 0,
];

// Appends the mtr in front of some bytes and forces it. Answers whether that was done.
fn append_and_force<D: Disk>(alloc: Global, log: &mut Log<D>, bytes: &[u8]) -> bool {
    let Ok((mtr, _)) = decode(alloc, bytes) else {
        return false;
    };
    let fits = mtr.node == log.node() && size(&mtr) <= log.room() && log.last() < mtr.llsn;
    if !log.is_open() || !fits {
        return false;
    }
    log.append(&mtr);
    log.force().is_ok()
}

// What opening a file as the log of primary 1 answers: the place of the fault, or none.
fn fault(alloc: Global, file: &[u8]) -> Result<Option<u64>, Fail> {
    let disk = MemDisk::new(alloc, file, file.len() as u64 + 64, &[])?;
    match Log::open(alloc, disk, 1) {
        Ok(_) => Ok(None),
        Err(
            Unopened {
                refusal: LogRefusal::Fault { place },
                ..
            },
        ) => Ok(Some(place)),
        Err(_) => Ok(Some(u64::MAX)),
    }
}

fn fault_with(alloc: Global, place: usize, byte: u8) -> Result<Option<u64>, Fail> {
    let mut file = WORKED;
    if place < 33 {
        file[place] = byte;
    }
    fault(alloc, &file)
}

#[test]
fn damaged_logs(rt: HostRuntime) -> Result<(), Fail> {
    let alloc = rt.alloc();
    assert_eq!(rt; fault(alloc, &WORKED)?, None);
    assert_eq!(rt; fault(alloc, &[0])?, None);
    assert_eq!(rt; fault(alloc, &[])?, Some(0));
    assert_eq!(rt; fault(alloc, &[0xa5])?, Some(1));
    assert_eq!(rt; fault(alloc, &[0xa5, 0, 0, 0, 0, 0])?, Some(1));
    assert_eq!(rt; fault(alloc, &WORKED[..32])?, Some(1));
    let table = [
        (5, 2, 5),
        (6, 0, 6),
        (7, 0, 7),
        (15, 11, 15),
        (24, 0, 24),
        (32, 0xa5, 33),
    ];
    for (place, byte, want) in table {
        assert_eq!(rt; fault_with(alloc, place, byte)?, Some(want));
    }
    assert_eq!(rt; fault_with(alloc, 32, 0xff)?, None);
    let mut twice = Vec::from_slice(alloc, &WORKED[..32])?;
    twice.extend_from_slice(&WORKED)?;
    assert_eq!(rt; fault(alloc, &twice)?, Some(37));
    Ok(())
}

// Forces an mtr on the log in a file, on a disk that passes so many calls, and then lets it crash. Answers whether the
// force was done and what the file is then.
fn stopped(
    alloc: Global,
    file: &[u8],
    mtr: &[u8],
    passes: u64,
    choice: u8,
) -> Result<(bool, [u8; 65]), Fail> {
    let disk = MemDisk::new(alloc, file, file.len() as u64 + 96, &[])?;
    let Ok(mut log) = Log::open(alloc, FuseDisk::new(disk, passes), 1) else {
        return Ok((false, [0; 65]));
    };
    let done = append_and_force(alloc, &mut log, mtr);
    let mut disk = log.into_disk().into_disk();
    if choice < 4 {
        disk.crash(choice);
    }
    let mut left = [0; 65];
    for place in 0..65 {
        let _ = read_exactly(&mut disk, place as u64, &mut left[place..place + 1]);
    }
    Ok((done, left))
}

// The worked mtr with LLSN 3.
fn second_mtr() -> [u8; 27] {
    let mut mtr = [0; 27];
    mtr.copy_from_slice(&WORKED[5..32]);
    mtr[2] = 3;
    mtr
}

#[test]
fn a_stop_leaves_whole_batches(rt: HostRuntime) -> Result<(), Fail> {
    // Opening takes a sync, the length and one read; three reads more where there is a batch.
    let second = second_mtr();
    let table = [
        ([0].as_slice(), &WORKED[5..32], 0, 3),
        (WORKED.as_slice(), second.as_slice(), 32, 6),
    ];
    for (file, mtr, gate, opened) in table {
        for passes in opened..opened + 5 {
            for choice in 0..4 {
                let (done, left) = stopped(rt.alloc(), file, mtr, passes, choice)?;
                let whole = left[gate] == 0xa5 && left[gate + 5..gate + 32] == mtr[..];
                assert!(rt; left[..gate] == file[..gate]);
                assert!(rt; whole || left[gate] != 0xa5);
                assert!(rt; if done { whole } else { passes < opened + 4 });
                assert!(rt; passes >= opened + 2 || !whole);
            }
        }
    }
    Ok(())
}

#[test]
fn reset_and_first_above(rt: HostRuntime) -> Result<(), Fail> {
    let alloc = rt.alloc();
    let disk = MemDisk::new(alloc, &WORKED, 64, &[])?;
    let log = Log::open(alloc, disk, 1).ok().ok_or("a log")?;
    assert_eq!(rt; log.first_above(1), Some(2));
    assert_eq!(rt; log.first_above(2), None);
    assert_eq!(rt; log.room(), 65536);
    let mut disk = log.into_disk();
    assert!(rt; reset(&mut disk).is_ok());
    assert_eq!(rt; disk.length(), Ok(1));
    let log = Log::open(alloc, disk, 1).ok().ok_or("a log")?;
    assert_eq!(rt; log.first_above(0), None);
    Ok(())
}

// The LLSNs that a reader of primary 1 gives of a file, and what it answers behind them, twice.
fn given(alloc: Global, file: &[u8]) -> Result<(u64, u64, bool, bool), Fail> {
    let mut disk = MemDisk::new(alloc, file, file.len() as u64 + 64, &[])?;
    let mut reader = Reader::new(alloc, 1)?;
    let mut count = 0u64;
    let mut sum = 0u64;
    for _ in 0..9 {
        if let Ok(Some(mtr)) = reader.next(&mut disk) {
            count = count.wrapping_add(1);
            sum = sum.wrapping_add(mtr.llsn);
        }
    }
    let ended = matches!(reader.next(&mut disk), Ok(None));
    let refused = matches!(reader.next(&mut disk), Err(_));
    Ok((count, sum, ended, refused))
}

#[test]
fn a_reader_gives_whole_batches(rt: HostRuntime) -> Result<(), Fail> {
    let alloc = rt.alloc();
    assert_eq!(rt; given(alloc, &[0])?, (0, 0, true, false));
    assert_eq!(rt; given(alloc, &WORKED)?, (1, 2, true, false));
    // Behind the first batch a second, with LLSN 3, and then one with LLSN 3 again.
    let mut log = Vec::from_slice(alloc, &WORKED[..32])?;
    log.extend_from_slice(&[0xa5, 27, 0, 0, 0, 1, 1, 3])?;
    log.extend_from_slice(&WORKED[8..])?;
    assert_eq!(rt; given(alloc, &log)?, (2, 5, true, false));
    let mut twice = Vec::from_slice(alloc, &log[..64])?;
    twice.extend_from_slice(&log[32..])?;
    assert_eq!(rt; given(alloc, &twice)?, (2, 5, false, true));
    Ok(())
}
