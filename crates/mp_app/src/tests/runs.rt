//! Runs that are refused, and runs in which primaries go down.

use crate::status::Status;
use crate::tests::{LOG_ROOM, fresh, run};
use mp_model::Memory;
use mp_outside::{Disk, MemDisk};
use std::alloc::Global;
use std::test::Fail;

const ONE_PUT: &str = "primaries 1\nsession s1 on 1\ns1 begin\ns1 put 7 a\ns1 get 7\ns1 commit\n";

// A fresh store with some bytes written over it: the last version, and with the last generation besides; and a page that
// is taken and blank.
#[test]
fn runs_are_refused(rt: HostRuntime) -> Result<(), Fail> {
    let last_version = (40u64, [255, 255, 255].as_slice());
    let last_generation = (16u64, [255; 8].as_slice());
    let rows = [
        (
            last_version,
            (0u64, [165].as_slice()),
            "refused spent versions base 16777215 add 1\n",
        ),
        (
            last_version,
            last_generation,
            "refused spent generations base 18446744073709551615 add 1\n",
        ),
        (
            (146, [3].as_slice()),
            (176, [7].as_slice()),
            "refused unclean store\n",
        ),
    ];
    for (one, other, printed) in rows {
        let mut disks = fresh(&rt, rt.alloc())?;
        assert!(rt; disks.store.write_at(one.0, one.1).is_ok());
        assert!(rt; disks.store.write_at(other.0, other.1).is_ok());
        let ran = run(&rt, rt.alloc(), &["step"], ONE_PUT.as_bytes(), &mut disks)?;
        assert!(rt; ran.is(Status::Store, printed));
    }
    Ok(())
}

// A disk whose calls pass, with what one reads as of which three calls may still fail, and zeros behind it.
fn as_read(alloc: Global, disk: &mut MemDisk) -> Result<MemDisk, Memory> {
    let mut bytes = vec![in alloc; 0u8; 512]?;
    for _ in 0..4u8 {
        if disk.read(0, &mut bytes).is_ok() {
            break;
        }
    }
    MemDisk::new(alloc, &bytes, LOG_ROOM, &[])
}

// The disk of log 2 fails from one of the four calls on that force the commit: its body, a sync, its gate, a sync. Three
// calls opened the disk before, and four forced the row. Where the last call fails, the gate is open.
#[test]
fn a_run_goes_on_without_a_primary(rt: HostRuntime) -> Result<(), Fail> {
    let alloc = rt.alloc();
    let script = "primaries 2\nsession s1 on 2\ns1 begin\ns1 put 1 a\ns1 commit\ns1 begin\n";
    let printed =
        "transcript step base 0\ns1.1 begin 0\ns1.2 put ok\ns1.3 commit unknown 1\ns1.4 stopped 2\ndown 2 by 2\nend commits 1\n";
    let undone = "recovered base 0 kept 0 undone 1\nend rows 0\n";
    let kept = "recovered base 1 kept 1 undone 0\nrow 1 a\nend rows 1\n";
    let rows = [
        ([8u32, 9, 10, 11], undone),
        ([9, 10, 11, 12], undone),
        ([10, 11, 12, 13], undone),
        ([11, 12, 13, 14], kept),
    ];
    for (fails, left) in rows {
        let mut disks = fresh(&rt, alloc)?;
        disks.logs[1] = MemDisk::new(alloc, &[0], LOG_ROOM, &fails)?;
        let ran = run(&rt, alloc, &["step"], script.as_bytes(), &mut disks)?;
        assert!(rt; ran.is(Status::Stopped, printed));
        disks.logs[1] = as_read(alloc, &mut disks.logs[1])?;
        let again = run(&rt, alloc, &["recover"], &[], &mut disks)?;
        assert!(rt; again.is(Status::Done, left));
    }
    Ok(())
}

// The disk of log 1 fails where the first row is forced. Its primary keeps the lock of the leaf, which two others ask for;
// the last one needs no page.
#[test]
fn who_needs_a_page_of_it_goes_down_too(rt: HostRuntime) -> Result<(), Fail> {
    let alloc = rt.alloc();
    let script =
        "primaries 4\nsession s1 on 1\nsession s2 on 2\nsession s3 on 3\nsession s4 on 4\ns1 begin\ns1 put 1 a\ns2 begin\ns2 get 1\ns3 begin\ns3 put 1 b\ns4 begin\ns4 commit\n";
    let printed =
        "transcript step base 0\ns1.1 begin 0\ns1.2 stopped 1\ns2.1 begin 0\ns2.2 stopped 1\ns3.1 begin 0\ns3.2 stopped 1\ns4.1 begin 0\ns4.2 commit none\ndown 1 by 1\ndown 2 by 1\ndown 3 by 1\nend commits 0\n";
    let mut disks = fresh(&rt, alloc)?;
    disks.logs[0] = MemDisk::new(alloc, &[0], LOG_ROOM, &[4])?;
    let ran = run(&rt, alloc, &["step"], script.as_bytes(), &mut disks)?;
    assert!(rt; ran.is(Status::Stopped, printed));
    Ok(())
}
