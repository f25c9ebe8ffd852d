//! Runs in which each primary has a thread of its own.

ghost use Rattle.std.specs.Prelude.{◌≡◌, length};

use crate::status::Status;
use crate::tests::{BOTH, BOTH_COMMIT, LOG_ROOM, Ran, TWO, call, fresh, run};
use mp_files::Disks;
use mp_gates::{Gate, MeetGate};
use mp_model::Memory;
use mp_outside::{MemDisk, MemSink, MemSource};
use std::alloc::Global;
use std::sync::Wait;
use std::test::Fail;
use std::thread::Threads;

// Runs a script through a gate.
fn run_through<R: Threads + Wait + Sync, G: Gate + Sync>(
    rt: &R,
    alloc: Global,
    script: &[u8],
    disks: &mut Disks<MemDisk>,
    gate: &G,
) -> Result<Ran, Memory>
    requires { length disks.old.logs.items ≡ 8 }
    ensures { length disks.new.logs.items ≡ 8 }
{
    let mut source = MemSource::new(alloc, script, &[])?;
    let mut sink = MemSink::new(alloc, 100_000, &[])?;
    let status = call(rt, alloc, &["run"], &mut source, &mut sink, disks, gate)?;
    Ok(Ran { status, sink })
}

// The puts of two sessions meet, so both transactions are open at one time; either may commit first.
#[test]
fn two_primaries_run_at_one_time(rt: HostRuntime) -> Result<(), Fail> {
    let alloc = rt.alloc();
    let script = format!(in alloc; "{TWO}{BOTH_COMMIT}")?;
    let gate = MeetGate::new((1, 2), (2, 2));
    let mut disks = fresh(&rt, alloc)?;
    let ran = run_through(&rt, alloc, script.as_bytes(), &mut disks, &gate)?;
    let one =
        "transcript run base 0\nprimary 1\ns1.1 begin 0\ns1.2 put ok\ns1.3 commit 1\nprimary 2\ns2.1 begin 0\ns2.2 put ok\ns2.3 commit 2\nend commits 2\n";
    let other =
        "transcript run base 0\nprimary 1\ns1.1 begin 0\ns1.2 put ok\ns1.3 commit 2\nprimary 2\ns2.1 begin 0\ns2.2 put ok\ns2.3 commit 1\nend commits 2\n";
    assert!(rt; ran.is(Status::Done, one) || ran.is(Status::Done, other));
    assert!(rt; !gate.ran_out());
    assert!(rt; run(&rt, alloc, &["recover"], &[], &mut disks)?.is(Status::Done, BOTH));
    Ok(())
}

// An older transaction of a primary waits for a younger one of the same; the other primary has none.
#[test]
fn sessions_of_one_primary_wait(rt: HostRuntime) -> Result<(), Fail> {
    let alloc = rt.alloc();
    let script =
        "primaries 2\nsession s1 on 1\nsession s2 on 1\ns1 begin\ns2 begin\ns2 put 5 a\ns1 put 5 b\ns2 rollback\ns1 commit\n";
    let printed =
        "transcript run base 0\nprimary 1\ns1.1 begin 0\ns2.1 begin 0\ns2.2 put ok\ns2.3 rollback ok\ns1.2 put ok after s2.1\ns1.3 commit 1\nprimary 2\nend commits 1\n";
    let mut disks = fresh(&rt, alloc)?;
    let ran = run(&rt, alloc, &["run"], script.as_bytes(), &mut disks)?;
    assert!(rt; ran.is(Status::Done, printed));
    Ok(())
}

// The disk of log 2 fails from the call on that forces the commit.
#[test]
fn a_primary_goes_down_on_its_thread(rt: HostRuntime) -> Result<(), Fail> {
    let alloc = rt.alloc();
    let script = "primaries 2\nsession s1 on 2\ns1 begin\ns1 put 1 a\ns1 commit\ns1 begin\n";
    let printed =
        "transcript run base 0\nprimary 1\nprimary 2\ns1.1 begin 0\ns1.2 put ok\ns1.3 commit unknown 1\ns1.4 stopped 2\ndown 2 by 2\nend commits 1\n";
    let mut disks = fresh(&rt, alloc)?;
    disks.logs[1] = MemDisk::new(alloc, &[0], LOG_ROOM, &[8, 9, 10, 11])?;
    let ran = run(&rt, alloc, &["run"], script.as_bytes(), &mut disks)?;
    assert!(rt; ran.is(Status::Stopped, printed));
    Ok(())
}
