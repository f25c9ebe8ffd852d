//! Scripts that numbers name: their text, and the summary of a run.

ghost use Rattle.std.specs.Prelude.{◌≡◌, ◌<◌, length};

use crate::status::Status;
use crate::tests::{fresh, run};
use mp_files::Disks;
use mp_model::Memory;
use mp_outside::MemDisk;
use std::alloc::Global;
use std::sync::Wait;
use std::test::Fail;
use std::thread::Threads;

// How the script of 42 begins: 42 is 10 above a multiple of 32, and round 1 goes on by 7.
const GENERATED: &str =
    "primaries 4\nsession s1 on 1\nsession s2 on 2\nsession s3 on 3\nsession s4 on 4\nsession s5 on 1\nsession s6 on 2\nsession s7 on 3\nsession s8 on 4\nsession s9 on 1\nsession s10 on 2\nsession s11 on 3\nsession s12 on 4\nsession s13 on 1\nsession s14 on 2\nsession s15 on 3\nsession s16 on 4\ns1 begin\ns2 begin\ns3 begin\ns4 begin\ns5 begin\ns6 begin\ns7 begin\ns8 begin\ns9 begin\ns10 begin\ns11 begin\ns12 begin\ns13 begin\ns14 begin\ns15 begin\ns16 begin\ns1 put 1017 v1-1\n";

const SUMMED: &str = "summary number 42 answered 3008 commits 752 keys 512\n";

// The room that a log of this run needs, and more.
const RUN_ROOM: u64 = 1_048_576;

#[test]
fn a_number_prints_its_script(rt: HostRuntime) -> Result<(), Fail> {
    let mut disks = fresh(&rt, rt.alloc())?;
    let made = run(&rt, rt.alloc(), &["gen", "42"], &[], &mut disks)?;
    assert!(rt; made.status == Status::Done);
    assert!(rt; made.sink.written().starts_with(GENERATED.as_bytes()));
    Ok(())
}

// Gives a log without batches this room.
fn give_room(alloc: Global, disks: &mut Disks<MemDisk>, place: usize) -> Result<(), Memory>
    requires eight { length disks.old.logs.items ≡ 8 }
    requires place { place < 8 }
    ensures { length disks.new.logs.items ≡ 8 }
{
    disks.logs[place] = MemDisk::new(alloc, &[0], RUN_ROOM, &[])?;
    Ok(())
}

// Whether its run by a command prints the summary. Four primaries run it.
fn is_summed<R: Threads + Wait + Sync>(rt: &R, alloc: Global, command: &str) -> Result<bool, Fail> {
    let mut disks = fresh(rt, alloc)?;
    give_room(alloc, &mut disks, 0)?;
    give_room(alloc, &mut disks, 1)?;
    give_room(alloc, &mut disks, 2)?;
    give_room(alloc, &mut disks, 3)?;
    let ran = run(rt, alloc, &[command, "42"], &[], &mut disks)?;
    Ok(ran.is(Status::Done, SUMMED))
}

#[test]
fn a_number_prints_its_summary(rt: HostRuntime) -> Result<(), Fail> {
    assert!(rt; is_summed(&rt, rt.alloc(), "step")?);
    assert!(rt; is_summed(&rt, rt.alloc(), "run")?);
    Ok(())
}
