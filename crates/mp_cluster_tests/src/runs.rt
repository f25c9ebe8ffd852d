//! Runs that are recovered.

ghost use Rattle.std.specs.Prelude.{◌≡◌, IfOk, length};

use mp_cluster::run_all;
use mp_files::Disks;
use mp_gates::OpenGate;
use mp_generate::generate;
use mp_model::Memory;
use mp_outside::MemDisk;
use mp_recover::recover;
use mp_store::init;
use std::alloc::Global;
use std::test::*;

/// The length of a store file.
const LENGTH: u64 = 8_519_808;

// The room that a log of this run needs, and more.
const ROOM: u64 = 1_048_576;

// A fresh store, and eight logs without batches.
fn disks_with_room(alloc: Global, store: MemDisk) -> Result<Disks<MemDisk>, Memory>
    ensures { IfOk result (λ disks. length disks.logs.items ≡ 8) }
{
    let mut logs = Vec::new(alloc);
    for before in 0..8usize {
        logs.push(MemDisk::new(alloc, &[0], ROOM, &[])?)?;
    }
    Ok(Disks { store, logs })
}

// Each of the 752 commits is kept, none is undone, and the rows are all keys that were written.
#[test]
fn a_run_on_threads_is_recovered(rt: HostRuntime) -> Result<(), Fail> {
    let alloc = rt.alloc();
    let mut store = MemDisk::new(alloc, &[], LENGTH, &[])?;
    assert!(rt; init(&mut store).is_ok());
    let mut disks = disks_with_room(alloc, store)?;
    let script = generate(alloc, 42)?;
    let commits = match run_all(&rt, alloc, &script, &mut disks, &OpenGate) {
        Ok(transcript) => transcript.commits,
        Err(_refused) => 0,
    };
    assert!(rt; commits == 752);
    match recover(alloc, &mut disks) {
        Ok(recovered) => {
            assert!(rt; recovered.base == 752 && recovered.kept == 752 && recovered.undone == 0);
            assert!(rt; recovered.rows.len() == 512);
        }
        Err(_refused) => assert!(rt; false),
    }
    Ok(())
}
