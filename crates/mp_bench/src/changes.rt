//! One page changed in turn over a shared table, by one thread and by four: each time a transaction puts a value at its key,
//! and its primary forces its log in memory, puts the pages that it changed into their frames and lets all pages go.

use mp_changes::{Changed, changes_alone, changes_together};
use mp_model::Memory;
use mp_outside::MemDisk;
use std::alloc::Global;
use std::thread::Threads;

/// How often each thread changes the page, on each table.
const PUTS: u16 = 5_000;

/// The room of the one thread's log, in bytes.
const LOG_ROOM: u64 = 1_048_576;

/// For each round makes a table and a log, over which one thread changes the page 5,000 times, and adds the changes to the
/// sum.
pub fn by_one(alloc: Global, rounds: u32) -> Result<u64, Memory> {
    let mut sum = 0u64;
    for _ in 0..rounds {
        let disk = MemDisk::new(alloc, &[0], LOG_ROOM, &[])?;
        sum = sum.wrapping_add(done_of(&changes_alone(alloc, disk, PUTS)?));
    }
    Ok(sum)
}

/// For each round makes a table and four logs, over which four threads change the page 5,000 times each, and adds the changes
/// to the sum.
pub fn by_four<R: Threads + Sync>(rt: &R, alloc: Global, rounds: u32) -> Result<u64, Memory> {
    let mut sum = 0u64;
    for _ in 0..rounds {
        let rivals = changes_together(rt, alloc, PUTS)?;
        sum = sum
            .wrapping_add(done_of(&rivals.first))
            .wrapping_add(done_of(&rivals.second))
            .wrapping_add(done_of(&rivals.third))
            .wrapping_add(done_of(&rivals.fourth));
    }
    Ok(sum)
}

fn done_of(changed: &Changed) -> u64 {
    u64::from(changed.done)
}
