//! One page taken in turn over a shared table, by one thread and by four: each time a primary comes to write it, alone, has
//! its newest content from its frame, puts that back into the frame and lets the page go, by six steps. No page is changed,
//! since a change goes by the plan of a write.

use mp_model::Memory;
use mp_trials::{turns_alone, turns_together};
use std::alloc::Global;
use std::thread::Threads;

/// How often each thread takes the page, on each table.
const TURNS: u16 = 10_000;

/// For each round makes a table, on which one thread takes the page 10,000 times, and adds the turns to the sum.
pub fn by_one(alloc: Global, rounds: u32) -> Result<u64, Memory> {
    let mut sum = 0u64;
    for _ in 0..rounds {
        sum = sum.wrapping_add(turns_alone(alloc, TURNS)?);
    }
    Ok(sum)
}

/// For each round makes a table, on which four threads take the page 10,000 times each, and adds the turns to the sum.
pub fn by_four<R: Threads + Sync>(rt: &R, alloc: Global, rounds: u32) -> Result<u64, Memory> {
    let mut sum = 0u64;
    for _ in 0..rounds {
        sum = sum.wrapping_add(turns_together(rt, alloc, TURNS)?);
    }
    Ok(sum)
}
