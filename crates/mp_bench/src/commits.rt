//! Transactions over the shared table, by one thread and by four: each begins, looks 16 times where it stands, prepares,
//! draws and publishes.

use mp_model::Memory;
use mp_trials::{Together, commit_alone, commit_together};
use std::alloc::Global;
use std::thread::Threads;

/// For each round makes a table, on which one thread commits 200 transactions, and adds their timestamps to the sum.
pub fn by_one(alloc: Global, rounds: u32) -> Result<u64, Memory> {
    let mut sum = 0u64;
    for _ in 0..rounds {
        let drawn = commit_alone(alloc)?;
        sum = sum.wrapping_add(sum_of(&drawn));
    }
    Ok(sum)
}

/// For each round makes a table, on which four threads commit 200 transactions each, and adds their timestamps to the sum.
pub fn by_four<R: Threads + Sync>(rt: &R, alloc: Global, rounds: u32) -> Result<u64, Memory> {
    let mut sum = 0u64;
    for _ in 0..rounds {
        let Together { drawn, newest: _ } = commit_together(rt, alloc)?;
        for part in &drawn {
            sum = sum.wrapping_add(sum_of(part));
        }
    }
    Ok(sum)
}

fn sum_of(drawn: &[u64]) -> u64 {
    let mut sum = 0u64;
    for timestamp in drawn {
        sum = sum.wrapping_add(*timestamp);
    }
    sum
}
