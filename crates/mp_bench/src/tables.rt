//! Tables of 4,096 pages opened and closed.

use mp_model::Memory;
use mp_trials::open_and_close;
use std::alloc::Global;

/// For each round opens a table over a fresh store and closes it, and adds the pages in its frames that are not blank to
/// the sum.
pub fn open_and_close_each(alloc: Global, rounds: u32) -> Result<u64, Memory> {
    let mut sum = 0u64;
    for _ in 0..rounds {
        sum = sum.wrapping_add(open_and_close(alloc)?);
    }
    Ok(sum)
}
