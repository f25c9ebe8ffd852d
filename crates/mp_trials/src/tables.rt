//! Tables that are opened and closed.

use mp_model::Memory;
use mp_page::{Kind, Pages};
use mp_shared::{Base, Frames, Shared};
use std::alloc::Global;

const FRESH: Base = Base {
    ts: 0,
    llsn: 0,
    version: 0,
};

/// How many frames have a page that is not blank.
fn count_made(frames: &Frames) -> u64 {
    let mut count = 0u64;
    for number in 0..4_096usize {
        if frames.get(number).kind() != Kind::Blank {
            count = count.wrapping_add(1);
        }
    }
    count
}

/// Opens a table over the 4,096 pages of a fresh store, for four primaries, and closes it. Answers how many of the pages
/// in its frames are not blank, or that there was no memory for the table.
pub fn open_and_close(alloc: Global) -> Result<u64, Memory> {
    let pages = Pages::fresh(alloc)?;
    let (shared, node) = Shared::open(alloc, FRESH, 4, 4, pages)?;
    Ok(count_made(&shared.close(node)))
}
