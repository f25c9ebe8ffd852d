//! Four threads over one table.
ghost use Rattle.std.specs.Prelude.{◌<◌};

use crate::{Together, commit_together};
use mp_model::Memory;
use std::alloc::AllocError;

/// Whether the timestamps are 1 to 800, each once.
fn are_all(mut drawn: Vec<u64>) -> Result<bool, AllocError> {
    drawn.sort()?;
    for n in 0..800u16 {
        if drawn.get(usize::from(n)) != Some(&(u64::from(n) + 1)) {
            return Ok(false);
        }
    }
    Ok(drawn.len() == 800)
}

#[test]
fn four_threads_draw_each_timestamp_once(rt: HostRuntime) -> Result<(), Memory> {
    let Together { drawn, newest } = commit_together(&rt, rt.alloc())?;
    let mut all = Vec::new(rt.alloc());
    for part in &drawn {
        all.extend_from_slice(part)?;
    }
    assert!(rt; are_all(all)?);
    assert_eq!(rt; newest, 800);
    Ok(())
}
