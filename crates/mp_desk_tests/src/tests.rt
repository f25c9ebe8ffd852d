//! What two transactions see of a key that a third puts and commits after the one begins, and before the other does.

use crate::{Seen, hand_over};
use mp_model::{Memory, Value};
use mp_outside::MemDisk;

#[test]
fn a_page_is_handed_on(rt: HostRuntime) -> Result<(), Memory> {
    let disk = MemDisk::new(rt.alloc(), &[0], 65_536, &[])?;
    let seen = Seen {
        earlier: None,
        later: Value::read(b"handed"),
    };
    assert_eq!(rt; hand_over(rt.alloc(), disk)?, Some(seen));
    Ok(())
}
