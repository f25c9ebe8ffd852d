use crate::{Desk, drawn_by_two};
use std::alloc::AllocError;

#[test]
fn two_threads_draw_two_numbers(rt: HostRuntime) -> Result<(), AllocError> {
    let (desk, seat) = Desk::open(rt.alloc(), 7)?;
    assert_eq!(rt; drawn_by_two(&rt, &desk, seat), 2);
    Ok(())
}

#[test]
fn the_lock_gives_the_value_once(rt: HostRuntime) -> Result<(), AllocError> {
    let (desk, mut seat) = Desk::open(rt.alloc(), 7)?;
    let Some(first) = desk.lock(&mut seat, 0) else {
        panic!(rt; "nobody has the lock")
    };
    desk.unlock(&mut seat, 0, 9);
    let second = desk.lock(&mut seat, 1);
    let third = desk.lock(&mut seat, 0);
    assert!(rt; first == 7 && second == Some(9) && third.is_none());
    Ok(())
}
