//! Two threads draw a number each.
ghost use Rattle.std.specs.Prelude.{◌≡◌, [], ◌∷◌, Some, None, ℕ};
ghost use Rattle.std.specs.Thread.{IsSync};
ghost use Rattle.mp_machine_example.specs.Numbers.{new_worker, CanDraw, Drew};

use crate::desk::Desk;
use crate::system::Office;
use mp_machine::Seat;
use std::thread::{Threads, join};

fn draw_once(desk: &Desk, mut seat: Seat<Office>, node: u64) -> Seat<Office>
    requires table { seat.table_id ≡ desk.now.office.table.shared.table_id }
    requires worker { CanDraw seat.me node }
    ensures table { result.table_id ≡ seat.table_id }
    ensures drawn { (number : ℕ) × Drew node seat.me number result.me }
{
    desk.draw(&mut seat, node);
    seat
}

/// How many numbers were drawn once two threads drew one each: a seat that holds both workers again knows it.
pub fn drawn_by_two<R: Threads + Sync>(rt: &R, desk: &Desk, mut seat: Seat<Office>) -> u64
    requires table { seat.table_id ≡ desk.now.office.table.shared.table_id }
    requires fresh { seat.me ≡ (Some new_worker ∷ Some new_worker ∷ [], []) }
    ensures { result ≡ 2 }
{
    let other = desk.split(&mut seat);
    let (mut seat, other) = join(
        rt,
        move || -> Seat<Office>
            requires { (seat.table_id ≡ desk.now.office.table.shared.table_id) × (seat.me ≡ (Some new_worker ∷ None ∷ [], [])) }
            ensures { (result.table_id ≡ seat.table_id) × ((number : ℕ) × Drew 0 (Some new_worker ∷ None ∷ [], []) number result.me) }
        { draw_once(desk, seat, 0) },
        move || -> Seat<Office>
            requires { (other.table_id ≡ desk.now.office.table.shared.table_id) × (other.me ≡ (None ∷ Some new_worker ∷ [], [])) }
            ensures { (result.table_id ≡ other.table_id) × ((number : ℕ) × Drew 1 (None ∷ Some new_worker ∷ [], []) number result.me) }
        { draw_once(desk, other, 1) },
    );
    desk.join(&mut seat, other);
    desk.total(&mut seat)
}
