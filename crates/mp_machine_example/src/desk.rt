//! The table of the example, and its steps.
ghost use Rattle.std.specs.Prelude.{◌≡◌, ◌+◌, [], ◌∷◌, Some, IfOk, IfSome, IfNone, ℕ};
ghost use Rattle.mp_machine.specs.Rule.{Backed};
ghost use Rattle.mp_machine.specs.View.{without, only, joined, part_in};
ghost use Rattle.mp_machine_example.specs.Numbers.{new_worker, office, is_second, CanDraw, Drew, HasWorker, Has, CanUnlock, Unlocked, WasHeld};

use crate::system::{Office, Worker};
use atomic_table::Refused;
use mp_machine::{RuledTable, Seat};
use std::alloc::{AllocError, Global};
use std::marker::Brand;

/// A counter, and a lock over one value.
#[derive(Drop)]
pub struct Desk {
    office: RuledTable<Office>,
    pub ghost sized: { office.table.shared.table_id.words ≡ 2 },
}

impl Desk {
    /// The seat holds both workers. `Err` where there is no memory.
    pub fn open(alloc: Global, value: u64) -> Result<(Desk, Seat<Office>), AllocError>
        ensures { IfOk result (λ d. (d.1.table_id ≡ d.0.office.table.shared.table_id) × (d.1.me ≡ (Some new_worker ∷ Some new_worker ∷ [], []))) }
    {
        let mut slots = Vec::with_capacity(alloc, 1)?;
        slots.push_reserved(value);
        match RuledTable::new(alloc, &[0, 0], slots, &value) {
            Ok((office, seat)) => Ok((Desk { office }, seat)),
            Err(Refused { slots: _ }) => Err(AllocError),
        }
    }

    /// Draws a number, and hears of at least as many events.
    pub fn draw(&self, seat: &mut Seat<Office>, node: u64) -> u64
        requires table { seat.old.table_id ≡ self.now.office.table.shared.table_id }
        requires worker { CanDraw seat.old.me node }
        ensures table { seat.new.table_id ≡ seat.old.table_id }
        ensures drawn { Drew node seat.old.me result seat.new.me }
    {
        self.office.fetch_add::<Brand, u64>(seat, 0, 1, &node)
    }

    /// How many numbers were drawn. Who holds both workers knows it.
    pub fn total(&self, seat: &mut Seat<Office>) -> u64
        requires table { seat.old.table_id ≡ self.now.office.table.shared.table_id }
        requires worker { HasWorker seat.old.me 0 }
        ensures seat { (seat.new.table_id ≡ seat.old.table_id) × (seat.new.me ≡ seat.old.me) }
        ensures exact { (p : Worker) (q : Worker) → part_in seat.old.me.0 0 ≡ Some p → part_in seat.old.me.0 1 ≡ Some q → result ≡ p.draws + q.draws }
    {
        self.office.load::<Brand, ()>(seat, 0, &())
    }

    /// Takes the value. `None` if the lock is held, and nothing changed.
    pub fn lock(&self, seat: &mut Seat<Office>, node: u64) -> Option<u64>
        requires table { seat.old.table_id ≡ self.now.office.table.shared.table_id }
        requires worker { HasWorker seat.old.me node }
        ensures table { seat.new.table_id ≡ seat.old.table_id }
        ensures taken { IfSome result (λ _. Has node seat.old.me 0 seat.new.me) }
        ensures missed { IfNone result ((seat.new.me ≡ seat.old.me) × WasHeld self.now.office.table.shared.key seat.old.me.0) }
    {
        let found = self
            .office
            .compare_exchange::<Brand, u64>(seat, 1, 0, 1, &node);
        if found != 0 {
            return None;
        }
        Some(self.office.exchange(seat, 0, 0))
    }

    /// Puts a value in, and gives the lock back.
    pub fn unlock(&self, seat: &mut Seat<Office>, node: u64, value: u64)
        requires table { seat.old.table_id ≡ self.now.office.table.shared.table_id }
        requires worker { CanUnlock seat.old.me node }
        ensures table { seat.new.table_id ≡ seat.old.table_id }
        ensures given { Unlocked node seat.old.me seat.new.me }
    {
        self.office.exchange(seat, 0, value);
        self.office
            .store::<Brand, (u64, u64)>(seat, 1, 0, &(node, value));
    }

    /// A new seat, with the second worker.
    pub fn split(&self, seat: &mut Seat<Office>) -> Seat<Office>
        requires { seat.old.table_id ≡ self.now.office.table.shared.table_id }
        ensures kept { (seat.new.table_id ≡ seat.old.table_id) × (seat.new.me ≡ (without is_second seat.old.me.0, seat.old.me.1)) }
        ensures given { (result.table_id ≡ seat.old.table_id) × (result.me ≡ (only is_second seat.old.me.0, [])) }
    {
        self.office.split::<Brand>(seat)
    }

    /// Takes in the workers of the other seat.
    pub fn join(&self, seat: &mut Seat<Office>, other: Seat<Office>)
        requires table { (seat.old.table_id ≡ self.now.office.table.shared.table_id) × (other.table_id ≡ self.now.office.table.shared.table_id) }
        requires empty { other.me.1 ≡ [] }
        ensures seat { (seat.new.table_id ≡ seat.old.table_id) × (seat.new.me ≡ (joined seat.old.me.0 other.me.0, seat.old.me.1)) }
        ensures backed { Backed (office self.now.office.table.shared.key) seat.new.me.0 }
    {
        self.office.join::<Brand>(seat, other);
    }
}
