//! The machine of the example.

use mp_machine::{NamesEvent, System};
use std::marker::Brand;

/// What one node knows. No value of it is made.
pub struct Worker {
    pub draws: u64,
    /// How many events there were at its last draw.
    pub heard: u64,
    pub holds: bool,
}

/// A step of the node that it names. No value of it is made.
pub enum Event {
    Draw(u64),
    Total(u64),
    Lock(u64),
    Unlock(u64, u64),
}

/// The machine.
pub struct Office;

impl System for Office {
    type Slot = u64;

    type Part = Worker;

    type Opening = u64;

    type Event = Event;

    ghost use Rattle.mp_machine_example.specs.Numbers.{OfficePlace, OfficeWorld, office};
    ghost use Rattle.mp_machine_example.specs.NumbersLaws.{office_laws};
    ghost use Rattle.std.specs.Prelude.{ℕ};

    ghost Place = { OfficePlace };

    ghost Note = { ℕ };

    ghost World = { OfficeWorld };

    ghost machine = { office };

    ghost laws = { office_laws };
}

impl NamesEvent<Office, Event, u64> for Brand {
    ghost use Rattle.mp_machine_example.specs.declared.system.Event.TheVariants.{Total};

    ghost event = { Total 0 };

    ghost opening = { 0 };
}
