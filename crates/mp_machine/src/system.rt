//! What an instance gives, and how a caller names an event.
ghost use Rattle.std.specs.Prelude.{ℕ, Bool};
ghost use Rattle.mp_machine.specs.Machine.{Machine};
ghost use Rattle.mp_machine.specs.Rule.{Laws};

use std::marker::Brand;

/// A machine, and its laws. No value of it is made.
pub trait System {
    /// What a slot of the table holds.
    type Slot: Drop;
    /// What one node knows. No value of it is made.
    type Part;
    /// What the machine starts from, told once, when the table is made.
    type Opening;

    /// A step of one node. No value of it is made.
    type Event;

    // Types that clauses alone have.
    ghost Place: { Type 0 };

    ghost Note: { Type 0 };

    ghost World: { Type 0 };

    ghost machine: { Self.Opening → Machine Self.Slot Self.Part Self.Event Place Note World };

    ghost laws: { (opening : Self.Opening) → Laws (machine opening) };
}

/// The event that a step is, and the opening of its table. A caller passes `Brand`, and picks both in its proof. Its crate
/// has the `impl` for `Brand`, at its own system and with any event and opening.
pub trait NamesEvent<M, E, K> {
    ghost event: { E };

    ghost opening: { K };
}

/// The nodes whose parts go to a new seat. A caller passes `Brand`, and picks it in its proof.
pub trait Share {
    ghost moves: { ℕ → Bool };
}

impl Share for Brand {
    ghost use Rattle.std.specs.Prelude.{false};

    ghost moves = { λ _. false };
}
