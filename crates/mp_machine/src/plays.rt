// The rule of the table, and what its steps tell.
ghost use Rattle.std.specs.Prelude.{[]};
ghost use Rattle.mp_machine.specs.View.{only, without, joined};
ghost use Rattle.mp_machine.specs.Rule.{Rule, all_parts, MadeStep, Stored, Looked};

use crate::ruled_table::View;
use crate::system::{NamesEvent, Share, System};
use atomic_table::{Join, Play, Split, TableRule};
use std::marker::PhantomData;

pub struct Ruled<M> {
    system: PhantomData<M>,
}

impl<M: System> TableRule<M::Slot, View<M::Part>, M::Opening> for Ruled<M> {
    ghost holds = { λ opening. Rule (M.machine opening) };

    ghost first = { λ opening. all_parts (M.machine opening) };
}

pub struct Told<M, T> {
    names: PhantomData<(M, T)>,
}

impl<M: System, T: NamesEvent<M, M::Event, M::Opening>> Play<M::Slot, View<M::Part>>
    for Told<M, T> {
    ghost then = { λ step before found after. MadeStep (M.machine T.opening) T.event before found after };
}

pub struct ToldByStore<M, T> {
    names: PhantomData<(M, T)>,
}

impl<M: System, T: NamesEvent<M, M::Event, M::Opening>> Play<M::Slot, View<M::Part>>
    for ToldByStore<M, T> {
    ghost then = { λ step before found after. Stored (M.machine T.opening) T.event before after };
}

pub struct Looks<M, T> {
    names: PhantomData<(M, T)>,
}

impl<M: System, T: NamesEvent<M, M::Event, M::Opening>> Play<M::Slot, View<M::Part>>
    for Looks<M, T> {
    ghost then = { λ step before found after. Looked (M.machine T.opening) before after };
}

pub struct Parted<C> {
    share: PhantomData<C>,
}

impl<P, C: Share> Split<View<P>> for Parted<C> {
    ghost left = { without C.moves };

    ghost right = { only C.moves };
}

pub struct Together;

impl<P> Join<View<P>> for Together {
    ghost both = { joined };

    ghost spent = { [] };
}
