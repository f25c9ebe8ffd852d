//! The table and its seats: how they begin, are cut and put together, and end.
ghost use Rattle.std.specs.Prelude.{◌≡◌, ◌<◌, [], length, IfOk, IfErr};
ghost use Rattle.std.specs.Mem.Slots.{slots_items, slots_len, IsFull};
ghost use Rattle.mp_machine.specs.View.{only, without, joined};
ghost use Rattle.mp_machine.specs.Rule.{Opens, all_parts, Backed, Ends};

use crate::plays::{Looks, Parted, Ruled, Together};
use crate::system::{NamesEvent, Share, System};
use atomic_table::{Closed, Refused, Table};
use std::alloc::Global;
use std::collections::LinkedList;

/// What a seat knows: by node, the part that it holds. No value of it is made.
pub type View<P> = LinkedList<Option<P>>;

/// What a thread steps with. It has no bytes.
pub type Seat<M> = atomic_table::Seat<<M as System>::Slot, View<<M as System>::Part>>;

/// A table of words and slots that threads share, under the rule of the machine `M`.
#[derive(Drop)]
pub struct RuledTable<M: System> {
    pub table: Table<M::Slot, View<M::Part>, M::Opening, Ruled<M>, Global>,
}

impl<M: System> RuledTable<M> {
    /// A table, and the first seat, which holds the parts of all nodes. At `Err` there was no memory, and the slots come back.
    pub fn new(
        alloc: Global,
        words: &[u64],
        slots: Vec<M::Slot>,
        opening: &M::Opening,
    ) -> Result<(RuledTable<M>, Seat<M>), Refused<M::Slot, Global>>
        requires { Opens (M.machine opening.now) words.now slots.items }
        ensures table { IfOk result (λ t. (t.0.table.shared.table_id.words ≡ length words.now) × (t.0.table.shared.table_id.slots ≡ length slots.items) × (t.0.table.shared.key ≡ opening.now)) }
        ensures seat { IfOk result (λ t. (t.1.table_id ≡ t.0.table.shared.table_id) × (t.1.me ≡ (all_parts (M.machine opening.now), []))) }
        ensures refused { IfErr result (λ r. r.slots.items ≡ slots.items) }
    {
        let (table, seat) = Table::new(alloc, words, slots, opening)?;
        Ok((RuledTable { table }, seat))
    }

    /// A new seat, which gets the parts of the nodes that `C` names.
    pub fn split<C: Share>(&self, seat: &mut Seat<M>) -> Seat<M>
        requires { (seat.old.table_id ≡ self.now.table.shared.table_id) × (0 < self.now.table.shared.table_id.words) }
        ensures kept { (seat.new.table_id ≡ seat.old.table_id) × (seat.new.id ≡ seat.old.id) × (seat.new.me ≡ (without C.moves seat.old.me.0, seat.old.me.1)) }
        ensures given { (result.table_id ≡ seat.old.table_id) × (result.me ≡ (only C.moves seat.old.me.0, [])) }
    {
        self.table.shared.split_seat::<Parted<C>>(seat)
    }

    /// Takes in the parts of a seat that carries no slot. It looks at the table once more, so the parts together are backed.
    pub fn join<T: NamesEvent<M, M::Event, M::Opening>>(&self, seat: &mut Seat<M>, other: Seat<M>)
        requires table { (seat.old.table_id ≡ self.now.table.shared.table_id) × (other.table_id ≡ self.now.table.shared.table_id) × (T.opening ≡ self.now.table.shared.key) × (0 < self.now.table.shared.table_id.words) }
        requires empty { other.me.1 ≡ [] }
        ensures seat { (seat.new.table_id ≡ seat.old.table_id) × (seat.new.id ≡ seat.old.id) × (seat.new.me ≡ (joined seat.old.me.0 other.me.0, seat.old.me.1)) }
        ensures backed { Backed (M.machine T.opening) seat.new.me.0 }
    {
        self.table.shared.join_seat::<Together>(seat, other);
        self.look::<T>(seat);
    }

    /// Changes nothing: some state of the machine that can be reached agrees with the seat's view.
    pub fn look<T: NamesEvent<M, M::Event, M::Opening>>(&self, seat: &mut Seat<M>)
        requires table { (seat.old.table_id ≡ self.now.table.shared.table_id) × (T.opening ≡ self.now.table.shared.key) × (0 < self.now.table.shared.table_id.words) }
        ensures seat { (seat.new.table_id ≡ seat.old.table_id) × (seat.new.id ≡ seat.old.id) × (seat.new.me ≡ seat.old.me) }
        ensures backed { Backed (M.machine T.opening) seat.new.me.0 }
    {
        self.table.shared.load::<Looks<M, T>>(seat, 0);
    }

    /// Takes the table apart. The words and the slots that were at home are those of one last state of the machine, which
    /// agrees with the seat's view.
    pub fn close(self, seat: Seat<M>) -> Closed<M::Slot, Global>
        requires { seat.table_id ≡ self.table.shared.table_id }
        ensures counts { (slots_len result.words ≡ self.table.shared.table_id.words) × (slots_len result.slots ≡ self.table.shared.table_id.slots) }
        ensures full { IsFull result.words × IsFull result.slots }
        ensures last { Ends (M.machine self.table.shared.key) (slots_items result.words) (slots_items result.slots) seat.me.0 }
    {
        let RuledTable { table } = self;
        table.close_with(seat)
    }
}
