//! Steps on one word. Each is one event of a node whose part the seat holds, and may take a slot or give one back.
//!
//! `_about` is for the proof alone: a caller picks the event from what a call is passed, so it passes here what the event
//! names, as the number of its node. A step returns the word as it was. `Made` says what the seat knows then: the event
//! came after others that were allowed, and the part is what the event makes of the word found, its note and the part
//! before.
ghost use Rattle.std.specs.Prelude.{◌≡◌, ◌+◌, ◌%◌, ◌^◌, ◌<◌, ◌==◌, ◌∷◌, bit_and, bit_or};
ghost use prog.Atomic.{either};
ghost use Rattle.atomic_table.specs.Table.{rest};
ghost use Rattle.mp_machine.specs.Rule.{CanMake, MadeStep, Stored};

use crate::plays::{Told, ToldByStore};
use crate::ruled_table::{RuledTable, Seat};
use crate::system::{NamesEvent, System};

impl<M: System> RuledTable<M> {
    /// Reads the word, which stays.
    pub fn load<T: NamesEvent<M, M::Event, M::Opening>, A>(
        &self,
        seat: &mut Seat<M>,
        word: usize,
        _about: &A,
    ) -> u64
        requires table { (seat.old.table_id ≡ self.now.table.shared.table_id) × (T.opening ≡ self.now.table.shared.key) × (word < self.now.table.shared.table_id.words) }
        requires event { CanMake (M.machine T.opening) T.event seat.old.me word (λ n. n) }
        ensures seat { (seat.new.table_id ≡ seat.old.table_id) × (seat.new.id ≡ seat.old.id) }
        ensures event { MadeStep (M.machine T.opening) T.event seat.old.me result seat.new.me }
    {
        self.table.shared.load::<Told<M, T>>(seat, word)
    }

    /// Writes the word, whatever it was.
    pub fn store<T: NamesEvent<M, M::Event, M::Opening>, A>(
        &self,
        seat: &mut Seat<M>,
        word: usize,
        new: u64,
        _about: &A,
    )
        requires table { (seat.old.table_id ≡ self.now.table.shared.table_id) × (T.opening ≡ self.now.table.shared.key) × (word < self.now.table.shared.table_id.words) }
        requires event { CanMake (M.machine T.opening) T.event seat.old.me word (λ _. new) }
        ensures seat { (seat.new.table_id ≡ seat.old.table_id) × (seat.new.id ≡ seat.old.id) }
        ensures event { Stored (M.machine T.opening) T.event seat.old.me seat.new.me }
    {
        self.table
            .shared
            .store::<ToldByStore<M, T>>(seat, word, new);
    }

    /// Writes the word, and returns what it was.
    pub fn swap<T: NamesEvent<M, M::Event, M::Opening>, A>(
        &self,
        seat: &mut Seat<M>,
        word: usize,
        new: u64,
        _about: &A,
    ) -> u64
        requires table { (seat.old.table_id ≡ self.now.table.shared.table_id) × (T.opening ≡ self.now.table.shared.key) × (word < self.now.table.shared.table_id.words) }
        requires event { CanMake (M.machine T.opening) T.event seat.old.me word (λ _. new) }
        ensures seat { (seat.new.table_id ≡ seat.old.table_id) × (seat.new.id ≡ seat.old.id) }
        ensures event { MadeStep (M.machine T.opening) T.event seat.old.me result seat.new.me }
    {
        self.table.shared.swap::<Told<M, T>>(seat, word, new)
    }

    /// Adds to the word, round at 2^64, and returns what it was.
    pub fn fetch_add<T: NamesEvent<M, M::Event, M::Opening>, A>(
        &self,
        seat: &mut Seat<M>,
        word: usize,
        k: u64,
        _about: &A,
    ) -> u64
        requires table { (seat.old.table_id ≡ self.now.table.shared.table_id) × (T.opening ≡ self.now.table.shared.key) × (word < self.now.table.shared.table_id.words) }
        requires event { CanMake (M.machine T.opening) T.event seat.old.me word (λ n. (n + k) % 2 ^ 64) }
        ensures seat { (seat.new.table_id ≡ seat.old.table_id) × (seat.new.id ≡ seat.old.id) }
        ensures event { MadeStep (M.machine T.opening) T.event seat.old.me result seat.new.me }
    {
        self.table.shared.fetch_add::<Told<M, T>>(seat, word, k)
    }

    /// Keeps the bits of `k`, and returns what the word was.
    pub fn fetch_and<T: NamesEvent<M, M::Event, M::Opening>, A>(
        &self,
        seat: &mut Seat<M>,
        word: usize,
        k: u64,
        _about: &A,
    ) -> u64
        requires table { (seat.old.table_id ≡ self.now.table.shared.table_id) × (T.opening ≡ self.now.table.shared.key) × (word < self.now.table.shared.table_id.words) }
        requires event { CanMake (M.machine T.opening) T.event seat.old.me word (λ n. bit_and n k) }
        ensures seat { (seat.new.table_id ≡ seat.old.table_id) × (seat.new.id ≡ seat.old.id) }
        ensures event { MadeStep (M.machine T.opening) T.event seat.old.me result seat.new.me }
    {
        self.table.shared.fetch_and::<Told<M, T>>(seat, word, k)
    }

    /// Sets the bits of `k`, and returns what the word was.
    pub fn fetch_or<T: NamesEvent<M, M::Event, M::Opening>, A>(
        &self,
        seat: &mut Seat<M>,
        word: usize,
        k: u64,
        _about: &A,
    ) -> u64
        requires table { (seat.old.table_id ≡ self.now.table.shared.table_id) × (T.opening ≡ self.now.table.shared.key) × (word < self.now.table.shared.table_id.words) }
        requires event { CanMake (M.machine T.opening) T.event seat.old.me word (λ n. bit_or n k) }
        ensures seat { (seat.new.table_id ≡ seat.old.table_id) × (seat.new.id ≡ seat.old.id) }
        ensures event { MadeStep (M.machine T.opening) T.event seat.old.me result seat.new.me }
    {
        self.table.shared.fetch_or::<Told<M, T>>(seat, word, k)
    }

    /// Writes `new` if the word is `old`, and returns what it was.
    pub fn compare_exchange<T: NamesEvent<M, M::Event, M::Opening>, A>(
        &self,
        seat: &mut Seat<M>,
        word: usize,
        old: u64,
        new: u64,
        _about: &A,
    ) -> u64
        requires table { (seat.old.table_id ≡ self.now.table.shared.table_id) × (T.opening ≡ self.now.table.shared.key) × (word < self.now.table.shared.table_id.words) }
        requires event { CanMake (M.machine T.opening) T.event seat.old.me word (λ n. either (n == old) new n) }
        ensures seat { (seat.new.table_id ≡ seat.old.table_id) × (seat.new.id ≡ seat.old.id) }
        ensures event { MadeStep (M.machine T.opening) T.event seat.old.me result seat.new.me }
    {
        self.table
            .shared
            .compare_exchange::<Told<M, T>>(seat, word, old, new)
    }

    /// Puts a value into the slot that the seat took last, and returns what the slot held. No other thread can reach it.
    pub fn exchange(&self, seat: &mut Seat<M>, slot: usize, new: M::Slot) -> M::Slot
        requires { (seat.old.table_id ≡ self.now.table.shared.table_id) × ((old : M.Slot) × (seat.old.me.1 ≡ (slot, old) ∷ rest seat.old.me.1)) }
        ensures seat { (seat.new.table_id ≡ seat.old.table_id) × (seat.new.id ≡ seat.old.id) }
        ensures value { (seat.old.me.1 ≡ (slot, result) ∷ rest seat.old.me.1) × (seat.new.me ≡ (seat.old.me.0, (slot, new) ∷ rest seat.old.me.1)) }
    {
        self.table.shared.exchange(seat, slot, new)
    }
}
