//! The list that every named list of the engine is.

ghost use Rattle.std.specs.Prelude.{◌≡◌, ◌+◌, ◌-◌, ◌<◌, ◌≤◌, [], ◌∷◌, ◌++◌, length, IsOk, IsSome, IsTrue, OnOk, OnErr, slice_get, Some, ◌↔◌, slice_set};
ghost use Rattle.std.specs.List.{insert, remove};
ghost use Rattle.std.specs.Option.{option_to_list};

use crate::errors::Memory;
use std::alloc::Global;
use std::marker::Model;

/// A list of items in their order. Contracts see its `items` and a number, `spare`: while that is above 0, a push
/// takes no memory. "Unchanged" never speaks of `spare`.
#[derive(Debug, Drop)]
pub struct Items<T> {
    items: Vec<T>,
}

impl<T> Model for Items<T> {
    ghost use Rattle.std.specs.Prelude.{◌-◌, vec_len, vec_capacity};
    ghost use Rattle.mp_model.specs.Listed.{Listed, listed_code};

    ghost Value = { Listed T };

    ghost coded = { listed_code T.code };

    ghost view = { λ l. record { items = l.items.items; spare = vec_capacity l.items - vec_len l.items } };
}

/// A list of bytes.
pub type Text = Items<u8>;

impl<T> Items<T> {
    /// The empty list. It takes no memory.
    pub fn new(alloc: Global) -> Self
        ensures { result.items ≡ [] }
    {
        Items {
            items: Vec::new(alloc),
        }
    }

    /// The list of a vector's elements.
    pub fn from_vec(items: Vec<T>) -> Self
        ensures { result.items ≡ items.items }
    {
        Items { items }
    }

    pub fn len(&self) -> usize
        ensures { result ≡ length self.now.items }
    {
        self.items.len()
    }

    pub fn is_empty(&self) -> bool
        ensures { IsTrue result ↔ (self.now.items ≡ []) }
    {
        self.items.is_empty()
    }

    /// The items as a slice.
    pub fn as_slice(&self) -> &[T]
        ensures { result.now ≡ self.now.items }
    {
        &self.items
    }

    /// The i-th item, from 0.
    pub fn get(&self, i: usize) -> &T
        requires { i < length self.now.items }
        ensures { slice_get self.now.items i ≡ Some result.now }
    {
        &self.items[i]
    }

    /// Takes the last item out. It takes no memory.
    pub fn pop(&mut self) -> Option<T>
        ensures items { self.old.items ≡ self.new.items ++ option_to_list result }
        ensures some { IsSome result ↔ (0 < length self.old.items) }
        ensures spare { self.old.spare ≤ self.new.spare }
    {
        self.items.pop()
    }

    /// Makes room for so many items more.
    pub fn reserve(&mut self, more: usize) -> Result<(), Memory>
        ensures items { self.new.items ≡ self.old.items }
        ensures ok { OnOk result (more ≤ self.new.spare) }
        ensures spare { self.old.spare ≤ self.new.spare }
    {
        self.items.reserve(more)?;
        Ok(())
    }
}

impl<T: Drop> Items<T> {
    /// Adds an item at the end. A refusal changes nothing.
    pub fn push(&mut self, item: T) -> Result<(), Memory>
        ensures ok { OnOk result (self.new.items ≡ self.old.items ++ item ∷ []) }
        ensures err { OnErr result (self.new.items ≡ self.old.items) }
        ensures room { 0 < self.old.spare → IsOk result }
        ensures spare { self.old.spare ≤ self.new.spare + 1 }
    {
        self.items.push(item)?;
        Ok(())
    }

    /// Adds an item at the end, in a free place. It takes no memory.
    pub fn put(&mut self, item: T)
        requires { 0 < self.old.spare }
        ensures items { self.new.items ≡ self.old.items ++ item ∷ [] }
        ensures spare { self.old.spare ≤ self.new.spare + 1 }
    {
        match self.items.push(item) {
            Ok(()) => (),
            Err(_) => unreachable!(),
        }
    }

    /// Puts an item before the i-th, or at the end. A refusal changes nothing.
    pub fn insert(&mut self, i: usize, item: T) -> Result<(), Memory>
        requires { i ≤ length self.old.items }
        ensures ok { OnOk result (self.new.items ≡ insert self.old.items i item) }
        ensures err { OnErr result (self.new.items ≡ self.old.items) }
    {
        self.items.insert(i, item)?;
        Ok(())
    }

    /// Puts an item in the place of the i-th. It takes no memory.
    pub fn replace(&mut self, i: usize, item: T)
        requires { i < length self.old.items }
        ensures items { self.new.items ≡ slice_set self.old.items i item }
        ensures spare { self.old.spare ≤ self.new.spare }
    {
        self.items[i] = item;
    }

    /// Takes the i-th item out; those behind it move up. It takes no memory.
    pub fn remove(&mut self, i: usize) -> T
        requires { i < length self.old.items }
        ensures items { self.new.items ≡ remove self.old.items i }
        ensures item { slice_get self.old.items i ≡ Some result }
    {
        self.items.remove(i)
    }

    /// Leaves the list empty, with the old items' places free. It takes no memory.
    pub fn clear(&mut self)
        ensures items { self.new.items ≡ [] }
        ensures spare { self.old.spare + length self.old.items ≤ self.new.spare }
    {
        self.items.clear();
    }
}

impl<T: Copy + Drop> Items<T> {
    /// Adds copies of all these items at the end. A refusal changes nothing.
    pub fn extend(&mut self, more: &[T]) -> Result<(), Memory>
        ensures ok { OnOk result (self.new.items ≡ self.old.items ++ more.now) }
        ensures err { OnErr result (self.new.items ≡ self.old.items) }
        ensures room { length more.now ≤ self.old.spare → IsOk result }
        ensures spare { self.old.spare ≤ self.new.spare + length more.now }
    {
        self.items.extend_from_slice(more)?;
        Ok(())
    }

    /// Adds copies of all these items at the end, in free places. It takes no memory.
    pub fn put_all(&mut self, more: &[T])
        requires { length more.now ≤ self.old.spare }
        ensures items { self.new.items ≡ self.old.items ++ more.now }
        ensures spare { self.old.spare ≤ self.new.spare + length more.now }
    {
        match self.items.extend_from_slice(more) {
            Ok(()) => (),
            Err(_) => unreachable!(),
        }
    }
}

impl<T: PartialEq> PartialEq for Items<T> {
    ghost use Rattle.std.specs.Cmp.{on_per};
    ghost use Rattle.std.specs.Cmp.Lexicographic.{pointwise, lists_per};

    ghost eq = { λ x y. pointwise T.eq x.items y.items };

    ghost laws = { on_per (λ x. x.items) (lists_per T.laws) };

    fn eq(&self, other: &Self) -> bool {
        self.items == other.items
    }
}
