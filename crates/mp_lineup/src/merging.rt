//! The answers of all primaries in one list.
ghost use Rattle.std.specs.Prelude.{◌≡◌, ℕ, ◌≤◌, List, [], ◌∷◌, ◌++◌, length, map, reverse, vec_capacity, Some, IfOk};
ghost use Rattle.mp_supports.specs.Kept.{answers_in};
ghost use Rattle.mp_verdict.specs.Orders.{NodeEntry, entries_given};
ghost use Rattle.mp_lineup.specs.LiningUp.{AreListed};

use mp_model::{Answer, Answers, Items, Memory};
use std::alloc::Global;

/// The answers of all primaries in the order in which they were given, by the numbers of the primaries in that order.
/// `Memory` only for want of memory.
pub fn merge(alloc: Global, order: &[u8], lists: Vec<Answers>) -> Result<Answers, Memory>
    requires { (given : List NodeEntry) × AreListed given order.now (map (λ list. list.items) lists.items) }
    ensures { IfOk result (λ answers. (given : List NodeEntry) → AreListed given order.now (map (λ list. list.items) lists.items)
        → answers.items ≡ answers_in (entries_given given)) }
{
    let mut lists = lists;
    let mut taken = Vec::with_capacity(alloc, order.len())?;
    take_all(order, &mut lists, &mut taken);
    taken.reverse();
    Ok(Items::from_vec(taken))
}

// Takes all answers out of the lists, the one given last first, into a list that has room for them.
fn take_all(order: &[u8], lists: &mut Vec<Answers>, taken: &mut Vec<Answer>)
    requires listed { (given : List NodeEntry) × AreListed given order.now (map (λ list. list.items) lists.old.items) }
    requires none { taken.old.items ≡ [] }
    requires room { length order.now ≤ vec_capacity taken.old }
    ensures { (given : List NodeEntry) → AreListed given order.now (map (λ list. list.items) lists.old.items)
        → taken.new.items ≡ reverse (answers_in (entries_given given)) }
{
    for above in 0..order.len() {
        let number = order[order.len() - 1 - above];
        taken.push_reserved(take_last(number, lists));
    }
}

// Takes the answer that was given last out of the list of its primary.
fn take_last(number: u8, lists: &mut Vec<Answers>) -> Answer
    requires { (given : List NodeEntry) × (last : NodeEntry) × (order : List ℕ)
        × AreListed (given ++ last ∷ []) (order ++ number ∷ []) (map (λ list. list.items) lists.old.items) }
    ensures { (given : List NodeEntry) (last : NodeEntry) (order : List ℕ)
        → AreListed (given ++ last ∷ []) (order ++ number ∷ []) (map (λ list. list.items) lists.old.items)
        → AreListed given order (map (λ list. list.items) lists.new.items) × (last.entry.answer ≡ Some result) }
{
    match lists[usize::from(number) - 1].pop() {
        Some(answer) => answer,
        None => unreachable!(),
    }
}
