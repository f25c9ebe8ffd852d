//! The table of all words, and how nodes begin, are cut and put together.
ghost use Rattle.std.specs.Prelude.{◌≡◌, ℕ, ◌<◌, ◌≤◌, ◌==◌, [], length, IfOk, MatchResult};
ghost use mathlib.Core.Option.{some};
ghost use lib.ListN.{get_elem?};
ghost use Rattle.mp_machine.specs.View.{only, without};
ghost use Rattle.mp_core.specs.declared.words.TheConstants.{WORDS};
ghost use Rattle.mp_core.specs.Invariant.{NumbersFit};
ghost use Rattle.mp_shared.specs.Endings.{Closes};
ghost use Rattle.mp_shared.specs.FirstWords.{first_word};
ghost use Rattle.mp_shared.specs.Nodes.{opening_of, first_node, HoldsAll, HoldsPart, node_without, node_of_one, joined_nodes, Reached};

use crate::frames::Frames;
use crate::held_locks::HeldLocks;
use crate::node::Node;
use crate::opening::Opening;
use crate::slot_counts::SlotCounts;
use crate::system::Core;
use atomic_table::Refused;
use mp_core::{DOWN_WORDS, LLSN_WORDS, TSO_WORD, WORDS};
use mp_core_trx::{Base, TrxOpening};
use mp_machine::{RuledTable, Seat, Share};
use mp_model::Memory;
use mp_page::Pages;
use std::alloc::{AllocError, Global};
use std::marker::{Brand, Model};
use std::snapshot::Snapshot;

/// The table of all words, under the rule of the joint machine: the steps of all nodes on it, each allowed when it came,
/// lead to a world that stands behind it. Contracts see which table it is, and what its run began from.
#[derive(Drop)]
pub struct Shared {
    pub(crate) table: RuledTable<Core>,
}

impl Model for Shared {
    ghost use Rattle.std.specs.Prelude.{◌≡◌};
    ghost use Rattle.mp_core_pages.specs.declared.opening.TheConstants.{PAGES};
    ghost use Rattle.mp_core.specs.declared.words.TheConstants.{WORDS};
    ghost use Rattle.mp_shared.specs.Nodes.{Run};

    ghost Value = { Run };

    ghost view = { λ s. record { table_id = s.table.table.shared.table_id; opening = s.table.table.shared.key } };

    ghost invariant = { λ s. (s.table.table.shared.table_id.words ≡ WORDS) × (s.table.table.shared.table_id.slots ≡ PAGES) };
}

/// The words of a table before any step, so many of them: the timestamp oracle and the LLSNs of all primaries, and zeros.
fn first_words(alloc: Global, count: usize, base: Base) -> Result<Vec<u64>, AllocError>
    requires { count ≡ WORDS }
    ensures count { IfOk result (λ words. length words.items ≡ count) }
    ensures words { IfOk result (λ words. (k : ℕ) → k < count → get_elem? words.items k ≡ some (first_word base k)) }
{
    let mut words = Vec::from_elem(alloc, 0u64, count)?;
    words[TSO_WORD] = base.ts;
    for i in LLSN_WORDS..DOWN_WORDS {
        words[i] = base.llsn;
    }
    Ok(words)
}

/// A new seat, with the parts that `C` names.
fn part_off<C: Share, A>(table: &RuledTable<Core>, seat: &mut Seat<Core>, _about: &A) -> Seat<Core>
    requires { (seat.old.table_id ≡ table.now.table.shared.table_id) × (0 < table.now.table.shared.table_id.words) }
    ensures kept { (seat.new.table_id ≡ seat.old.table_id) × (seat.new.me ≡ (without C.moves seat.old.me.0, seat.old.me.1)) }
    ensures given { (result.table_id ≡ seat.old.table_id) × (result.me ≡ (only C.moves seat.old.me.0, [])) }
{
    table.split::<C>(seat)
}

impl Shared {
    /// The table of a run over a clean store that has reached `base` and has these pages, with 1 to 8 primaries that begin
    /// at most `begins` transactions in all, and the node that holds the parts of all primaries. The pages become the frames
    /// of the table; none is copied. `NumbersFit` says which numbers fit: the base version and `begins` stay below 2^24, the
    /// base timestamp and 8 times `begins` below 2^38, the base LLSN and 240,000 below 2^62; and that there are all 4,096
    /// pages, and that they are clean. At `Err` there was no memory, and the pages are gone.
    pub fn open(
        alloc: Global,
        base: Base,
        primaries: u8,
        begins: u32,
        pages: Pages,
    ) -> Result<(Shared, Node), Memory>
        requires { NumbersFit (opening_of base primaries begins pages.items) }
        ensures opened { IfOk result (λ t. (t.0.opening ≡ opening_of base primaries begins pages.items) × (t.1 ≡ first_node t.0)) }
        ensures reached { IfOk result (λ t. Reached t.1) }
    {
        let opening = Opening {
            trx: TrxOpening {
                base,
                primaries,
                begins,
            },
            pages: Snapshot::of(&pages),
        };
        let words = first_words(alloc, WORDS, base)?;
        let locks = HeldLocks::free(alloc, primaries)?;
        match RuledTable::new(alloc, &words, pages.into_items(), &opening) {
            Ok((table, seat)) => {
                let shared = Shared { table };
                let run = Snapshot::of(&shared);
                let counts = SlotCounts::unused(primaries);
                Ok((
                    shared,
                    Node {
                        seat,
                        run,
                        counts,
                        locks,
                    },
                ))
            }
            Err(Refused { slots: _ }) => Err(Memory),
        }
    }

    /// A new node, which gets the part of primary `p` from a node that carries no frame. At `Err` there was no memory, and
    /// nothing changed.
    pub fn split(&self, node: &mut Node, p: u8) -> Result<Node, Memory>
        requires run { node.old.run ≡ self.now }
        requires part { HoldsPart node.old p }
        requires frames { node.old.frames ≡ [] }
        ensures parted { MatchResult result (λ other. (other ≡ node_of_one p node.old) × (node.new ≡ node_without p node.old)) (λ _. node.new ≡ node.old) }
        ensures reached { IfOk result (λ other. Reached other × Reached node.new) }
    {
        let seat = part_off::<Brand, u8>(&self.table, &mut node.seat, &p);
        let mut counts = SlotCounts::none();
        counts.set(p, node.counts.get(p));
        node.counts.set(p, None);
        Ok(Node {
            seat,
            run: Snapshot::of(self),
            counts,
            locks: node.locks.part_off(p),
        })
    }

    /// Takes in the parts of another node, where neither carries a frame. It looks at the table once more: then some world
    /// that can be reached agrees with the parts of both.
    pub fn join(&self, node: &mut Node, other: Node)
        requires run { (node.old.run ≡ self.now) × (other.run ≡ self.now) }
        requires frames { (node.old.frames ≡ []) × (other.frames ≡ []) }
        ensures node { node.new ≡ joined_nodes node.old other }
        ensures reached { Reached node.new }
    {
        let Node {
            seat,
            run,
            counts,
            locks,
        } = other;
        drop(run);
        self.table.join::<Brand>(&mut node.seat, seat);
        node.counts.join(&counts);
        node.locks.join(locks);
    }

    /// Ends the run, and gives the frames back. The node holds the parts of all primaries, and carries no frame. In each
    /// frame is what some first mtrs make of the opening's page, durable ones; where no part writes the page, all mtrs do.
    /// It takes no memory.
    pub fn close(self, node: Node) -> Frames
        requires run { node.run ≡ self }
        requires parts { HoldsAll node }
        requires frames { node.frames ≡ [] }
        ensures { Closes node result }
    {
        let Shared { table } = self;
        let Node {
            seat,
            run,
            counts: _,
            locks,
        } = node;
        drop(run);
        drop(locks);
        Frames {
            closed: table.close(seat),
        }
    }
}
