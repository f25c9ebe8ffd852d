//! The steps on the words that tell which primaries are down. Each is one operation on one word, and one event of the
//! machine: its condition is on the part of primary `p` alone, which the node holds. None takes memory or waits.
//!
//! A primary's down word is 0 while it is up. Once it is down, its word has the number of the primary with which the chain
//! began: its own, or that of another that it found down. It stays so. A primary that is down keeps its locks, and serves
//! nothing; who waits for one of its locks finds in its word why none will come.
ghost use Rattle.std.specs.Prelude.{◌≡◌};
ghost use Rattle.mp_core.specs.declared.event.CoreEvent.TheVariants.{Down};
ghost use Rattle.mp_core.specs.declared.event.DownEvent.TheVariants.{StoreDown, LoadDown};
ghost use Rattle.mp_core.specs.Downs.{goes_down_by, with_down_load};
ghost use Rattle.mp_core.specs.World.{of_down, core_index, IsCorePlace};
ghost use Rattle.mp_shared.specs.Nodes.{MayTake, Took, TookUnseen};
ghost use Rattle.mp_shared.specs.DownSteps.{with_downs};

use crate::node::Node;
use crate::shared::Shared;
use mp_core::DOWN_WORDS;
use std::marker::Brand;

/// Where the word lies that tells whether a primary is down.
fn down_word_at(p: u8) -> usize
    requires { IsCorePlace (of_down p) }
    ensures { result ≡ core_index (of_down p) }
{
    DOWN_WORDS + (usize::from(p) - 1)
}

impl Shared {
    /// Says that `p` is down from now on, with this number: its own, or one that it loaded from the word of another. It was
    /// up, as its part knows.
    pub fn store_down(&self, node: &mut Node, p: u8, by: u8)
        requires run { node.old.run ≡ self.now }
        requires step { MayTake (Down (StoreDown p by)) node.old }
        ensures step { TookUnseen (Down (StoreDown p by)) node.old node.new }
        ensures stored { node.new ≡ with_downs node.old p (goes_down_by by) 1 }
    {
        self.table
            .store::<Brand, (u8, u8)>(&mut node.seat, down_word_at(p), u64::from(by), &(p, by));
    }

    /// The number with which primary `of`, 1 to 8, is down, or 0 where it was up. A number other than 0 stays known to `p`.
    pub fn load_down(&self, node: &mut Node, p: u8, of: u8) -> u8
        requires run { node.old.run ≡ self.now }
        requires step { MayTake (Down (LoadDown p of)) node.old }
        ensures step { Took (Down (LoadDown p of)) node.old result node.new }
        ensures loaded { node.new ≡ with_downs node.old p (with_down_load of result) 1 }
    {
        let word = self
            .table
            .load::<Brand, (u8, u8)>(&mut node.seat, down_word_at(of), &(p, of));
        word as u8
    }
}
