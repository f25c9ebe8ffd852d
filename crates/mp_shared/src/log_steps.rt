//! The steps on logs. Each is one operation on one word, and one event of the machine: its condition is on the part of
//! primary `p` alone, which the node holds. None takes memory or waits.
ghost use Rattle.std.specs.Prelude.{◌≡◌};
ghost use Rattle.mp_core_pages.specs.declared.event.PagesEvent.TheVariants.{StoreLlsn, StoreDurable};
ghost use Rattle.mp_core_pages.specs.PageEvents.{llsn_word as at_llsn, durable_word as at_durable};
ghost use Rattle.mp_core.specs.declared.event.CoreEvent.TheVariants.{Pages};
ghost use Rattle.mp_core.specs.World.{of_pages, core_index, IsCorePlace};
ghost use Rattle.mp_shared.specs.Nodes.{MayTake, TookUnseen};

use crate::node::Node;
use crate::shared::Shared;
use mp_cells::Mtr;
use mp_core::{DURABLE_WORDS, LLSN_WORDS};
use std::marker::Brand;

/// Where the word of a primary's LLSN lies.
fn llsn_word(p: u8) -> usize
    requires { IsCorePlace (of_pages (at_llsn p)) }
    ensures { result ≡ core_index (of_pages (at_llsn p)) }
{
    LLSN_WORDS + (usize::from(p) - 1)
}

/// Where the word of a primary's durable LLSN lies.
fn durable_word(p: u8) -> usize
    requires { IsCorePlace (of_pages (at_durable p)) }
    ensures { result ≡ core_index (of_pages (at_durable p)) }
{
    DURABLE_WORDS + (usize::from(p) - 1)
}

impl Shared {
    /// Makes an mtr of `p`: the primary's LLSN is the mtr's then. Its pages are not changed here.
    pub fn store_llsn(&self, node: &mut Node, p: u8, mtr: &Mtr)
        requires run { node.old.run ≡ self.now }
        requires step { MayTake (Pages (StoreLlsn p mtr.now)) node.old }
        ensures { TookUnseen (Pages (StoreLlsn p mtr.now)) node.old node.new }
    {
        self.table
            .store::<Brand, (u8, &Mtr)>(&mut node.seat, llsn_word(p), mtr.llsn, &(p, mtr));
    }

    /// Says that the log of `p` is durable up to this LLSN.
    pub fn store_durable(&self, node: &mut Node, p: u8, llsn: u64)
        requires run { node.old.run ≡ self.now }
        requires step { MayTake (Pages (StoreDurable p llsn)) node.old }
        ensures { TookUnseen (Pages (StoreDurable p llsn)) node.old node.new }
    {
        self.table
            .store::<Brand, (u8, u64)>(&mut node.seat, durable_word(p), llsn, &(p, llsn));
    }
}
