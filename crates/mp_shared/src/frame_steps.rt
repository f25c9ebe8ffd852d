//! The steps on frames. Each is one operation on the word of a page's turn, and one event of the machine: its condition
//! is on the part of primary `p` alone, which the node holds. A node has one frame at a time. None takes memory or waits.
ghost use Rattle.std.specs.Prelude.{◌≡◌, [], ◌∷◌, MatchOption};
ghost use Rattle.mp_core_pages.specs.declared.event.PagesEvent.TheVariants.{TakeFrame, GiveFrame};
ghost use Rattle.mp_core_pages.specs.PageEvents.{turn_of};
ghost use Rattle.mp_core.specs.declared.event.CoreEvent.TheVariants.{Pages};
ghost use Rattle.mp_core.specs.World.{of_pages, core_index, IsCorePlace};
ghost use Rattle.mp_shared.specs.Nodes.{MayTake, TookUnseen};
ghost use Rattle.mp_shared.specs.PageSteps.{MissedFrame, TookFrame};

use crate::node::Node;
use crate::shared::Shared;
use mp_core::TURN_WORDS;
use mp_page::Page;
use std::marker::Brand;

/// Where the word of a frame's turn lies.
fn turn_word_at(page: u16) -> usize
    requires { IsCorePlace (of_pages (turn_of page)) }
    ensures { result ≡ core_index (of_pages (turn_of page)) }
{
    TURN_WORDS + usize::from(page)
}

impl Shared {
    /// Takes the frame of a page for `p`, if it is at home. The answer is the page that is in it. `p` has this content of
    /// the page from then on, where it had none under its lock, and the node carries the frame. `None` where another node
    /// has the frame, as the word of its turn said: then `p` has made one operation more, and nothing else changed.
    pub fn take_frame(&self, node: &mut Node, p: u8, page: u16) -> Option<Page>
        requires run { node.old.run ≡ self.now }
        requires frames { node.old.frames ≡ [] }
        requires step { MayTake (Pages (TakeFrame p page)) node.old }
        ensures { MatchOption result (MissedFrame p page node.old node.new) (λ y. TookFrame p page y node.old node.new) }
    {
        let found = self.table.compare_exchange::<Brand, (u8, u16)>(
            &mut node.seat,
            turn_word_at(page),
            0,
            u64::from(p),
            &(p, page),
        );
        if found != 0 {
            return None;
        }
        let taken = self
            .table
            .exchange(&mut node.seat, usize::from(page), Page::blank());
        Some(taken)
    }

    /// Gives the frame of a page back, with this page in it, which all nodes find there from then on. It is the page that
    /// was taken, or the content of `p` where `p` writes the page. The node carries no frame then.
    pub fn give_frame(&self, node: &mut Node, p: u8, page: u16, frame: Page)
        requires run { node.old.run ≡ self.now }
        requires frames { node.old.frames ≡ page ∷ [] }
        requires step { MayTake (Pages (GiveFrame p page frame)) node.old }
        ensures { TookUnseen (Pages (GiveFrame p page frame)) node.old node.new }
    {
        self.table
            .exchange(&mut node.seat, usize::from(page), frame);
        self.table
            .store::<Brand, (u8, u16, &Page)>(
                &mut node.seat,
                turn_word_at(page),
                0,
                &(p, page, &frame),
            );
    }
}
