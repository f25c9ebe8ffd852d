//! How a primary takes a page's frame and gives it back.
ghost use Rattle.std.specs.Prelude.{◌≡◌, ◌<◌, [], MatchOption};
ghost use Rattle.mp_cells.specs.PageView.{PageView};
ghost use Rattle.mp_core_pages.specs.declared.opening.TheConstants.{PAGES};
ghost use Rattle.mp_core_pages.specs.declared.page_lock.Held.TheVariants.{No, Write};
ghost use Rattle.mp_shared.specs.Nodes.{HoldsPart, Reached};
ghost use Rattle.mp_shared.specs.PageSteps.{held_in, with_ops, MissedFrame};
ghost use Rattle.mp_buffer_fusion.specs.Agreement.{IsDurablePage, IsInFrame, KnowsContent};
ghost use Rattle.mp_buffer_fusion.specs.Visits.{Visits, IsNewest};

use mp_page::Page;
use mp_shared::{Node, Shared};

/// Takes the frame of a page that `p` holds, and gives it back as it was. The answer is the page in it, which is the newest
/// content. All records of `p` on the page are in the frame. `None` where the frame was not at home: `p` made one operation
/// more, and nothing else changed.
pub(crate) fn read_frame(shared: &Shared, node: &mut Node, p: u8, number: u16) -> Option<Page>
    requires run { node.old.run ≡ shared.now }
    requires part { HoldsPart node.old p }
    requires page { number < PAGES }
    requires lock { ¬ (held_in node.old p number ≡ No) }
    requires frames { node.old.frames ≡ [] }
    requires in_frame { IsInFrame node.old p number }
    ensures read { MatchOption result (MissedFrame p number node.old node.new × (node.new ≡ with_ops node.old p 1)) (λ y. Visits p number y y node.old node.new × IsNewest node.new number y × IsInFrame node.new p number) }
    ensures reached { Reached node.new }
{
    let found = shared.take_frame(node, p, number)?;
    shared.give_frame(node, p, number, found);
    Some(found)
}

/// Takes the frame of a page that `p` writes, and gives it back with the content that `p` has of the page, of which all
/// records are durable. The frame is at home, since nobody else holds the page.
pub(crate) fn write_frame(shared: &Shared, node: &mut Node, p: u8, number: u16, page: Page)
    requires run { node.old.run ≡ shared.now }
    requires part { HoldsPart node.old p }
    requires page { number < PAGES }
    requires lock { held_in node.old p number ≡ Write }
    requires frames { node.old.frames ≡ [] }
    requires content { KnowsContent node.old p number page }
    requires durable { IsDurablePage node.old p number }
    ensures visit { (found : PageView) × Visits p number found page node.old node.new }
    ensures in_frame { IsInFrame node.new p number }
    ensures reached { Reached node.new }
{
    let Some(_found) = shared.take_frame(node, p, number) else {
        let _held = node.holds(p, number);
        unreachable!()
    };
    shared.give_frame(node, p, number, page);
}
