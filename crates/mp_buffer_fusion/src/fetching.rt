//! How pages come into buffers, and how they go back into their frames.
ghost use Rattle.std.specs.Prelude.{◌≡◌, ◌<◌, [], Some};
ghost use Rattle.std.specs.Borrow.{sem};
ghost use Rattle.mp_cells.specs.PageView.{PageView};
ghost use Rattle.mp_core_pages.specs.declared.opening.TheConstants.{PAGES};
ghost use Rattle.mp_core_pages.specs.declared.page_lock.Held.TheVariants.{No, Write};
ghost use Rattle.mp_shared.specs.Nodes.{HoldsPart, Reached};
ghost use Rattle.mp_shared.specs.PageSteps.{held_in};
ghost use Rattle.mp_buffer_fusion.specs.declared.buffer.Buffer.{Buffer};
ghost use Rattle.mp_buffer_fusion.specs.Buffers.{buffer_of, IsBuffered, HasFreeBuffer, with_buffer, cleaned_buffer};
ghost use Rattle.mp_buffer_fusion.specs.Agreement.{AgreesIn, IsDurablePage, IsInFrame};
ghost use Rattle.mp_buffer_fusion.specs.Visits.{Visits};
ghost use Rattle.mp_buffer_fusion.specs.Fetching.{frame_missed as frame_missed_of, FetchesPlace};
ghost use Rattle.mp_buffer_fusion.specs.Lending.{HandsBuffer};

use crate::pool::Pool;
use crate::visits::{read_frame, write_frame};
use mp_model::{NotYet, WordKind};
use mp_page::Page;
use mp_shared::{Node, Shared};
use mp_steps::{Ledger, Steps};

/// What a call answers that found the frame of a page taken.
fn frame_missed(number: u16) -> NotYet
    ensures { result ≡ frame_missed_of number }
{
    NotYet {
        of: WordKind::Frame,
        at: u32::from(number),
        seen: 0,
    }
}

impl Pool {
    /// The place of the buffer of a page that `p` holds, with the newest content. A page that has a buffer costs nothing.
    /// Else its frame is taken and given back, which is one step, and it comes into a free buffer, which is clean. `NotYet`
    /// only where the frame was not at home in this call: `p` made one operation more, and nothing else changed.
    pub fn fetch<L: Ledger>(
        &mut self,
        shared: &Shared,
        node: &mut Node,
        p: u8,
        number: u16,
        steps: &mut Steps<L>,
    ) -> Result<usize, NotYet>
        requires run { node.old.run ≡ shared.now }
        requires reached { Reached node.old }
        requires part { HoldsPart node.old p }
        requires page { number < PAGES }
        requires lock { ¬ (held_in node.old p number ≡ No) }
        requires frames { node.old.frames ≡ [] }
        requires agrees { AgreesIn self.old node.old p }
        requires room { HasFreeBuffer self.old number }
        ensures fetched { FetchesPlace p number self.old self.new node.old node.new steps.old steps.new result }
        ensures agrees { AgreesIn self.new node.new p }
        ensures node { (node.new.run ≡ node.old.run) × (node.new.frames ≡ []) }
        ensures reached { Reached node.new }
    {
        if let Some(i) = self.place_of(number) {
            return Ok(i);
        }
        let Some(page) = read_frame(shared, node, p, number) else {
            return Err(frame_missed(number));
        };
        steps.tick();
        Ok(self.add(number, page))
    }

    /// The page with this number, which `p` holds, with the newest content. It is fetched as `fetch` does, with the same
    /// answers.
    pub fn page<L: Ledger>(
        &mut self,
        shared: &Shared,
        node: &mut Node,
        p: u8,
        number: u16,
        steps: &mut Steps<L>,
    ) -> Result<&Page, NotYet>
        requires run { node.old.run ≡ shared.now }
        requires reached { Reached node.old }
        requires part { HoldsPart node.old p }
        requires page { number < PAGES }
        requires lock { ¬ (held_in node.old p number ≡ No) }
        requires frames { node.old.frames ≡ [] }
        requires agrees { AgreesIn self.old node.old p }
        requires room { HasFreeBuffer self.old number }
        ensures* hands { sem 𝓛 (HandsBuffer self.entry p number node.old node.new steps.old steps.new result) }
        ensures node { (node.new.run ≡ node.old.run) × (node.new.frames ≡ []) }
        ensures reached { Reached node.new }
    {
        match self.fetch(shared, node, p, number, steps) {
            Ok(i) => Ok(&self.buffers[i].page),
            Err(wait) => Err(wait),
        }
    }

    /// Puts a page that `p` writes, and that has a buffer, into the page's frame: the frame has the buffer's page then, with
    /// all records of `p`, and the buffer is clean. The log of `p` is durable up to them. The frame is at home, since nobody
    /// else holds the page.
    pub fn push(&mut self, shared: &Shared, node: &mut Node, p: u8, number: u16)
        requires run { node.old.run ≡ shared.now }
        requires part { HoldsPart node.old p }
        requires page { number < PAGES }
        requires lock { held_in node.old p number ≡ Write }
        requires frames { node.old.frames ≡ [] }
        requires buffered { IsBuffered self.old number }
        requires durable { IsDurablePage node.old p number }
        requires agrees { AgreesIn self.old node.old p }
        ensures left { (b : Buffer) × (buffer_of self.old number ≡ Some b) × ((found : PageView) × Visits p number found b.page node.old node.new) }
        ensures cleaned { self.new ≡ with_buffer self.old number cleaned_buffer }
        ensures in_frame { IsInFrame node.new p number }
        ensures agrees { AgreesIn self.new node.new p }
        ensures node { (node.new.run ≡ node.old.run) × (node.new.frames ≡ []) }
        ensures reached { Reached node.new }
    {
        let i = self.index_of(number);
        write_frame(shared, node, p, number, self.buffers[i].page);
        self.buffers[i].clean = true;
    }
}
