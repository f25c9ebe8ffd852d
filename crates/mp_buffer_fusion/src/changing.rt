//! How buffers change without a step.
ghost use Rattle.std.specs.Prelude.{◌≡◌, ℕ, ◌<◌, ◌≤◌, ◌^◌, map, length, slice_get, Some, vec_capacity, MatchOption, IsOk, IsErr};
ghost use Rattle.mp_cells.specs.declared.records.Mtr.{Mtr};
ghost use Rattle.mp_cells.specs.PageView.{PageView};
ghost use Rattle.mp_cells.specs.Changes.{applied, HasCells};
ghost use Rattle.mp_core_pages.specs.declared.opening.TheConstants.{PAGES};
ghost use Rattle.mp_core_pages.specs.declared.part.PagesPart.{PagesPart};
ghost use Rattle.mp_buffer_fusion.specs.declared.pool.TheConstants.{BUFFERS};
ghost use Rattle.mp_buffer_fusion.specs.declared.buffer.Buffer.{Buffer};
ghost use Rattle.mp_buffer_fusion.specs.Buffers.{buffer_of, IsBuffered, with_buffer, pinned_buffer, unpinned_buffer, dirty_buffers, rewritten_buffer, changed_by, ChangesBuffer};
ghost use Rattle.mp_buffer_fusion.specs.Places.{IsKeptPool, ListsNone, AreApart};
ghost use Rattle.mp_buffer_fusion.specs.Agreement.{AgreesWith};

use crate::buffer::Buffer;
use crate::pool::Pool;
use mp_page::{Change, NotApplicable, apply};

/// Applies a change to the page of a buffer, and sets the page's LLSN.
fn change_buffer(buffer: &mut Buffer, change: &Change, llsn: u64) -> Result<(), NotApplicable>
    requires cells { HasCells change.now }
    requires llsn { llsn < 2 ^ 62 }
    ensures { MatchOption (applied change.now buffer.old.page) (IsErr result × (buffer.new ≡ buffer.old)) (λ _. IsOk result × (buffer.new ≡ rewritten_buffer (changed_by llsn change.now buffer.old.page) buffer.old)) }
{
    apply(&mut buffer.page, change)?;
    buffer.page.set_llsn(llsn);
    buffer.clean = false;
    Ok(())
}

/// No buffer is pinned any more.
fn unpin(buffers: &mut Vec<Buffer>)
    ensures items { buffers.new.items ≡ map unpinned_buffer buffers.old.items }
    ensures room { vec_capacity buffers.new ≡ vec_capacity buffers.old }
{
    for buffer in buffers.iter_mut() {
        buffer.pinned = false;
    }
}

/// Takes the places of the buffers out of a table that lists them: it is empty then.
fn forget_places(buffers: &[Buffer], places: &mut [u16])
    requires { IsKeptPool buffers.now places.old }
    ensures { ListsNone places.new }
{
    for buffer in buffers {
        places[usize::from(buffer.number)] = 0;
    }
}

/// Lists the places of the buffers by their pages, in an empty table.
fn list_places(buffers: &[Buffer], places: &mut [u16])
    requires few { length buffers.now ≤ BUFFERS }
    requires apart { AreApart buffers.now }
    requires table { ListsNone places.old }
    ensures { IsKeptPool buffers.now places.new }
{
    for i in 0..buffers.len() {
        places[usize::from(buffers[i].number)] = (i + 1) as u16;
    }
}

impl Pool {
    /// Applies a change to a page that has a buffer, and sets the page's LLSN. The buffer is not clean then. It is refused
    /// exactly where the change can't be applied to the page, and nothing changed then.
    pub fn change(&mut self, number: u16, change: &Change, llsn: u64) -> Result<(), NotApplicable>
        requires page { number < PAGES }
        requires buffered { IsBuffered self.old number }
        requires cells { HasCells change.now }
        requires llsn { llsn < 2 ^ 62 }
        ensures { (b : Buffer) × (buffer_of self.old number ≡ Some b) × ChangesBuffer llsn number change.now b self.old self.new result }
    {
        let i = self.index_of(number);
        change_buffer(&mut self.buffers[i], change, llsn)
    }

    /// Pins a page that has a buffer.
    pub fn pin(&mut self, number: u16)
        requires page { number < PAGES }
        requires buffered { IsBuffered self.old number }
        ensures pinned { self.new ≡ with_buffer self.old number pinned_buffer }
        ensures agrees { (part : PagesPart PageView Mtr) → AgreesWith self.old part → AgreesWith self.new part }
    {
        let i = self.index_of(number);
        self.buffers[i].pinned = true;
    }

    /// Drops the clean buffers, and unpins the others, which stay in their order.
    pub fn unpin_all(&mut self)
        ensures left { self.new ≡ map unpinned_buffer (dirty_buffers self.old) }
        ensures agrees { (part : PagesPart PageView Mtr) → AgreesWith self.old part → AgreesWith self.new part }
    {
        forget_places(&self.buffers, &mut self.places);
        self.buffers.retain(|buffer| !buffer.clean);
        unpin(&mut self.buffers);
        list_places(&self.buffers, &mut self.places);
    }
}
