//! The buffers of a primary, and how they are found.
ghost use Rattle.std.specs.Prelude.{◌≡◌, ◌+◌, ◌<◌, [], ◌∷◌, ◌++◌, length, slice_get, Some, None, IfOk, IfSome, MatchOption};
ghost use Rattle.std.specs.Option.{option_map};
ghost use Rattle.mp_core_pages.specs.declared.opening.TheConstants.{PAGES};
ghost use Rattle.mp_buffer_fusion.specs.declared.pool.TheConstants.{BUFFERS};
ghost use Rattle.mp_buffer_fusion.specs.declared.buffer.Buffer.{Buffer};
ghost use Rattle.mp_buffer_fusion.specs.Buffers.{buffer_of, IsBuffered, StandsAt, is_pinned_buffer, is_clean_buffer, new_buffer};

use crate::buffer::Buffer;
use mp_core_pages::PAGES;
use mp_model::Memory;
use mp_page::Page;
use std::alloc::Global;
use std::marker::Model;

/// How many buffers a pool has.
pub const BUFFERS: u16 = 256;

/// The buffers of a primary, at most 256. Contracts see them as a list, each with its page's number, the page, whether it
/// is pinned, and whether it is clean. No two have one page.
#[derive(Drop)]
pub struct Pool {
    pub(crate) buffers: Vec<Buffer>,
    /// By page, one more than the place of its buffer, or 0.
    pub(crate) places: Vec<u16>,
}

impl Model for Pool {
    ghost use Rattle.std.specs.Prelude.{ℕ, ◌≤◌, List, vec_capacity};
    ghost use Rattle.mp_buffer_fusion.specs.declared.pool.TheConstants.{BUFFERS};
    ghost use Rattle.mp_buffer_fusion.specs.declared.buffer.Buffer.{Buffer};
    ghost use Rattle.mp_buffer_fusion.specs.Places.{IsKeptPool};

    ghost Value = { List Buffer };

    ghost view = { λ p. p.buffers.items };

    ghost invariant = { λ p. IsKeptPool p.buffers.items p.places.items × (BUFFERS ≤ vec_capacity p.buffers) };
}

impl Pool {
    /// A pool without a page, with memory for all its buffers. No later call takes memory.
    pub fn new(alloc: Global) -> Result<Pool, Memory>
        ensures { IfOk result (λ pool. pool ≡ []) }
    {
        let buffers = Vec::with_capacity(alloc, usize::from(BUFFERS))?;
        let places = Vec::from_elem(alloc, 0u16, usize::from(PAGES))?;
        Ok(Pool { buffers, places })
    }

    /// The place of a page's buffer. `None` where it has none.
    pub(crate) fn place_of(&self, number: u16) -> Option<usize>
        requires { number < PAGES }
        ensures { MatchOption result (buffer_of self.now number ≡ None) (λ i. (b : Buffer) × StandsAt self.now number i b) }
    {
        let place = self.places[usize::from(number)];
        if place == 0 {
            return None;
        }
        Some(usize::from(place) - 1)
    }

    /// The place of the buffer of a page that has one.
    pub(crate) fn index_of(&self, number: u16) -> usize
        requires page { number < PAGES }
        requires buffered { IsBuffered self.now number }
        ensures { (b : Buffer) × StandsAt self.now number result b }
    {
        match self.place_of(number) {
            Some(i) => i,
            None => unreachable!(),
        }
    }

    /// Puts a page that has no buffer into a free one, which is clean and not pinned. Answers its place.
    pub(crate) fn add(&mut self, number: u16, page: Page) -> usize
        requires page { number < PAGES }
        requires lacks { buffer_of self.old number ≡ None }
        requires room { length self.old < BUFFERS }
        ensures added { self.new ≡ self.old ++ new_buffer number page ∷ [] }
        ensures place { result ≡ length self.old }
    {
        let i = self.buffers.len();
        self.buffers.push_reserved(Buffer {
            number,
            page,
            pinned: false,
            clean: true,
        });
        self.places[usize::from(number)] = (i + 1) as u16;
        i
    }

    /// The page in the i-th buffer, from 0.
    pub fn at(&self, i: usize) -> &Page
        requires { i < length self.now }
        ensures { (b : Buffer) × (slice_get self.now i ≡ Some b) × (result.now ≡ b.page) }
    {
        &self.buffers[i].page
    }

    /// The page with this number, which has a buffer.
    pub fn look(&self, number: u16) -> &Page
        requires page { number < PAGES }
        requires buffered { IsBuffered self.now number }
        ensures { (b : Buffer) × (buffer_of self.now number ≡ Some b) × (result.now ≡ b.page) }
    {
        let i = self.index_of(number);
        &self.buffers[i].page
    }

    /// The page with this number. `None` where it has no buffer.
    pub fn find(&self, number: u16) -> Option<&Page>
        requires { number < PAGES }
        ensures { MatchOption result (buffer_of self.now number ≡ None) (λ page. (b : Buffer) × (buffer_of self.now number ≡ Some b) × (page.now ≡ b.page)) }
    {
        match self.place_of(number) {
            Some(i) => Some(&self.buffers[i].page),
            None => None,
        }
    }

    /// Whether the page has a buffer that is pinned.
    pub fn is_pinned(&self, number: u16) -> bool
        requires { number < PAGES }
        ensures { result ≡ is_pinned_buffer (buffer_of self.now number) }
    {
        match self.place_of(number) {
            Some(i) => self.buffers[i].pinned,
            None => false,
        }
    }

    /// Whether the page has a buffer that is clean: none of its records is missing in the page's frame.
    pub fn is_clean(&self, number: u16) -> bool
        requires { number < PAGES }
        ensures { result ≡ is_clean_buffer (buffer_of self.now number) }
    {
        match self.place_of(number) {
            Some(i) => self.buffers[i].clean,
            None => false,
        }
    }

    /// How many buffers are free.
    pub fn free(&self) -> usize
        ensures { result + length self.now ≡ BUFFERS }
    {
        usize::from(BUFFERS) - self.buffers.len()
    }

    /// The number of the page in the i-th buffer, from 0, which has no other buffer. `None` behind the last.
    pub fn buffered(&self, i: usize) -> Option<u16>
        ensures number { result ≡ option_map (λ (b : Buffer). b.number) (slice_get self.now i) }
        ensures its { IfSome result (λ number. (b : Buffer) × StandsAt self.now number i b) }
    {
        let buffer = self.buffers.get(i)?;
        Some(buffer.number)
    }
}
