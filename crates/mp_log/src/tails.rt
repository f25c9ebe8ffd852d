//! The end of a log that is written.

ghost use Rattle.std.specs.Prelude.{◌≡◌, ◌+◌, ◌<◌, ◌≤◌, ◌^◌, [], ◌++◌, true, false, length, IfOk};
ghost use Rattle.mp_cells.specs.Mtrs.{IsMtr};
ghost use Rattle.mp_redo.specs.Spelling.{mtr_bytes};
ghost use Rattle.mp_log.specs.Tails.{room_of};

use mp_cells::Mtr;
use mp_model::{Memory, Text};
use mp_redo::encode;
use std::alloc::Global;
use std::marker::Model;

/// The place of a log's closed gate, the LLSN of its last mtr, and the bytes of the mtrs that were appended and not
/// forced yet. It takes all its memory when it is made.
#[derive(Debug, Drop)]
pub struct Tail {
    node: u8,
    place: u64,
    last: u64,
    live: bool,
    text: Text,
}

impl Model for Tail {
    ghost use Rattle.std.specs.Prelude.{◌+◌, ◌≤◌, length};
    ghost use Rattle.mp_log.specs.Tails.{TailView, IsTail};

    ghost Value = { TailView };

    ghost view = { λ t. record { node = t.node; place = t.place; last = t.last; live = t.live; bytes = t.text.items } };

    ghost invariant = { λ t. (65536 ≤ length t.text.items + t.text.spare) × IsTail (record { node = t.node; place = t.place; last = t.last; live = t.live; bytes = t.text.items }) };
}

impl Tail {
    /// Of a log of a node without mtrs, whose closed gate is its first byte. Nothing is appended.
    pub fn new(alloc: Global, node: u8) -> Result<Tail, Memory>
        ensures { IfOk result (λ tail. tail ≡ record { node = node; place = 0; last = 0; live = true; bytes = [] }) }
    {
        let mut text = Text::new(alloc);
        text.reserve(65536)?;
        Ok(Tail {
            node,
            place: 0,
            last: 0,
            live: true,
            text,
        })
    }

    /// Moves it to a closed gate at a place (below 2^63), behind an mtr with this LLSN. Nothing is appended.
    pub fn move_to(&mut self, place: u64, last: u64)
        requires nothing { self.old.bytes ≡ [] }
        requires place { place < 2 ^ 63 }
        ensures { self.new ≡ record self.old { place = place; last = last } }
    {
        self.place = place;
        self.last = last;
    }

    pub fn node(&self) -> u8
        ensures { result ≡ self.now.node }
    {
        self.node
    }

    pub fn place(&self) -> u64
        ensures place { result ≡ self.now.place }
        ensures below { result < 2 ^ 63 }
    {
        self.place
    }

    pub fn last(&self) -> u64
        ensures { result ≡ self.now.last }
    {
        self.last
    }

    pub fn is_live(&self) -> bool
        ensures { result ≡ self.now.live }
    {
        self.live
    }

    /// How many bytes may still be appended.
    pub fn room(&self) -> usize
        ensures { result ≡ room_of self.now }
    {
        65536 - self.text.len()
    }

    /// Whether nothing is appended.
    pub fn is_empty(&self) -> bool
        ensures none { result ≡ true → self.now.bytes ≡ [] }
        ensures some { result ≡ false → 1 ≤ length self.now.bytes }
    {
        self.text.is_empty()
    }

    /// The bytes of what was appended.
    pub fn bytes(&self) -> &[u8]
        ensures bytes { result.now ≡ self.now.bytes }
        ensures most { length result.now ≤ 65536 }
    {
        self.text.as_slice()
    }

    /// Appends an mtr. It takes no memory.
    pub fn append(&mut self, mtr: &Mtr)
        requires sound { IsMtr mtr.now }
        requires room { length (mtr_bytes mtr.now) ≤ room_of self.old }
        ensures { self.new ≡ record self.old { last = mtr.now.llsn; bytes = self.old.bytes ++ mtr_bytes mtr.now } }
    {
        encode(mtr, &mut self.text);
        self.last = mtr.llsn;
    }

    /// After what was appended was written behind the gate: the next gate is behind it, and nothing is appended.
    pub fn move_on(&mut self)
        requires { self.old.place + (6 + length self.old.bytes) < 2 ^ 63 }
        ensures { self.new ≡ record self.old { place = self.old.place + (5 + length self.old.bytes); bytes = [] } }
    {
        self.place += 5 + self.text.len() as u64;
        self.text.clear();
    }

    /// After a refusal: it takes no more mtrs.
    pub fn close(&mut self)
        ensures { self.new ≡ record self.old { live = false } }
    {
        self.live = false;
    }
}
