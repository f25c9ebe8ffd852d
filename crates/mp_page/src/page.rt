//! Pages.

ghost use Rattle.std.specs.Prelude.{◌≡◌, ℕ, ◌<◌, ◌≤◌, ◌^◌, ◌==◌, ◌↔◌, length, slice_get, replicate, Some, IsTrue, IfSome};
ghost use Rattle.std.specs.List.{AllByRecursion};
ghost use Rattle.mp_model.specs.Padded.{padded};
ghost use Rattle.mp_cells.specs.declared.kinds.Kind.TheVariants.{Meta, Leaf, Inner, Undo};
ghost use Rattle.mp_cells.specs.Rows.{IsRow};
ghost use Rattle.mp_cells.specs.Children.{IsChild};
ghost use Rattle.mp_cells.specs.PageView.{IsPage, SameContent, blank_page, count_of, bit_of, without_bit, is_of};
ghost use Rattle.mp_cells.specs.Changes.{Applies, HasCells};
ghost use Rattle.mp_page.specs.Grammar.{page_cells, spelling};

use crate::bits::{clear_bit, is_taken};
use crate::body::Body;
use crate::changing::change_body;
use crate::reading::bits_set;
use crate::writing::{write_children, write_page, write_rows};
use mp_cells::{Change, Child, Kind, NotApplicable, Row};
use std::marker::Model;

/// A page, in place. Contracts see its kind, its LLSN (below 2^62), its fences, and its rows, children or bits.
#[derive(Clone, Copy, Debug)]
pub struct Page {
    llsn: u64,
    body: Body,
}

impl Model for Page {
    ghost use Rattle.mp_cells.specs.PageView.{PageView};

    ghost Value = { PageView };

    ghost use Rattle.mp_page.specs.Shown.{page_shown, IsKeptPage, body_of, body_of-shown, llsn-shown};

    ghost view = { λ p. page_shown p.llsn p.body };

    ghost invariant = { λ p. IsKeptPage p.llsn p.body };

    ghost inverse = { λ d. record { llsn = d.llsn; body = body_of d } };

    ghost inverse_ok = { λ p h i. record { llsn = llsn-shown p.llsn p.body i; body = body_of-shown p.llsn p.body i } };
}

impl Page {
    ghost use Rattle.mp_page.specs.Shown.{page_shown};

    /// The blank page with LLSN 0.
    pub fn blank() -> Page
        ensures { result ≡ blank_page 0 }
    {
        Page {
            llsn: 0,
            body: Body::Blank,
        }
    }

    /// The page with this LLSN and body.
    pub(crate) fn new(llsn: u64, body: Body) -> Page
        requires { IsPage (page_shown llsn body) }
        ensures { result ≡ page_shown llsn body }
    {
        Page { llsn, body }
    }

    /// The kind of the page. What is known of every page is handed out here.
    pub fn kind(&self) -> Kind
        ensures value { result ≡ self.now.kind }
        ensures page { IsPage self.now }
    {
        match self.body {
            Body::Blank => Kind::Blank,
            Body::Meta(_) => Kind::Meta,
            Body::Leaf { .. } => Kind::Leaf,
            Body::Inner { .. } => Kind::Inner,
            Body::Undo(_) => Kind::Undo,
        }
    }

    /// The LLSN of the last mtr that changed the page.
    pub fn llsn(&self) -> u64
        ensures value { result ≡ self.now.llsn }
        ensures range { result < 2 ^ 62 }
    {
        self.llsn
    }

    /// Sets the LLSN, which is below 2^62.
    pub fn set_llsn(&mut self, llsn: u64)
        requires { llsn < 2 ^ 62 }
        ensures { self.new ≡ record self.old { llsn = llsn } }
    {
        self.llsn = llsn;
    }

    /// The low fence of a page of the tree; 0 for other pages.
    pub fn low(&self) -> u64
        ensures { result ≡ self.now.low }
    {
        match self.body {
            Body::Leaf { low, .. } | Body::Inner { low, .. } => low,
            Body::Blank | Body::Meta(_) | Body::Undo(_) => 0,
        }
    }

    /// The high fence of a page of the tree; 0 for other pages.
    pub fn high(&self) -> u64
        ensures { result ≡ self.now.high }
    {
        match self.body {
            Body::Leaf { high, .. } | Body::Inner { high, .. } => high,
            Body::Blank | Body::Meta(_) | Body::Undo(_) => 0,
        }
    }

    /// The count of rows, records or children, or, of the meta page, of the bits that are set.
    pub fn count(&self) -> u16
        ensures { result ≡ count_of self.now }
    {
        match &self.body {
            Body::Blank => 0,
            Body::Meta(bits) => bits_set(bits.as_slice()),
            Body::Leaf { rows, .. } => rows.len() as u16,
            Body::Inner { children, .. } => children.len() as u16,
            Body::Undo(rows) => rows.len() as u16,
        }
    }

    /// Writes the cells or the bits of the page, before zeros.
    pub(crate) fn write_cells(&self, into: &mut [u8])
        requires { into.old ≡ replicate 992 0 }
        ensures { into.new ≡ padded 992 0 (page_cells self.now) }
    {
        match &self.body {
            Body::Blank => (),
            Body::Meta(bits) => into.split_at_mut(512).0.copy_from_slice(bits.as_slice()),
            Body::Leaf { rows, .. } => write_rows(rows.as_slice(), into),
            Body::Inner { children, .. } => write_children(children.as_slice(), into),
            Body::Undo(rows) => write_rows(rows.as_slice(), into),
        }
    }

    /// Whether the bit of a page (below 4,096) is set, on the meta page.
    pub fn taken(&self, page: u16) -> bool
        requires meta { IsTrue (is_of Meta self.now) }
        requires range { page < 4096 }
        ensures { result ≡ (bit_of self.now.bits page == 1) }
    {
        match &self.body {
            Body::Meta(bits) => is_taken(bits.as_slice(), page),
            _ => unreachable!(),
        }
    }

    /// Clears the bit of a page (below 4,096), on the meta page. All else stays, the LLSN too.
    pub fn free(&mut self, page: u16)
        requires meta { IsTrue (is_of Meta self.old) }
        requires range { page < 4096 }
        ensures { self.new ≡ record self.old { bits = without_bit self.old.bits page } }
    {
        match &mut self.body {
            Body::Meta(bits) => clear_bit(&mut bits[..], page),
            _ => unreachable!(),
        }
    }

    /// Whether two pages differ in nothing but their LLSNs.
    pub fn shows_as(&self, other: &Page) -> bool
        ensures { IsTrue result ↔ SameContent self.now other.now }
    {
        self.content_bytes() == other.content_bytes()
    }

    // The bytes of the page with LLSN 0. No two pages with one LLSN have the same bytes.
    fn content_bytes(&self) -> [u8; 1024]
        ensures value { result ≡ spelling (record self.now { llsn = 0 }) }
        ensures page { IsPage self.now }
    {
        let mut page = *self;
        page.llsn = 0;
        let mut bytes = [0; 1024];
        write_page(&page, &mut bytes);
        bytes
    }

    /// The i-th row of a leaf or an undo page, from 0.
    pub fn row(&self, i: u16) -> Row
        requires { i < length self.now.rows }
        ensures value { slice_get self.now.rows i ≡ Some result }
        ensures kept { IsRow result }
    {
        match &self.body {
            Body::Leaf { rows, .. } | Body::Undo(rows) => rows.get(usize::from(i)),
            _ => unreachable!(),
        }
    }

    /// The i-th child of an inner page, from 0.
    pub fn child(&self, i: u16) -> Child
        requires { i < length self.now.children }
        ensures value { slice_get self.now.children i ≡ Some result }
        ensures kept { IsChild result }
    {
        match &self.body {
            Body::Inner { children, .. } => children.get(usize::from(i)),
            _ => unreachable!(),
        }
    }

    /// Applies a change, as `apply` does.
    pub(crate) fn apply(&mut self, change: &Change) -> Result<(), NotApplicable>
        requires { HasCells change.now }
        ensures { Applies change.now self.old self.new result }
    {
        change_body(&mut self.body, change)
    }
}
