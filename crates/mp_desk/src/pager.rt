//! The pages in buffers, for plans.
ghost use Rattle.std.specs.Prelude.{◌≡◌};

use mp_buffer_fusion::Pool;
use mp_model::{NotYet, WordKind};
use mp_page::{Page, Pager};

/// Hands out the pages that have buffers. For any other page it answers that the page's frame is missed, though it reads no
/// word.
#[derive(Drop)]
pub(crate) struct Held<'a> {
    pub(crate) pool: &'a Pool,
    pub(crate) waits: u64,
    pub(crate) last: NotYet,
}

fn lacks_buffer(number: u16) -> NotYet {
    NotYet {
        of: WordKind::Frame,
        at: u32::from(number),
        seen: 0,
    }
}

impl<'a> Held<'a> {
    /// All pages that have buffers.
    pub(crate) fn over(pool: &'a Pool) -> Held<'a>
        ensures { result.pool.now ≡ pool.now }
    {
        Held {
            pool,
            waits: 0,
            last: lacks_buffer(0),
        }
    }
}

impl<'a> Pager for Held<'a> {
    ghost use Rattle.std.specs.Prelude.{◌≡◌, ℕ, None, refl};
    ghost use Rattle.std.proofs.Common.{◌∙◌};
    ghost use Rattle.mp_buffer_fusion.specs.Buffers.{buffer_of};
    ghost use Rattle.mp_desk.specs.Desks.{shown_by};

    ghost handed = { λ p. shown_by p.pool.now };

    ghost waits = { λ p. p.waits };

    ghost last = { λ p. p.last };

    ghost follows = { λ p q. q.pool.now ≡ p.pool.now };

    ghost withholds = { λ p n. buffer_of p.pool.now n ≡ None };

    ghost follows_self = { λ p. refl };

    ghost follows_on = { λ p q r h k. k ∙ h };

    fn page(&mut self, number: u16) -> Result<&Page, NotYet> {
        match self.pool.find(number) {
            Some(page) => Ok(page),
            None => {
                let wait = lacks_buffer(number);
                self.waits = self.waits.saturating_add(1);
                self.last = wait;
                Err(wait)
            }
        }
    }
}
