//! Where a search gets its pages.

ghost use Rattle.std.specs.Prelude.{◌≡◌, ℕ, ◌<◌, Some};
ghost use Rattle.std.specs.Borrow.{sem};
ghost use Rattle.std.specs.Io.BufRead.{Rests};
ghost use Rattle.mp_model.specs.declared.waiting.NotYet.{NotYet};
ghost use Rattle.mp_page.specs.Pagers.{Handed, Hands};

use crate::page::Page;
use mp_model::NotYet;

/// Hands out pages by their numbers, or answers what it waits for. Contracts see the pages that it has handed out, which
/// it neither changes nor takes back, the count of the answers `NotYet`, and the last of them.
pub trait Pager {
    /// The pages that it has handed out.
    ghost handed: { Self → Handed };

    /// How often it has answered `NotYet`; it stands still at its type's end.
    ghost waits: { Self → ℕ };

    /// The last `NotYet`.
    ghost last: { Self → NotYet };

    /// The second is the first after some calls.
    ghost follows: { Self → Self → Type 0 };

    /// The page with this number is what it answered `NotYet` for.
    ghost withholds: { Self → ℕ → Type 0 };

    ghost follows_self: { (pager : Self) → follows pager pager };

    ghost follows_on: { (a b c : Self) → follows a b → follows b c → follows a c };

    /// The page with this number. On `NotYet` no page is handed out, and the page asked for is one that it withholds.
    fn page(&mut self, number: u16) -> Result<&Page, NotYet>
        requires { number < 4096 }
        ensures* hands { sem 𝓛 (Rests Self.row self.entry (λ new. Hands handed waits last follows withholds self.old new number result)) };
}
