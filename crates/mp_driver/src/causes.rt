//! What statements wait for.
ghost use Rattle.std.specs.Prelude.{◌≡◌};
ghost use Rattle.mp_driver.specs.Driving.{is_word_of_page, is_page_wait};

use mp_model::{Cause, WordKind};

/// Whether a statement waits for a page: for a word of its lock or of its frame.
pub(crate) fn is_page_wait(cause: Cause) -> bool
    ensures { result ≡ is_page_wait cause }
{
    match cause {
        Cause::Word(wait) => is_word_of_page(wait.of),
        Cause::Writer(_) | Cause::Prep(_) => false,
    }
}

fn is_word_of_page(kind: WordKind) -> bool
    ensures { result ≡ is_word_of_page kind }
{
    match kind {
        WordKind::Lock | WordKind::Frame => true,
        WordKind::Least => false,
    }
}
