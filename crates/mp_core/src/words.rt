//! Where the words of the shared table lie, each region behind the one before. `docs/architecture.md` has the picture.

use mp_core_pages::PAGES as PAGE_COUNT;
use mp_core_trx::SLOTS;

/// How many primaries have words, whether so many run or not.
const PRIMARIES: usize = 8;
/// How many pages have words.
const PAGES: usize = PAGE_COUNT as usize;

/// The timestamp oracle (TSO).
pub const TSO_WORD: usize = 0;
/// The transaction slots, `SLOTS` for each primary.
pub const SLOT_WORDS: usize = TSO_WORD + 1;
/// The locks of the pages.
pub const LOCK_WORDS: usize = SLOT_WORDS + PRIMARIES * SLOTS as usize;
/// The LLSNs of the primaries.
pub const LLSN_WORDS: usize = LOCK_WORDS + PAGES;
/// The LLSNs up to which their logs are forced.
pub const DURABLE_WORDS: usize = LLSN_WORDS + PRIMARIES;
/// With which number each of them is down, or 0.
pub const DOWN_WORDS: usize = DURABLE_WORDS + PRIMARIES;
/// Who has the frames of the pages.
pub const TURN_WORDS: usize = DOWN_WORDS + PRIMARIES;
/// Who asks for a page's lock. From here on no step reads or writes a word yet.
pub const REQUEST_WORDS: usize = TURN_WORDS + PAGES;
/// Whose copies of a page are valid.
pub const FLAG_WORDS: usize = REQUEST_WORDS + PAGES;
/// The least views of the primaries.
pub const LEAST_WORDS: usize = FLAG_WORDS + PAGES;
/// How many words there are.
pub const WORDS: usize = LEAST_WORDS + PRIMARIES;
