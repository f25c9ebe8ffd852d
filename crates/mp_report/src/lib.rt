//! The printed texts. A transcript is printed as the lines of words that `specs/` give, and a text is read exactly where
//! it is that of a transcript.
#![tactic(auto)]

mod laws;
mod print;
mod read;

pub use laws::{law_legal_readable, law_texts_differ};
pub use print::{print_page, print_record, print_rows, print_transcript};
pub use read::{ReadRefusal, read_transcript};
