//! Printing: transcripts, pages, log records and rows, each line as words with a space between each two.

mod answers;
pub mod pages;
mod records;
mod rows;
mod transcripts;
mod words;

pub use pages::print_page;
pub use records::print_record;
pub use rows::print_rows;
pub use transcripts::print_transcript;
