//! Reading a transcript from its text: words, replies, lines, and which line may stand where.

mod drafts;
mod lines;
mod replies;
mod stands;
mod transcripts;
mod words;

pub use transcripts::{ReadRefusal, read_transcript};
