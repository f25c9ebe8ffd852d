//! What one line of a transcript says.

ghost use Rattle.std.specs.Prelude.{◌≡◌, IfOk};
ghost use Rattle.std.specs.Option.{option_map};
ghost use Rattle.mp_report.specs.Shown.{texts};
ghost use Rattle.mp_report.specs.ReadingLines.{words_of, read_mode, read_head, read_primary_line, read_down, read_end, read_line, bare_line};

use crate::read::replies::read_answer;
use crate::read::words::{read_number, read_primary, read_stamp};
use mp_model::{Answer, Down, Memory, Mode};
use mp_script::words_of;
use std::alloc::Global;

/// What one line of a transcript says.
#[derive(Debug, PartialEq, Drop)]
pub enum Line {
    /// The first line: the mode and the timestamp at which the run began.
    Head(Mode, u64),
    /// The line above the answers of a primary.
    Primary(u8),
    Answered(Answer),
    WentDown(Down),
    /// The last line: the count of commits.
    End(u64),
}

/// What a line says, without its byte 10. None where it is no line of a transcript.
pub fn line_of(alloc: Global, text: &[u8]) -> Result<Option<Line>, Memory>
    ensures { IfOk result (λ found. option_map bare_line found ≡ read_line (words_of text.now)) }
{
    let words = words_of(alloc, text)?;
    read_line(alloc, &words)
}

// What the words of a line say. None where they are no line of a transcript.
fn read_line(alloc: Global, words: &[&[u8]]) -> Result<Option<Line>, Memory>
    ensures { IfOk result (λ found. option_map bare_line found ≡ read_line (texts words.now)) }
{
    let Some((word, rest)) = words.split_first() else {
        return Ok(None);
    };
    if *word == b"transcript".as_slice() {
        Ok(read_head(rest))
    } else if *word == b"primary".as_slice() {
        Ok(read_primary_line(rest))
    } else if *word == b"down".as_slice() {
        Ok(read_down(rest))
    } else if *word == b"end".as_slice() {
        Ok(read_end(rest))
    } else {
        match read_answer(alloc, words)? {
            Some(answer) => Ok(Some(Line::Answered(answer))),
            None => Ok(None),
        }
    }
}

// The first line, by the words behind `transcript`.
fn read_head(words: &[&[u8]]) -> Option<Line>
    ensures { option_map bare_line result ≡ read_head (texts words.now) }
{
    let [mode, name, base] = words else {
        return None;
    };
    if *name != b"base".as_slice() {
        return None;
    }
    let mode = read_mode(mode)?;
    let base = read_stamp(base)?;
    Some(Line::Head(mode, base))
}

fn read_mode(word: &[u8]) -> Option<Mode>
    ensures { result ≡ read_mode word.now }
{
    if word == b"step".as_slice() {
        Some(Mode::Step)
    } else if word == b"run".as_slice() {
        Some(Mode::Run)
    } else {
        None
    }
}

// The line above a part, by the words behind `primary`.
fn read_primary_line(words: &[&[u8]]) -> Option<Line>
    ensures { option_map bare_line result ≡ read_primary_line (texts words.now) }
{
    let [word] = words else {
        return None;
    };
    let primary = read_primary(word)?;
    Some(Line::Primary(primary))
}

// A primary that went down, by the words behind `down`.
fn read_down(words: &[&[u8]]) -> Option<Line>
    ensures { option_map bare_line result ≡ read_down (texts words.now) }
{
    let [primary, name, by] = words else {
        return None;
    };
    if *name != b"by".as_slice() {
        return None;
    }
    let primary = read_primary(primary)?;
    let by = read_primary(by)?;
    Some(Line::WentDown(Down { primary, by }))
}

// The last line, by the words behind `end`.
fn read_end(words: &[&[u8]]) -> Option<Line>
    ensures { option_map bare_line result ≡ read_end (texts words.now) }
{
    let [name, count] = words else {
        return None;
    };
    if *name != b"commits".as_slice() {
        return None;
    }
    let commits = read_number(count, 0, u64::MAX)?;
    Some(Line::End(commits))
}
