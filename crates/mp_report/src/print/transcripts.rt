//! Printing a transcript: its head, its parts, the primaries that went down, and its end.

ghost use Rattle.std.specs.Prelude.{◌≡◌, ◌++◌, IfOk, OnOk, map};
ghost use Rattle.std.specs.List.{flat_map};
ghost use Rattle.mp_report.specs.Lines.{line, text_of_lines};
ghost use Rattle.mp_report.specs.Answers.{answer_words};
ghost use Rattle.mp_report.specs.Transcripts.{head_words, part_lines, primary_lines, down_words, last_words, transcript_text};

use crate::print::answers::push_answer;
use mp_model::{Answer, Down, Memory, Mode, Part, Text, Transcript};
use mp_script::push_numbered;
use std::alloc::Global;

/// The text of a transcript: its head, the answers of each part, the primaries that went down, and the count of commits.
/// `Memory` only for want of memory.
pub fn print_transcript(alloc: Global, transcript: &Transcript) -> Result<Text, Memory>
    ensures { IfOk result (λ text. text.items ≡ transcript_text transcript.now) }
{
    let mut text = Text::new(alloc);
    push_head(&mut text, transcript.mode, transcript.base)?;
    push_parts(&mut text, transcript.mode, transcript.parts.as_slice())?;
    push_downs(&mut text, transcript.downs.as_slice())?;
    push_end(&mut text, transcript.commits)?;
    Ok(text)
}

fn push_head(text: &mut Text, mode: Mode, base: u64) -> Result<(), Memory>
    ensures { OnOk result (text.new.items ≡ text.old.items ++ line (head_words mode base)) }
{
    let words = match mode {
        Mode::Step => b"transcript step base ".as_slice(),
        Mode::Run => b"transcript run base ".as_slice(),
    };
    push_numbered(text, words, base)?;
    text.push(b'\n')
}

fn push_parts(text: &mut Text, mode: Mode, parts: &[Part]) -> Result<(), Memory>
    ensures { OnOk result (text.new.items ≡ text.old.items ++ text_of_lines (flat_map (part_lines mode) parts.now)) }
{
    for part in parts {
        push_part(text, mode, part)?;
    }
    Ok(())
}

fn push_part(text: &mut Text, mode: Mode, part: &Part) -> Result<(), Memory>
    ensures { OnOk result (text.new.items ≡ text.old.items ++ text_of_lines (part_lines mode part.now)) }
{
    push_primary(text, mode, part.primary)?;
    push_answers(text, part.answers.as_slice())
}

fn push_primary(text: &mut Text, mode: Mode, primary: u8) -> Result<(), Memory>
    ensures { OnOk result (text.new.items ≡ text.old.items ++ text_of_lines (primary_lines mode primary)) }
{
    match mode {
        Mode::Step => Ok(()),
        Mode::Run => {
            push_numbered(text, b"primary ", u64::from(primary))?;
            text.push(b'\n')
        }
    }
}

fn push_answers(text: &mut Text, answers: &[Answer]) -> Result<(), Memory>
    ensures { OnOk result (text.new.items ≡ text.old.items ++ text_of_lines (map answer_words answers.now)) }
{
    for answer in answers {
        push_answer(text, answer)?;
    }
    Ok(())
}

fn push_downs(text: &mut Text, downs: &[Down]) -> Result<(), Memory>
    ensures { OnOk result (text.new.items ≡ text.old.items ++ text_of_lines (map down_words downs.now)) }
{
    for down in downs {
        push_down(text, *down)?;
    }
    Ok(())
}

fn push_down(text: &mut Text, down: Down) -> Result<(), Memory>
    ensures { OnOk result (text.new.items ≡ text.old.items ++ line (down_words down)) }
{
    push_numbered(text, b"down ", u64::from(down.primary))?;
    push_numbered(text, b" by ", u64::from(down.by))?;
    text.push(b'\n')
}

fn push_end(text: &mut Text, commits: u64) -> Result<(), Memory>
    ensures { OnOk result (text.new.items ≡ text.old.items ++ line (last_words commits)) }
{
    push_numbered(text, b"end commits ", commits)?;
    text.push(b'\n')
}
