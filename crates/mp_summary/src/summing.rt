//! The summary of a transcript.
ghost use Rattle.std.specs.Prelude.{◌≡◌, IfOk, length};
ghost use Rattle.mp_summary.specs.Summaries.{summary_line, summary_text};

use crate::counting::{AnswerCounts, count_parts};
use mp_model::{Items, Memory, Text, Transcript};
use mp_script::{Script, push_numbered};
use std::alloc::Global;

/// The summary of a transcript of the script with a number: how many statements were answered and neither skipped nor
/// stopped, how many commits were acknowledged, and how many different keys were written. `Memory` only for want of
/// memory.
pub fn summarize(
    alloc: Global,
    number: u64,
    script: &Script,
    transcript: &Transcript,
) -> Result<Text, Memory>
    ensures { IfOk result (λ text. text.items ≡ summary_text number script.now transcript.now) }
{
    let mut counts = AnswerCounts {
        answered: 0,
        commits: 0,
        keys: Items::new(alloc),
    };
    count_parts(
        &mut counts,
        script.lines.as_slice(),
        transcript.parts.as_slice(),
    )?;
    print_summary(alloc, number, &counts)
}

fn print_summary(alloc: Global, number: u64, counts: &AnswerCounts) -> Result<Text, Memory>
    ensures { IfOk result (λ text. text.items ≡ summary_line number counts.now.answered counts.now.commits (length counts.now.keys.items)) }
{
    let mut text = Text::new(alloc);
    push_numbered(&mut text, b"summary number ", number)?;
    push_numbered(&mut text, b" answered ", counts.answered)?;
    push_numbered(&mut text, b" commits ", counts.commits)?;
    push_numbered(&mut text, b" keys ", counts.keys.len() as u64)?;
    text.push(b'\n')?;
    Ok(text)
}
