//! What a summary says of answers, counted one answer after another.
ghost use Rattle.std.specs.Prelude.{◌≡◌, ◌+◌, [], ◌∷◌, cond, IfOk, OnOk};
ghost use Rattle.std.specs.List.{flat_map};
ghost use Rattle.mp_script.specs.Execution.{stmt_in};
ghost use Rattle.mp_script.specs.Transactions.{target_key};
ghost use Rattle.mp_summary.specs.Summaries.{is_answered, is_acknowledged, written_key, with_number};
ghost use Rattle.mp_summary.specs.Counted.{HasCounted};

use mp_model::{Answer, Items, Memory, Part, Reply};
use mp_script::{Line, Stmt};

/// How many of the answers so far were neither skipped nor stopped, how many acknowledge a commit, and the keys that
/// were written, each once.
#[derive(Debug, Drop)]
pub struct AnswerCounts {
    pub answered: u64,
    pub commits: u64,
    pub keys: Items<u32>,
}

/// Counts the answers of all parts too.
pub fn count_parts(counts: &mut AnswerCounts, lines: &[Line], parts: &[Part]) -> Result<(), Memory>
    ensures { OnOk result (HasCounted lines.now (flat_map (λ part. part.answers.items) parts.now) counts.old counts.new) }
{
    for part in parts {
        count_answers(counts, lines, part.answers.as_slice())?;
    }
    Ok(())
}

fn count_answers(
    counts: &mut AnswerCounts,
    lines: &[Line],
    answers: &[Answer],
) -> Result<(), Memory>
    ensures { OnOk result (HasCounted lines.now answers.now counts.old counts.new) }
{
    for answer in answers {
        count_answer(counts, lines, answer)?;
    }
    Ok(())
}

fn count_answer(counts: &mut AnswerCounts, lines: &[Line], answer: &Answer) -> Result<(), Memory>
    ensures { OnOk result (HasCounted lines.now (answer.now ∷ []) counts.old counts.new) }
{
    counts.answered = one_more_if(counts.answered, is_answered(&answer.reply))?;
    counts.commits = one_more_if(counts.commits, is_acknowledged(&answer.reply))?;
    match written_key(lines, answer) {
        Some(key) => add_key(&mut counts.keys, key),
        None => Ok(()),
    }
}

// A count that no u64 has is one of more answers than memory holds.
fn one_more_if(count: u64, more: bool) -> Result<u64, Memory>
    ensures { IfOk result (λ next. next ≡ count + cond more 1 0) }
{
    count.checked_add(u64::from(more)).ok_or(Memory)
}

fn is_answered(reply: &Reply) -> bool
    ensures { result ≡ is_answered reply.now }
{
    match reply {
        Reply::Skipped => false,
        Reply::Stopped(_) => false,
        _ => true,
    }
}

fn is_acknowledged(reply: &Reply) -> bool
    ensures { result ≡ is_acknowledged reply.now }
{
    match reply {
        Reply::Committed(_) => true,
        _ => false,
    }
}

// The key that the answer's statement wrote.
fn written_key(lines: &[Line], answer: &Answer) -> Option<u32>
    ensures { result ≡ written_key lines.now answer.now }
{
    match &answer.reply {
        Reply::Wrote(_) => target_key(find_stmt(lines, answer.session, answer.index)),
        _ => None,
    }
}

fn find_stmt(lines: &[Line], session: u8, index: u32) -> Option<Stmt>
    ensures { result ≡ stmt_in lines.now session index }
{
    for line in lines {
        if line.session == session && line.index == index {
            return Some(line.stmt);
        }
    }
    None
}

fn target_key(stmt: Option<Stmt>) -> Option<u32>
    ensures { result ≡ target_key stmt }
{
    match stmt {
        Some(Stmt::Put { key, .. }) => Some(key),
        Some(Stmt::Del { key }) => Some(key),
        Some(Stmt::Copy { to, .. }) => Some(to),
        _ => None,
    }
}

fn add_key(keys: &mut Items<u32>, key: u32) -> Result<(), Memory>
    ensures { OnOk result (keys.new.items ≡ with_number keys.old.items key) }
{
    if keys.as_slice().contains(&key) {
        Ok(())
    } else {
        keys.push(key)
    }
}
