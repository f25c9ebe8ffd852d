//! The transcripts of runs.
ghost use Rattle.std.specs.Prelude.{◌≡◌, ◌+◌, ◌≤◌, length, map, is_some, IfOk};
ghost use Rattle.std.specs.List.{flat_map};
ghost use Rattle.mp_script.specs.Below.{numbers};
ghost use Rattle.mp_script.specs.InTheirPart.{count_from};
ghost use Rattle.mp_script.specs.Transactions.{cts_of};
ghost use Rattle.mp_cluster.specs.RunTranscripts.{IsRunOver};
ghost use Rattle.mp_cluster.specs.StepTranscripts.{IsStepOver};

use mp_model::{Answer, Answers, Downs, Memory, Mode, Part, Parts, Reply, Transcript};
use std::alloc::Global;

// The transcript with these answers in its one part, and these primaries that are down.
pub(crate) fn transcript_of(
    alloc: Global,
    base: u64,
    answers: Answers,
    downs: Downs,
) -> Result<Transcript, Memory>
    ensures { IfOk result (IsStepOver base answers.items downs.items) }
{
    let commits = count_commits(answers.as_slice());
    let mut parts = Parts::new(alloc);
    parts.push(Part {
        primary: 0,
        answers,
    })?;
    Ok(Transcript {
        mode: Mode::Step,
        base,
        parts,
        downs,
        commits,
    })
}

// The transcript with a part for each of these primaries, at most eight, and these that are down.
pub(crate) fn run_transcript_of(
    alloc: Global,
    base: u64,
    lists: Vec<Answers>,
    downs: Downs,
) -> Result<Transcript, Memory>
    requires { length lists.items ≤ 8 }
    ensures { IfOk result (IsRunOver base (map (λ list. list.items) lists.items) downs.items) }
{
    let parts = parts_of(alloc, lists)?;
    let commits = count_all(parts.as_slice())?;
    Ok(Transcript {
        mode: Mode::Run,
        base,
        parts,
        downs,
        commits,
    })
}

// The parts of primaries, that of number n with the answers at place n - 1.
fn parts_of(alloc: Global, lists: Vec<Answers>) -> Result<Parts, Memory>
    requires { length lists.items ≤ 8 }
    ensures primaries { IfOk result (λ parts. map (λ part. part.primary) parts.items ≡ count_from 1 (length lists.items)) }
    ensures answers { IfOk result (λ parts. map (λ part. part.answers.items) parts.items ≡ map (λ list. list.items) lists.items) }
{
    let mut lists = lists;
    let mut parts = Parts::new(alloc);
    let mut primary = 0;
    for _place in 0..lists.len() {
        primary += 1;
        let answers = lists.remove(0);
        parts.push(Part { primary, answers })?;
    }
    Ok(parts)
}

// How many commits the answers of all parts show, those of unknown end included.
fn count_all(parts: &[Part]) -> Result<u64, Memory>
    ensures { IfOk result (λ commits. commits ≡ length (numbers (flat_map (λ part. part.answers.items) parts.now))) }
{
    let mut commits = 0;
    for part in parts {
        commits = sum_of(commits, count_commits(part.answers.as_slice()))?;
    }
    Ok(commits)
}

// A count that no u64 has is one of more answers than memory holds.
fn sum_of(count: u64, more: u64) -> Result<u64, Memory>
    ensures { IfOk result (λ sum. sum ≡ count + more) }
{
    count.checked_add(more).ok_or(Memory)
}

// How many commits some answers show, those of unknown end included.
fn count_commits(answers: &[Answer]) -> u64
    ensures { result ≡ length (numbers answers.now) }
{
    let mut commits = 0;
    for answer in answers {
        if is_commit(&answer.reply) {
            commits += 1;
        }
    }
    commits
}

fn is_commit(reply: &Reply) -> bool
    ensures { result ≡ is_some (cts_of reply.now) }
{
    match reply {
        Reply::Committed(_) | Reply::Unknown(_) => true,
        _ => false,
    }
}
