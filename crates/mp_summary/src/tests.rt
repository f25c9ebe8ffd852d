//! A summary, by a small script.
use crate::summarize;
use mp_model::{
    Answer, Answers, Downs, Items, Memory, Mode, Names, Part, Parts, Reply, Transcript, WriteVerb,
};
use mp_script::{Line, Lines, Script, SessionOn, Sessions, Stmt};
use std::alloc::Global;
use std::test::*;

// The answer to a statement of session 1.
fn answer(alloc: Global, index: u32, reply: Reply) -> Answer {
    Answer {
        session: 1,
        index,
        reply,
        waits: Names::new(alloc),
    }
}

// A statement of session 1.
fn line(index: u32, stmt: Stmt) -> Line {
    Line {
        session: 1,
        index,
        stmt,
    }
}

fn script(alloc: Global) -> Result<Script, Memory> {
    let mut sessions = Sessions::new(alloc);
    sessions.push(SessionOn {
        session: 1,
        primary: 1,
    })?;
    let mut lines = Lines::new(alloc);
    lines.push(line(1, Stmt::Begin))?;
    lines.push(line(2, Stmt::Del { key: 7 }))?;
    lines.push(line(3, Stmt::Copy { from: 9, to: 7 }))?;
    lines.push(line(4, Stmt::Commit))?;
    Ok(Script {
        primaries: 1,
        sessions,
        lines,
    })
}

fn transcript(alloc: Global) -> Result<Transcript, Memory> {
    let mut answers = Answers::new(alloc);
    answers.push(answer(alloc, 1, Reply::Began(0)))?;
    answers.push(answer(alloc, 2, Reply::Wrote(WriteVerb::Del)))?;
    answers.push(answer(alloc, 3, Reply::Wrote(WriteVerb::Copy)))?;
    answers.push(answer(alloc, 4, Reply::Committed(1)))?;
    let mut parts = Parts::new(alloc);
    parts.push(Part {
        primary: 0,
        answers,
    })?;
    Ok(Transcript {
        mode: Mode::Step,
        base: 0,
        parts,
        downs: Downs::new(alloc),
        commits: 1,
    })
}

#[test]
fn a_key_counts_once(rt: HostRuntime) -> Result<(), Memory> {
    let alloc = rt.alloc();
    let text = summarize(alloc, 42, &script(alloc)?, &transcript(alloc)?)?;
    assert!(rt; text.as_slice() == b"summary number 42 answered 4 commits 1 keys 1\n".as_slice());
    Ok(())
}
