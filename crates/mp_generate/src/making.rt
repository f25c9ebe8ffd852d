//! A large script from a number: its sessions, and its statements by three loops.
ghost use Rattle.std.specs.Prelude.{◌≡◌, ◌≤◌, [], ◌∷◌, ◌++◌, IfOk, OnOk};
ghost use Rattle.mp_script.specs.Spelling.{IsSpelled};
ghost use Rattle.mp_generate.specs.Generated.{key_of_round, round_value, form_index, form_stmt, generated_line};
ghost use Rattle.mp_generate.specs.Generated.{form_lines, round_lines, generated_lines, generated_sessions, IsGenerated};

use mp_model::{Memory, Text, Value};
use mp_script::{Line, Lines, Script, SessionOn, Sessions, Stmt, push_numbered};
use std::alloc::Global;

/// The statements that each session has in a round, in their order.
#[derive(Clone, Copy, Debug, PartialEq, Eq)]
pub enum Form {
    Begin,
    /// It writes a key of its session.
    Put,
    /// It reads a key of the next session.
    Get,
    Commit,
}

/// The script of a number: 16 sessions on 4 primaries, and 3,008 statements in 47 rounds. In a round each session begins a
/// transaction, then each puts one of its own 32 keys, then each gets a key of the next session, then each commits. The
/// number says with which keys the rounds begin, and numbers that differ by 32 make the same script. `Memory` only for want
/// of memory.
pub fn generate(alloc: Global, number: u64) -> Result<Script, Memory>
    ensures made { IfOk result (IsGenerated number) }
    ensures spelled { IfOk result IsSpelled }
{
    let sessions = generated_sessions(alloc)?;
    let mut lines = Lines::new(alloc);
    push_rounds(alloc, &mut lines, number)?;
    Ok(Script {
        primaries: 4,
        sessions,
        lines,
    })
}

fn generated_sessions(alloc: Global) -> Result<Sessions, Memory>
    ensures { IfOk result (λ sessions. sessions.items ≡ generated_sessions) }
{
    let mut sessions = Sessions::new(alloc);
    for session in 1..17u8 {
        sessions.push(SessionOn {
            session,
            primary: (session - 1) % 4 + 1,
        })?;
    }
    Ok(sessions)
}

fn push_rounds(alloc: Global, lines: &mut Lines, number: u64) -> Result<(), Memory>
    ensures { OnOk result (lines.new.items ≡ lines.old.items ++ generated_lines number) }
{
    for round in 1..48u32 {
        push_round(alloc, lines, number, round)?;
    }
    Ok(())
}

fn push_round(alloc: Global, lines: &mut Lines, number: u64, round: u32) -> Result<(), Memory>
    requires first { 1 ≤ round }
    requires last { round ≤ 47 }
    ensures { OnOk result (lines.new.items ≡ lines.old.items ++ round_lines number round) }
{
    push_form(alloc, lines, number, round, Form::Begin)?;
    push_form(alloc, lines, number, round, Form::Put)?;
    push_form(alloc, lines, number, round, Form::Get)?;
    push_form(alloc, lines, number, round, Form::Commit)
}

// Each session's statement of one form.
fn push_form(
    alloc: Global,
    lines: &mut Lines,
    number: u64,
    round: u32,
    form: Form,
) -> Result<(), Memory>
    requires first { 1 ≤ round }
    requires last { round ≤ 47 }
    ensures { OnOk result (lines.new.items ≡ lines.old.items ++ form_lines number round form) }
{
    for session in 1..17u8 {
        push_line(alloc, lines, number, round, form, session)?;
    }
    Ok(())
}

fn push_line(
    alloc: Global,
    lines: &mut Lines,
    number: u64,
    round: u32,
    form: Form,
    session: u8,
) -> Result<(), Memory>
    requires first { 1 ≤ round }
    requires last { round ≤ 47 }
    requires session { session ≤ 16 }
    ensures { OnOk result (lines.new.items ≡ lines.old.items ++ generated_line number round form session ∷ []) }
{
    match form_stmt(alloc, number, round, form, session) {
        Ok(stmt) => lines.push(Line {
            session,
            index: 4 * (round - 1) + form_index(form),
            stmt,
        }),
        Err(memory) => Err(memory),
    }
}

fn form_index(form: Form) -> u32
    ensures index { result ≡ form_index form }
    ensures four { result ≤ 4 }
{
    match form {
        Form::Begin => 1,
        Form::Put => 2,
        Form::Get => 3,
        Form::Commit => 4,
    }
}

fn form_stmt(
    alloc: Global,
    number: u64,
    round: u32,
    form: Form,
    session: u8,
) -> Result<Stmt, Memory>
    requires last { round ≤ 47 }
    requires session { session ≤ 16 }
    ensures { IfOk result (λ stmt. stmt ≡ form_stmt number round form session) }
{
    Ok(match form {
        Form::Begin => Stmt::Begin,
        Form::Put => Stmt::Put {
            key: key_of_round(number, round, session),
            value: round_value(alloc, session, round)?,
        },
        Form::Get => Stmt::Get {
            key: key_of_round(number, round, session % 16 + 1),
        },
        Form::Commit => Stmt::Commit,
    })
}

fn key_of_round(number: u64, round: u32, session: u8) -> u32
    requires last { round ≤ 47 }
    requires session { session ≤ 16 }
    ensures { result ≡ key_of_round number round session }
{
    1000 * u32::from(session) + ((number % 32) as u32 + 7 * round) % 32
}

fn round_value(alloc: Global, session: u8, round: u32) -> Result<Value, Memory>
    requires last { round ≤ 47 }
    requires session { session ≤ 16 }
    ensures { IfOk result (λ value. value ≡ round_value session round) }
{
    let mut text = Text::new(alloc);
    push_numbered(&mut text, b"v", u64::from(session))?;
    push_numbered(&mut text, b"-", u64::from(round))?;
    match Value::read(text.as_slice()) {
        Some(value) => Ok(value),
        None => unreachable!(),
    }
}
