//! Printing a script.

ghost use Rattle.std.specs.Prelude.{◌≡◌, ◌++◌, ◌∷◌, [], IfOk, OnOk, map, decimal, codes};
ghost use Rattle.mp_script.specs.Text.{header_line_words, session_words, stmt_words, name_text, words_text, line_text, lines_text, script_text, spaced};
ghost use Rattle.mp_script.specs.Spelling.{IsSpelled, Spells};

use crate::statements::{Line, Script, SessionOn, Stmt};
use itoa::Buffer;
use mp_model::{Memory, Text};
use std::alloc::Global;

/// The text of a script: its header, its sessions and its statements, each line ended by the byte 10. Where some bytes
/// spell the script, its text does.
pub fn print(alloc: Global, script: &Script) -> Result<Text, Memory>
    ensures text { IfOk result (λ text. text.items ≡ script_text script.now) }
    ensures again { IfOk result (λ text. IsSpelled script.now → Spells text.items script.now) }
{
    let mut text = Text::new(alloc);
    push_script(&mut text, script)?;
    Ok(text)
}

fn push_script(text: &mut Text, script: &Script) -> Result<(), Memory>
    ensures { OnOk result (text.new.items ≡ text.old.items ++ script_text script.now) }
{
    push_numbered(text, b"primaries ", u64::from(script.primaries))?;
    text.push(b'\n')?;
    push_sessions(text, script.sessions.as_slice())?;
    push_lines(text, script.lines.as_slice())
}

fn push_sessions(text: &mut Text, sessions: &[SessionOn]) -> Result<(), Memory>
    ensures { OnOk result (text.new.items ≡ text.old.items ++ lines_text (map (λ s. words_text (session_words s)) sessions.now)) }
{
    for session in sessions {
        push_session(text, session)?;
    }
    Ok(())
}

fn push_session(text: &mut Text, session: &SessionOn) -> Result<(), Memory>
    ensures { OnOk result (text.new.items ≡ text.old.items ++ (words_text (session_words session.now) ++ 10 ∷ [])) }
{
    push_numbered(text, b"session s", u64::from(session.session))?;
    push_numbered(text, b" on ", u64::from(session.primary))?;
    text.push(b'\n')
}

fn push_lines(text: &mut Text, lines: &[Line]) -> Result<(), Memory>
    ensures { OnOk result (text.new.items ≡ text.old.items ++ lines_text (map line_text lines.now)) }
{
    for line in lines {
        push_line(text, line)?;
    }
    Ok(())
}

fn push_line(text: &mut Text, line: &Line) -> Result<(), Memory>
    ensures { OnOk result (text.new.items ≡ text.old.items ++ (line_text line.now ++ 10 ∷ [])) }
{
    push_numbered(text, b"s", u64::from(line.session))?;
    push_stmt(text, &line.stmt)?;
    text.push(b'\n')
}

// Adds the words of a statement, each after a space.
fn push_stmt(text: &mut Text, stmt: &Stmt) -> Result<(), Memory>
    ensures { OnOk result (text.new.items ≡ text.old.items ++ spaced (stmt_words stmt.now)) }
{
    match stmt {
        Stmt::Begin => text.extend(b" begin"),
        Stmt::Commit => text.extend(b" commit"),
        Stmt::Rollback => text.extend(b" rollback"),
        Stmt::Get { key } => push_numbered(text, b" get ", u64::from(*key)),
        Stmt::Del { key } => push_numbered(text, b" del ", u64::from(*key)),
        Stmt::Put { key, value } => {
            push_numbered(text, b" put ", u64::from(*key))?;
            push_word(text, value.as_slice())
        }
        Stmt::Copy { from, to } => push_numbers(text, b" copy ", *from, *to),
        Stmt::Scan { low, most } => push_numbers(text, b" scan ", *low, *most),
    }
}

// Adds a word after a space.
fn push_word(text: &mut Text, word: &[u8]) -> Result<(), Memory>
    ensures { OnOk result (text.new.items ≡ text.old.items ++ 32 ∷ word.now) }
{
    text.push(b' ')?;
    text.extend(word)
}

/// Adds bytes and then a number.
pub fn push_numbered(text: &mut Text, bytes: &[u8], number: u64) -> Result<(), Memory>
    ensures { OnOk result (text.new.items ≡ text.old.items ++ (bytes.now ++ decimal number)) }
{
    text.extend(bytes)?;
    text.extend(Buffer::new().format(number).as_bytes())
}

// Adds bytes, and two numbers with a space between them.
fn push_numbers(text: &mut Text, bytes: &[u8], first: u32, second: u32) -> Result<(), Memory>
    ensures { OnOk result (text.new.items ≡ text.old.items ++ (bytes.now ++ (decimal first ++ 32 ∷ decimal second))) }
{
    push_numbered(text, bytes, u64::from(first))?;
    push_numbered(text, b" ", u64::from(second))
}
