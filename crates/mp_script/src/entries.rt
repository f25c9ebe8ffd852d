//! What a line says.

ghost use Rattle.std.specs.Prelude.{◌≡◌, ◌≤◌, map};
ghost use Rattle.std.specs.Option.{option_map};
ghost use Rattle.mp_script.specs.Faults.{primaries_of, primaries_in, on_primary, new_session, declared_name, session_entry, may_stand, misplaced, next_line, in_session, stmt_entry, entry_of};
ghost use Rattle.mp_script.specs.Drafts.{said_in, IsTallied};

use crate::drafts::Draft;
use crate::statements::{Line, SessionOn, Stmt};
use crate::words::{
    BAD_HEADER, BAD_NUMBER, NO_TRANSACTION, OPEN_TWICE, TOO_MANY, UNKNOWN_SESSION, UNKNOWN_WORD,
    name_digits, read_number, read_stmt,
};

/// The most primaries that a script may have.
const MOST_PRIMARIES: u32 = 8;

/// The greatest number of a session.
const MOST_SESSIONS: u32 = 64;

/// The most statements that a script may have.
const MOST_STATEMENTS: usize = 10_000;

/// What a line behind the first says: a session is declared, or a statement.
#[derive(Clone, Copy, Debug, PartialEq, Eq)]
pub enum Entry {
    Session(SessionOn),
    Statement(Line),
}

/// The number of primaries in the words of the first line, or the line's first fault.
pub fn read_header(words: &[&[u8]]) -> Result<u8, u8>
    ensures { result ≡ primaries_in (map (λ w. w.now) words.now) }
{
    match words {
        [word, number] => {
            if *word != b"primaries".as_slice() {
                return Err(BAD_HEADER);
            }
            primaries_of(read_number(number))
        }
        _ => Err(BAD_HEADER),
    }
}

fn primaries_of(number: Option<u32>) -> Result<u8, u8>
    ensures { result ≡ primaries_of number }
{
    let Some(primaries) = number else {
        return Err(BAD_NUMBER);
    };
    if primaries == 0 {
        Err(BAD_NUMBER)
    } else if primaries <= MOST_PRIMARIES {
        Ok(primaries as u8)
    } else {
        Err(TOO_MANY)
    }
}

/// What the words of a line say below those above, or the line's first fault.
pub fn read_entry(draft: &Draft, words: &[&[u8]]) -> Result<Entry, u8>
    requires { IsTallied draft.now }
    ensures entry { result ≡ entry_of (said_in draft.now) (map (λ w. w.now) words.now) }
{
    let Some((first, rest)) = words.split_first() else {
        return Err(UNKNOWN_WORD);
    };
    if *first == b"session".as_slice() {
        session_entry(draft, rest)
    } else {
        stmt_entry(draft, name_digits(first), rest)
    }
}

fn session_entry(draft: &Draft, words: &[&[u8]]) -> Result<Entry, u8>
    requires { IsTallied draft.now }
    ensures { result ≡ session_entry (said_in draft.now) (map (λ w. w.now) words.now) }
{
    match words {
        [name, on, primary] => {
            if *on != b"on".as_slice() {
                return Err(UNKNOWN_WORD);
            }
            declared_name(draft, name_digits(name), primary)
        }
        _ => Err(UNKNOWN_WORD),
    }
}

fn declared_name(draft: &Draft, name: Option<&[u8]>, primary: &[u8]) -> Result<Entry, u8>
    requires { IsTallied draft.now }
    ensures { result ≡ declared_name (said_in draft.now) (option_map (λ d. d.now) name.entry) primary.now }
{
    let Some(digits) = name else {
        return Err(UNKNOWN_WORD);
    };
    new_session(draft, read_number(digits), read_number(primary))
}

fn new_session(draft: &Draft, session: Option<u32>, primary: Option<u32>) -> Result<Entry, u8>
    requires { IsTallied draft.now }
    ensures { result ≡ new_session (said_in draft.now) session primary }
{
    let Some(session) = session else {
        return Err(BAD_NUMBER);
    };
    if session == 0 {
        Err(BAD_NUMBER)
    } else if session <= MOST_SESSIONS {
        on_primary(draft, session as u8, primary)
    } else {
        Err(TOO_MANY)
    }
}

fn on_primary(draft: &Draft, session: u8, primary: Option<u32>) -> Result<Entry, u8>
    requires { IsTallied draft.now }
    ensures { result ≡ on_primary (said_in draft.now) session primary }
{
    let Some(primary) = primary else {
        return Err(BAD_NUMBER);
    };
    if primary == 0 || primary > u32::from(draft.primaries) {
        return Err(BAD_NUMBER);
    }
    if draft.declares(session) {
        return Err(UNKNOWN_SESSION);
    }
    Ok(Entry::Session(SessionOn {
        session,
        primary: primary as u8,
    }))
}

fn stmt_entry(draft: &Draft, name: Option<&[u8]>, words: &[&[u8]]) -> Result<Entry, u8>
    requires { IsTallied draft.now }
    ensures { result ≡ stmt_entry (said_in draft.now) (option_map (λ d. d.now) name.entry) (map (λ w. w.now) words.now) }
{
    let Some(digits) = name else {
        return Err(UNKNOWN_WORD);
    };
    in_session(draft, read_number(digits), words)
}

fn in_session(draft: &Draft, number: Option<u32>, words: &[&[u8]]) -> Result<Entry, u8>
    requires { IsTallied draft.now }
    ensures { result ≡ in_session (said_in draft.now) number (map (λ w. w.now) words.now) }
{
    let Some(number) = number else {
        return Err(BAD_NUMBER);
    };
    match draft.session(number) {
        Some(session) => next_line(draft, session, read_stmt(words)),
        None => Err(UNKNOWN_SESSION),
    }
}

fn next_line(draft: &Draft, session: u8, stmt: Result<Stmt, u8>) -> Result<Entry, u8>
    requires tallied { IsTallied draft.now }
    requires session { session ≤ 64 }
    ensures { result ≡ next_line (said_in draft.now) session stmt }
{
    let stmt = match stmt {
        Ok(stmt) => stmt,
        Err(fault) => return Err(fault),
    };
    let tally = draft.tally(session);
    if !may_stand(tally.has_open_trx, &stmt) {
        return Err(misplaced(tally.has_open_trx));
    }
    if draft.lines.len() >= MOST_STATEMENTS {
        return Err(TOO_MANY);
    }
    Ok(Entry::Statement(Line {
        session,
        index: tally.statements + 1,
        stmt,
    }))
}

// Whether a statement may stand where a transaction is open, or where none is.
fn may_stand(has_open_trx: bool, stmt: &Stmt) -> bool
    ensures { result ≡ may_stand has_open_trx stmt.now }
{
    match stmt {
        Stmt::Begin => !has_open_trx,
        _ => has_open_trx,
    }
}

fn misplaced(has_open_trx: bool) -> u8
    ensures { result ≡ misplaced has_open_trx }
{
    if has_open_trx {
        OPEN_TWICE
    } else {
        NO_TRANSACTION
    }
}
