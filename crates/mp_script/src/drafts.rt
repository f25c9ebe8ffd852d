//! What a script says so far, while it is read.

ghost use Rattle.std.specs.Prelude.{◌≡◌, ◌≤◌, ℕ, length, slice_index_or, IfOk, OnOk, IfSome, Some, None, if◌then◌else◌};
ghost use Rattle.mp_script.specs.Entries.{is_declared, open_after, nothing_said, with_entry};
ghost use Rattle.mp_script.specs.Spelling.{EntryFits, MayDeclare, MaySay, said_of};
ghost use Rattle.mp_script.specs.Drafts.{said_in, sessions_of, no_tally, tally_of, IsTallied};

use crate::entries::Entry;
use crate::statements::{Line, Lines, Script, SessionOn, Sessions, Stmt};
use indexmap::IndexMap;
use mp_model::Memory;
use std::alloc::Global;

/// A session's count of statements, and whether its transaction is open.
#[derive(Clone, Copy, Debug, PartialEq, Eq)]
pub struct Tally {
    pub statements: u32,
    pub has_open_trx: bool,
}

/// What a script says so far: the declared sessions with their primaries, in the order of their lines, and the
/// statements, with a tally for each number that a session may have.
#[derive(Drop)]
pub struct Draft {
    pub primaries: u8,
    pub sessions: IndexMap<u8, u8>,
    pub tallies: [Tally; 65],
    pub lines: Lines,
}

impl Draft {
    /// Nothing is said below the first line.
    pub fn new(alloc: Global, primaries: u8) -> Self
        ensures said { said_in result ≡ nothing_said primaries }
        ensures tallied { IsTallied result }
    {
        Draft {
            primaries,
            sessions: IndexMap::new(alloc),
            tallies: no_tallies(),
            lines: Lines::new(alloc),
        }
    }

    /// Whether a session is declared.
    pub fn declares(&self, session: u8) -> bool
        ensures { result ≡ is_declared (sessions_of self.now.sessions.entries) session }
    {
        self.sessions.contains_key(&session)
    }

    /// The declared session of that number.
    pub fn session(&self, number: u32) -> Option<u8>
        requires { IsTallied self.now }
        ensures session { result ≡ (if is_declared (sessions_of self.now.sessions.entries) number then Some number else None) }
        ensures within { IfSome result (λ session. session ≤ 64) }
    {
        if number > 64 {
            return None;
        }
        let session = number as u8;
        if self.declares(session) {
            Some(session)
        } else {
            None
        }
    }

    /// The tally of a session.
    pub fn tally(&self, session: u8) -> Tally
        requires tallied { IsTallied self.now }
        requires session { session ≤ 64 }
        ensures tally { result ≡ tally_of self.now.lines.items session }
        ensures room { result.statements ≤ 10000 }
    {
        self.tallies[session as usize]
    }

    /// Adds what a line says.
    pub fn add(&mut self, entry: Entry) -> Result<(), Memory>
        requires tallied { IsTallied self.old }
        requires fits { EntryFits (said_in self.old) entry }
        ensures said { OnOk result (said_in self.new ≡ with_entry (said_in self.old) entry) }
        ensures tallied { OnOk result (IsTallied self.new) }
    {
        match entry {
            Entry::Session(session) => self.declare(session),
            Entry::Statement(line) => self.say(line),
        }
    }

    fn declare(&mut self, session: SessionOn) -> Result<(), Memory>
        requires tallied { IsTallied self.old }
        requires fits { MayDeclare (said_in self.old) session }
        ensures said { OnOk result (said_in self.new ≡ with_entry (said_in self.old) (Entry.Session session)) }
        ensures tallied { OnOk result (IsTallied self.new) }
    {
        self.sessions.insert(session.session, session.primary)?;
        Ok(())
    }

    fn say(&mut self, line: Line) -> Result<(), Memory>
        requires tallied { IsTallied self.old }
        requires fits { MaySay (said_in self.old) line }
        requires session { line.session ≤ 64 }
        ensures said { OnOk result (said_in self.new ≡ with_entry (said_in self.old) (Entry.Statement line)) }
        ensures tallied { OnOk result (IsTallied self.new) }
    {
        self.lines.push(line)?;
        self.tallies[line.session as usize] = Tally {
            statements: line.index,
            has_open_trx: open_after(&line.stmt),
        };
        Ok(())
    }

    /// The script of all that was said.
    pub fn into_script(self, alloc: Global) -> Result<Script, Memory>
        ensures { IfOk result (λ script. said_of script ≡ said_in self) }
    {
        let sessions = sessions_in(alloc, &self.sessions)?;
        Ok(Script {
            primaries: self.primaries,
            sessions,
            lines: self.lines,
        })
    }
}

fn no_tallies() -> [Tally; 65]
    ensures whole { length result ≡ 65 }
    ensures none { (session : ℕ) → slice_index_or result session no_tally ≡ no_tally }
{
    let none = Tally {
        statements: 0,
        has_open_trx: false,
    };
    [none; 65]
}

// The sessions that a map from sessions to primaries holds, in its order.
fn sessions_in(alloc: Global, map: &IndexMap<u8, u8>) -> Result<Sessions, Memory>
    ensures { IfOk result (λ sessions. sessions.items ≡ sessions_of map.now.entries) }
{
    let mut sessions = Sessions::new(alloc);
    for i in 0..map.len() {
        let Some((session, primary)) = map.get_index(i) else {
            unreachable!();
        };
        sessions.push(SessionOn {
            session: *session,
            primary: *primary,
        })?;
    }
    Ok(sessions)
}

// Whether a transaction is open behind a statement.
fn open_after(stmt: &Stmt) -> bool
    ensures { result ≡ open_after stmt.now }
{
    !matches!(stmt, Stmt::Commit | Stmt::Rollback)
}
