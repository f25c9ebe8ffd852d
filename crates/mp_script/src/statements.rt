//! Scripts as data.

use mp_model::{Items, Value};

/// One statement. Keys are any u32. `docs/language.md` says what each does.
#[derive(Clone, Copy, Debug, PartialEq, Eq)]
pub enum Stmt {
    Begin,
    Get { key: u32 },
    Put { key: u32, value: Value },
    Del { key: u32 },
    Copy { from: u32, to: u32 },
    Scan { low: u32, most: u32 },
    Commit,
    Rollback,
}

/// A statement of a session (1 to 64) with its number among that session's statements, from 1.
#[derive(Clone, Copy, Debug, PartialEq, Eq)]
pub struct Line {
    pub session: u8,
    pub index: u32,
    pub stmt: Stmt,
}

/// A list of statements, in the order of the script's lines.
pub type Lines = Items<Line>;

/// A session, and the primary (1 to 8) on which it runs.
#[derive(Clone, Copy, Debug, PartialEq, Eq)]
pub struct SessionOn {
    pub session: u8,
    pub primary: u8,
}

/// A list of sessions, in the order of the script's lines.
pub type Sessions = Items<SessionOn>;

/// A script: the number of primaries (1 to 8), the sessions that it declares, and its statements.
#[derive(Debug, PartialEq, Drop)]
pub struct Script {
    pub primaries: u8,
    pub sessions: Sessions,
    pub lines: Lines,
}
