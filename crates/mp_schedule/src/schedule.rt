//! What is left to try, and what is tried next.
ghost use Rattle.std.specs.Prelude.{◌≡◌, ◌<◌, ◌≤◌, ◌++◌, ℕ, false, map, filter, length, get_or, IfOk, OnOk};
ghost use Rattle.mp_script.specs.Entries.{is_declared};
ghost use Rattle.mp_script.specs.InTheirPart.{count_from};
ghost use Rattle.mp_schedule.specs.declared.schedule.TryState.TheVariants.{Waiting, Over};
ghost use Rattle.mp_schedule.specs.Schedules.{first_tries, tries_on, sessions_of_primary, free_try, ComesNext, IsNextWithin, StandsSo, without_mark, without_marks, AreOverBelow, NoneWaitsFrom};

use mp_model::Memory;
use mp_script::{Line, Script, SessionOn};
use std::alloc::Global;

/// How a try stands.
#[derive(Clone, Copy, Debug, PartialEq, Eq)]
pub enum TryState {
    /// It is to come.
    Free,
    /// It is to come, but was found waiting since marks were last forgotten.
    Waiting,
    /// It is over.
    Over,
}

/// A try of a session (0 to 64): of one of its statements, or, behind all statements, of what ends it.
#[derive(Clone, Copy, Debug, PartialEq, Eq)]
pub struct Try {
    pub session: u8,
    pub state: TryState,
}

/// What comes next.
#[derive(Clone, Copy, Debug, PartialEq, Eq)]
pub enum Next {
    /// The try at this place, from 0, of this session.
    Try { place: usize, session: u8 },
    /// All that may be tried was found waiting: the marks are to be forgotten.
    Forget,
    /// All is over.
    Over,
}

/// What is left to try of a script: its statements in the order of their lines, and then the end of each declared session,
/// in ascending number. A try may come next where it is free and all before it of its session are over; the first that may
/// comes next. Where none may, those that were found waiting are to be free again.
#[derive(Debug, Drop)]
pub struct Schedule {
    pub tries: Vec<Try>,
    // All below this place are over, so that no call looks at them again.
    first: usize,
    // None from this place on waits.
    marks_end: usize,
    ghost first_within: { first ≤ length tries.items },
    ghost end_within: { marks_end ≤ length tries.items },
    ghost over: { AreOverBelow first tries.items },
    ghost unmarked: { NoneWaitsFrom marks_end tries.items },
}

impl Schedule {
    /// All of a script is to be tried. `Memory` only for want of memory; no later call takes any.
    pub fn new(alloc: Global, script: &Script) -> Result<Schedule, Memory>
        ensures { IfOk result (λ schedule. schedule.tries.items ≡ first_tries script.now.lines.items script.now.sessions.items) }
    {
        let mut tries = Vec::new(alloc);
        push_statements(&mut tries, script.lines.as_slice())?;
        push_ends(&mut tries, script.sessions.as_slice())?;
        Ok(fresh(tries))
    }

    /// Of a script, what its sessions on one primary (1 to 8) have is to be tried. `Memory` only for want of memory; no later
    /// call takes any.
    pub fn of_primary(alloc: Global, script: &Script, primary: u8) -> Result<Schedule, Memory>
        ensures { IfOk result (λ schedule. schedule.tries.items ≡ tries_on primary script.now.lines.items script.now.sessions.items) }
    {
        let own = sessions_on(alloc, script.sessions.as_slice(), primary)?;
        let mut tries = Vec::new(alloc);
        push_statements_of(&mut tries, script.lines.as_slice(), own.as_slice())?;
        push_ends(&mut tries, own.as_slice())?;
        Ok(fresh(tries))
    }

    /// What comes next: the place of a try, below their count, with its session.
    pub fn next(&self) -> Next
        ensures next { ComesNext self.now.tries.items result }
        ensures within { IsNextWithin self.now.tries.items result }
    {
        let mut busy = [false; 256];
        let mut waits = false;
        for place in self.first..self.tries.len() {
            let it = self.tries[place];
            let own = it.session as usize;
            match it.state {
                TryState::Over => {}
                TryState::Waiting => {
                    busy[own] = true;
                    waits = true;
                }
                TryState::Free => {
                    if !busy[own] {
                        return Next::Try {
                            place,
                            session: it.session,
                        };
                    }
                }
            }
        }
        if waits { Next::Forget } else { Next::Over }
    }

    /// The try at a place was found waiting: until marks are forgotten, neither it nor a later one of its session comes next.
    pub fn wait(&mut self, place: usize)
        requires { place < length self.old.tries.items }
        ensures { StandsSo self.old.tries.items place Waiting self.new.tries.items }
    {
        self.tries[place].state = TryState::Waiting;
        self.first = self.first.min(place);
        self.marks_end = self.marks_end.max(place + 1);
    }

    /// The try at a place is over. Those that wait still wait: `forget` frees them.
    pub fn finish(&mut self, place: usize)
        requires { place < length self.old.tries.items }
        ensures { StandsSo self.old.tries.items place Over self.new.tries.items }
    {
        self.tries[place].state = TryState::Over;
        self.first = over_from(self.tries.as_slice(), self.first);
    }

    /// Those that waited are free again.
    pub fn forget(&mut self)
        ensures { self.new.tries.items ≡ without_marks self.old.tries.items }
    {
        forget_within(&mut self.tries, self.first, self.marks_end);
        self.marks_end = 0;
    }
}

// A schedule whose tries are all free.
fn fresh(tries: Vec<Try>) -> Schedule
    requires { NoneWaitsFrom 0 tries.items }
    ensures { result.tries.items ≡ tries.items }
{
    Schedule {
        tries,
        first: 0,
        marks_end: 0,
    }
}

// The first place from one on, below which all are over, where one isn't.
fn over_from(tries: &[Try], first: usize) -> usize
    requires within { first ≤ length tries.now }
    requires over { AreOverBelow first tries.now }
    ensures within { result ≤ length tries.now }
    ensures over { AreOverBelow result tries.now }
{
    let mut place = first;
    while place < tries.len() && tries[place].state == TryState::Over {
        place += 1;
    }
    place
}

// Forgets the marks of tries between two places, where no others have one.
fn forget_within(tries: &mut Vec<Try>, first: usize, end: usize)
    requires first { first ≤ length tries.old.items }
    requires end { end ≤ length tries.old.items }
    requires over { AreOverBelow first tries.old.items }
    requires unmarked { NoneWaitsFrom end tries.old.items }
    ensures { tries.new.items ≡ without_marks tries.old.items }
{
    for place in first..end {
        let it = tries[place];
        tries[place] = without_mark(it);
    }
}

// The sessions that are declared on a primary.
fn sessions_on(alloc: Global, sessions: &[SessionOn], primary: u8) -> Result<Vec<SessionOn>, Memory>
    ensures { IfOk result (λ own. own.items ≡ sessions_of_primary primary sessions.now) }
{
    let mut own = Vec::new(alloc);
    for on in sessions {
        if on.primary == primary {
            own.push(*on)?;
        }
    }
    Ok(own)
}

// By number, whether a session is declared.
fn declared_in(sessions: &[SessionOn]) -> [bool; 256]
    ensures { (session : ℕ) → session < 256 → get_or result session false ≡ is_declared sessions.now session }
{
    let mut declared = [false; 256];
    for on in sessions {
        declared[on.session as usize] = true;
    }
    declared
}

fn push_statements(tries: &mut Vec<Try>, lines: &[Line]) -> Result<(), Memory>
    ensures { OnOk result (tries.new.items ≡ tries.old.items ++ map (λ line. free_try line.session) lines.now) }
{
    for line in lines {
        tries.push(free_try(line.session))?;
    }
    Ok(())
}

// The statements of these sessions alone.
fn push_statements_of(
    tries: &mut Vec<Try>,
    lines: &[Line],
    sessions: &[SessionOn],
) -> Result<(), Memory>
    ensures { OnOk result (tries.new.items ≡ tries.old.items
        ++ map (λ line. free_try line.session) (filter (λ line. is_declared sessions.now line.session) lines.now)) }
{
    let declared = declared_in(sessions);
    for line in lines {
        if declared[line.session as usize] {
            tries.push(free_try(line.session))?;
        }
    }
    Ok(())
}

fn push_ends(tries: &mut Vec<Try>, sessions: &[SessionOn]) -> Result<(), Memory>
    ensures { OnOk result (tries.new.items ≡ tries.old.items ++ map free_try (filter (is_declared sessions.now) (count_from 1 64))) }
{
    for session in 1..65u8 {
        if is_declared(sessions, session) {
            tries.push(free_try(session))?;
        }
    }
    Ok(())
}

fn is_declared(sessions: &[SessionOn], session: u8) -> bool
    ensures { result ≡ is_declared sessions.now session }
{
    sessions.iter().any(|on| session == on.session)
}

fn free_try(session: u8) -> Try
    ensures { result ≡ free_try session }
{
    Try {
        session,
        state: TryState::Free,
    }
}

fn without_mark(it: Try) -> Try
    ensures { result ≡ without_mark it }
{
    let state = match it.state {
        TryState::Over => TryState::Over,
        TryState::Free | TryState::Waiting => TryState::Free,
    };
    Try {
        session: it.session,
        state,
    }
}
