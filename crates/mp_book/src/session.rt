//! One session of a primary.

ghost use Rattle.std.specs.Prelude.{◌≡◌, ◌+◌, ◌<◌, [], length, MatchOption, OnOk, IfOk};
ghost use Rattle.mp_book.specs.Orderly.{session_lines};
ghost use Rattle.mp_book.specs.Stages.{next_line, task_left, task_of, with_former, with_name, is_named};
ghost use Rattle.mp_book.specs.Through.{has_no_task};
ghost use Rattle.mp_book.specs.Books.{StartsAs, IsSameSession, GoesOn};

use crate::stage::{Stage, Task};
use mp_cells::Row;
use mp_model::{Items, Memory, Names, TrxName};
use mp_script::{Line, Lines};
use std::alloc::Global;

/// A session: its statements, how many of them are answered, and what it keeps of its transaction.
#[derive(Debug, Drop)]
pub struct Session {
    /// Its number (1 to 64).
    pub number: u8,
    /// Its statements, in their order.
    pub lines: Lines,
    /// How many of them are answered.
    pub next: usize,
    pub stage: Stage,
    /// The rows that the transaction's first writes of keys replaced, in the order of those writes. To roll it back each is
    /// put back.
    pub formers: Items<Row>,
    /// How many of them have been put back.
    pub restored: usize,
    /// The transactions that the next statement waited for, each once, in the order in which it did.
    pub waits: Names,
    /// Whether the next statement has been tried.
    pub tried: bool,
}

impl Session {
    /// A session of these statements, of which none is answered. `Memory` only for want of memory.
    pub fn new(alloc: Global, number: u8, lines: &[Line]) -> Result<Session, Memory>
        ensures { IfOk result (StartsAs number (session_lines number lines.now)) }
    {
        let mut own = Lines::new(alloc);
        for line in lines {
            if line.session == number {
                own.push(*line)?;
            }
        }
        Ok(Session {
            number,
            lines: own,
            next: 0,
            stage: Stage::Closed,
            formers: Items::new(alloc),
            restored: 0,
            waits: Names::new(alloc),
            tried: false,
        })
    }

    /// The next statement, if one is left.
    pub fn next_line(&self) -> Option<Line>
        ensures { result ≡ next_line self.now }
    {
        if self.next < self.lines.len() {
            Some(*self.lines.get(self.next))
        } else {
            None
        }
    }

    /// What it has to do.
    pub fn task(&self) -> Task
        ensures { result ≡ task_of self.now }
    {
        match self.next_line() {
            Some(line) => Task::Statement(line),
            None => self.task_left(),
        }
    }

    /// Whether it has nothing left to do.
    pub fn has_no_task(&self) -> bool
        ensures { result ≡ has_no_task self.now }
    {
        match self.task() {
            Task::Statement(_) => false,
            Task::Unprinted => false,
            Task::Nothing => true,
        }
    }

    // What it has to do where no statement is left.
    fn task_left(&self) -> Task
        ensures { result ≡ task_left self.now.stage }
    {
        match self.stage {
            Stage::Closed => Task::Nothing,
            Stage::Open(_) => Task::Unprinted,
            Stage::Refused(_, _) => Task::Unprinted,
            Stage::Leaving(_) => Task::Unprinted,
            Stage::Skipping => Task::Unprinted,
            Stage::Outside(_) => Task::Nothing,
        }
    }

    /// Makes room for the row and the name that one turn may add. A refusal changes nothing but room.
    pub fn make_room(&mut self) -> Result<(), Memory>
        ensures same { IsSameSession self.old self.new }
        ensures ok { OnOk result ((0 < self.new.formers.spare) × (0 < self.new.waits.spare)) }
    {
        self.formers.reserve(1)?;
        self.waits.reserve(1)?;
        Ok(())
    }

    /// Notes that the next statement waits for this transaction, if that isn't noted yet. It takes no memory.
    pub fn wait_for(&mut self, name: TrxName)
        requires { 0 < self.old.waits.spare }
        ensures names { self.new.waits.items ≡ with_name name self.old.waits.items }
        ensures rest { self.new ≡ record self.old { waits = self.new.waits } }
    {
        if !is_waited(self.waits.as_slice(), name) {
            self.waits.put(name);
        }
    }

    /// Notes that one row more has been put back.
    pub fn put_back_one(&mut self)
        requires { self.old.restored < length self.old.formers.items }
        ensures { self.new ≡ record self.old { restored = self.old.restored + 1 } }
    {
        let _count = self.formers.len();
        self.restored += 1;
    }

    // Goes on to the next statement at this stage, with one row more, where there is one. It hands out the waits of the
    // statement that is left behind.
    pub(crate) fn go_on(&mut self, alloc: Global, stage: Stage, former: Option<Row>) -> Names
        requires left { self.old.next < length self.old.lines.items }
        requires room { MatchOption former (Unit {0}) (λ row. 0 < self.old.formers.spare) }
        ensures waits { result.items ≡ self.old.waits.items }
        ensures goes { GoesOn self.old self.new stage (with_former self.old.formers.items former) self.old.restored }
    {
        let _count = self.lines.len();
        self.keep_former(former);
        self.next += 1;
        self.stage = stage;
        self.tried = false;
        std::mem::replace(&mut self.waits, Names::new(alloc))
    }

    fn keep_former(&mut self, former: Option<Row>)
        requires { MatchOption former (Unit {0}) (λ row. 0 < self.old.formers.spare) }
        ensures items { self.new.formers.items ≡ with_former self.old.formers.items former }
        ensures rest { self.new ≡ record self.old { formers = self.new.formers } }
    {
        if let Some(row) = former {
            self.formers.put_all(&[row]);
        }
    }

    // Forgets what was kept of a transaction.
    pub(crate) fn forget(&mut self)
        ensures items { self.new.formers.items ≡ [] }
        ensures rest { self.new ≡ record self.old { formers = self.new.formers; restored = 0 } }
    {
        self.formers.clear();
        self.restored = 0;
    }
}

// Whether a transaction is among those named.
fn is_waited(names: &[TrxName], name: TrxName) -> bool
    ensures { result ≡ is_named name names.now }
{
    names.iter().any(|other| other.session == name.session && other.first == name.first)
}
