//! A primary's turn: it tries a session's next statement.
ghost use Rattle.std.specs.Prelude.{◌≡◌, ℕ, List, Some, None, IfSome, IfOk, OnErr};
ghost use Rattle.mp_script.specs.declared.statements.Line.{Line};
ghost use Rattle.mp_book.specs.declared.session.Session.{Session};
ghost use Rattle.mp_book.specs.declared.stage.Task.TheVariants.{Nothing};
ghost use Rattle.mp_book.specs.Stages.{task_of};
ghost use Rattle.mp_shared.specs.Nodes.{Run, NodeView};
ghost use Rattle.mp_supports.specs.Kept.{Entry};
ghost use Rattle.mp_primary.specs.Primaries.{PrimaryView, StandsWith, PrimaryAgreesIn};
ghost use Rattle.mp_primary.specs.Downs.{IsDownAsTold};
ghost use Rattle.mp_primary.specs.Turns.{MayTakeTurn, TakesTurn, IsSessionOf, ComesTo, TriesAt};
ghost use Rattle.mp_primary.specs.Tries.{TriesTurn, TriedLine};

use crate::primary::Primary;
use mp_book::{Stage, Task};
use mp_core_trx::Begun;
use mp_model::{Memory, Turn, WriteVerb};
use mp_outside::Disk;
use mp_script::{Line, Stmt};
use mp_shared::{Node, Shared};
use mp_steps::{Ledger, Steps};

impl<D: Disk> Primary<D> {
    /// Tries the next statement of a session (0 to 64), or rolls its transaction back unprinted where no statement is left;
    /// with no session it has nothing to do. It stands with a node that has its part, and no call outside a turn was made
    /// for the session. `Answered` adds the answer of that statement, or ends the rollback; no other turn adds an answer.
    /// `Waiting` tells the word that a call read, or the writer of a row, for which the statement waits. `Done` exactly
    /// where the primary isn't down and nothing is left; `Stopped` exactly where it is down and has nothing to answer. It goes
    /// down where its log's disk fails, with its own number, or where its statement waits for something of a primary that is
    /// down, with that one's number: the statement is answered `stopped` then. Its down word holds the number. A primary that is
    /// down stays so, and holds what it held. `Memory` only for want of memory, before the turn's first step: nothing changed. A
    /// next turn may be taken for the session.
    pub fn turn<L: Ledger>(
        &mut self,
        shared: &Shared,
        node: &mut Node,
        session: Option<u8>,
        steps: &mut Steps<L>,
    ) -> Result<Turn, Memory>
        requires stands { StandsWith D.Disk shared.now self.old node.old }
        requires told { IsDownAsTold self.old node.old }
        requires session { IfSome session (MayTakeTurn self.old) }
        ensures turn { IfOk result (TakesTurn D.Disk shared.now self.old self.new node.old node.new session) }
        ensures memory { OnErr result ((node.new ≡ node.old) × StandsWith D.Disk shared.now self.new node.new) }
        ensures kept { OnErr result ((entries : List Entry) → PrimaryAgreesIn D.Disk self.old entries node.old → PrimaryAgreesIn D.Disk self.new entries node.new) }
        ensures still { OnErr result ((self.new.media ≡ self.old.media) × (self.new.down ≡ self.old.down) × (self.new.number ≡ self.old.number)
            × (self.new.work ≡ self.old.work) × (self.new.book.answers.items ≡ self.old.book.answers.items)) }
        ensures sessions { OnErr result ((number : ℕ) → MayTakeTurn self.old number → MayTakeTurn self.new number) }
    {
        match session {
            None => Ok(self.rest()),
            Some(number) => self.turn_of(shared, node, number, steps),
        }
    }

    // What a turn with no session comes to.
    fn rest(&self) -> Turn
        ensures { (run : Run) (n : NodeView) → StandsWith D.Disk run self.now n → IsDownAsTold self.now n → TakesTurn D.Disk run self.now self.now n n None result }
    {
        if self.down != 0 {
            return Turn::Stopped(self.down);
        }
        if self.book.is_through() {
            Turn::Done
        } else {
            Turn::Answered
        }
    }

    // What a turn of a session comes to that has nothing to do.
    fn nothing_left(&self) -> Turn
        ensures { (run : Run) (n : NodeView) (number : ℕ) (s : Session) → StandsWith D.Disk run self.now n → IsDownAsTold self.now n → IsSessionOf self.now number s → task_of s ≡ Nothing → MayTakeTurn self.now number → TakesTurn D.Disk run self.now self.now n n (Some number) result }
    {
        if self.down != 0 {
            Turn::Stopped(self.down)
        } else {
            Turn::Done
        }
    }

    // Makes room for what the turn may add, and takes it.
    fn turn_of<L: Ledger>(
        &mut self,
        shared: &Shared,
        node: &mut Node,
        number: u8,
        steps: &mut Steps<L>,
    ) -> Result<Turn, Memory>
        requires stands { StandsWith D.Disk shared.now self.old node.old }
        requires told { IsDownAsTold self.old node.old }
        requires session { MayTakeTurn self.old number }
        ensures turn { IfOk result (TakesTurn D.Disk shared.now self.old self.new node.old node.new (Some number)) }
        ensures memory { OnErr result ((node.new ≡ node.old) × StandsWith D.Disk shared.now self.new node.new) }
        ensures kept { OnErr result ((entries : List Entry) → PrimaryAgreesIn D.Disk self.old entries node.old → PrimaryAgreesIn D.Disk self.new entries node.new) }
        ensures still { OnErr result ((self.new.media ≡ self.old.media) × (self.new.down ≡ self.old.down) × (self.new.number ≡ self.old.number)
            × (self.new.work ≡ self.old.work) × (self.new.book.answers.items ≡ self.old.book.answers.items)) }
        ensures sessions { OnErr result ((k : ℕ) → MayTakeTurn self.old k → MayTakeTurn self.new k) }
    {
        let place = number as usize;
        match self.book.sessions[place].task() {
            Task::Nothing => Ok(self.nothing_left()),
            Task::Unprinted => Ok(self.leave(shared, node, number, steps)),
            Task::Statement(line) => {
                if let Err(memory) = self.book.make_room(number) {
                    return Err(memory);
                }
                self.try_line(shared, node, number, line, steps)
            }
        }
    }

    // Tries a session's next statement. A primary that is down answers it so, also one that goes down now.
    fn try_line<L: Ledger>(
        &mut self,
        shared: &Shared,
        node: &mut Node,
        number: u8,
        line: Line,
        steps: &mut Steps<L>,
    ) -> Result<Turn, Memory>
        requires comes { (s : Session) × ComesTo D.Disk shared.now self.old node.old number s line }
        requires told { IsDownAsTold self.old node.old }
        ensures turn { IfOk result (TakesTurn D.Disk shared.now self.old self.new node.old node.new (Some number)) }
        ensures memory { OnErr result ((node.new ≡ node.old) × (self.new ≡ self.old)) }
    {
        if self.down != 0 {
            return Ok(self.stop(number));
        }
        match self.try_stage(shared, node, number, line, steps) {
            Ok(turn) => Ok(self.end_line(shared, node, number, turn)),
            Err(memory) => Err(memory),
        }
    }

    // Ends the turn of a statement by what its try came to: where it waits, the primary looks at those of whom it needs
    // something.
    fn end_line(&mut self, shared: &Shared, node: &mut Node, number: u8, turn: Turn) -> Turn
        requires tried { (old : PrimaryView D) × (before : NodeView) × (s : Session) × (line : Line) × TriedLine D.Disk shared.now old self.old before node.old number s line turn }
        ensures { (old : PrimaryView D) (before : NodeView) (s : Session) (line : Line) → TriedLine D.Disk shared.now old self.old before node.old number s line turn → TakesTurn D.Disk shared.now old self.new before node.new (Some number) result }
    {
        if self.heed(shared, node, turn) {
            self.stop(number)
        } else {
            turn
        }
    }

    // Tries a session's next statement, of a primary that is up, by the stage at which the session stands.
    fn try_stage<L: Ledger>(
        &mut self,
        shared: &Shared,
        node: &mut Node,
        number: u8,
        line: Line,
        steps: &mut Steps<L>,
    ) -> Result<Turn, Memory>
        requires comes { (s : Session) × ComesTo D.Disk shared.now self.old node.old number s line }
        requires up { self.old.down ≡ 0 }
        ensures turn { IfOk result (TriesTurn D.Disk shared.now self.old self.new node.old node.new (Some number)) }
        ensures memory { OnErr result ((node.new ≡ node.old) × (self.new ≡ self.old)) }
    {
        let place = number as usize;
        match self.book.sessions[place].stage {
            Stage::Closed => Ok(self.begin_trx(shared, node, number, line)),
            Stage::Open(trx) => self.go_on(shared, node, number, trx, line.stmt, steps),
            Stage::Refused(_, _) => Ok(self.take_back(shared, node, number, steps)),
            Stage::Leaving(_) => Ok(self.take_back(shared, node, number, steps)),
            Stage::Skipping => Ok(self.skip(number)),
            Stage::Outside(_) => unreachable!(),
        }
    }

    // Tries a statement of an open transaction.
    fn go_on<L: Ledger>(
        &mut self,
        shared: &Shared,
        node: &mut Node,
        number: u8,
        trx: Begun,
        stmt: Stmt,
        steps: &mut Steps<L>,
    ) -> Result<Turn, Memory>
        requires tries { TriesAt D.Disk shared.now self.old node.old number trx stmt }
        ensures turn { IfOk result (TriesTurn D.Disk shared.now self.old self.new node.old node.new (Some number)) }
        ensures memory { OnErr result ((node.new ≡ node.old) × (self.new ≡ self.old)) }
    {
        match stmt {
            Stmt::Begin => unreachable!(),
            Stmt::Get { key } => Ok(self.try_get(shared, node, number, trx, key, steps)),
            Stmt::Put { key, value } => {
                Ok(self.try_put(
                    shared,
                    node,
                    number,
                    trx,
                    WriteVerb::Put,
                    key,
                    Some(value),
                    steps,
                ))
            }
            Stmt::Del { key } => {
                Ok(self.try_put(shared, node, number, trx, WriteVerb::Del, key, None, steps))
            }
            Stmt::Copy { from, to } => Ok(self.try_copy(
                shared, node, number, trx, from, to, steps,
            )),
            Stmt::Scan { low, most } => {
                self.try_scan(shared, node, number, trx, low, most, steps)
            }
            Stmt::Commit => Ok(self.try_commit(shared, node, number, trx)),
            Stmt::Rollback => {
                self.book.leave(number, trx);
                Ok(self.take_back(shared, node, number, steps))
            }
        }
    }
}
