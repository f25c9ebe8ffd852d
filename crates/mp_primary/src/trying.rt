//! How a turn tries a statement of an open transaction, and how its transaction is rolled back.
ghost use Rattle.std.specs.Prelude.{◌≡◌, ◌≢◌, ℕ, ◌⊎◌, Some, None, IfOk, OnErr, IfSome};
ghost use Rattle.mp_script.specs.declared.statements.Line.{Line};
ghost use Rattle.mp_script.specs.declared.statements.Stmt.{Stmt};
ghost use Rattle.mp_script.specs.declared.statements.Stmt.TheVariants.{Get, Copy, Scan, Commit};
ghost use Rattle.mp_book.specs.declared.session.Session.{Session};
ghost use Rattle.mp_book.specs.Books.{IsNext};
ghost use Rattle.mp_primary.specs.Primaries.{StandsWith};
ghost use Rattle.mp_primary.specs.Downs.{IsDownAsTold};
ghost use Rattle.mp_primary.specs.Turns.{TakesTurn, ComesTo, TriesAt, IsPutStatement, IsTakenBack, MayLeave};
ghost use Rattle.mp_primary.specs.Tries.{TriesTurn};

use crate::ending::reply_at_end;
use crate::going_back::trx_at;
use crate::primary::Primary;
use mp_core_trx::Begun;
use mp_desk::BackHalt;
use mp_model::{Cause, Memory, Reply, Rows, Turn, Value, WriteVerb};
use mp_outside::Disk;
use mp_shared::{Node, Shared};
use mp_steps::{Ledger, Steps};

impl<D: Disk> Primary<D> {
    // Answers what a key has, or waits. All locks are given back.
    pub(crate) fn try_get<L: Ledger>(
        &mut self,
        shared: &Shared,
        node: &mut Node,
        number: u8,
        trx: Begun,
        key: u32,
        steps: &mut Steps<L>,
    ) -> Turn
        requires tries { TriesAt D.Disk shared.now self.old node.old number trx (Get key) }
        ensures { TriesTurn D.Disk shared.now self.old self.new node.old node.new (Some number) result }
    {
        match self.desk.get(shared, node, self.number, trx, key, steps) {
            Ok(value) => self.answer_read(shared, node, number, Reply::Got(value)),
            Err(halt) => self.halt_read(shared, node, number, halt),
        }
    }

    // Answers the first rows from a key on, or waits. The room for them is made before the first step.
    pub(crate) fn try_scan<L: Ledger>(
        &mut self,
        shared: &Shared,
        node: &mut Node,
        number: u8,
        trx: Begun,
        low: u32,
        most: u32,
        steps: &mut Steps<L>,
    ) -> Result<Turn, Memory>
        requires tries { TriesAt D.Disk shared.now self.old node.old number trx (Scan low most) }
        ensures turn { IfOk result (TriesTurn D.Disk shared.now self.old self.new node.old node.new (Some number)) }
        ensures memory { OnErr result ((node.new ≡ node.old) × (self.new ≡ self.old)) }
    {
        let mut rows = Rows::new(self.alloc);
        if let Err(memory) = rows.reserve(most as usize) {
            return Err(memory);
        }
        match self.desk.scan(shared, node, self.number, trx, low, most, &mut rows, steps) {
            Ok(()) => Ok(self.answer_read(shared, node, number, Reply::Scanned(rows))),
            Err(halt) => Ok(self.halt_read(shared, node, number, halt)),
        }
    }

    // Puts a key's value, or deletes it; or waits, or is refused, and then the rollback begins.
    pub(crate) fn try_put<L: Ledger>(
        &mut self,
        shared: &Shared,
        node: &mut Node,
        number: u8,
        trx: Begun,
        verb: WriteVerb,
        key: u32,
        value: Option<Value>,
        steps: &mut Steps<L>,
    ) -> Turn
        requires tries { (stmt : Stmt) × TriesAt D.Disk shared.now self.old node.old number trx stmt × IsPutStatement stmt verb key value }
        ensures { TriesTurn D.Disk shared.now self.old self.new node.old node.new (Some number) result }
    {
        let own = self.number;
        let done = self
            .desk
            .put(&mut self.media, shared, node, own, trx, key, value, steps);
        self.end_write(shared, node, number, trx, verb, key, done, steps)
    }

    // Reads a key, and puts what it has at another.
    pub(crate) fn try_copy<L: Ledger>(
        &mut self,
        shared: &Shared,
        node: &mut Node,
        number: u8,
        trx: Begun,
        from: u32,
        to: u32,
        steps: &mut Steps<L>,
    ) -> Turn
        requires tries { TriesAt D.Disk shared.now self.old node.old number trx (Copy from to) }
        ensures { TriesTurn D.Disk shared.now self.old self.new node.old node.new (Some number) result }
    {
        let own = self.number;
        match self.desk.get(shared, node, own, trx, from, steps) {
            Ok(value) => {
                let done = self
                    .desk
                    .put(&mut self.media, shared, node, own, trx, to, value, steps);
                self.end_write(shared, node, number, trx, WriteVerb::Copy, to, done, steps)
            }
            Err(halt) => self.halt_read(shared, node, number, halt),
        }
    }

    // Commits, and answers the timestamp; a transaction that wrote nothing is freed, and answered `none`. Where the log's disk
    // failed, the primary is down, and the commit is stopped, or nobody knows its end.
    pub(crate) fn try_commit(
        &mut self,
        shared: &Shared,
        node: &mut Node,
        number: u8,
        trx: Begun,
    ) -> Turn
        requires tries { TriesAt D.Disk shared.now self.old node.old number trx Commit }
        ensures { TriesTurn D.Disk shared.now self.old self.new node.old node.new (Some number) result }
    {
        let end = self.end_by_commit(shared, node, number, trx);
        let reply = reply_at_end(self.down, end);
        self.book.answer(self.alloc, number, reply, None);
        Turn::Answered
    }

    // Puts back what a session's transaction wrote, as far as it comes, and then answers the next statement: with its refusal,
    // or its rollback.
    pub(crate) fn take_back<L: Ledger>(
        &mut self,
        shared: &Shared,
        node: &mut Node,
        number: u8,
        steps: &mut Steps<L>,
    ) -> Turn
        requires comes { (s : Session) × (line : Line) × ComesTo D.Disk shared.now self.old node.old number s line × IsTakenBack s.stage }
        requires up { self.old.down ≡ 0 }
        ensures { TriesTurn D.Disk shared.now self.old self.new node.old node.new (Some number) result }
    {
        let place = number as usize;
        let Some(trx) = trx_at(self.book.sessions[place].stage) else {
            unreachable!()
        };
        match self.go_back(shared, node, number, trx.id, steps) {
            Ok(()) => {
                self.answer_back(shared, node, number, trx);
                Turn::Answered
            }
            Err(halt) => self.halt_back(number, halt),
        }
    }

    // Rolls back, unprinted, the transaction of a session that has no statement left. Where it waits, the primary looks at those
    // of whom it needs something.
    pub(crate) fn leave<L: Ledger>(
        &mut self,
        shared: &Shared,
        node: &mut Node,
        number: u8,
        steps: &mut Steps<L>,
    ) -> Turn
        requires stands { StandsWith D.Disk shared.now self.old node.old }
        requires told { IsDownAsTold self.old node.old }
        requires session { MayLeave self.old number }
        ensures { TakesTurn D.Disk shared.now self.old self.new node.old node.new (Some number) result }
    {
        if self.down != 0 {
            return Turn::Stopped(self.down);
        }
        let turn = self.leave_now(shared, node, number, steps);
        if self.heed(shared, node, turn) {
            return Turn::Stopped(self.down);
        }
        turn
    }

    // Tries to roll it back, of a primary that is up.
    fn leave_now<L: Ledger>(
        &mut self,
        shared: &Shared,
        node: &mut Node,
        number: u8,
        steps: &mut Steps<L>,
    ) -> Turn
        requires stands { StandsWith D.Disk shared.now self.old node.old }
        requires up { self.old.down ≡ 0 }
        requires session { MayLeave self.old number }
        ensures { TriesTurn D.Disk shared.now self.old self.new node.old node.new (Some number) result }
    {
        let place = number as usize;
        let Some(trx) = trx_at(self.book.sessions[place].stage) else {
            self.close(number);
            return Turn::Answered;
        };
        self.set_leaving(number, trx);
        match self.go_back(shared, node, number, trx.id, steps) {
            Ok(()) => {
                self.end_back(shared, node, number, trx);
                Turn::Answered
            }
            Err(halt) => self.halt_leaving(halt),
        }
    }
}
