//! How a session's transaction ends outside a turn.
ghost use Rattle.std.specs.Prelude.{◌≡◌, ℕ, ◌+◌, Some};
ghost use Rattle.mp_core_trx.specs.declared.part.Begun.{Begun};
ghost use Rattle.mp_shared.specs.Nodes.{HoldsAll};
ghost use Rattle.mp_trx_fusion.specs.Calls.{KnowsLess, tso_of};
ghost use Rattle.mp_primary.specs.declared.outside.CommitEnd.TheVariants as ends;
ghost use Rattle.mp_model.specs.declared.waiting.NotYet.{NotYet};
ghost use Rattle.mp_desk.specs.declared.halts.BackHalt.TheVariants as backs;
ghost use Rattle.mp_primary.specs.Primaries.{StandsWith};
ghost use Rattle.mp_primary.specs.Downs.{IsDownAsTold};
ghost use Rattle.mp_primary.specs.Tries.{HasTried};
ghost use Rattle.mp_primary.specs.OutsideCalls.{HasOpen, HasOpenStill, CallsOutside, EndsAs, RollsBackAs};
ghost use Rattle.mp_primary.specs.OutsideTries.{TriesOutside, BacksOutAs, RefusesFor};

use crate::ending::left_at_end;
use crate::going_back::trx_at;
use crate::primary::Primary;
use mp_book::Stage;
use mp_desk::BackHalt;
use mp_model::{Cause, NotYet};
use mp_outside::Disk;
use mp_shared::{Node, Shared};
use mp_steps::{Ledger, Steps};
use mp_trx_fusion::free;

/// How a commit outside a turn ended.
#[derive(Clone, Copy, Debug, PartialEq, Eq)]
pub enum CommitEnd {
    /// The transaction wrote nothing.
    None,
    /// It is committed at this timestamp.
    At(u64),
    /// The log's disk failed behind the commit record. The timestamp that was drawn.
    Unknown(u64),
    /// The log's disk failed before the commit began.
    Stopped,
}

/// Why a rollback outside a turn stops.
#[derive(Clone, Copy, Debug, PartialEq, Eq)]
pub enum RollRefusal {
    /// A page couldn't be had. A later call goes on.
    NotYet(NotYet),
    /// The primary is down with this number: its own, where its log's disk failed; or that with which one is down that holds
    /// what was asked for.
    Stopped(u8),
}

impl<D: Disk> Primary<D> {
    /// Commits a session's open transaction outside a turn, of a primary that is up. No answer is added, and no turn is taken
    /// for the session any more. `At` only once every image of the log holds the record; behind `Unknown` and `Stopped` the
    /// log's count of faults rose in this call, and the primary is down, as its down word says. It takes no memory.
    pub fn commit(&mut self, shared: &Shared, node: &mut Node, session: u8) -> CommitEnd
        requires stands { StandsWith D.Disk shared.now self.old node.old }
        requires told { IsDownAsTold self.old node.old }
        requires up { self.old.down ≡ 0 }
        requires has { (trx : Begun) × HasOpen self.old session trx }
        ensures calls { CallsOutside D.Disk shared.now self.old self.new node.old node.new session }
        ensures ended { (trx : Begun) → HasOpen self.old session trx → EndsAs D.Disk self.old self.new session trx result }
        ensures above { (cts : ℕ) → result ≡ ends.At cts → KnowsLess node.old self.old.number cts }
        ensures exact { (cts : ℕ) → result ≡ ends.At cts → HoldsAll node.old → cts ≡ tso_of node.old + 1 }
    {
        let end = self.commit_out(shared, node, session);
        self.tell_down(shared, node);
        end
    }

    // Commits it; where the log's disk failed, the primary's own word doesn't tell it yet.
    fn commit_out(&mut self, shared: &Shared, node: &mut Node, session: u8) -> CommitEnd
        requires stands { StandsWith D.Disk shared.now self.old node.old }
        requires up { self.old.down ≡ 0 }
        requires has { (trx : Begun) × HasOpen self.old session trx }
        ensures calls { TriesOutside D.Disk shared.now self.old self.new node.old node.new session }
        ensures ended { (trx : Begun) → HasOpen self.old session trx → EndsAs D.Disk self.old self.new session trx result }
        ensures above { (cts : ℕ) → result ≡ ends.At cts → KnowsLess node.old self.old.number cts }
        ensures exact { (cts : ℕ) → result ≡ ends.At cts → HoldsAll node.old → cts ≡ tso_of node.old + 1 }
    {
        let place = session as usize;
        let Stage::Open(trx) = self.book.sessions[place].stage else {
            unreachable!()
        };
        let end = self.end_by_commit(shared, node, session, trx);
        self.book.take_out(session, left_at_end(trx, end));
        end
    }

    /// Rolls a session's open transaction back outside a turn, of a primary that is up. No answer is added, and no turn is
    /// taken for the session any more. `NotYet` only where a page couldn't be had in this call, and all others are up who hold
    /// it: what is put back stays so, and a later call goes on. `Stopped` only where the log's count of faults rose, or one is
    /// down who holds the page: the primary is down then, as its down word says. It takes no memory.
    pub fn roll_back<L: Ledger>(
        &mut self,
        shared: &Shared,
        node: &mut Node,
        session: u8,
        steps: &mut Steps<L>,
    ) -> Result<(), RollRefusal>
        requires stands { StandsWith D.Disk shared.now self.old node.old }
        requires told { IsDownAsTold self.old node.old }
        requires up { self.old.down ≡ 0 }
        requires has { (trx : Begun) × HasOpenStill self.old session trx }
        ensures calls { CallsOutside D.Disk shared.now self.old self.new node.old node.new session }
        ensures ended { (trx : Begun) → HasOpenStill self.old session trx → RollsBackAs D.Disk self.old self.new node.old node.new session trx result }
    {
        match self.back_out(shared, node, session, steps) {
            Ok(()) => Ok(()),
            Err(halt) => Err(self.refuse_back(shared, node, halt)),
        }
    }

    // Rolls it back, as far as it comes.
    fn back_out<L: Ledger>(
        &mut self,
        shared: &Shared,
        node: &mut Node,
        session: u8,
        steps: &mut Steps<L>,
    ) -> Result<(), BackHalt>
        requires stands { StandsWith D.Disk shared.now self.old node.old }
        requires up { self.old.down ≡ 0 }
        requires has { (trx : Begun) × HasOpenStill self.old session trx }
        ensures calls { TriesOutside D.Disk shared.now self.old self.new node.old node.new session }
        ensures ended { (trx : Begun) → HasOpenStill self.old session trx → BacksOutAs D.Disk self.old self.new node.old node.new session trx result }
    {
        let place = session as usize;
        let Some(trx) = trx_at(self.book.sessions[place].stage) else {
            unreachable!()
        };
        self.book.take_out(session, Some(trx));
        match self.go_back(shared, node, session, trx.id, steps) {
            Ok(()) => {
                free(shared, node, self.number, trx.id);
                self.book.take_out(session, None);
                Ok(())
            }
            Err(halt) => Err(halt),
        }
    }

    // Why a rollback stops that left rows. Where a page couldn't be had, the primary looks at those who hold it.
    fn refuse_back(&mut self, shared: &Shared, node: &mut Node, halt: BackHalt) -> RollRefusal
        requires tried { HasTried D.Disk shared.now self.old node.old }
        requires up { (wait : NotYet) → halt ≡ backs.Word wait → self.old.down ≡ 0 }
        ensures { RefusesFor D.Disk shared.now self.old self.new node.old node.new halt result }
    {
        match halt {
            BackHalt::Word(wait) => {
                if self.heed_cause(shared, node, Cause::Word(wait)) {
                    RollRefusal::Stopped(self.down)
                } else {
                    RollRefusal::NotYet(wait)
                }
            }
            BackHalt::Failed => {
                self.tell_down(shared, node);
                RollRefusal::Stopped(self.down)
            }
        }
    }
}
