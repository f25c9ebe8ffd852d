//! How a session's transaction is committed, in a turn or outside.
ghost use Rattle.std.specs.Prelude.{◌≡◌, ◌≢◌, ℕ, ◌+◌, true, [], ◌∷◌, None, Some};
ghost use Rattle.mp_model.specs.declared.replies.Reply.{Reply};
ghost use Rattle.mp_cells.specs.declared.rows.Row.{Row};
ghost use Rattle.mp_core_trx.specs.declared.part.Begun.{Begun};
ghost use Rattle.mp_core_trx.specs.Events.{with_end};
ghost use Rattle.mp_core.specs.declared.part.CorePart.{CorePart};
ghost use Rattle.mp_book.specs.declared.session.Session.{Session};
ghost use Rattle.mp_book.specs.SmallBooks.{its_begun};
ghost use Rattle.mp_outside.specs.Faults.{Rose};
ghost use Rattle.mp_shared.specs.Nodes.{Run, NodeView, HoldsAll};
ghost use Rattle.mp_trx_fusion.specs.Calls.{KnowsLess, tso_of};
ghost use Rattle.mp_buffer_fusion.specs.PoolExamples.{blank_buffer};
ghost use Rattle.mp_supports.specs.SmallParts.{part_before_steps, open_part};
ghost use Rattle.mp_desk.specs.Making.{MediaAgree};
ghost use Rattle.mp_primary.specs.declared.outside.CommitEnd.TheVariants as ends;
ghost use Rattle.mp_primary.specs.Primaries.{PrimaryView, StandsWith};
ghost use Rattle.mp_primary.specs.Turns.{IsSessionOf};
ghost use Rattle.mp_primary.specs.OutsideCalls.{HasOpen};
ghost use Rattle.mp_primary.specs.Commits.{EndsInPart, TellsIfWrote, IsReadyAgain, EndsByCommit, down_by_end, stamp_at_end, reply_at_end, left_at_end};

use crate::outside::CommitEnd;
use crate::primary::Primary;
use mp_core_trx::Begun;
use mp_desk::CommitHalt;
use mp_model::Reply;
use mp_outside::Disk;
use mp_shared::{Node, Shared};
use mp_trx_fusion::free;

impl<D: Disk> Primary<D> {
    // Commits a session's open transaction, of a primary that is up; one that wrote nothing is freed. The book is as it was.
    pub(crate) fn end_by_commit(
        &mut self,
        shared: &Shared,
        node: &mut Node,
        session: u8,
        trx: Begun,
    ) -> CommitEnd
        requires stands { StandsWith D.Disk shared.now self.old node.old }
        requires up { self.old.down ≡ 0 }
        requires open { HasOpen self.old session trx }
        ensures ended { EndsByCommit D.Disk shared.now self.old self.new node.old node.new session trx result }
        ensures above { (cts : ℕ) → stamp_at_end result ≡ Some cts → KnowsLess node.old self.old.number cts }
        ensures exact { (cts : ℕ) → stamp_at_end result ≡ Some cts → HoldsAll node.old → cts ≡ tso_of node.old + 1 }
    {
        let place = session as usize;
        if self.book.sessions[place].formers.is_empty() {
            free(shared, node, self.number, trx.id);
            return CommitEnd::None;
        }
        self.commit_writes(shared, node, session, trx)
    }

    // Commits a session's open transaction that wrote, of a primary that is up, and lets all pages go. The log is forced by
    // then, so that no disk can fail any more.
    fn commit_writes(
        &mut self,
        shared: &Shared,
        node: &mut Node,
        session: u8,
        trx: Begun,
    ) -> CommitEnd
        requires stands { StandsWith D.Disk shared.now self.old node.old }
        requires up { self.old.down ≡ 0 }
        requires open { HasOpen self.old session trx }
        requires wrote { (s : Session) → IsSessionOf self.old session s → s.formers.items ≢ [] }
        ensures ended { EndsByCommit D.Disk shared.now self.old self.new node.old node.new session trx result }
        ensures above { (cts : ℕ) → stamp_at_end result ≡ Some cts → KnowsLess node.old self.old.number cts }
        ensures exact { (cts : ℕ) → stamp_at_end result ≡ Some cts → HoldsAll node.old → cts ≡ tso_of node.old + 1 }
    {
        match self
            .desk
            .commit_trx(&mut self.media, shared, node, self.number, trx)
        {
            Ok(cts) => match self.desk.let_go(&mut self.media, shared, node, self.number) {
                Ok(()) => CommitEnd::At(cts),
                Err(_) => unreachable!(),
            },
            Err(CommitHalt::Failed) => {
                self.down = self.number;
                CommitEnd::Stopped
            }
            Err(CommitHalt::Unknown(cts)) => {
                self.down = self.number;
                CommitEnd::Unknown(cts)
            }
        }
    }
}

// How a `commit` that ended so is answered, by a primary that is down with this number.
pub(crate) fn reply_at_end(down: u8, end: CommitEnd) -> Reply
    ensures { result ≡ reply_at_end down end }
{
    match end {
        CommitEnd::None => Reply::CommittedNone,
        CommitEnd::At(cts) => Reply::Committed(cts),
        CommitEnd::Unknown(cts) => Reply::Unknown(cts),
        CommitEnd::Stopped => Reply::Stopped(down),
    }
}

// What is the session's still: its transaction, where the primary went down.
pub(crate) fn left_at_end(trx: Begun, end: CommitEnd) -> Option<Begun>
    ensures { result ≡ left_at_end trx end }
{
    match end {
        CommitEnd::None => None,
        CommitEnd::At(_) => None,
        CommitEnd::Unknown(_) => Some(trx),
        CommitEnd::Stopped => Some(trx),
    }
}

/// What the end of a commit says, tried on small parts and primaries: a slot is freed by one store, and a commit that was
/// stopped began nothing. A transaction that wrote is never told to have written nothing. The primary is down where its log's
/// disk failed, and then the transaction is its session's still.
pub fn law_commit_end_examples<D: Disk>()
    ensures freed { (q : CorePart) → EndsInPart its_begun ends.None q (record q { trx = with_end its_begun.id None q.trx; ops = q.ops + 1 }) }
    ensures not_freed { (q : CorePart) → ¬ EndsInPart its_begun ends.None q q }
    ensures stopped { (q : CorePart) → EndsInPart its_begun ends.Stopped q q }
    ensures not_stopped { ¬ EndsInPart its_begun ends.Stopped part_before_steps open_part }
    ensures wrote { (row : Row) → TellsIfWrote (row ∷ []) (ends.At 5) }
    ensures wrote_nothing { ¬ TellsIfWrote [] (ends.At 5) }
    ensures up { down_by_end 3 (ends.At 5) ≡ 0 }
    ensures down { down_by_end 3 (ends.Unknown 5) ≡ 3 }
    ensures stamp { stamp_at_end (ends.Unknown 5) ≡ Some 5 }
    ensures no_stamp { stamp_at_end ends.Stopped ≡ None }
    ensures told { reply_at_end 3 (ends.Unknown 5) ≡ Reply.Unknown 5 }
    ensures stopped_by { reply_at_end 3 ends.Stopped ≡ Reply.Stopped 3 }
    ensures left { left_at_end its_begun ends.Stopped ≡ Some its_begun }
    ensures over { left_at_end its_begun (ends.At 5) ≡ None }
    ensures ready { (run : Run) (pr : PrimaryView D) (n : NodeView) → StandsWith D.Disk run pr n → pr.down ≡ 0 → IsReadyAgain pr pr.number n }
    ensures not_ready { (pr : PrimaryView D) (n : NodeView) → pr.desk.pool ≡ blank_buffer 5 true ∷ [] → ¬ IsReadyAgain pr pr.number n }
    ensures stopped_so { (run : Run) (pr : PrimaryView D) (n : NodeView) → StandsWith D.Disk run pr n → pr.down ≡ 0 → MediaAgree D.Disk pr.work pr.number pr.media pr.number n → Rose (D.faults pr.media.log.disk) (D.faults pr.media.log.disk)
        → ((s : Session) → IsSessionOf pr 0 s → s.formers.items ≢ []) → EndsByCommit D.Disk run pr (record pr { down = pr.number }) n n 0 its_begun ends.Stopped }
    ensures not_down { (run : Run) (old new : PrimaryView D) (before after : NodeView) → new.down ≡ 1 → ¬ EndsByCommit D.Disk run old new before after 0 its_begun (ends.At 5) }
{}
