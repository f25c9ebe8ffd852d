//! How a session's transaction is rolled back: its rows are put back, and then it is over.
ghost use Rattle.std.specs.Prelude.{◌≡◌, ◌≢◌, ℕ, ◌⊎◌, true, false, List, None, Some, Err, MatchOption, IfErr, OnOk};
ghost use Rattle.mp_core_trx.specs.declared.part.Begun.{Begun};
ghost use Rattle.mp_model.specs.declared.waiting.Turn.TheVariants as turns;
ghost use Rattle.mp_script.specs.declared.statements.Line.{Line};
ghost use Rattle.mp_script.specs.declared.statements.SessionOn.{SessionOn};
ghost use Rattle.mp_script.specs.Transactions.{target_of};
ghost use Rattle.mp_book.specs.declared.session.Session.{Session};
ghost use Rattle.mp_book.specs.declared.stage.Stage.TheVariants.{Open, Leaving};
ghost use Rattle.mp_book.specs.Stages.{next_line, trx_of_stage};
ghost use Rattle.mp_book.specs.Books.{IsBook, IsNext, IsRolledBack};
ghost use Rattle.mp_shared.specs.Nodes.{Run, NodeView};
ghost use Rattle.mp_desk.specs.declared.halts.BackHalt.TheVariants as backs;
ghost use Rattle.mp_primary.specs.Primaries.{PrimaryView, StandsWith};
ghost use Rattle.mp_primary.specs.Turns.{IsSessionOf, ComesTo, IsTakenBack};
ghost use Rattle.mp_primary.specs.Tries.{TriesTurn};
ghost use Rattle.mp_primary.specs.GoingOn.{GoesBackOf, CountsBack, IsAllBack, MayReplyBack, refusal_reply, IsReplyBack, ForgetsWaits, ClosesSession, LeavesRows, GoesOnQuietly, HaltsTurn, HaltsLeaving};

use crate::primary::Primary;
use mp_book::{Refusal, Stage};
use mp_core_trx::Begun;
use mp_desk::BackHalt;
use mp_model::{Cause, Reply, TrxId, Turn, WriteVerb};
use mp_outside::Disk;
use mp_script::Stmt;
use mp_shared::{Node, Shared};
use mp_steps::{Ledger, Steps};
use mp_trx_fusion::free;

impl<D: Disk> Primary<D> {
    // Puts back the rows of a session's transaction, as far as it comes, and lets all pages go. What is back stays so. Where
    // the log's disk failed the primary is down.
    pub(crate) fn go_back<L: Ledger>(
        &mut self,
        shared: &Shared,
        node: &mut Node,
        number: u8,
        id: TrxId,
        steps: &mut Steps<L>,
    ) -> Result<(), BackHalt>
        requires stands { StandsWith D.Disk shared.now self.old node.old }
        requires up { self.old.down ≡ 0 }
        requires back { (s : Session) × (trx : Begun) × GoesBackOf self.old number s trx × (trx.id ≡ id) }
        ensures quiet { GoesOnQuietly D.Disk shared.now self.old self.new node.old node.new number }
        ensures counts { (count : ℕ) × CountsBack self.old self.new number count }
        ensures up { OnOk result (self.new.down ≡ 0) }
        ensures all { OnOk result (IsAllBack self.new number) }
        ensures cause { IfErr result (LeavesRows D.Disk self.old self.new node.old node.new) }
    {
        let place = number as usize;
        let mut restored = self.book.sessions[place].restored;
        let went = self.desk.go_back(
            &mut self.media,
            shared,
            node,
            self.number,
            id,
            self.book.sessions[place].formers.as_slice(),
            &mut restored,
            steps,
        );
        self.count_back(number, restored);
        if has_failed(&went) {
            self.down = self.number;
            return Err(BackHalt::Failed);
        }
        if let Err(_) = self.desk.let_go(&mut self.media, shared, node, self.number) {
            self.down = self.number;
            return Err(BackHalt::Failed);
        }
        went
    }

    // Notes how many rows of a session are put back.
    fn count_back(&mut self, number: u8, restored: usize)
        requires { (s : Session) × IsSessionOf self.old number s }
        ensures counts { CountsBack self.old self.new number restored }
        ensures rest { self.new ≡ record self.old { book = self.new.book } }
    {
        let place = number as usize;
        let own = &mut self.book.sessions[place];
        own.restored = restored;
    }

    // Ends a transaction of which all is put back, and answers the session's next statement: with its refusal, or its rollback.
    pub(crate) fn answer_back(&mut self, shared: &Shared, node: &mut Node, number: u8, trx: Begun)
        requires comes { (s : Session) × (line : Line) × ComesTo D.Disk shared.now self.old node.old number s line × IsTakenBack s.stage × (trx_of_stage s.stage ≡ Some trx) }
        requires up { self.old.down ≡ 0 }
        requires all { IsAllBack self.old number }
        ensures { TriesTurn D.Disk shared.now self.old self.new node.old node.new (Some number) turns.Answered }
    {
        free(shared, node, self.number, trx.id);
        let reply = self.reply_back(number);
        self.book.answer(self.alloc, number, reply, None);
    }

    // Ends a turn in which not all rows could be put back: it waits for a page; or the primary is down, and the session's next
    // statement is answered so.
    pub(crate) fn halt_back(&mut self, number: u8, halt: BackHalt) -> Turn
        requires halted { (run : Run) × (old : PrimaryView D) × (before : NodeView) × (n : NodeView) × (s : Session) × (line : Line) × HaltsTurn D.Disk run old self.old before n number s line halt }
        ensures { (run : Run) (old : PrimaryView D) (before n : NodeView) (s : Session) (line : Line) → HaltsTurn D.Disk run old self.old before n number s line halt → TriesTurn D.Disk run old self.new before n (Some number) result }
    {
        match halt {
            BackHalt::Word(wait) => Turn::Waiting(Cause::Word(wait)),
            BackHalt::Failed => {
                self.book
                    .answer(self.alloc, number, Reply::Stopped(self.down), None);
                Turn::Answered
            }
        }
    }

    // What a turn comes to in which a session left its transaction, and not all rows could be put back.
    pub(crate) fn halt_leaving(&self, halt: BackHalt) -> Turn
        ensures { (run : Run) (old : PrimaryView D) (before n : NodeView) (number : ℕ) (s : Session) → HaltsLeaving D.Disk run old self.now before n number s halt → TriesTurn D.Disk run old self.now before n (Some number) result }
    {
        match halt {
            BackHalt::Word(wait) => Turn::Waiting(Cause::Word(wait)),
            BackHalt::Failed => Turn::Stopped(self.down),
        }
    }

    // The reply to a session's next statement once its transaction is put back.
    fn reply_back(&self, number: u8) -> Reply
        requires next { (s : Session) × (line : Line) × IsNext self.now.book number s line × MayReplyBack s.stage line.stmt }
        ensures { (s : Session) (line : Line) → IsNext self.now.book number s line → IsReplyBack s.stage line result }
    {
        let place = number as usize;
        let own = &self.book.sessions[place];
        let line = *own.lines.get(own.next);
        reply_to(own.stage, &line.stmt)
    }

    // Has a session that has no statement left leave its transaction, if it doesn't yet.
    pub(crate) fn set_leaving(&mut self, number: u8, trx: Begun)
        requires session { (s : Session) × IsSessionOf self.old number s × ((s.stage ≡ Open trx) ⊎ (s.stage ≡ Leaving trx)) × (next_line s ≡ None) }
        ensures quiet { (run : Run) (n : NodeView) → StandsWith D.Disk run self.old n → GoesOnQuietly D.Disk run self.old self.new n n number }
        ensures leaving { (s : Session) → IsSessionOf self.new number s → (s.stage ≡ Leaving trx) × (next_line s ≡ None) }
        ensures down { self.new.down ≡ self.old.down }
    {
        let place = number as usize;
        match self.book.sessions[place].stage {
            Stage::Open(_) => self.book.leave(number, trx),
            _ => {}
        }
    }

    // Ends, unprinted, a transaction of which all is put back.
    pub(crate) fn end_back(&mut self, shared: &Shared, node: &mut Node, number: u8, trx: Begun)
        requires stands { StandsWith D.Disk shared.now self.old node.old }
        requires up { self.old.down ≡ 0 }
        requires leaving { (s : Session) × IsSessionOf self.old number s × (s.stage ≡ Leaving trx) × (next_line s ≡ None) }
        requires all { IsAllBack self.old number }
        ensures { TriesTurn D.Disk shared.now self.old self.new node.old node.new (Some number) turns.Answered }
    {
        free(shared, node, self.number, trx.id);
        self.close(number);
    }

    // Closes a session that has no statement left, and so waits for nobody.
    pub(crate) fn close(&mut self, number: u8)
        requires left { (s : Session) × IsSessionOf self.old number s × (next_line s ≡ None) × IsRolledBack s }
        ensures closed { (s : Session) → IsSessionOf self.old number s → ClosesSession self.old.book self.new.book number s }
        ensures book { (lines : List Line) (sessions : List SessionOn) (primary : ℕ) → IsBook lines sessions primary self.old.book → IsBook lines sessions primary self.new.book }
        ensures rest { self.new ≡ record self.old { book = self.new.book } }
    {
        self.book.end_unprinted(number);
        self.forget_waits(number);
    }

    // Forgets whom a session waits for.
    fn forget_waits(&mut self, number: u8)
        requires { (s : Session) × IsSessionOf self.old number s }
        ensures forgot { (s : Session) → IsSessionOf self.old number s → ForgetsWaits self.old.book self.new.book number s }
        ensures rest { self.new ≡ record self.old { book = self.new.book } }
    {
        let place = number as usize;
        let own = &mut self.book.sessions[place];
        own.waits.clear();
    }
}

// Whether putting rows back stopped since the log's disk failed.
fn has_failed(went: &Result<(), BackHalt>) -> bool
    ensures yes { result ≡ true → went.now ≡ Err backs.Failed }
    ensures no { result ≡ false → went.now ≢ Err backs.Failed }
{
    matches!(went, Err(BackHalt::Failed))
}

// The transaction of a session at this stage, where it has one.
pub(crate) fn trx_at(stage: Stage) -> Option<Begun>
    ensures { result ≡ trx_of_stage stage }
{
    match stage {
        Stage::Open(trx) => Some(trx),
        Stage::Refused(trx, _) => Some(trx),
        Stage::Leaving(trx) => Some(trx),
        Stage::Outside(trx) => trx,
        Stage::Closed => None,
        Stage::Skipping => None,
    }
}

// The reply to a statement whose transaction is put back at this stage.
fn reply_to(stage: Stage, stmt: &Stmt) -> Reply
    requires { MayReplyBack stage stmt.now }
    ensures { (line : Line) → line.stmt ≡ stmt.now → IsReplyBack stage line result }
{
    match stage {
        Stage::Refused(_, refusal) => match verb_of(stmt) {
            Some(verb) => reply_of(verb, refusal),
            None => unreachable!(),
        },
        Stage::Leaving(_) => Reply::RolledBack,
        Stage::Closed | Stage::Open(_) | Stage::Skipping | Stage::Outside(_) => unreachable!(),
    }
}

// How a write is refused.
fn reply_of(verb: WriteVerb, refusal: Refusal) -> Reply
    ensures { result ≡ refusal_reply verb refusal }
{
    match refusal {
        Refusal::Conflict(cts) => Reply::Conflict(verb, cts),
        Refusal::Held(name) => Reply::Held(verb, name),
        Refusal::Full => Reply::Full(verb),
    }
}

// What a statement does to a key, where it writes one.
fn verb_of(stmt: &Stmt) -> Option<WriteVerb>
    ensures { MatchOption (target_of stmt.now) (result ≡ None) (λ target. result ≡ Some target.verb) }
{
    match stmt {
        Stmt::Put { key: _, value: _ } => Some(WriteVerb::Put),
        Stmt::Del { key: _ } => Some(WriteVerb::Del),
        Stmt::Copy { from: _, to: _ } => Some(WriteVerb::Copy),
        _ => None,
    }
}
