//! The book of a primary.

ghost use Rattle.std.specs.Prelude.{◌≡◌, ℕ, ◌+◌, ◌<◌, ◌⊎◌, true, List, [], MatchOption, Some, None, is_some, slice_get, length, OnOk, IfOk, IfSome};
ghost use Rattle.mp_script.specs.declared.statements.Line.{Line};
ghost use Rattle.mp_script.specs.declared.statements.SessionOn.{SessionOn};
ghost use Rattle.mp_script.specs.Execution.{is_session_on};
ghost use Rattle.mp_script.specs.Transactions.{target_of};
ghost use Rattle.mp_script.specs.WentDown.{is_stopped};
ghost use Rattle.mp_core_trx.specs.declared.part.Begun.{Begun};
ghost use Rattle.mp_book.specs.declared.session.Session.{Session};
ghost use Rattle.mp_book.specs.Orderly.{IsOrderly};
ghost use Rattle.mp_book.specs.Stages.{next_line, with_former};
ghost use Rattle.mp_book.specs.Answered.{execution_above, NoneShowsDown, HasWrittenHere};
ghost use Rattle.mp_script.specs.Entries.{open_after};
ghost use Rattle.mp_book.specs.Through.{have_no_task};
ghost use Rattle.mp_book.specs.Books.{IsBook, IsNext, IsAnswered, MayAnswer, stage_after, skipped_to, StartsAs, own_lines, SetsSession, HasSameSession, HasRoom, HasRoomIn, NotesWait, RefusalStands, IsRolledBack, IsGoingBack};

use crate::session::Session;
use crate::stage::{Refusal, Stage};
use mp_cells::Row;
use mp_core_trx::Begun;
use mp_model::{Answer, Answers, Memory, Reply, TrxName};
use mp_script::{Script, SessionOn, Stmt};
use std::alloc::Global;

/// The answers that a primary has given, in their order, and its sessions by their numbers, from 0 to 64. A session of
/// another primary has no statement here.
#[derive(Debug, Drop)]
pub struct Book {
    pub answers: Answers,
    pub sessions: Vec<Session>,
}

impl Book {
    /// The book of a primary that has answered nothing. `Memory` only for want of memory.
    pub fn new(alloc: Global, script: &Script, primary: u8) -> Result<Book, Memory>
        requires orderly { IsOrderly script.now.lines.items }
        ensures book { IfOk result (IsBook script.now.lines.items script.now.sessions.items primary) }
        ensures none { IfOk result (λ book. book.answers.items ≡ []) }
        ensures starts { IfOk result (λ book. (number : ℕ) (s : Session) → slice_get book.sessions.items number ≡ Some s → StartsAs number (own_lines script.now.lines.items script.now.sessions.items primary number) s) }
    {
        let mut sessions = Vec::new(alloc);
        for number in 0..65u8 {
            let session = first_session(alloc, script, number, primary)?;
            sessions.push(session)?;
        }
        Ok(Book {
            answers: Answers::new(alloc),
            sessions,
        })
    }

    /// Answers a session's next statement, a `begin`, with the transaction that it began: its view is the answer. It takes
    /// no memory.
    pub fn answer_begin(&mut self, alloc: Global, session: u8, trx: Begun)
        requires next { (s : Session) × (line : Line) × IsNext self.old session s line × MayAnswer s line (Reply.Began trx.view) (Stage.Open trx) [] 0 }
        requires room { 0 < self.old.answers.spare }
        ensures answered { (s : Session) (line : Line) → IsNext self.old session s line → IsAnswered self.old self.new session s line (Reply.Began trx.view) (Stage.Open trx) [] 0 }
        ensures book { (lines : List Line) (sessions : List SessionOn) (primary : ℕ) → IsBook lines sessions primary self.old → NoneShowsDown self.old.answers.items → IsBook lines sessions primary self.new }
    {
        self.begin_next(alloc, session, trx);
    }

    /// Answers a session's next statement, another than `begin`, with this reply; a write with the row that it was the
    /// first of its transaction to replace, if it was. The session goes on at the stage that the reply leaves. It takes no
    /// memory.
    pub fn answer(&mut self, alloc: Global, session: u8, reply: Reply, former: Option<Row>)
        requires next { (s : Session) × (line : Line) × IsNext self.old session s line × MayAnswer s line reply (stage_after s.stage line.stmt reply) (with_former s.formers.items former) s.restored × MatchOption former (Unit {0}) (λ row. 0 < s.formers.spare) }
        requires room { 0 < self.old.answers.spare }
        ensures answered { (s : Session) (line : Line) → IsNext self.old session s line → IsAnswered self.old self.new session s line reply (stage_after s.stage line.stmt reply) (with_former s.formers.items former) s.restored }
        ensures book { (lines : List Line) (sessions : List SessionOn) (primary : ℕ) → IsBook lines sessions primary self.old → (is_stopped reply ≡ true) ⊎ NoneShowsDown self.old.answers.items → IsBook lines sessions primary self.new }
    {
        let stage = self.next_stage(session, &reply);
        self.answer_next(alloc, session, reply, stage, former);
    }

    /// Makes room for what one turn of a session may add. After `Ok` an answer, a row and a name need no memory. A refusal
    /// changes nothing but room.
    pub fn make_room(&mut self, session: u8) -> Result<(), Memory>
        requires { session < length self.old.sessions.items }
        ensures answers { self.new.answers.items ≡ self.old.answers.items }
        ensures same { (s : Session) → slice_get self.old.sessions.items session ≡ Some s → HasSameSession self.old self.new session s }
        ensures room { OnOk result (HasRoom self.new session) }
        ensures book { (lines : List Line) (sessions : List SessionOn) (primary : ℕ) → IsBook lines sessions primary self.old → IsBook lines sessions primary self.new }
    {
        self.answers.reserve(1)?;
        self.make_room_in(session)
    }

    /// Notes that a session's next statement, a write, waits for this transaction, if that isn't noted yet. It takes no
    /// memory.
    pub fn wait_for(&mut self, session: u8, name: TrxName)
        requires next { (s : Session) × (line : Line) × IsNext self.old session s line × (is_some (target_of line.stmt) ≡ true) × (0 < s.waits.spare) }
        ensures named { (s : Session) → slice_get self.old.sessions.items session ≡ Some s → NotesWait self.old self.new session s name }
        ensures book { (lines : List Line) (sessions : List SessionOn) (primary : ℕ) (s : Session) (line : Line) → IsBook lines sessions primary self.old → IsNext self.old session s line → IfSome (target_of line.stmt) (λ target. HasWrittenHere (execution_above lines sessions self.old.answers.items) primary target.key name) → IsBook lines sessions primary self.new }
    {
        self.note_wait(session, name);
    }

    /// A session's next statement, a write of its open transaction, is refused: from now on the transaction is put back.
    pub fn refuse(&mut self, session: u8, trx: Begun, refusal: Refusal)
        requires next { (s : Session) × (line : Line) × IsNext self.old session s line × (s.stage ≡ Stage.Open trx) × (is_some (target_of line.stmt) ≡ true) }
        ensures set { (s : Session) → slice_get self.old.sessions.items session ≡ Some s → SetsSession self.old self.new session (record s { stage = Stage.Refused trx refusal }) }
        ensures book { (lines : List Line) (sessions : List SessionOn) (primary : ℕ) (s : Session) (line : Line) → IsBook lines sessions primary self.old → IsNext self.old session s line → RefusalStands (execution_above lines sessions self.old.answers.items) primary line.stmt refusal → IsBook lines sessions primary self.new }
    {
        self.set_stage(session, Stage::Refused(trx, refusal));
    }

    /// A session's open transaction is put back from now on: for its `rollback`, or since no statement is left.
    pub fn leave(&mut self, session: u8, trx: Begun)
        requires { (s : Session) × (slice_get self.old.sessions.items session ≡ Some s) × (s.stage ≡ Stage.Open trx) × IfSome (next_line s) (λ line. line.stmt ≡ Stmt.Rollback) }
        ensures set { (s : Session) → slice_get self.old.sessions.items session ≡ Some s → SetsSession self.old self.new session (record s { stage = Stage.Leaving trx }) }
        ensures book { (lines : List Line) (sessions : List SessionOn) (primary : ℕ) → IsBook lines sessions primary self.old → IsBook lines sessions primary self.new }
    {
        self.set_stage(session, Stage::Leaving(trx));
    }

    /// A session of which no statement is left has ended its transaction, unprinted: all is put back, or it was so before.
    pub fn end_unprinted(&mut self, session: u8)
        requires { (s : Session) × (slice_get self.old.sessions.items session ≡ Some s) × (next_line s ≡ None) × IsRolledBack s }
        ensures set { (s : Session) → slice_get self.old.sessions.items session ≡ Some s → SetsSession self.old self.new session (record s { stage = Stage.Closed }) }
        ensures book { (lines : List Line) (sessions : List SessionOn) (primary : ℕ) → IsBook lines sessions primary self.old → IsBook lines sessions primary self.new }
    {
        self.set_stage(session, Stage::Closed);
    }

    /// Calls outside a turn end a session's transaction, or have ended it: no turn goes on with it.
    pub fn take_out(&mut self, session: u8, trx: Option<Begun>)
        requires { (s : Session) × (slice_get self.old.sessions.items session ≡ Some s) }
        ensures set { (s : Session) → slice_get self.old.sessions.items session ≡ Some s → SetsSession self.old self.new session (record s { stage = Stage.Outside trx }) }
        ensures book { (lines : List Line) (sessions : List SessionOn) (primary : ℕ) → IsBook lines sessions primary self.old → IsBook lines sessions primary self.new }
    {
        self.set_stage(session, Stage::Outside(trx));
    }

    /// One row more of a session's transaction has been put back, which is being rolled back.
    pub fn put_back_one(&mut self, session: u8)
        requires { (s : Session) × (slice_get self.old.sessions.items session ≡ Some s) × (s.restored < length s.formers.items) × IsGoingBack s.stage }
        ensures set { (s : Session) → slice_get self.old.sessions.items session ≡ Some s → SetsSession self.old self.new session (record s { restored = s.restored + 1 }) }
        ensures book { (lines : List Line) (sessions : List SessionOn) (primary : ℕ) → IsBook lines sessions primary self.old → IsBook lines sessions primary self.new }
    {
        self.count_one_back(session);
    }

    /// Whether the primary is through: no session has anything left to do.
    pub fn is_through(&self) -> bool
        ensures { result ≡ have_no_task self.now.sessions.items }
    {
        are_through(&self.sessions)
    }

    // Makes room in one session.
    fn make_room_in(&mut self, session: u8) -> Result<(), Memory>
        requires { session < length self.old.sessions.items }
        ensures answers { self.new.answers ≡ self.old.answers }
        ensures same { (s : Session) → slice_get self.old.sessions.items session ≡ Some s → HasSameSession self.old self.new session s }
        ensures room { OnOk result (HasRoomIn self.new session) }
    {
        let place = session as usize;
        let own = &mut self.sessions[place];
        own.make_room()
    }

    fn note_wait(&mut self, session: u8, name: TrxName)
        requires { (s : Session) × (slice_get self.old.sessions.items session ≡ Some s) × (0 < s.waits.spare) }
        ensures named { (s : Session) → slice_get self.old.sessions.items session ≡ Some s → NotesWait self.old self.new session s name }
    {
        let place = session as usize;
        let own = &mut self.sessions[place];
        own.wait_for(name);
    }

    fn count_one_back(&mut self, session: u8)
        requires { (s : Session) × (slice_get self.old.sessions.items session ≡ Some s) × (s.restored < length s.formers.items) }
        ensures set { (s : Session) → slice_get self.old.sessions.items session ≡ Some s → SetsSession self.old self.new session (record s { restored = s.restored + 1 }) }
    {
        let place = session as usize;
        let own = &mut self.sessions[place];
        own.put_back_one();
    }

    fn set_stage(&mut self, session: u8, stage: Stage)
        requires { (s : Session) × (slice_get self.old.sessions.items session ≡ Some s) }
        ensures set { (s : Session) → slice_get self.old.sessions.items session ≡ Some s → SetsSession self.old self.new session (record s { stage = stage }) }
    {
        let place = session as usize;
        let own = &mut self.sessions[place];
        own.stage = stage;
    }

    // The stage that a reply to a session's next statement leaves.
    fn next_stage(&self, session: u8, reply: &Reply) -> Stage
        requires { (s : Session) × (line : Line) × IsNext self.now session s line }
        ensures { (s : Session) (line : Line) → IsNext self.now session s line → result ≡ stage_after s.stage line.stmt reply.now }
    {
        let place = session as usize;
        let own = &self.sessions[place];
        let line = *own.lines.get(own.next);
        stage_after(own.stage, &line.stmt, reply)
    }

    // Answers a session's next statement with the transaction that it began.
    fn begin_next(&mut self, alloc: Global, session: u8, trx: Begun)
        requires next { (s : Session) × (line : Line) × IsNext self.old session s line }
        requires room { 0 < self.old.answers.spare }
        ensures { (s : Session) (line : Line) → IsNext self.old session s line → IsAnswered self.old self.new session s line (Reply.Began trx.view) (Stage.Open trx) [] 0 }
    {
        let place = session as usize;
        let own = &mut self.sessions[place];
        let index = own.lines.get(own.next).index;
        own.forget();
        let waits = own.go_on(alloc, Stage::Open(trx), None);
        self.answers.put(Answer {
            session,
            index,
            reply: Reply::Began(trx.view),
            waits,
        });
    }

    // Answers a session's next statement, and leaves the session at this stage, with one row more, where there is one.
    fn answer_next(
        &mut self,
        alloc: Global,
        session: u8,
        reply: Reply,
        stage: Stage,
        former: Option<Row>,
    )
        requires next { (s : Session) × (line : Line) × IsNext self.old session s line × MatchOption former (Unit {0}) (λ row. 0 < s.formers.spare) }
        requires room { 0 < self.old.answers.spare }
        ensures { (s : Session) (line : Line) → IsNext self.old session s line → IsAnswered self.old self.new session s line reply stage (with_former s.formers.items former) s.restored }
    {
        let place = session as usize;
        let own = &mut self.sessions[place];
        let index = own.lines.get(own.next).index;
        let waits = own.go_on(alloc, stage, former);
        self.answers.put(Answer {
            session,
            index,
            reply,
            waits,
        });
    }
}

// A session of which nothing is answered: with its statements, where it is one of the primary, or without any.
fn first_session(alloc: Global, script: &Script, number: u8, primary: u8) -> Result<Session, Memory>
    ensures { IfOk result (StartsAs number (own_lines script.now.lines.items script.now.sessions.items primary number)) }
{
    if is_on(script.sessions.as_slice(), number, primary) {
        Session::new(alloc, number, script.lines.as_slice())
    } else {
        Session::new(alloc, number, &[])
    }
}

// Whether none of the sessions has anything left to do.
fn are_through(sessions: &[Session]) -> bool
    ensures { result ≡ have_no_task sessions.now }
{
    sessions.iter().all(|session| session.has_no_task())
}

// Whether a session is one of the primary.
fn is_on(sessions: &[SessionOn], number: u8, primary: u8) -> bool
    ensures { result ≡ is_session_on sessions.now number primary }
{
    sessions
        .iter()
        .any(|on| on.session == number && on.primary == primary)
}

// The stage that a reply leaves, where it was no `begin`'s.
fn stage_after(stage: Stage, stmt: &Stmt, reply: &Reply) -> Stage
    ensures { result ≡ stage_after stage stmt.now reply.now }
{
    match reply {
        Reply::Committed(_) => Stage::Closed,
        Reply::CommittedNone => Stage::Closed,
        Reply::RolledBack => Stage::Closed,
        Reply::Conflict(_, _) => Stage::Skipping,
        Reply::Held(_, _) => Stage::Skipping,
        Reply::Full(_) => Stage::Skipping,
        Reply::Skipped => skipped_to(stmt),
        Reply::Began(_) => stage,
        Reply::Got(_) => stage,
        Reply::Scanned(_) => stage,
        Reply::Wrote(_) => stage,
        Reply::Unknown(_) => stage,
        Reply::Stopped(_) => stage,
    }
}

// The stage behind a statement that was skipped.
fn skipped_to(stmt: &Stmt) -> Stage
    ensures { result ≡ skipped_to (open_after stmt.now) }
{
    match stmt {
        Stmt::Commit => Stage::Closed,
        Stmt::Rollback => Stage::Closed,
        Stmt::Begin => Stage::Skipping,
        Stmt::Get { key: _ } => Stage::Skipping,
        Stmt::Put { key: _, value: _ } => Stage::Skipping,
        Stmt::Del { key: _ } => Stage::Skipping,
        Stmt::Copy { from: _, to: _ } => Stage::Skipping,
        Stmt::Scan { low: _, most: _ } => Stage::Skipping,
    }
}
