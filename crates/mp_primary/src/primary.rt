//! A primary.
ghost use Rattle.std.specs.Prelude.{◌≡◌, ℕ, ◌<◌, ◌≤◌, ◌⊎◌, List, [], length, Some, IfOk, IfErr};
ghost use Rattle.mp_model.specs.declared.ids.TrxName.{TrxName};
ghost use Rattle.mp_core.specs.declared.part.CorePart.{CorePart};
ghost use Rattle.mp_core_trx.specs.Events.{IsNode};
ghost use Rattle.mp_machine.specs.View.{part_in};
ghost use Rattle.mp_script.specs.BeginNames.{begin_names};
ghost use Rattle.mp_script.specs.Transactions.{begins};
ghost use Rattle.mp_book.specs.Orderly.{IsOrderly};
ghost use Rattle.mp_shared.specs.Nodes.{Run, first_node};
ghost use Rattle.mp_supports.specs.Work.{Work};
ghost use Rattle.mp_supports.specs.Kept.{Entry, answers_in};
ghost use Rattle.mp_primary.specs.Primaries.{PrimaryView, IsBetweenTurns, IsFirstLog, PrimaryAgrees, PrimaryAgreesIn};
ghost use Rattle.mp_primary.specs.Answering.{has_no_line, have_no_line};
ghost use Rattle.mp_primary.specs.Downs.{IsDownAsTold};
ghost use Rattle.mp_primary.specs.Turns.{MayTakeTurn};

use mp_book::{Book, Session};
use mp_core_trx::Base;
use mp_desk::{Desk, Media};
use mp_log::Log;
use mp_model::{Answers, Memory, Names, TrxName};
use mp_outside::Disk;
use mp_script::{Line, Script, SessionOn, Sessions, Stmt};
use std::alloc::Global;
use std::marker::Model;
use std::snapshot::Snapshot;

/// A primary (1 to 8): its sessions' statements with their answers, the pages that it works on, and its log.
#[derive(Drop)]
pub struct Primary<D: Disk> {
    pub(crate) number: u8,
    pub(crate) alloc: Global,
    pub(crate) script: Snapshot<Script>,
    pub(crate) base: Base,
    /// The transactions, by their versions.
    pub(crate) names: Names,
    /// Where the script's sessions are declared.
    pub(crate) places: Sessions,
    pub(crate) book: Book,
    pub(crate) desk: Desk,
    pub(crate) media: Media<D>,
    /// With which number it is down, or 0.
    pub(crate) down: u8,
}

impl<D: Disk> Model for Primary<D> {
    ghost use Rattle.mp_primary.specs.Primaries.{PrimaryView};

    ghost Value = { PrimaryView D };

    ghost view = { λ p. record { number = p.number; work = record { lines = p.script.value.lines.items; sessions = p.script.value.sessions.items; base = p.base }; names = p.names.items; places = p.places.items; book = p.book; desk = p.desk; media = p.media; down = p.down } };
}

/// A log whose primary couldn't be made, for want of memory. It is as it was.
#[derive(Drop)]
pub struct Unmade<D: Disk> {
    pub log: Log<D>,
}

/// What is left of a primary: its answers in their order, the disk of its log, and with which number it is down, or 0.
#[derive(Drop)]
pub struct Ended<D: Disk> {
    pub answers: Answers,
    pub disk: D,
    pub down: u8,
}

impl<D: Disk> Primary<D> {
    /// A primary of a script (of at most 10,000 statements) that has answered nothing, over a base and its log, in which
    /// nothing is appended and no mtr is above the base LLSN. It agrees with the part of its number of a table that is
    /// opened with this base for the script's transactions, and its down word there says that it is up. `Unmade` only for want
    /// of memory; it hands the log back.
    pub fn new(
        alloc: Global,
        number: u8,
        script: &Script,
        base: Base,
        log: Log<D>,
    ) -> Result<Primary<D>, Unmade<D>>
        requires orderly { IsOrderly script.now.lines.items }
        requires few { length script.now.lines.items ≤ 10000 }
        requires log { IsFirstLog D.Disk (record { lines = script.now.lines.items; sessions = script.now.sessions.items; base = base }) number log }
        ensures number { IfOk result (λ pr. pr.number ≡ number) }
        ensures work { IfOk result (λ pr. pr.work ≡ record { lines = script.now.lines.items; sessions = script.now.sessions.items; base = base }) }
        ensures up { IfOk result (λ pr. pr.down ≡ 0) }
        ensures none { IfOk result (λ pr. pr.book.answers.items ≡ []) }
        ensures disk { IfOk result (λ pr. pr.media.log ≡ log) }
        ensures primary { IfOk result IsBetweenTurns }
        ensures sessions { IfOk result (λ pr. (number : ℕ) → number < 65 → MayTakeTurn pr number) }
        ensures agrees { IfOk result (λ pr. (run : Run) → IsNode run.opening.trx number → run.opening.trx.base ≡ base → run.opening.trx.begins ≡ length (begin_names script.now.lines.items) → PrimaryAgreesIn D.Disk pr [] (first_node run)) }
        ensures told { IfOk result (λ pr. (run : Run) → IsNode run.opening.trx number → IsDownAsTold pr (first_node run)) }
        ensures unmade { IfErr result (λ unmade. unmade.log ≡ log) }
    {
        let Ok(names) = begin_names(alloc, script.lines.as_slice()) else {
            return Err(Unmade { log });
        };
        let Ok(places) = places_of(alloc, script.sessions.as_slice()) else {
            return Err(Unmade { log });
        };
        let Ok(book) = Book::new(alloc, script, number) else {
            return Err(Unmade { log });
        };
        let Ok(desk) = Desk::new(alloc, number, base.llsn) else {
            return Err(Unmade { log });
        };
        Ok(Primary {
            number,
            alloc,
            script: Snapshot::of(script),
            base,
            names,
            places,
            book,
            desk,
            media: Media {
                log,
                unforced: false,
            },
            down: 0,
        })
    }

    /// Which primary it is (1 to 8).
    pub fn number(&self) -> u8
        ensures { result ≡ self.now.number }
    {
        self.number
    }

    /// With which number it is down, or 0.
    pub fn down(&self) -> u8
        ensures { result ≡ self.now.down }
    {
        self.down
    }

    /// How many statements it has answered.
    pub fn answered(&self) -> usize
        ensures { result ≡ length self.now.book.answers.items }
    {
        self.book.answers.len()
    }

    /// Whether no statement of its sessions is left. A transaction may be open still.
    pub fn is_answered(&self) -> bool
        ensures { result ≡ have_no_line self.now.book.sessions.items }
    {
        are_answered(&self.book.sessions)
    }

    /// Ends the primary: its answers, all of them and in their order, and the disk of its log. It takes no memory.
    pub fn answers(self) -> Ended<D>
        ensures answers { result.answers.items ≡ self.book.answers.items }
        ensures disk { result.disk ≡ self.media.log.disk }
        ensures down { result.down ≡ self.down }
        ensures kept { (entries : List Entry) (q : CorePart) → PrimaryAgrees D.Disk self entries q → answers_in entries ≡ result.answers.items }
    {
        let down = self.down;
        let book = self.book;
        let media = self.media;
        let log = media.log;
        Ended {
            answers: book.answers,
            disk: log.into_disk(),
            down,
        }
    }
}

// The transactions of these statements, each named by its `begin`, in the order of those.
fn begin_names(alloc: Global, lines: &[Line]) -> Result<Names, Memory>
    ensures { IfOk result (λ names. names.items ≡ begin_names lines.now) }
{
    let mut names = Names::new(alloc);
    for line in lines {
        if is_begin(&line.stmt) {
            names.push(TrxName {
                session: line.session,
                first: line.index,
            })?;
        }
    }
    Ok(names)
}

// The sessions, each with the primary that it is declared on.
fn places_of(alloc: Global, sessions: &[SessionOn]) -> Result<Sessions, Memory>
    ensures { IfOk result (λ places. places.items ≡ sessions.now) }
{
    let mut places = Sessions::new(alloc);
    for session in sessions {
        places.push(*session)?;
    }
    Ok(places)
}

// Whether none of the sessions has a statement left.
fn are_answered(sessions: &[Session]) -> bool
    ensures { result ≡ have_no_line sessions.now }
{
    sessions.iter().all(|session| is_answered(session))
}

fn is_answered(session: &Session) -> bool
    ensures { result ≡ has_no_line session.now }
{
    session.next_line().is_none()
}

fn is_begin(stmt: &Stmt) -> bool
    ensures { result ≡ begins (Some stmt.now) }
{
    matches!(stmt, Stmt::Begin)
}
