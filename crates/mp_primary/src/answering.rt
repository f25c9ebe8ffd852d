//! How a turn ends: its statement is answered, waits, or is stopped.
ghost use Rattle.std.specs.Prelude.{◌≡◌, ◌≢◌, ℕ, ◌+◌, ◌<◌, ◌≤◌, length, Some, None};
ghost use Rattle.mp_model.specs.declared.replies.Answer.{Answer};
ghost use Rattle.mp_model.specs.declared.replies.Reply.TheVariants.{Stopped};
ghost use Rattle.mp_model.specs.declared.waiting.Turn.TheVariants as turns;
ghost use Rattle.mp_script.specs.declared.statements.Line.{Line};
ghost use Rattle.mp_book.specs.declared.session.Session.{Session};
ghost use Rattle.mp_book.specs.declared.stage.Stage.TheVariants.{Skipping};
ghost use Rattle.mp_shared.specs.Nodes.{Run, NodeView};
ghost use Rattle.mp_supports.specs.Work.{name_of};
ghost use Rattle.mp_script.specs.BeginNames.{begin_names};
ghost use Rattle.mp_primary.specs.Turns.{IsSessionOf, Adds, ComesTo, ComesToStop};
ghost use Rattle.mp_primary.specs.Tries.{TriesTurn};

use crate::primary::Primary;
use mp_model::{Reply, TrxId, TrxName, Turn};
use mp_outside::Disk;

impl<D: Disk> Primary<D> {
    // Answers a session's next statement, whose transaction was refused before.
    pub(crate) fn skip(&mut self, number: u8) -> Turn
        requires comes { (run : Run) × (n : NodeView) × (s : Session) × (line : Line) × ComesTo D.Disk run self.old n number s line × (s.stage ≡ Skipping) }
        requires up { self.old.down ≡ 0 }
        ensures { (run : Run) (n : NodeView) (s : Session) (line : Line) → ComesTo D.Disk run self.old n number s line → TriesTurn D.Disk run self.old self.new n n (Some number) result }
    {
        self.book.answer(self.alloc, number, Reply::Skipped, None);
        Turn::Answered
    }

    // Answers a session's next statement of a primary that is down.
    pub(crate) fn stop(&mut self, number: u8) -> Turn
        requires comes { (run : Run) × (n : NodeView) × (s : Session) × (line : Line) × ComesToStop D.Disk run self.old n number s line }
        requires down { self.old.down ≢ 0 }
        ensures told { (a : Answer) → Adds self.old self.new a → (a.reply ≡ Stopped self.old.down) × ((s : Session) → IsSessionOf self.old number s → a.waits.items ≡ s.waits.items) }
        ensures answered { result ≡ turns.Answered }
        ensures stops { (run : Run) (n : NodeView) (s : Session) (line : Line) → ComesToStop D.Disk run self.old n number s line → TriesTurn D.Disk run self.old self.new n n (Some number) turns.Answered }
    {
        self.book
            .answer(self.alloc, number, Reply::Stopped(self.down), None);
        Turn::Answered
    }

    // The name of a transaction of the script.
    pub(crate) fn name_of(&self, id: TrxId) -> TrxName
        requires names { self.now.names ≡ begin_names self.now.work.lines }
        requires above { self.now.work.base.version < id.version }
        requires within { id.version ≤ self.now.work.base.version + length (begin_names self.now.work.lines) }
        ensures { name_of self.now.work id ≡ Some result }
    {
        *self
            .names
            .get((id.version - self.base.version - 1) as usize)
    }
}
