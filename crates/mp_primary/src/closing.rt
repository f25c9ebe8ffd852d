//! How a turn ends that took steps: all pages are let go, and its statement is answered, waits, or is stopped.
ghost use Rattle.std.specs.Prelude.{◌≡◌, ◌≢◌, ℕ, true, None, Some, IfSome, MatchOption, OnOk, OnErr};
ghost use Rattle.mp_model.specs.declared.waiting.Turn.TheVariants as turns;
ghost use Rattle.mp_script.specs.declared.statements.Line.{Line};
ghost use Rattle.mp_book.specs.declared.session.Session.{Session};
ghost use Rattle.mp_book.specs.Books.{IsNext, HasRoom};
ghost use Rattle.mp_shared.specs.Nodes.{Run, NodeView};
ghost use Rattle.mp_supports.specs.Supports.{Trace, no_trace};
ghost use Rattle.mp_desk.specs.Desks.{Moves};
ghost use Rattle.mp_desk.specs.LetGo.{HasLetGo};
ghost use Rattle.mp_desk.specs.Statements.{StaysQuiet};
ghost use Rattle.mp_primary.specs.Primaries.{PrimaryView, StandsWith};
ghost use Rattle.mp_primary.specs.Turns.{WaitsFor, ComesTo};
ghost use Rattle.mp_primary.specs.Tries.{TriesTurn};
ghost use Rattle.mp_primary.specs.AtWork.{IsAtWork, HasClearedDesk, HasGoneDown, MayStopWith, WroteHere};

use crate::primary::Primary;
use mp_cells::Row;
use mp_model::{Cause, Reply, Turn};
use mp_outside::{Disk, Failed};
use mp_shared::{Node, Shared};

impl<D: Disk> Primary<D> {
    // Lets all pages go. Where the log's disk failed, the primary is down, and holds what it held.
    pub(crate) fn clear_desk(&mut self, shared: &Shared, node: &mut Node) -> Result<(), Failed>
        requires work { (old : PrimaryView D) × (before : NodeView) × (trace : Trace) × IsAtWork D.Disk shared.now old self.old before node.old trace }
        ensures cleared { OnOk result ((old : PrimaryView D) (before : NodeView) (trace : Trace) → IsAtWork D.Disk shared.now old self.old before node.old trace → HasClearedDesk D.Disk shared.now old self.new before node.new trace) }
        ensures down { OnErr result ((old : PrimaryView D) (before : NodeView) (trace : Trace) → IsAtWork D.Disk shared.now old self.old before node.old trace → HasGoneDown D.Disk shared.now old self.new before node.new trace) }
        ensures gone { OnOk result (Moves HasLetGo self.old.number node.old node.new) }
        ensures still { OnErr result (node.new ≡ node.old) }
        ensures appended { OnErr result (self.old.media.unforced ≡ true) }
    {
        if let Err(failed) = self.desk.let_go(&mut self.media, shared, node, self.number) {
            self.down = self.number;
            return Err(failed);
        }
        Ok(())
    }

    // Ends a turn whose statement waits, for this cause. The statement made nothing.
    pub(crate) fn wait(
        &mut self,
        shared: &Shared,
        node: &mut Node,
        number: u8,
        cause: Cause,
    ) -> Turn
        requires work { (old : PrimaryView D) × (before : NodeView) × (s : Session) × (line : Line) × ComesTo D.Disk shared.now old before number s line × IsAtWork D.Disk shared.now old self.old before node.old no_trace × WaitsFor old number before node.old cause }
        ensures { (old : PrimaryView D) (before : NodeView) (s : Session) (line : Line) → ComesTo D.Disk shared.now old before number s line → IsAtWork D.Disk shared.now old self.old before node.old no_trace → Moves StaysQuiet old.number before node.old → WaitsFor old number before node.old cause → WroteHere old line cause → TriesTurn D.Disk shared.now old self.new before node.new (Some number) result }
    {
        if let Err(_failed) = self.clear_desk(shared, node) {
            return self.stop_now(number, None);
        }
        match cause {
            Cause::Word(word) => Turn::Waiting(Cause::Word(word)),
            Cause::Prep(name) => Turn::Waiting(Cause::Prep(name)),
            Cause::Writer(name) => {
                self.book.wait_for(number, name);
                Turn::Waiting(Cause::Writer(name))
            }
        }
    }

    // Answers a session's next statement of a primary that has gone down in this turn; a write that was made before that with
    // the row that it was the first of its transaction to replace, if it was.
    pub(crate) fn stop_now(&mut self, number: u8, former: Option<Row>) -> Turn
        requires work { (shared : Run) × (old : PrimaryView D) × (before : NodeView) × (n : NodeView) × (trace : Trace) × (s : Session) × (line : Line) × ComesTo D.Disk shared old before number s line × HasGoneDown D.Disk shared old self.old before n trace }
        ensures { (shared : Run) (old : PrimaryView D) (before n : NodeView) (trace : Trace) (s : Session) (line : Line) → ComesTo D.Disk shared old before number s line → HasGoneDown D.Disk shared old self.old before n trace → MayStopWith old line former before n trace → TriesTurn D.Disk shared old self.new before n (Some number) result }
    {
        self.book
            .answer(self.alloc, number, Reply::Stopped(self.down), former);
        Turn::Answered
    }
}
