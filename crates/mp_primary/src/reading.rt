//! How a turn ends whose statement reads.
ghost use Rattle.std.specs.Prelude.{◌≡◌, ℕ, List, Some};
ghost use Rattle.mp_script.specs.declared.statements.Line.{Line};
ghost use Rattle.mp_cells.specs.PageView.{PageView};
ghost use Rattle.mp_core_pages.specs.declared.part.GivenPage.{GivenPage};
ghost use Rattle.mp_book.specs.declared.session.Session.{Session};
ghost use Rattle.mp_shared.specs.Nodes.{NodeView};
ghost use Rattle.mp_supports.specs.Supports.{no_trace, looked_trace};
ghost use Rattle.mp_primary.specs.Primaries.{PrimaryView};
ghost use Rattle.mp_primary.specs.Turns.{ComesTo};
ghost use Rattle.mp_primary.specs.Tries.{TriesTurn};
ghost use Rattle.mp_primary.specs.AtWork.{IsAtWork};
ghost use Rattle.mp_primary.specs.Reads.{FindsReply, StopsReading};

use crate::primary::Primary;
use mp_desk::ReadHalt;
use mp_model::{Cause, Reply, Turn};
use mp_outside::Disk;
use mp_shared::{Node, Shared};

impl<D: Disk> Primary<D> {
    // Answers a read, once all pages are let go. It is stopped where the log's disk fails then.
    pub(crate) fn answer_read(
        &mut self,
        shared: &Shared,
        node: &mut Node,
        number: u8,
        reply: Reply,
    ) -> Turn
        requires work { (old : PrimaryView D) × (before : NodeView) × (s : Session) × (line : Line) × (pages : List (GivenPage PageView)) × ComesTo D.Disk shared.now old before number s line × IsAtWork D.Disk shared.now old self.old before node.old (looked_trace pages) × FindsReply old before node.old s line reply pages }
        ensures { (old : PrimaryView D) (before : NodeView) (s : Session) (line : Line) (pages : List (GivenPage PageView)) → ComesTo D.Disk shared.now old before number s line → IsAtWork D.Disk shared.now old self.old before node.old (looked_trace pages) → FindsReply old before node.old s line reply pages → TriesTurn D.Disk shared.now old self.new before node.new (Some number) result }
    {
        if let Err(_failed) = self.clear_desk(shared, node) {
            return self.stop_now(number, None);
        }
        self.book.answer(self.alloc, number, reply, None);
        Turn::Answered
    }

    // Ends the turn of a read that stopped: it waits.
    pub(crate) fn halt_read(
        &mut self,
        shared: &Shared,
        node: &mut Node,
        number: u8,
        halt: ReadHalt,
    ) -> Turn
        requires work { (old : PrimaryView D) × (before : NodeView) × (s : Session) × (line : Line) × ComesTo D.Disk shared.now old before number s line × IsAtWork D.Disk shared.now old self.old before node.old no_trace × StopsReading old before node.old s halt }
        ensures { (old : PrimaryView D) (before : NodeView) (s : Session) (line : Line) → ComesTo D.Disk shared.now old before number s line → IsAtWork D.Disk shared.now old self.old before node.old no_trace → StopsReading old before node.old s halt → TriesTurn D.Disk shared.now old self.new before node.new (Some number) result }
    {
        match halt {
            ReadHalt::Word(wait) => self.wait(shared, node, number, Cause::Word(wait)),
            ReadHalt::Prep(id) => {
                let name = self.name_of(id);
                self.wait(shared, node, number, Cause::Prep(name))
            }
        }
    }
}
