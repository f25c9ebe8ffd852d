//! How the turn of a write ends, by what the desk answered.
ghost use Rattle.std.specs.Prelude.{◌≡◌, ℕ, Some, Err, is_some};
ghost use Rattle.mp_model.specs.declared.replies.WriteVerb.{WriteVerb};
ghost use Rattle.mp_core_trx.specs.declared.part.Begun.{Begun};
ghost use Rattle.mp_book.specs.declared.session.Session.{Session};
ghost use Rattle.mp_cells.specs.Trees.{row_at};
ghost use Rattle.mp_shared.specs.Nodes.{Run, NodeView};
ghost use Rattle.mp_desk.specs.declared.halts.WriteHalt.TheVariants as halts;
ghost use Rattle.mp_desk.specs.Writes.{HaltsWrite};
ghost use Rattle.mp_primary.specs.Primaries.{PrimaryView};
ghost use Rattle.mp_primary.specs.Turns.{IsSessionOf};
ghost use Rattle.mp_primary.specs.Tries.{TriesTurn};
ghost use Rattle.mp_primary.specs.WriteTurns.{IsHeldUp, HasPutRow, AfterWrite, IsRightRefusal, former_to_keep};

use crate::holders::has_row_of;
use crate::primary::Primary;
use mp_book::Refusal;
use mp_cells::Row;
use mp_core_trx::Begun;
use mp_desk::WriteHalt;
use mp_model::{Cause, Reply, TrxId, Turn, WriteVerb};
use mp_outside::Disk;
use mp_shared::{Node, Shared};
use mp_steps::{Ledger, Steps};

impl<D: Disk> Primary<D> {
    // Ends the turn of a write: it is answered, waits, is refused, or is stopped.
    pub(crate) fn end_write<L: Ledger>(
        &mut self,
        shared: &Shared,
        node: &mut Node,
        number: u8,
        trx: Begun,
        verb: WriteVerb,
        key: u32,
        done: Result<Row, WriteHalt>,
        steps: &mut Steps<L>,
    ) -> Turn
        requires after { (old : PrimaryView D) × (before : NodeView)
            × AfterWrite D.Disk shared.now old self.old before node.old number trx verb key done }
        ensures { (old : PrimaryView D) (before : NodeView)
            → AfterWrite D.Disk shared.now old self.old before node.old number trx verb key done
            → TriesTurn D.Disk shared.now old self.new before node.new (Some number) result }
    {
        match done {
            Ok(former) => self.answer_write(shared, node, number, verb, key, former),
            Err(halt) => self.halt_write(shared, node, number, trx, key, halt, steps),
        }
    }

    // Ends the turn of a write that was not made.
    fn halt_write<L: Ledger>(
        &mut self,
        shared: &Shared,
        node: &mut Node,
        number: u8,
        trx: Begun,
        key: u32,
        halt: WriteHalt,
        steps: &mut Steps<L>,
    ) -> Turn
        requires after { (old : PrimaryView D) × (before : NodeView) × (verb : WriteVerb)
            × AfterWrite D.Disk shared.now old self.old before node.old number trx verb key (Err halt) }
        ensures { (old : PrimaryView D) (before : NodeView) (verb : WriteVerb)
            → AfterWrite D.Disk shared.now old self.old before node.old number trx verb key (Err halt)
            → TriesTurn D.Disk shared.now old self.new before node.new (Some number) result }
    {
        match halt {
            WriteHalt::Word(wait) => self.wait(shared, node, number, Cause::Word(wait)),
            WriteHalt::Writer(id) => self.wait_for_writer(shared, node, number, key, id),
            WriteHalt::Conflict(id, cts) => {
                self.refuse_committed(shared, node, number, trx, key, id, cts, steps)
            }
            WriteHalt::Held(id) => self.refuse_held(shared, node, number, trx, key, id, steps),
            WriteHalt::Full => self.refuse_now(shared, node, number, trx, Refusal::Full, steps),
            WriteHalt::Failed => {
                self.down = self.number;
                self.stop_now(number, None)
            }
        }
    }

    // Answers a write that was made; the version that it replaced is kept where it is the first of its key.
    fn answer_write(
        &mut self,
        shared: &Shared,
        node: &mut Node,
        number: u8,
        verb: WriteVerb,
        key: u32,
        former: Row,
    ) -> Turn
        requires put { (old : PrimaryView D) × (before : NodeView) × (trx : Begun)
            × HasPutRow D.Disk shared.now old self.old before node.old number trx verb key former }
        ensures { (old : PrimaryView D) (before : NodeView) (trx : Begun)
            → HasPutRow D.Disk shared.now old self.old before node.old number trx verb key former
            → TriesTurn D.Disk shared.now old self.new before node.new (Some number) result }
    {
        let first = self.first_of(number, key, former);
        if let Err(_failed) = self.clear_desk(shared, node) {
            return self.stop_now(number, first);
        }
        self.book
            .answer(self.alloc, number, Reply::Wrote(verb), first);
        Turn::Answered
    }

    // Ends a turn whose write waits for a younger transaction, that holds its key.
    fn wait_for_writer(
        &mut self,
        shared: &Shared,
        node: &mut Node,
        number: u8,
        key: u32,
        id: TrxId,
    ) -> Turn
        requires held { (old : PrimaryView D) × (before : NodeView) × (trx : Begun) × (verb : WriteVerb)
            × IsHeldUp D.Disk shared.now old self.old before node.old number trx verb key
            × HaltsWrite old.number trx key before node.old (halts.Writer id) }
        ensures { (old : PrimaryView D) (before : NodeView) (trx : Begun) (verb : WriteVerb)
            → IsHeldUp D.Disk shared.now old self.old before node.old number trx verb key
            → HaltsWrite old.number trx key before node.old (halts.Writer id)
            → TriesTurn D.Disk shared.now old self.new before node.new (Some number) result }
    {
        match self.holder(number, key, id) {
            Ok(name) => self.wait(shared, node, number, Cause::Writer(name)),
            Err(wait) => self.wait(shared, node, number, Cause::Word(wait)),
        }
    }

    // Refuses a write whose key an older transaction holds, and begins to put back.
    fn refuse_held<L: Ledger>(
        &mut self,
        shared: &Shared,
        node: &mut Node,
        number: u8,
        trx: Begun,
        key: u32,
        id: TrxId,
        steps: &mut Steps<L>,
    ) -> Turn
        requires held { (old : PrimaryView D) × (before : NodeView) × (verb : WriteVerb)
            × IsHeldUp D.Disk shared.now old self.old before node.old number trx verb key
            × HaltsWrite old.number trx key before node.old (halts.Held id) }
        ensures { (old : PrimaryView D) (before : NodeView) (verb : WriteVerb)
            → IsHeldUp D.Disk shared.now old self.old before node.old number trx verb key
            → HaltsWrite old.number trx key before node.old (halts.Held id)
            → TriesTurn D.Disk shared.now old self.new before node.new (Some number) result }
    {
        match self.holder(number, key, id) {
            Ok(name) => self.refuse_now(shared, node, number, trx, Refusal::Held(name), steps),
            Err(wait) => self.wait(shared, node, number, Cause::Word(wait)),
        }
    }

    // Refuses a write whose key was committed above the view, and begins to put back.
    fn refuse_committed<L: Ledger>(
        &mut self,
        shared: &Shared,
        node: &mut Node,
        number: u8,
        trx: Begun,
        key: u32,
        id: TrxId,
        cts: u64,
        steps: &mut Steps<L>,
    ) -> Turn
        requires held { (old : PrimaryView D) × (before : NodeView) × (verb : WriteVerb)
            × IsHeldUp D.Disk shared.now old self.old before node.old number trx verb key
            × HaltsWrite old.number trx key before node.old (halts.Conflict id cts) }
        ensures { (old : PrimaryView D) (before : NodeView) (verb : WriteVerb)
            → IsHeldUp D.Disk shared.now old self.old before node.old number trx verb key
            → HaltsWrite old.number trx key before node.old (halts.Conflict id cts)
            → TriesTurn D.Disk shared.now old self.new before node.new (Some number) result }
    {
        match self.committer(number, id) {
            Ok(()) => self.refuse_now(shared, node, number, trx, Refusal::Conflict(cts), steps),
            Err(wait) => self.wait(shared, node, number, Cause::Word(wait)),
        }
    }

    // Lets all pages go, refuses a write, and begins to put back what its transaction wrote.
    fn refuse_now<L: Ledger>(
        &mut self,
        shared: &Shared,
        node: &mut Node,
        number: u8,
        trx: Begun,
        refusal: Refusal,
        steps: &mut Steps<L>,
    ) -> Turn
        requires held { (old : PrimaryView D) × (before : NodeView) × (verb : WriteVerb) × (key : ℕ)
            × ((held : IsHeldUp D.Disk shared.now old self.old before node.old number trx verb key)
            × IsRightRefusal old node.old held.tries.line refusal) }
        ensures { (old : PrimaryView D) (before : NodeView) (verb : WriteVerb) (key : ℕ)
            (held : IsHeldUp D.Disk shared.now old self.old before node.old number trx verb key)
            → IsRightRefusal old node.old held.tries.line refusal
            → TriesTurn D.Disk shared.now old self.new before node.new (Some number) result }
    {
        if let Err(_failed) = self.clear_desk(shared, node) {
            return self.stop_now(number, None);
        }
        self.book.refuse(number, trx, refusal);
        self.take_back(shared, node, number, steps)
    }

    // The version that a write replaced, where the session has kept none of its key.
    fn first_of(&self, number: u8, key: u32, former: Row) -> Option<Row>
        requires { (s : Session) × IsSessionOf self.now number s }
        ensures { (s : Session) → IsSessionOf self.now number s → result ≡ former_to_keep s.formers.items key former }
    {
        if self.has_former(number, key) {
            None
        } else {
            Some(former)
        }
    }

    fn has_former(&self, number: u8, key: u32) -> bool
        requires { (s : Session) × IsSessionOf self.now number s }
        ensures { (s : Session) → IsSessionOf self.now number s → result ≡ is_some (row_at key s.formers.items) }
    {
        let place = number as usize;
        has_row_of(self.book.sessions[place].formers.as_slice(), key)
    }
}
