//! How a primary plans a write, and comes to write the pages that its plan changes.
ghost use Rattle.std.specs.Prelude.{◌≡◌, ℕ, ◌+◌, ◌<◌, ◌≤◌, length, IsTrue, IfErr, IfSome, OnOk};
ghost use Rattle.std.specs.List.{AllByRecursion};
ghost use Rattle.mp_cells.specs.Rows.{IsRow, is_writer};
ghost use Rattle.mp_core_pages.specs.declared.opening.TheConstants.{PAGES};
ghost use Rattle.mp_buffer_fusion.specs.declared.pool.TheConstants.{BUFFERS};
ghost use Rattle.mp_buffer_fusion.specs.Buffers.{IsBuffered};
ghost use Rattle.mp_desk.specs.Desks.{IsAtDesk, Brings, HasSameWork, MetWait, IsWayTo};
ghost use Rattle.mp_desk.specs.Planned.{PlansWrite, PlansBack, RefusesHeld, RefusesPlan, HasTaken};

use crate::desk::Desk;
use crate::pager::Held;
use mp_cells::Row;
use mp_model::NotYet;
use mp_shared::{Node, Shared};
use mp_steps::{Ledger, Steps};
use mp_tree::{PlanKind, PlanRefusal, Write, plan_restore, plan_write};

impl Desk {
    /// Plans a write of a key whose leaf was found. It comes to read the current undo page, and page 0 where pages are
    /// needed. `Full` comes only where page 0 shows fewer pages clear than are needed, `NotYet` where one of these two pages
    /// couldn't be had.
    pub fn plan_put<L: Ledger>(
        &mut self,
        shared: &Shared,
        node: &mut Node,
        p: u8,
        write: &Write,
        steps: &mut Steps<L>,
    ) -> Result<PlanKind, PlanRefusal>
        requires desk { IsAtDesk shared.now self.old p node.old }
        requires writer { IsTrue (is_writer write.now.writer) }
        requires way { (number : ℕ) × IsWayTo self.old.pool write.now.key number }
        requires room { length self.old.pool + 2 ≤ BUFFERS }
        ensures desk { IsAtDesk shared.now self.new p node.new }
        ensures brings { Brings 2 p self.old self.new node.old node.new }
        ensures mtr { self.new.mtr ≡ self.old.mtr }
        ensures plan { OnOk result (PlansWrite self.new.pool self.new.undo write.now self.new.plan) }
        ensures refused { IfErr result (RefusesPlan p self.new.pool node.old node.new) }
    {
        if let Err(wait) = self.fetch_undo(shared, node, p, steps) {
            return Err(PlanRefusal::NotYet(wait));
        }
        match self.plan_held(write) {
            Ok(kind) => return Ok(kind),
            Err(PlanRefusal::Full { needed, clear }) => return Err(PlanRefusal::Full {
                needed,
                clear,
            }),
            Err(PlanRefusal::NotYet(_)) => {}
        }
        if let Err(wait) = self.fetch(shared, node, p, 0, steps) {
            return Err(PlanRefusal::NotYet(wait));
        }
        match self.plan_held(write) {
            Ok(kind) => Ok(kind),
            Err(PlanRefusal::Full { needed, clear }) => Err(PlanRefusal::Full { needed, clear }),
            Err(PlanRefusal::NotYet(_)) => unreachable!(),
        }
    }

    /// Has the current undo page in a buffer, if there is one. On `NotYet` it couldn't be had.
    fn fetch_undo<L: Ledger>(
        &mut self,
        shared: &Shared,
        node: &mut Node,
        p: u8,
        steps: &mut Steps<L>,
    ) -> Result<(), NotYet>
        requires desk { IsAtDesk shared.now self.old p node.old }
        requires room { length self.old.pool < BUFFERS }
        ensures desk { IsAtDesk shared.now self.new p node.new }
        ensures brings { Brings 1 p self.old self.new node.old node.new }
        ensures rest { HasSameWork self.old self.new }
        ensures here { OnOk result (IfSome self.new.undo (IsBuffered self.new.pool)) }
        ensures cause { IfErr result (MetWait p node.old node.new) }
    {
        match self.undo {
            Some(number) => self.fetch(shared, node, p, number, steps),
            None => Ok(()),
        }
    }

    /// Plans a write over the pages in buffers alone. It takes no step. `NotYet` comes only where a page that the plan asks
    /// for has no buffer.
    fn plan_held(&mut self, write: &Write) -> Result<PlanKind, PlanRefusal>
        requires writer { IsTrue (is_writer write.now.writer) }
        requires undo { IfSome self.old.undo (λ u. (2 ≤ u) × (u < 4096)) }
        ensures plan { OnOk result (PlansWrite self.new.pool self.new.undo write.now self.new.plan) }
        ensures refused { IfErr result (RefusesHeld self.old.pool write.now.key self.old.undo) }
        ensures rest { self.new ≡ record self.old { plan = self.new.plan } }
    {
        let mut held = Held::over(&self.pool);
        plan_write(&mut held, write, self.undo, &mut self.plan)
    }

    /// Plans to put a row back, whose key's leaf was found. It takes no step.
    pub fn plan_back(&mut self, row: &Row)
        requires row { IsRow row.now }
        requires way { (number : ℕ) × IsWayTo self.old.pool row.now.key number }
        ensures plan { PlansBack self.new.pool row.now self.new.plan }
        ensures rest { self.new ≡ record self.old { plan = self.new.plan } }
    {
        let mut held = Held::over(&self.pool);
        let _planned = plan_restore(&mut held, row, &mut self.plan);
    }

    /// Comes to write each page that the plan changes. On `NotYet` one of them couldn't be had; those that it took stay.
    pub fn take_all<L: Ledger>(
        &mut self,
        shared: &Shared,
        node: &mut Node,
        p: u8,
        steps: &mut Steps<L>,
    ) -> Result<(), NotYet>
        requires desk { IsAtDesk shared.now self.old p node.old }
        requires range { AllByRecursion (λ step. step.0 < PAGES) self.old.plan }
        requires room { length self.old.pool + 20 ≤ BUFFERS }
        ensures desk { IsAtDesk shared.now self.new p node.new }
        ensures brings { Brings 20 p self.old self.new node.old node.new }
        ensures plan { self.new.plan ≡ self.old.plan }
        ensures mtr { self.new.mtr ≡ self.old.mtr }
        ensures taken { OnOk result (HasTaken p self.new.pool self.new.plan node.new) }
        ensures cause { IfErr result (MetWait p node.old node.new) }
    {
        for i in 0..self.plan.len() {
            let number = self.plan.page(i);
            if let Err(wait) = self.take(shared, node, p, number, steps) {
                return Err(wait);
            }
        }
        Ok(())
    }
}
