//! What a primary works at: the pages that it has in buffers, its LLSN, its current undo page, and the plan and the mtr
//! that it makes.
ghost use Rattle.std.specs.Prelude.{◌≡◌, ◌≢◌, ℕ, ◌+◌, ◌<◌, ◌≤◌, [], length, Some, None, IfOk, IfErr, OnOk};
ghost use Rattle.mp_cells.specs.Rows.{IsRow};
ghost use Rattle.mp_core.specs.declared.part.CorePart.{CorePart};
ghost use Rattle.mp_core.specs.CoreExtends.{CoreExtends};
ghost use Rattle.mp_core_pages.specs.declared.opening.TheConstants.{PAGES};
ghost use Rattle.mp_core_pages.specs.declared.page_lock.Held.TheVariants.{No, Write};
ghost use Rattle.mp_machine.specs.View.{part_in};
ghost use Rattle.mp_shared.specs.Nodes.{Run, NodeView};
ghost use Rattle.mp_shared.specs.PageSteps.{held_in};
ghost use Rattle.mp_buffer_fusion.specs.declared.pool.TheConstants.{BUFFERS};
ghost use Rattle.mp_buffer_fusion.specs.Buffers.{IsBuffered};
ghost use Rattle.mp_desk.specs.Desks.{IsAtDesk, AreGivenSince, IsReadAfresh, Brings, MetWait, HasSameWork, HasLeaf, IsWayTo, LiesAt, IsRecordAt};

use mp_buffer_fusion::Pool;
use mp_cells::{Link, Mtr, Records, Row};
use mp_lock_fusion::{lock_exclusive, lock_shared};
use mp_model::{Memory, NotYet};
use mp_shared::{Node, Shared};
use mp_steps::{Ledger, Steps};
use mp_tree::{Look, Plan, look_at};
use std::alloc::Global;

/// The pages in buffers, the LLSN of the last mtr made or page read, the current undo page (2 to 4,095), if there is one,
/// and room for one plan and one mtr.
#[derive(Drop)]
pub struct Desk {
    pub pool: Pool,
    /// Below 2^62; not below that of an own mtr or of a page in a buffer.
    pub llsn: u64,
    pub undo: Option<u16>,
    /// The changes of the next mtr, each with its page.
    pub plan: Plan,
    /// The mtr that is made, or was made last, of the primary.
    pub mtr: Mtr,
}

impl Desk {
    /// An empty desk of a primary (1 to 8), at an LLSN. `Memory` only for want of memory; no later call takes any.
    pub fn new(alloc: Global, number: u8, llsn: u64) -> Result<Desk, Memory>
        ensures { IfOk result (λ desk. (desk.pool ≡ []) × (desk.llsn ≡ llsn) × (desk.undo ≡ None) × (desk.plan ≡ [])
            × (desk.mtr.node ≡ number)) }
    {
        let pool = Pool::new(alloc)?;
        let plan = Plan::new(alloc)?;
        let records = Records::with_room(alloc)?;
        Ok(Desk {
            pool,
            llsn,
            undo: None,
            plan,
            mtr: Mtr {
                node: number,
                llsn: 0,
                records,
            },
        })
    }

    /// Has a page in a buffer, under its shared lock at least. A page that is there under its lock takes no step. On
    /// `NotYet` the lock or the frame couldn't be had; what is held stays.
    pub fn fetch<L: Ledger>(
        &mut self,
        shared: &Shared,
        node: &mut Node,
        p: u8,
        number: u16,
        steps: &mut Steps<L>,
    ) -> Result<(), NotYet>
        requires desk { IsAtDesk shared.now self.old p node.old }
        requires page { number < PAGES }
        requires room { length self.old.pool < BUFFERS }
        ensures desk { IsAtDesk shared.now self.new p node.new }
        ensures brings { Brings 1 p self.old self.new node.old node.new }
        ensures rest { HasSameWork self.old self.new }
        ensures here { OnOk result (IsBuffered self.new.pool number × (held_in node.new p number ≢ No)) }
        ensures still { IsBuffered self.old.pool number → held_in node.old p number ≢ No → node.new ≡ node.old }
        ensures cause { IfErr result (MetWait p node.old node.new) }
    {
        if let Err(wait) = lock_shared(shared, node, p, number, steps) {
            return Err(wait);
        }
        self.bring(shared, node, p, number, steps)
    }

    /// Has a page in a buffer, under its exclusive lock. A page that is there under that lock takes no step. On `NotYet` the
    /// lock or the frame couldn't be had; what is held stays.
    pub fn take<L: Ledger>(
        &mut self,
        shared: &Shared,
        node: &mut Node,
        p: u8,
        number: u16,
        steps: &mut Steps<L>,
    ) -> Result<(), NotYet>
        requires desk { IsAtDesk shared.now self.old p node.old }
        requires page { number < PAGES }
        requires room { length self.old.pool < BUFFERS }
        ensures desk { IsAtDesk shared.now self.new p node.new }
        ensures brings { Brings 1 p self.old self.new node.old node.new }
        ensures rest { HasSameWork self.old self.new }
        ensures here { OnOk result (IsBuffered self.new.pool number × (held_in node.new p number ≡ Write)) }
        ensures still { IsBuffered self.old.pool number → held_in node.old p number ≡ Write → node.new ≡ node.old }
        ensures cause { IfErr result (MetWait p node.old node.new) }
    {
        if let Err(wait) = lock_exclusive(shared, node, p, number, steps) {
            return Err(wait);
        }
        self.bring(shared, node, p, number, steps)
    }

    /// Has a page, whose lock is held, in a buffer. A page that is there takes no step. On `NotYet` its frame couldn't be had.
    fn bring<L: Ledger>(
        &mut self,
        shared: &Shared,
        node: &mut Node,
        p: u8,
        number: u16,
        steps: &mut Steps<L>,
    ) -> Result<(), NotYet>
        requires desk { IsAtDesk shared.now self.old p node.old }
        requires page { number < PAGES }
        requires lock { held_in node.old p number ≢ No }
        requires room { length self.old.pool < BUFFERS }
        ensures desk { IsAtDesk shared.now self.new p node.new }
        ensures brings { Brings 1 p self.old self.new node.old node.new }
        ensures rest { HasSameWork self.old self.new }
        ensures here { OnOk result (IsBuffered self.new.pool number) }
        ensures still { IsBuffered self.old.pool number → node.new ≡ node.old }
        ensures locks { (k : ℕ) → held_in node.new p k ≡ held_in node.old p k }
        ensures cause { IfErr result (MetWait p node.old node.new) }
    {
        let i = match self.pool.fetch(shared, node, p, number, steps) {
            Ok(i) => i,
            Err(wait) => return Err(wait),
        };
        self.llsn = self.llsn.max(self.pool.at(i).llsn());
        Ok(())
    }

    /// Drops the clean buffers where fewer than 32 are free. No lock is given back.
    pub fn make_room(&mut self)
        ensures agrees { (run : Run) (p : ℕ) (n : NodeView) (start q : CorePart) → AreGivenSince start q self.old.pool
            → IsAtDesk run self.old p n → IsAtDesk run self.new p n }
        ensures rest { self.new ≡ record self.old { pool = self.new.pool } }
        ensures room { (start q : CorePart) → AreGivenSince start q self.old.pool
            → AreGivenSince start q self.new.pool × (length self.new.pool + 32 ≤ BUFFERS) }
    {
        if self.pool.free() < 32 {
            self.pool.unpin_all();
        }
    }

    /// The number of the leaf that may hold a key. It and the pages above it are in buffers, under their locks. On `NotYet` one
    /// of them couldn't be had; what is held stays.
    pub fn leaf<L: Ledger>(
        &mut self,
        shared: &Shared,
        node: &mut Node,
        p: u8,
        key: u32,
        steps: &mut Steps<L>,
    ) -> Result<u16, NotYet>
        requires desk { IsAtDesk shared.now self.old p node.old }
        requires room { length self.old.pool + 3 ≤ BUFFERS }
        ensures desk { IsAtDesk shared.now self.new p node.new }
        ensures brings { Brings 3 p self.old self.new node.old node.new }
        ensures rest { HasSameWork self.old self.new }
        ensures range { IfOk result (λ number. number < PAGES) }
        ensures leaf { IfOk result (λ number. HasLeaf self.new p key number node.new) }
        ensures way { IfOk result (IsWayTo self.new.pool key) }
        ensures cause { IfErr result (MetWait p node.old node.new) }
    {
        let mut number = 1;
        for _level in 0..3u8 {
            if let Err(wait) = self.fetch(shared, node, p, number, steps) {
                return Err(wait);
            }
            match look_at(self.pool.look(number), key) {
                Look::Leaf => return Ok(number),
                Look::Below(child) => number = child,
                Look::Lost => unreachable!(),
            }
        }
        unreachable!()
    }

    /// The undo record at a link, which lies there. On `NotYet` its page couldn't be had; what is held stays.
    pub fn record<L: Ledger>(
        &mut self,
        shared: &Shared,
        node: &mut Node,
        p: u8,
        link: Link,
        steps: &mut Steps<L>,
    ) -> Result<Row, NotYet>
        requires desk { IsAtDesk shared.now self.old p node.old }
        requires afresh { IsReadAfresh self.old p node.old }
        requires lies { LiesAt p node.old link }
        requires range { link.page < PAGES }
        requires room { length self.old.pool < BUFFERS }
        ensures desk { IsAtDesk shared.now self.new p node.new }
        ensures brings { Brings 1 p self.old self.new node.old node.new }
        ensures rest { HasSameWork self.old self.new }
        ensures record { IfOk result (λ row. (q : CorePart) → part_in node.new.parts p ≡ Some q → IsRecordAt q link row) }
        ensures kept { IfOk result IsRow }
        ensures cause { IfErr result (MetWait p node.old node.new) }
    {
        match self.fetch(shared, node, p, link.page, steps) {
            Ok(()) => Ok(self.pool.look(link.page).row(u16::from(link.index))),
            Err(wait) => Err(wait),
        }
    }
}
