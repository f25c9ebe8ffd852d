//! How a transaction reads: the newest version of a key that it sees.
ghost use Rattle.std.specs.Prelude.{◌≡◌, ◌≢◌, ℕ, ◌+◌, ◌<◌, ◌≤◌, ◌^◌, [], ◌∷◌, ◌++◌, List, length, Some, IfOk, IfErr, OnOk};
ghost use Rattle.std.specs.List.{AllByRecursion};
ghost use Rattle.mp_machine.specs.View.{part_in};
ghost use Rattle.mp_cells.specs.declared.rows.Link.{Link};
ghost use Rattle.mp_cells.specs.declared.rows.Row.{Row};
ghost use Rattle.mp_cells.specs.Rows.{IsRow};
ghost use Rattle.mp_cells.specs.PageView.{PageView, IsPage};
ghost use Rattle.mp_cells.specs.Trees.{row_at};
ghost use Rattle.mp_cells.specs.Writes.{version_of};
ghost use Rattle.mp_plans.specs.Fitting.{IsLeafOf};
ghost use Rattle.mp_core_trx.specs.declared.part.Begun.{Begun};
ghost use Rattle.mp_core_pages.specs.declared.opening.TheConstants.{PAGES};
ghost use Rattle.mp_core.specs.declared.part.CorePart.{CorePart};
ghost use Rattle.mp_core.specs.CoreExtends.{CoreExtends};
ghost use Rattle.mp_shared.specs.Nodes.{NodeView};
ghost use Rattle.mp_supports.specs.Seeing.{LeadsToSeen, key_value_of};
ghost use Rattle.mp_tree.specs.Searches.{rows_above};
ghost use Rattle.mp_desk.specs.Desks.{IsAtDesk, IsReadAfresh, AreGivenSince, Brings, MetWait, LiesAt, IsRecordAt};
ghost use Rattle.mp_desk.specs.Statements.{ReadsIn, HasBegunWriter, KnowsView, IsSight, IsNewestIn, ShowsSince, RowsSince, LooksOn, FindsValue, FindsRows, FindsStretch};
ghost use Rattle.mp_desk.specs.ReadHalts.{HaltsRead, HaltsScan};

use crate::desk::Desk;
use crate::halts::ReadHalt;
use mp_cells::{Kind, Link, Row};
use mp_core_trx::Begun;
use mp_model::{KeyValue, NotYet, Rows, TrxId, Value};
use mp_page::Page;
use mp_shared::{Node, Shared};
use mp_steps::{Ledger, Steps};
use mp_tree::{LeafRows, row_in, rows_in};
use mp_trx_fusion::{SlotStatus, status};

/// How a transaction sees a version.
#[derive(Clone, Copy, Debug)]
pub(crate) enum Sight {
    /// It is the transaction's own, or has no writer, or its writer committed at or below the view.
    Seen,
    /// Its writer is open, or committed above the view, or is over without a commit.
    Hidden,
    /// The commit of its writer has begun.
    Prep(TrxId),
}

/// The newest version of a key in its leaf: its row, or a gone row without a writer.
pub(crate) fn newest_in(page: &Page, key: u32) -> Row
    requires { IsLeafOf key page.now }
    ensures row { result ≡ version_of key (row_at key page.now.rows) }
    ensures kept { IsRow result }
{
    match page.kind() {
        Kind::Leaf => match row_in(page, key) {
            Some(row) => row,
            None => Row {
                key,
                value: None,
                writer: None,
                link: None,
            },
        },
        _ => unreachable!(),
    }
}

/// A leaf's rows from a key on, and its high fence.
fn leaf_rows(page: &Page, low: u32) -> LeafRows
    requires { IsLeafOf low page.now }
    ensures rows { result.rows ≡ rows_above low page.now.rows }
    ensures next { result.next ≡ page.now.high }
    ensures page { IsPage page.now }
    ensures kept { AllByRecursion IsRow result.rows }
{
    match page.kind() {
        Kind::Leaf => LeafRows {
            rows: rows_in(page, low),
            next: page.high(),
        },
        _ => unreachable!(),
    }
}

impl Desk {
    /// How a transaction sees a version: one without a writer, or its own, takes no step; else the word of the writer's slot
    /// is loaded.
    fn sight(&self, shared: &Shared, node: &mut Node, p: u8, trx: Begun, row: &Row) -> Sight
        requires desk { IsAtDesk shared.now self.now p node.old }
        requires reader { ReadsIn p trx node.old }
        requires begun { HasBegunWriter node.old row.now }
        ensures desk { IsAtDesk shared.now self.now p node.new }
        ensures brings { Brings 0 p self.now self.now node.old node.new }
        ensures sight { (r : CorePart) → part_in node.new.parts p ≡ Some r → IsSight r trx.id trx.view row.now result }
    {
        let Some(id) = row.writer else {
            return Sight::Seen;
        };
        if id == trx.id {
            return Sight::Seen;
        }
        match status(shared, node, p, id) {
            SlotStatus::Active => Sight::Hidden,
            SlotStatus::Free => Sight::Hidden,
            SlotStatus::Prep => Sight::Prep(id),
            SlotStatus::Committed(cts) => {
                if cts <= trx.view {
                    Sight::Seen
                } else {
                    Sight::Hidden
                }
            }
            SlotStatus::Other => unreachable!(),
        }
    }

    /// The version at a link, where an undo record lies. Buffers are dropped where few are free.
    fn older<L: Ledger>(
        &mut self,
        shared: &Shared,
        node: &mut Node,
        p: u8,
        link: Link,
        steps: &mut Steps<L>,
    ) -> Result<Row, NotYet>
        requires desk { IsAtDesk shared.now self.old p node.old }
        requires afresh { IsReadAfresh self.old p node.old }
        requires lies { LiesAt p node.old link }
        requires range { link.page < PAGES }
        ensures desk { IsAtDesk shared.now self.new p node.new }
        ensures looks { LooksOn p self.old self.new node.old node.new }
        ensures record { IfOk result (λ row. (q : CorePart) → part_in node.new.parts p ≡ Some q → IsRecordAt q link row) }
        ensures kept { IfOk result IsRow }
        ensures cause { IfErr result (MetWait p node.old node.new) }
    {
        self.make_room();
        self.record(shared, node, p, link, steps)
    }

    /// The version of a key that a transaction sees, from the newest on down the undo links.
    fn shown<L: Ledger>(
        &mut self,
        shared: &Shared,
        node: &mut Node,
        p: u8,
        trx: Begun,
        newest: Row,
        steps: &mut Steps<L>,
    ) -> Result<Row, ReadHalt>
        requires desk { IsAtDesk shared.now self.old p node.old }
        requires reader { ReadsIn p trx node.old }
        requires afresh { IsReadAfresh self.old p node.old }
        requires newest { IsNewestIn p node.old newest.key newest }
        requires kept { IsRow newest }
        ensures desk { IsAtDesk shared.now self.new p node.new }
        ensures looks { LooksOn p self.old self.new node.old node.new }
        ensures seen { IfOk result (λ found. (r : CorePart) → part_in node.new.parts p ≡ Some r
            → (older : List Row) × LeadsToSeen r trx.id trx.view newest older found) }
        ensures cause { IfErr result (HaltsRead p trx newest.key node.old node.new) }
    {
        let mut row = newest;
        for _passed in 0..240_001u32 {
            match self.sight(shared, node, p, trx, &row) {
                Sight::Seen => return Ok(row),
                Sight::Prep(id) => return Err(ReadHalt::Prep(id)),
                Sight::Hidden => {}
            }
            let Some(link) = row.link else { unreachable!() };
            match self.older(shared, node, p, link, steps) {
                Ok(next) => row = next,
                Err(wait) => return Err(ReadHalt::Word(wait)),
            }
        }
        unreachable!()
    }

    /// The newest version of a key, by its leaf, whose lock stays.
    fn newest_version<L: Ledger>(
        &mut self,
        shared: &Shared,
        node: &mut Node,
        p: u8,
        key: u32,
        steps: &mut Steps<L>,
    ) -> Result<Row, NotYet>
        requires desk { IsAtDesk shared.now self.old p node.old }
        requires afresh { IsReadAfresh self.old p node.old }
        ensures desk { IsAtDesk shared.now self.new p node.new }
        ensures looks { LooksOn p self.old self.new node.old node.new }
        ensures key { IfOk result (λ row. row.key ≡ key) }
        ensures kept { IfOk result IsRow }
        ensures newest { IfOk result (λ row. (start q r : CorePart) → part_in node.old.parts p ≡ Some q → CoreExtends start q
            → AreGivenSince start q self.old.pool → part_in node.new.parts p ≡ Some r → ShowsSince start r key row) }
        ensures cause { IfErr result (MetWait p node.old node.new) }
    {
        self.make_room();
        match self.leaf(shared, node, p, key, steps) {
            Ok(number) => Ok(newest_in(self.pool.look(number), key)),
            Err(wait) => Err(wait),
        }
    }

    /// The rows of a leaf from a key on, and its high fence. The leaf's lock stays.
    fn rows_from<L: Ledger>(
        &mut self,
        shared: &Shared,
        node: &mut Node,
        p: u8,
        low: u32,
        steps: &mut Steps<L>,
    ) -> Result<LeafRows, NotYet>
        requires desk { IsAtDesk shared.now self.old p node.old }
        requires afresh { IsReadAfresh self.old p node.old }
        ensures desk { IsAtDesk shared.now self.new p node.new }
        ensures looks { LooksOn p self.old self.new node.old node.new }
        ensures rows { IfOk result (λ found. (start q r : CorePart) → part_in node.old.parts p ≡ Some q → CoreExtends start q
            → AreGivenSince start q self.old.pool → part_in node.new.parts p ≡ Some r → RowsSince start r low found) }
        ensures kept { IfOk result (λ found. AllByRecursion IsRow found.rows) }
        ensures cause { IfErr result (MetWait p node.old node.new) }
    {
        self.make_room();
        match self.leaf(shared, node, p, low, steps) {
            Ok(number) => Ok(leaf_rows(self.pool.look(number), low)),
            Err(wait) => Err(wait),
        }
    }

    /// The value that a transaction sees of a key. It comes to read the pages down to the key's leaf, whose lock stays, and
    /// from there along the undo links. A page in a buffer costs no step. Refused `Word` where a page couldn't be had, and
    /// `Prep` where the commit of a version's writer has begun; what is held stays.
    pub fn get<L: Ledger>(
        &mut self,
        shared: &Shared,
        node: &mut Node,
        p: u8,
        trx: Begun,
        key: u32,
        steps: &mut Steps<L>,
    ) -> Result<Option<Value>, ReadHalt>
        requires desk { IsAtDesk shared.now self.old p node.old }
        requires reader { ReadsIn p trx node.old }
        requires afresh { IsReadAfresh self.old p node.old }
        ensures desk { IsAtDesk shared.now self.new p node.new }
        ensures looks { LooksOn p self.old self.new node.old node.new }
        ensures got { IfOk result (λ value. (start q r : CorePart) → part_in node.old.parts p ≡ Some q → CoreExtends start q
            → KnowsView start trx → AreGivenSince start q self.old.pool → part_in node.new.parts p ≡ Some r
            → FindsValue start r trx key value) }
        ensures cause { IfErr result (HaltsRead p trx key node.old node.new) }
    {
        match self.newest_version(shared, node, p, key, steps) {
            Ok(newest) => match self.shown(shared, node, p, trx, newest, steps) {
                Ok(found) => Ok(found.value),
                Err(halt) => Err(halt),
            },
            Err(wait) => Err(ReadHalt::Word(wait)),
        }
    }

    /// Adds the rows of one leaf from a key on as a transaction sees them, until there are so many. Answers up to which key
    /// it came (at most 2^32): the leaf's high fence, or the key behind the last row where there are so many.
    fn scan_leaf<L: Ledger>(
        &mut self,
        shared: &Shared,
        node: &mut Node,
        p: u8,
        trx: Begun,
        low: u32,
        most: u32,
        rows: &mut Rows,
        steps: &mut Steps<L>,
    ) -> Result<u64, ReadHalt>
        requires desk { IsAtDesk shared.now self.old p node.old }
        requires reader { ReadsIn p trx node.old }
        requires afresh { IsReadAfresh self.old p node.old }
        requires more { length rows.old.items < most }
        requires spare { most ≤ length rows.old.items + rows.old.spare }
        ensures desk { IsAtDesk shared.now self.new p node.new }
        ensures looks { LooksOn p self.old self.new node.old node.new }
        ensures above { IfOk result (λ next. (low < next) × (next ≤ 2 ^ 32)) }
        ensures few { length rows.new.items ≤ most }
        ensures spare { most ≤ length rows.new.items + rows.new.spare }
        ensures stretch { IfOk result (λ next. (start q r : CorePart) → part_in node.old.parts p ≡ Some q → CoreExtends start q
            → KnowsView start trx → AreGivenSince start q self.old.pool → part_in node.new.parts p ≡ Some r
            → FindsStretch start r trx low next rows.old.items rows.new.items) }
        ensures cause { IfErr result (HaltsScan p trx node.old node.new) }
    {
        let found = match self.rows_from(shared, node, p, low, steps) {
            Ok(found) => found,
            Err(wait) => return Err(ReadHalt::Word(wait)),
        };
        let cells = found.rows;
        let next = found.next;
        for i in 0..cells.len() {
            let newest = cells.get(i);
            let key = newest.key;
            match self.shown(shared, node, p, trx, newest, steps) {
                Ok(row) => add_seen(rows, key, row.value),
                Err(halt) => return Err(halt),
            }
            if rows.len() == most as usize {
                return Ok(u64::from(key) + 1);
            }
        }
        Ok(next)
    }

    /// Adds the first rows from a key on, at most so many (0 to 100), as a transaction sees them, leaf by leaf. It takes no
    /// memory. Refused as `get` is, for some key that it comes to.
    pub fn scan<L: Ledger>(
        &mut self,
        shared: &Shared,
        node: &mut Node,
        p: u8,
        trx: Begun,
        low: u32,
        most: u32,
        rows: &mut Rows,
        steps: &mut Steps<L>,
    ) -> Result<(), ReadHalt>
        requires desk { IsAtDesk shared.now self.old p node.old }
        requires reader { ReadsIn p trx node.old }
        requires afresh { IsReadAfresh self.old p node.old }
        requires empty { rows.old.items ≡ [] }
        requires spare { most ≤ rows.old.spare }
        ensures desk { IsAtDesk shared.now self.new p node.new }
        ensures looks { LooksOn p self.old self.new node.old node.new }
        ensures scanned { OnOk result ((start q r : CorePart) → part_in node.old.parts p ≡ Some q → CoreExtends start q
            → KnowsView start trx → AreGivenSince start q self.old.pool → part_in node.new.parts p ≡ Some r
            → FindsRows start r trx low most rows.new.items) }
        ensures cause { IfErr result (HaltsScan p trx node.old node.new) }
    {
        let mut from = low;
        for _leaf in 0..1u64 << 32 {
            if rows.len() == most as usize {
                return Ok(());
            }
            match self.scan_leaf(shared, node, p, trx, from, most, rows, steps) {
                Ok(next) => {
                    if next == 1 << 32 {
                        return Ok(());
                    }
                    from = next as u32;
                }
                Err(halt) => return Err(halt),
            }
        }
        unreachable!()
    }
}

/// Adds a key's row where it has a value.
fn add_seen(rows: &mut Rows, key: u32, value: Option<Value>)
    requires { 0 < rows.old.spare }
    ensures items { rows.new.items ≡ rows.old.items ++ key_value_of key value }
    ensures spare { length rows.old.items + rows.old.spare ≤ length rows.new.items + rows.new.spare }
{
    if let Some(value) = value {
        rows.put(KeyValue { key, value });
    }
}
