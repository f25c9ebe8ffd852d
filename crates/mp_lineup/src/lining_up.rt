//! How a run begins.
ghost use Rattle.std.specs.Prelude.{◌≡◌, ℕ, ◌≤◌, [], length, map, vec_capacity, IfOk, OnErr};
ghost use Rattle.mp_core.specs.Invariant.{NumbersFit};
ghost use Rattle.mp_script.specs.BeginNames.{begin_names};
ghost use Rattle.mp_script.specs.Spelling.{IsSpelled};
ghost use Rattle.mp_shared.specs.Nodes.{Reached, opening_of, first_node};
ghost use Rattle.mp_members.specs.Running.{Runs, logs_of, downs_in};
ghost use Rattle.mp_lineup.specs.LiningUp.{MayLineUp, work_over};

use crate::begins::count_begins;
use crate::making::make_primaries;
use crate::putting_back::put_logs;
use mp_core_trx::Base;
use mp_members::Members;
use mp_model::Memory;
use mp_opening::Opened;
use mp_outside::Disk;
use mp_page::Pages;
use mp_script::Script;
use mp_shared::{Node, Shared};
use std::alloc::Global;

/// Lines up the members of a run of a script over nine disks that were opened for it: a table over the pages, the node with
/// the parts of all primaries, and a primary for each number that the script has, over its log. Nothing is answered, and all
/// primaries are up. The logs of other numbers are idle. `Memory` only for want of memory: the disks of all logs are put back
/// into their list, in their order, which is empty and has room for them.
pub fn line_up<D: Disk + Drop>(
    alloc: Global,
    script: &Script,
    opened: Opened<D>,
    disks: &mut Vec<D>,
) -> Result<Members<D>, Memory>
    requires spelled { IsSpelled script.now }
    requires may { MayLineUp D.Disk script.now opened }
    requires none { disks.old.items ≡ [] }
    requires room { 8 ≤ vec_capacity disks.old }
    ensures runs { IfOk result (λ m. Runs D.Disk (work_over script.now opened.base) m []) }
    ensures opening { IfOk result (λ m. m.shared.opening ≡ opening_of opened.base script.now.primaries (length (begin_names script.now.lines.items)) opened.pages.items) }
    ensures logs { IfOk result (λ m. logs_of m ≡ opened.logs.items) }
    ensures up { IfOk result (λ m. (n : ℕ) → downs_in m n ≡ 0) }
    ensures untouched { IfOk result (λ m. disks.new ≡ disks.old) }
    ensures put_back { OnErr result (disks.new.items ≡ map (λ log. log.disk) opened.logs.items) }
{
    let Opened { base, pages, logs } = opened;
    let Ok(order) = Vec::with_capacity(alloc, script.lines.len()) else {
        put_logs(logs, disks);
        return Err(Memory);
    };
    let Ok((shared, node)) = open_table(alloc, script, base, pages) else {
        put_logs(logs, disks);
        return Err(Memory);
    };
    match make_primaries(alloc, script, base, logs, disks) {
        Ok((primaries, idle)) => Ok(Members {
            shared,
            node,
            primaries,
            idle,
            order,
        }),
        Err(Memory) => Err(Memory),
    }
}

// Opens the table for the script's primaries and transactions.
fn open_table(
    alloc: Global,
    script: &Script,
    base: Base,
    pages: Pages,
) -> Result<(Shared, Node), Memory>
    requires spelled { IsSpelled script.now }
    requires fit { NumbersFit (opening_of base script.now.primaries (length (begin_names script.now.lines.items)) pages.items) }
    ensures opened { IfOk result (λ t. (t.0.opening ≡ opening_of base script.now.primaries (length (begin_names script.now.lines.items)) pages.items)
        × (t.1 ≡ first_node t.0)) }
    ensures reached { IfOk result (λ t. Reached t.1) }
{
    let begins = count_begins(script.lines.as_slice());
    Shared::open(alloc, base, script.primaries, begins, pages)
}
