//! Gathering the parts of primaries whose threads have ended.
ghost use Rattle.std.specs.Prelude.{◌≡◌};
ghost use Rattle.std.specs.List.{list_any, AllByRecursion};
ghost use Rattle.mp_shared.specs.Nodes.{Reached, joined_nodes};
ghost use Rattle.mp_threads.specs.Dealing.{joined_runners, MayJoin};

use crate::runner::Runner;
use mp_shared::{Node, Shared};

/// Takes the parts of runners, in their order, into a node: whether one of them was short of memory.
pub(crate) fn gather(shared: &Shared, node: &mut Node, runners: Vec<Runner>) -> bool
    requires node { MayJoin shared.now node.old }
    requires runners { AllByRecursion (λ r. MayJoin shared.now r.node) runners.items }
    requires reached { Reached node.old }
    ensures node { node.new ≡ joined_runners node.old runners.items }
    ensures reached { Reached node.new }
    ensures short { result ≡ list_any (λ r. r.short) runners.items }
{
    let mut short = false;
    let mut runners = runners;
    for _gathered in 0..runners.len() {
        short |= gather_one(shared, node, runners.remove(0));
    }
    short
}

// Takes the parts of a runner into a node: whether it was short of memory.
fn gather_one(shared: &Shared, node: &mut Node, runner: Runner) -> bool
    requires node { MayJoin shared.now node.old }
    requires runner { MayJoin shared.now runner.node }
    ensures node { node.new ≡ joined_nodes node.old runner.node }
    ensures reached { Reached node.new }
    ensures short { result ≡ runner.short }
{
    let Runner {
        node: own,
        short,
        ..
    } = runner;
    shared.join(node, own);
    short
}
