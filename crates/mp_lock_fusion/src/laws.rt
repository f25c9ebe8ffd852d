//! What the words of contracts say, tried on small words and nodes, as the contract of a function that does nothing.
ghost use Rattle.std.specs.Prelude.{◌≡◌, ℕ, []};
ghost use Rattle.mp_core_pages.specs.declared.page_lock.Held.TheVariants.{No, Read, Write};
ghost use Rattle.mp_core.specs.declared.part.CorePart.{CorePart};
ghost use Rattle.mp_shared.specs.Nodes.{Run};
ghost use Rattle.mp_shared.specs.SmallNodes.{node_of_first, holding_zero};
ghost use Rattle.mp_lock_fusion.specs.LockCalls.{LockWordWas, AnotherWrites, AnotherHolds, CameToRead, CameToWrite};

/// The word 512 says that node 2 writes, 3 that nodes 1 and 2 read, and 1 that node 1 alone reads. Before any step each
/// lock word is 0. A node that holds a lock comes to read without a step, one that only reads does not come to write so,
/// and one that does not hold it does not come to read so.
pub fn law_lock_calls_examples()
    ensures writer { AnotherWrites 1 512 }
    ensures own_writer { ¬ AnotherWrites 2 512 }
    ensures no_writer { ¬ AnotherWrites 1 3 }
    ensures reader { AnotherHolds 1 3 }
    ensures own_reader { ¬ AnotherHolds 1 1 }
    ensures first_word { (run : Run) (k : ℕ) → LockWordWas record { run = run; parts = []; frames = [] } k 0 }
    ensures reads_still { (run : Run) (q : CorePart) → CameToRead 1 0 (node_of_first run (holding_zero Read q)) (node_of_first run (holding_zero Read q)) }
    ensures writes_still { (run : Run) (q : CorePart) → CameToWrite 1 0 (node_of_first run (holding_zero Write q)) (node_of_first run (holding_zero Write q)) }
    ensures not_yet_writes { (run : Run) (q : CorePart) → ¬ CameToWrite 1 0 (node_of_first run (holding_zero Read q)) (node_of_first run (holding_zero Read q)) }
    ensures not_yet_reads { (run : Run) (q : CorePart) → ¬ CameToRead 1 0 (node_of_first run (holding_zero No q)) (node_of_first run (holding_zero No q)) }
{}
