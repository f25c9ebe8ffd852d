//! What holds of every log's text.

ghost use Rattle.std.specs.Prelude.{◌≡◌, ℕ, ◌<◌, List, [], ◌∷◌, Some, None, slice_index};
ghost use Rattle.mp_cells.specs.declared.records.Mtr.{Mtr};
ghost use Rattle.mp_log.specs.Logs.{IsText, IsLog, mtrs_of, with_batch};
ghost use Rattle.mp_log.specs.Reading.{log_fault};
ghost use Rattle.mp_log.specs.Readers.{Remains, fresh_reader, log_mtrs};
ghost use Rattle.mp_log.specs.Tails.{TailView, IsTail, LogStands};

use mp_outside::Disk;

/// A file is the text of at most one list of batches.
pub fn law_log_text()
    ensures { (node other : ℕ) (a b : List (List Mtr)) (file : List ℕ) → IsLog node a → IsLog other b → IsText a file → IsText b file → a ≡ b }
{}

/// A new reader has all of a file left to give: the mtrs of the whole batches before the first fault, and its place. Of a
/// log's text these are the mtrs of its batches, and no fault.
pub fn law_log_mtrs()
    ensures fresh { (node : ℕ) (file : List ℕ) → Remains (fresh_reader node) file (log_mtrs node file).0 (log_mtrs node file).1 }
    ensures text { (node : ℕ) (batches : List (List Mtr)) (file : List ℕ) → IsLog node batches → IsText batches file → log_mtrs node file ≡ (mtrs_of batches, None) }
{}

/// What a reader says of a file is what opening it says: the same first fault. A file of bytes in which a reader finds
/// none is the text of batches, whose mtrs it gives.
pub fn law_log_read()
    ensures same { (node : ℕ) (file : List ℕ) → (log_mtrs node file).1 ≡ log_fault node file }
    ensures text { (node : ℕ) (file : List ℕ) → ((place : ℕ) → slice_index file place < 256) → (log_mtrs node file).1 ≡ None
        → (batches : List (List Mtr)) × IsLog node batches × IsText batches file × ((log_mtrs node file).0 ≡ mtrs_of batches) }
{}

/// The batches of an open log, with what is appended as one more, are a log of its primary: so is what a force leaves.
pub fn law_kept_log<D: Disk>()
    ensures { (batches : List (List Mtr)) (pending : List Mtr) (tail : TailView) (disk : D)
        → LogStands batches pending tail (D.seen disk) (D.image disk) → IsTail tail → IsLog tail.node (with_batch batches pending) }
{}

/// A fresh log is the text of no batches; an open gate alone is the text of none, and off the grammar behind it.
pub fn law_log_examples()
    ensures fresh { IsText [] (0 ∷ []) }
    ensures open_gate { (batches : List (List Mtr)) → IsText batches (165 ∷ []) → ⊥ }
    ensures fault { log_fault 1 (165 ∷ []) ≡ Some 1 }
    ensures none { log_fault 1 (0 ∷ []) ≡ None }
{}
