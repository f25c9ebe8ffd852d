//! What holds of every mtr's bytes.

ghost use Rattle.std.specs.Prelude.{◌≡◌, ℕ, ◌<◌, ◌≤◌, List, [], ◌++◌, length, take, slice_index, None, Some, ◌∷◌};
ghost use Rattle.mp_cells.specs.declared.records.Mtr.{Mtr};
ghost use Rattle.mp_cells.specs.Mtrs.{IsMtr};
ghost use Rattle.mp_redo.specs.Spelling.{mtr_bytes, Spells};
ghost use Rattle.mp_redo.specs.Reading.{mtr_fault};
ghost use Rattle.mp_redo.specs.Example.{small_mtr, small_head, small_record};

/// No mtr's spelling begins another's, and equal spellings are of equal mtrs. Bytes have no fault exactly where they begin
/// with an mtr's spelling.
pub fn law_mtr_spelling()
    ensures same { (a b : Mtr) (rest : List ℕ) → IsMtr a → IsMtr b → mtr_bytes a ++ rest ≡ mtr_bytes b → a ≡ b }
    ensures whole { (a b : Mtr) (rest : List ℕ) → IsMtr a → IsMtr b → mtr_bytes a ++ rest ≡ mtr_bytes b → rest ≡ [] }
    ensures faultless { (mtr : Mtr) (rest : List ℕ) → IsMtr mtr → mtr_fault (mtr_bytes mtr ++ rest) ≡ None }
    ensures spelled { (bytes : List ℕ) → ((i : ℕ) → slice_index bytes i < 256) → mtr_fault bytes ≡ None → (mtr : Mtr) × (n : ℕ) × (n ≤ length bytes) × Spells mtr (take n bytes) }
{}

/// An mtr that a log may hold has at most 20,410 bytes.
pub fn law_mtr_size()
    ensures { (mtr : Mtr) → IsMtr mtr → length (mtr_bytes mtr) ≤ 20410 }
{}

/// The definitions, tried on one small mtr of 27 bytes: it may stand in a log, its bytes are these, and they have no fault.
/// Without the last byte the timestamp is cut off. Two such records in one mtr are a fault at the first.
pub fn law_small_mtr()
    ensures sound { IsMtr small_mtr }
    ensures spelled { mtr_bytes small_mtr ≡ small_head ++ small_record }
    ensures whole { mtr_fault (small_head ++ small_record) ≡ None }
    ensures cut { mtr_fault (take 26 (small_head ++ small_record)) ≡ Some 19 }
    ensures beside { mtr_fault (1 ∷ 2 ∷ 2 ∷ 0 ∷ 0 ∷ 0 ∷ 0 ∷ 0 ∷ 0 ∷ 0 ∷ small_record ++ small_record) ≡ Some 10 }
{}
